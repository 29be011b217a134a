//! When parallel pays: a policy that learns it by measuring, and the call sites by which it tells
//! calls apart.
#![tactic(auto)]

pub mod bucket;
pub mod clock;
pub mod execution;
pub mod history;
pub mod key;
pub mod law;
pub mod policy;
pub mod run;
pub mod site;
pub mod spawn;
pub mod table;

pub use bucket::len_bucket;
pub use clock::{Clock, MonotonicClock};
pub use execution::{RunExecution, SpawnExecution};
pub use history::{RunEvent, SpawnEvent, SpawnSample};
pub use key::Key;
pub use law::measuring_law;
pub use policy::{Choices, INLINE_BUDGET, Locked, Policy, Ticket, ask, decide, tell};
pub use run::{Cadence, Estimate, RunEntry};
pub use site::{Place, Site};
pub use spawn::SpawnEntry;
pub use table::Table;
