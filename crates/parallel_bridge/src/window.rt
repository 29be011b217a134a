//! One window over reserved memory: items are written where they stay.
pub mod block;
pub mod cells;
pub mod home;
pub mod part;
pub mod vector;
