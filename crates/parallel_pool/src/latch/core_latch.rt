//! The core latch: one word, of which each call is one atomic step.
ghost use Rattle.std.specs.Prelude.{◌≡◌};
ghost use Rattle.std.specs.NonZero.{non_zero_usize_get};
ghost use Rattle.parallel_fault.specs.Trouble.{IsMemoryOnErr};

use crate::latch::history::View;
use crate::latch::latch_seat::{
    Enters, FallsAsleep, GetsSleepy, Hearing, LatchSeat, Learning, OneHistory, Probes, Seating,
    Sets, Telling, WakesUp,
};
use atomic_table::{Seat, Table};
use parallel_fault::Fault;
use std::alloc::Global;
use std::num::NonZeroUsize;

/// The worker is awake, and the latch isn't set.
const UNSET: u64 = 0;
/// The worker is about to sleep.
const SLEEPY: u64 = 1;
/// The worker is asleep.
const SLEEPING: u64 = 2;
/// The latch is set, for good.
const SET: u64 = 3;

/// A latch that is set once, with the worker that waits for it: awake, about to sleep, or asleep.
///
/// Each call is one atomic step of one word, by a seat of this latch. It takes no memory, and never
/// waits. What a call says, it says of the history of all calls: that begins with what the seat had
/// seen, and ends with the call.
#[derive(Drop)]
pub struct CoreLatch {
    pub(crate) table: Table<(), View, (), OneHistory, Global>,
    ghost one_word: { table.shared.table_id.words ≡ 1 },
}

impl CoreLatch {
    ghost use Rattle.std.specs.Prelude.{◌≡◌, ◌↔◌, All, IfOk, IsTrue, false, vec_len, ⊤};
    ghost use Rattle.parallel_pool.specs.LatchMoves.{is_unset, is_sleepy, is_sleeping, is_latched};
    ghost use Rattle.parallel_pool.specs.LatchHistory.{newcomer, Called, HasSeenSet, Learns};
    ghost use Rattle.parallel_pool.specs.Latch.{IsLatchSeatOf, known};
    ghost use Rattle.parallel_pool.specs.declared.latch.history.Act.TheVariants.{GetSleepy, FallAsleep, WakeUp, Set, Probe};

    /// A latch that isn't set, and its seats, of which each has seen nothing yet.
    ///
    /// # Errors
    ///
    /// `Fault::Memory` if an allocation fails.
    pub fn new(alloc: Global, seats: NonZeroUsize) -> Result<(CoreLatch, Vec<LatchSeat>), Fault>
        ensures count { IfOk result (λ made. vec_len made.1 ≡ non_zero_usize_get seats) }
        ensures seats { IfOk result (λ made. All (IsLatchSeatOf made.0) made.1.items) }
        ensures fresh { IfOk result (λ made. All (λ seat. known seat ≡ newcomer) made.1.items) }
        ensures fault { IsMemoryOnErr result }
    {
        let (latch, mut founder) = CoreLatch::of_word(alloc)?;
        let mut all = Vec::new(alloc);
        for _ in 0..seats.get() {
            let seat = latch.seat(&mut founder);
            all.push(seat)?;
        }
        Ok((latch, all))
    }

    // The latch, and its first seat.
    fn of_word(alloc: Global) -> Result<(CoreLatch, LatchSeat), Fault>
        ensures made { IfOk result
            (λ made. IsLatchSeatOf made.0 made.1 × (known made.1 ≡ newcomer)) }
        ensures fault { IsMemoryOnErr result }
    {
        let (table, seat) = Table::of_words(alloc, &[UNSET], &())?;
        Ok((CoreLatch { table }, LatchSeat { seat }))
    }

    // A further seat.
    fn seat(&self, founder: &mut LatchSeat) -> LatchSeat
        requires { IsLatchSeatOf self.now founder.old }
        ensures founder { IsLatchSeatOf self.now founder.new }
        ensures seat { IsLatchSeatOf self.now result }
        ensures fresh { known result ≡ newcomer }
    {
        LatchSeat {
            seat: self.table.shared.split_seat::<Seating>(&mut founder.seat),
        }
    }

    /// A further seat, which has seen no call. It is no call of the latch, and takes no memory.
    pub fn newcomer(&self) -> LatchSeat
        ensures seat { IsLatchSeatOf self.now result }
        ensures fresh { known result ≡ newcomer }
    {
        let (_, seat) = self.table.shared.load_new_seat::<Enters>(0);
        LatchSeat { seat }
    }

    /// Makes an unset latch sleepy, and says whether it did.
    pub fn get_sleepy(&self, seat: &mut LatchSeat) -> bool
        requires { IsLatchSeatOf self.now seat.old }
        ensures call { Called GetSleepy (λ phase. result ≡ is_unset phase) (known seat.old)
            (known seat.new) }
        ensures stays { HasSeenSet (known seat.old) → HasSeenSet (known seat.new) }
        ensures seat { IsLatchSeatOf self.now seat.new }
    {
        let found = self
            .table
            .shared
            .compare_exchange::<GetsSleepy>(&mut seat.seat, 0, UNSET, SLEEPY);
        found == UNSET
    }

    /// Lets a sleepy latch's worker fall asleep, and says whether it did.
    pub fn fall_asleep(&self, seat: &mut LatchSeat) -> bool
        requires { IsLatchSeatOf self.now seat.old }
        ensures call { Called FallAsleep (λ phase. result ≡ is_sleepy phase) (known seat.old)
            (known seat.new) }
        ensures stays { HasSeenSet (known seat.old) → HasSeenSet (known seat.new) }
        ensures seat { IsLatchSeatOf self.now seat.new }
    {
        let found = self
            .table
            .shared
            .compare_exchange::<FallsAsleep>(&mut seat.seat, 0, SLEEPY, SLEEPING);
        found == SLEEPY
    }

    /// Makes a latch whose worker is asleep unset again. Any other latch stays as it is.
    pub fn wake_up(&self, seat: &mut LatchSeat)
        requires { IsLatchSeatOf self.now seat.old }
        ensures call { Called WakeUp (λ _. ⊤) (known seat.old) (known seat.new) }
        ensures stays { HasSeenSet (known seat.old) → HasSeenSet (known seat.new) }
        ensures seat { IsLatchSeatOf self.now seat.new }
    {
        self.table
            .shared
            .compare_exchange::<WakesUp>(&mut seat.seat, 0, SLEEPING, UNSET);
    }

    /// Sets the latch, for good, and says whether its worker was asleep.
    pub fn set(&self, seat: &mut LatchSeat) -> bool
        requires { IsLatchSeatOf self.now seat.old }
        ensures call { Called Set (λ phase. result ≡ is_sleeping phase) (known seat.old)
            (known seat.new) }
        ensures sees { HasSeenSet (known seat.new) }
        ensures again { HasSeenSet (known seat.old) → result ≡ false }
        ensures seat { IsLatchSeatOf self.now seat.new }
    {
        self.table.shared.swap::<Sets>(&mut seat.seat, 0, SET) == SLEEPING
    }

    /// Says whether the latch is set.
    pub fn probe(&self, seat: &mut LatchSeat) -> bool
        requires { IsLatchSeatOf self.now seat.old }
        ensures call { Called Probe (λ phase. result ≡ is_latched phase) (known seat.old)
            (known seat.new) }
        ensures sees { IsTrue result ↔ HasSeenSet (known seat.new) }
        ensures stays { HasSeenSet (known seat.old) → IsTrue result }
        ensures seat { IsLatchSeatOf self.now seat.new }
    {
        self.table.shared.load::<Probes>(&mut seat.seat, 0) == SET
    }

    /// Lets a seat learn what another has seen. There is one history: of two seats of one latch,
    /// what the one has seen begins what the other has. It is no call of the latch.
    pub fn learn(&self, seat: &mut LatchSeat, other: &mut LatchSeat)
        requires seat { IsLatchSeatOf self.now seat.old }
        requires other { IsLatchSeatOf self.now other.old }
        ensures learns { Learns (known seat.old) (known other.old) (known seat.new) }
        ensures stays { HasSeenSet (known seat.old) → HasSeenSet (known seat.new) }
        ensures told { HasSeenSet (known other.old) → HasSeenSet (known seat.new) }
        ensures same { known other.new ≡ known other.old }
        ensures seat { IsLatchSeatOf self.now seat.new }
        ensures other { IsLatchSeatOf self.now other.new }
    {
        let teller = self.table.shared.split_seat::<Telling>(&mut other.seat);
        self.table
            .shared
            .join_seat::<Hearing>(&mut seat.seat, teller);
        self.table.shared.load::<Learning>(&mut seat.seat, 0);
    }
}
