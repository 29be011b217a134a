//! A gate by which the segments of a list tell one another of their errors: one word, which is the
//! greatest number until a start is told, and then the least start that was.
ghost use Rattle.std.specs.Prelude.{◌≡◌, ◌<◌};
ghost use Rattle.std.specs.NonZero.{non_zero_usize_get};

use crate::gate::seat::{GateView, Gathering, Halving, LeastTold, Looks, Seating, Tells};
use atomic_table::Table;
use parallel_fault::Fault;
use std::alloc::Global;
use std::num::NonZeroUsize;

pub mod seat;
pub mod watch;

pub use seat::GateSeat;
pub use watch::GateWatch;

/// The word of a gate to which nothing was told.
const OPEN: u64 = 0xffff_ffff_ffff_ffff;

/// A gate of a number of seats. A start that is told stops whoever has a greater one.
///
/// Whatever the order of the steps of all seats, the word is the greatest number or the least start
/// that some seat told. Contracts name the number of seats by `seats_of`.
#[derive(Drop)]
pub struct Gate {
    pub(crate) table: Table<(), GateView, u64, LeastTold, Global>,
    ghost one_word: { table.shared.table_id.words ≡ 1 },
    ghost no_slots: { table.shared.table_id.slots ≡ 0 },
    ghost some: { 0 < table.shared.key },
}

impl Gate {
    ghost use Rattle.std.specs.Prelude.{◌≡◌, ◌≤◌, ◌<◌, ◌-◌, ◌⊎◌, ℕ, ◌↔◌, All, Contains, IfErr, IfOk, IsTrue, [], vec_len};
    ghost use Rattle.parallel_bridge.specs.GateRule.{back_half, front_half, gathered, greatest, looking, newcomer, one_less, telling};
    ghost use Rattle.parallel_bridge.specs.Gates.{AreAllOf, IsAtMost, IsGateSeatOf, ToldByOne, known, seats_of, stands_for};

    /// A gate of `seats` seats, and the seats, of which each has told nothing and seen nothing.
    ///
    /// # Errors
    ///
    /// `Fault::Memory` if an allocation fails.
    pub fn new(alloc: Global, seats: NonZeroUsize) -> Result<(Gate, Vec<GateSeat>), Fault>
        ensures seats { IfOk result (λ made. seats_of made.0 ≡ non_zero_usize_get seats) }
        ensures count { IfOk result (λ made. vec_len made.1 ≡ non_zero_usize_get seats) }
        ensures belong { IfOk result (λ made. All (IsGateSeatOf made.0) made.1.items) }
        ensures fresh { IfOk result (λ made. All (λ seat. known seat ≡ newcomer 1) made.1.items) }
        ensures fault { IfErr result (λ refusal. refusal ≡ Fault.Memory) }
    {
        let (gate, mut founder) = Gate::open(alloc, seats)?;
        let mut all = Vec::new(alloc);
        for _ in 0..seats.get() {
            let seat = gate.seat(&mut founder);
            all.push(seat)?;
        }
        Ok((gate, all))
    }

    /// The same with one seat that stands for all. `split` cuts it in two. It takes one word,
    /// however many the seats are.
    ///
    /// # Errors
    ///
    /// `Fault::Memory` if an allocation fails.
    pub fn open(alloc: Global, seats: NonZeroUsize) -> Result<(Gate, GateSeat), Fault>
        ensures seats { IfOk result (λ made. seats_of made.0 ≡ non_zero_usize_get seats) }
        ensures belongs { IfOk result (λ made. IsGateSeatOf made.0 made.1) }
        ensures fresh { IfOk result (λ made. known made.1 ≡ newcomer (non_zero_usize_get seats)) }
        ensures fault { IfErr result (λ refusal. refusal ≡ Fault.Memory) }
    {
        let count = seats.get() as u64;
        let (table, seat) = Table::of_words(alloc, &[OPEN], &count)?;
        Ok((Gate { table }, GateSeat { seat }))
    }

    // A seat, cut off those that the first one stands for.
    fn seat(&self, founder: &mut GateSeat) -> GateSeat
        requires belongs { IsGateSeatOf self.now founder.old }
        requires left { 0 < stands_for founder.old }
        requires silent { (known founder.old).told ≡ [] }
        ensures founder { IsGateSeatOf self.now founder.new }
        ensures less { known founder.new ≡ one_less (known founder.old) }
        ensures belongs { IsGateSeatOf self.now result }
        ensures fresh { known result ≡ newcomer 1 }
    {
        GateSeat {
            seat: self.table.shared.split_seat::<Seating>(&mut founder.seat),
        }
    }

    /// A seat that has told nothing and seen nothing, for half of the seats that this one stands
    /// for, rounded up. It takes no memory.
    pub fn split(&self, seat: &mut GateSeat) -> GateSeat
        requires belongs { IsGateSeatOf self.now seat.old }
        requires two { 2 ≤ stands_for seat.old }
        ensures front { known seat.new ≡ front_half (known seat.old) }
        ensures back { known result ≡ back_half (known seat.old) }
        ensures seat { IsGateSeatOf self.now seat.new }
        ensures belongs { IsGateSeatOf self.now result }
    {
        GateSeat {
            seat: self.table.shared.split_seat::<Halving>(&mut seat.seat),
        }
    }

    /// Lets a seat take in another: it stands for both, and has told and seen what both have. It
    /// takes no memory.
    pub fn join(&self, seat: &mut GateSeat, other: GateSeat)
        requires seat { IsGateSeatOf self.now seat.old }
        requires other { IsGateSeatOf self.now other }
        ensures gathered { known seat.new ≡ gathered (known seat.old) (known other) }
        ensures belongs { IsGateSeatOf self.now seat.new }
    {
        self.table
            .shared
            .join_seat::<Gathering>(&mut seat.seat, other.seat);
    }

    /// Tells a start: the word becomes the start, unless it is less already. It is one atomic step,
    /// takes no memory and never waits.
    pub fn tell(&self, seat: &mut GateSeat, start: usize)
        requires belongs { IsGateSeatOf self.now seat.old }
        requires stands { 0 < stands_for seat.old }
        ensures told { (word : ℕ) × (known seat.new ≡ telling (known seat.old) word start) }
        ensures belongs { IsGateSeatOf self.now seat.new }
    {
        self.table
            .shared
            .fetch_min::<Tells>(&mut seat.seat, 0, start as u64);
    }

    /// Whether the word is less than the start: whether whoever has this start is to stop. It is
    /// one load, takes no memory and never waits.
    pub fn stopped(&self, seat: &mut GateSeat, start: usize) -> bool
        requires belongs { IsGateSeatOf self.now seat.old }
        ensures looks { (word : ℕ) × (known seat.new ≡ looking (known seat.old) word)
            × (IsTrue result ↔ (word < start)) }
        ensures belongs { IsGateSeatOf self.now seat.new }
    {
        self.table.shared.load::<Looks>(&mut seat.seat, 0) < start as u64
    }

    /// Ends the gate with all of its seats, and returns the word: the greatest number, or a start
    /// that one of the seats told. It is at most each start that was told and each word that a seat
    /// saw. No memory is taken, and nothing is waited for.
    pub fn close(self, seats: Vec<GateSeat>) -> usize
        requires { AreAllOf self seats.items }
        ensures told { (result ≡ greatest) ⊎ ToldByOne seats.items result }
        ensures at_most { All (λ seat. IsAtMost result (known seat)) seats.items }
    {
        let all = self.gather(seats);
        self.close_joined(all)
    }

    /// The same with one seat, with which the others were put together.
    ///
    /// Whoever saw a word less than its own start, and so was stopped, has a start that is greater
    /// than the result, and the result is a start that was told.
    pub fn close_joined(self, seat: GateSeat) -> usize
        requires belongs { IsGateSeatOf self seat }
        requires all { stands_for seat ≡ seats_of self }
        ensures told { (result ≡ greatest) ⊎ Contains (known seat).told result }
        ensures at_most { IsAtMost result (known seat) }
        ensures stopped { (start : ℕ) → start ≤ greatest → (known seat).least < start
            → (result < start) × Contains (known seat).told result }
    {
        let Gate { table } = self;
        let closed = table.close_with(seat.seat);
        let word = closed.word(0);
        closed.free();
        word as usize
    }

    // One seat with all that the seats have.
    fn gather(&self, mut seats: Vec<GateSeat>) -> GateSeat
        requires { AreAllOf self.now seats.items }
        ensures belongs { IsGateSeatOf self.now result }
        ensures all { stands_for result ≡ seats_of self.now }
        ensures told { (start : ℕ) → Contains (known result).told start
            → ToldByOne seats.items start }
        ensures at_most { (word : ℕ) → IsAtMost word (known result)
            → All (λ seat. IsAtMost word (known seat)) seats.items }
    {
        let Some(mut all) = seats.pop() else {
            unreachable!()
        };
        while let Some(seat) = seats.pop() {
            self.join(&mut all, seat);
        }
        all
    }
}
