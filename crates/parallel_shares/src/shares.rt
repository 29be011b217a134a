//! A share of the work is a word that packs the range of the units that are left in it.
ghost use Rattle.std.specs.Prelude.{◌≡◌, ◌≢◌, ℕ, ◌+◌, ◌*◌, ◌/◌, ◌^◌, ◌<◌, ◌≤◌, [], ◌∷◌, length, slice_index, vec_len, vec_capacity, false, None, IfOk, IsFalse};
ghost use Rattle.std.specs.Slots.{slots_items, slots_len, IsFull};
ghost use Rattle.std.specs.Int.NonZero.{non_zero_usize_get};
ghost use Rattle.parallel_shares.specs.Sizes.{Sizes, shares_of, IsSound};
ghost use Rattle.parallel_shares.specs.Sharing.{fresh_view};
ghost use Rattle.parallel_shares.specs.Spaced.{place_of};
ghost use Rattle.parallel_fault.specs.Trouble.{IsMemoryOnErr};

mod claim;
mod lines;
mod rule;
mod run;
mod seat;
mod steal;
mod stretch;

use crate::machine::{Plan, opening_words};
use crate::word::is_empty;
pub use crate::word::{pack, unpack};
use atomic_table::{Closed, Table};
use lines::{place_of, spaced_words};
use parallel_fault::Fault;
pub use rule::View;
use rule::{Deal, Gather, LookOwn, Partition, TakeFront};
pub use run::Part;
pub use seat::{Seat, Tried};
use std::alloc::Global;
use std::num::NonZeroUsize;
pub use stretch::{Stretch, stretches};

/// The cells of a grid, shared out among seats, over words that change in single atomic steps.
///
/// A share takes 128 bytes, so that its word lies on a cache line of its own: 8 MiB for the most
/// shares, 65,535.
#[derive(Drop)]
pub struct Shares {
    table: Table<(), View, Plan, Partition, Global>,
    plan: Plan,
    last: Vec<u64>,
    ghost sound: { IsSound plan },
    ghost key: { table.shared.key ≡ plan },
    ghost words: { table.shared.table_id.words ≡ shares_of plan * 16 },
    ghost no_slots: { table.shared.table_id.slots ≡ 0 },
    ghost room: { (vec_len last ≡ 0) × (shares_of plan ≤ vec_capacity last) },
}

impl Shares {
    ghost use Rattle.parallel_shares.specs.Sizes.{sizes_for};
    ghost use Rattle.parallel_shares.specs.Words.{IsWithin, IsEmptyWord, packed, end_of};
    ghost use Rattle.parallel_shares.specs.Machine.{opening_words};
    ghost use Rattle.parallel_shares.specs.Answers.{claim_stop};
    ghost use Rattle.parallel_shares.specs.Totals.{total};
    ghost use Rattle.parallel_shares.specs.Gathered.{HasAll};
    ghost use Rattle.parallel_shares.specs.Sharing.{undealt, looked_own};
    ghost use Rattle.parallel_shares.specs.Seats.{plan_of, known, has_emptied, own_share, own_word, own_loads};
    ghost use Rattle.parallel_shares.specs.Seats.{IsSeatOf, AreSeatsOf, AreFresh, IsSameSeat, OthersStay, TriesClaim, LoadsOwn};
    ghost use Rattle.parallel_shares.specs.Seats.{MeetsFront, IsPartition, AllDone, AllEmpty, EachCellOnce};

    /// Shares out `rows` rows of `len` cells each, where a tile costs `tile_cost` cells and there
    /// are at most `workers` workers, and returns a seat for each worker, in order.
    ///
    /// Whole rows have one word for all seats. Where rows are cut there is a word a seat, and the
    /// words are a balanced cut of the units. The numbers are those of `Plan::new`.
    ///
    /// # Errors
    ///
    /// `Fault::Memory` if an allocation fails.
    pub fn new(
        alloc: Global,
        rows: usize,
        len: usize,
        tile_cost: NonZeroUsize,
        workers: NonZeroUsize,
        whole: bool,
    ) -> Result<(Shares, Vec<Seat>), Fault>
        requires some_rows { rows ≢ 0 }
        requires some_cells { len ≢ 0 }
        requires cells_fit { rows * len < 2 ^ 64 }
        requires cut_pays { IsFalse whole → 2 * non_zero_usize_get tile_cost ≤ len }
        ensures sizes { IfOk result (λ r. plan_of r.0 ≡ sizes_for rows len
            (non_zero_usize_get tile_cost) (non_zero_usize_get workers) whole) }
        ensures sound { IfOk result (λ r. IsSound (plan_of r.0)) }
        ensures seats { IfOk result (λ r. AreSeatsOf r.0 r.1.items) }
        ensures fresh { IfOk result (λ r. AreFresh r.1.items) }
        ensures fault { IsMemoryOnErr result }
    {
        let plan = Plan::new(rows, len, tile_cost, workers, whole);
        let words = opening_words(alloc, &plan)?;
        let last = Vec::with_capacity(alloc, words.len())?;
        let all = spaced_words(alloc, &words)?;
        let (table, first) = Table::of_words(alloc, &all, &plan)?;
        let shares = Shares::over(table, plan, last);
        let seats = shares.deal(alloc, first)?;
        Ok((shares, seats))
    }

    // The shares over a table that was made for the plan.
    fn over(table: Table<(), View, Plan, Partition, Global>, plan: Plan, last: Vec<u64>) -> Shares
        requires sound { IsSound plan }
        requires key { table.shared.key ≡ plan }
        requires words { table.shared.table_id.words ≡ shares_of plan * 16 }
        requires no_slots { table.shared.table_id.slots ≡ 0 }
        requires room { (vec_len last ≡ 0) × (shares_of plan ≤ vec_capacity last) }
        ensures { (result.table ≡ table) × (result.plan ≡ plan) }
    {
        Shares { table, plan, last }
    }

    // A seat for each worker, in order, out of the first one's view.
    fn deal(
        &self,
        alloc: Global,
        mut first: atomic_table::Seat<(), View>,
    ) -> Result<Vec<Seat>, Fault>
        requires table { first.table_id ≡ self.now.table.shared.table_id }
        requires view { first.me ≡ (undealt (plan_of self.now) 0, []) }
        ensures seats { IfOk result (λ seats. AreSeatsOf self.now seats.items) }
        ensures fresh { IfOk result (λ seats. AreFresh seats.items) }
        ensures fault { IsMemoryOnErr result }
    {
        let workers = self.plan.workers();
        let mut seats = Vec::with_capacity(alloc, workers)?;
        for index in 0..workers - 1 {
            let seat = self.table.shared.split_seat::<Deal>(&mut first);
            seats.push(seated(seat, index))?;
        }
        seats.push(seated(first, workers - 1))?;
        Ok(seats)
    }

    /// The number of workers, and so of seats.
    pub fn workers(&self) -> usize
        ensures { result ≡ (plan_of self.now).workers }
    {
        self.plan.workers()
    }

    /// The number of cells in a unit; the last unit may have fewer.
    pub fn unit(&self) -> usize
        ensures { result ≡ (plan_of self.now).unit }
    {
        self.plan.unit()
    }

    /// The number of cells.
    pub fn cells(&self) -> usize
        ensures { result ≡ (plan_of self.now).cells }
    {
        self.plan.cells()
    }

    /// The number of seats: one for each worker.
    pub fn seats(&self) -> usize
        ensures { result ≡ (plan_of self.now).workers }
    {
        self.plan.workers()
    }

    /// Tries once to claim the front of the share that the seat claims from: one load of its word,
    /// at most one exchange there, and no load of another share's word (`TriesClaim`). `Claimed`
    /// has the cells that the seat's claims gained. No memory is taken, and nothing is waited for.
    #[inline(always)]
    pub fn try_claim(&self, seat: &mut Seat) -> Tried
        requires { IsSeatOf self.now seat.old }
        ensures seat { IsSeatOf self.now seat.new }
        ensures same { IsSameSeat seat.old seat.new }
        ensures one_load { own_loads self.now seat.new ≡ own_loads self.now seat.old + 1 }
        ensures others { OthersStay self.now seat.old seat.new }
        ensures since { (known seat.new).since ≡ [] }
        ensures within { IsWithin (plan_of self.now).units (own_word self.now seat.new) }
        ensures answer { TriesClaim (plan_of self.now)
            (own_word self.now seat.new) seat.old result seat.new }
    {
        let word = self.look_own(seat);
        let Some((cells, left)) = self.plan.claim_from(word) else {
            return Tried::Empty;
        };
        if self.take_front(seat, word, left) == word {
            Tried::Claimed(cells)
        } else {
            Tried::Lost
        }
    }

    /// Ends the shares with all of their seats, and returns the words that are left: each cell is
    /// once in a unit of a word, in transit or in a claim (`IsPartition`).
    ///
    /// Where each seat has seen its own word empty and has nothing in transit, each cell is in just
    /// one claim. No memory is taken, and nothing is waited for.
    pub fn close(self, seats: Vec<Seat>) -> Vec<u64>
        requires { AreSeatsOf self seats.items }
        ensures count { vec_len result ≡ shares_of (plan_of self) }
        ensures partition { IsPartition (plan_of self) result.items seats.items }
        ensures empty { AllDone seats.items → AllEmpty result.items }
        ensures each_once { AllDone seats.items → EachCellOnce (plan_of self) seats.items }
        ensures opening { total (λ s. (known s).changes) seats.items ≡ 0
            → result.items ≡ opening_words (plan_of self) (shares_of (plan_of self)) }
    {
        let count = self.plan.shares();
        let all = self.gather(seats);
        let Shares {
            table,
            plan: _,
            last,
        } = self;
        let closed = table.close_with(all);
        let words = final_words(&closed, count, last);
        closed.free();
        words
    }

    // One seat with all that the seats have.
    fn gather(&self, mut seats: Vec<Seat>) -> atomic_table::Seat<(), View>
        requires { AreSeatsOf self.now seats.items }
        ensures table { result.table_id ≡ self.now.table.shared.table_id }
        ensures view { HasAll result.me.0 seats.items }
    {
        let Some(Seat { seat: mut all, .. }) = seats.pop() else {
            unreachable!()
        };
        while let Some(Seat { seat, .. }) = seats.pop() {
            self.table.shared.join_seat::<Gather>(&mut all, seat);
        }
        all
    }

    // Loads the word of the share that the seat claims from.
    fn look_own(&self, seat: &mut Seat) -> u64
        requires { IsSeatOf self.now seat.old }
        ensures seat { IsSeatOf self.now seat.new }
        ensures same { IsSameSeat seat.old seat.new }
        ensures within { IsWithin (plan_of self.now).units result }
        ensures view { known seat.new ≡ looked_own (known seat.old)
            (own_share self.now seat.old) result }
        ensures emptied { LoadsOwn result seat.old seat.new }
    {
        let place = self.own_place(seat);
        let word = self.table.shared.load::<LookOwn>(&mut seat.seat, place);
        seat.own_empty = seat.own_empty || is_empty(word);
        word
    }

    // Tries to exchange the word that was loaded for what a claim leaves of it, and returns the
    // word that was met.
    fn take_front(&self, seat: &mut Seat, word: u64, next: u64) -> u64
        requires seat { IsSeatOf self.now seat.old }
        requires within { IsWithin (plan_of self.now).units word }
        requires some { ¬ IsEmptyWord word }
        requires front { next ≡ packed (claim_stop (plan_of self.now) word) (end_of word) }
        ensures seat { IsSeatOf self.now seat.new }
        ensures same { IsSameSeat seat.old seat.new }
        ensures emptied { has_emptied seat.new ≡ has_emptied seat.old }
        ensures met { MeetsFront (own_share self.now seat.old) word
            (known seat.old) result (known seat.new) }
    {
        let place = self.own_place(seat);
        self.table
            .shared
            .compare_exchange::<TakeFront>(&mut seat.seat, place, word, next)
    }
}

// The words that are used of a closed table, in a list with room for them.
fn final_words(closed: &Closed<(), Global>, count: usize, mut last: Vec<u64>) -> Vec<u64>
    requires full { IsFull closed.now.words }
    requires few { count ≤ 65535 }
    requires there { slots_len closed.now.words ≡ count * 16 }
    requires room { (vec_len last ≡ 0) × (count ≤ vec_capacity last) }
    ensures count { vec_len result ≡ count }
    ensures length { length result.items ≡ count }
    ensures each { (share : ℕ) → share < count → slice_index result.items share
        ≡ slice_index (slots_items closed.now.words) (place_of share) }
{
    for share in 0..count {
        last.push_reserved(closed.word(place_of(share)));
    }
    last
}

// The seat of this number, before any step.
fn seated(seat: atomic_table::Seat<(), View>, index: usize) -> Seat
    requires { (sizes : Sizes) × (seat.me ≡ (fresh_view sizes (index ∷ []), [])) }
    ensures { (result.seat ≡ seat) × (result.index ≡ index) × (result.own_empty ≡ false)
        × (result.transit ≡ None) }
{
    Seat {
        seat,
        index,
        own_empty: false,
        transit: None,
    }
}
