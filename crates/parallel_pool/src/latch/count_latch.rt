//! A latch of shares, which is set by the last of them.
ghost use Rattle.std.specs.Prelude.{◌≡◌};
ghost use Rattle.std.specs.NonZero.{non_zero_usize_get};
ghost use Rattle.parallel_fault.specs.Trouble.{IsMemoryOnErr};

use crate::latch::count_share::{
    CountShare, CountsDown, EachOnce, Hearing, Learning, SeesCount, ShareView, Sharing, Telling,
};
use atomic_table::Table;
use parallel_fault::Fault;
use std::alloc::Global;
use std::num::NonZeroUsize;
use std::sync::Wait;
use std::thread;

/// The low half of a word, on which a thread sleeps.
const LOW: u64 = 0xffff_ffff;

/// A latch of a number of shares. Each share is given once, and the give of the last one sets it.
///
/// One word counts the shares that are left. What a give says, it says of the history of all gives:
/// that begins with what the share had seen, and ends with the share. Contracts name the number of
/// shares by `share_count`.
#[derive(Drop)]
pub struct CountLatch {
    pub(crate) table: Table<(), ShareView, u64, EachOnce, Global>,
    ghost one_word: { table.shared.table_id.words ≡ 1 },
}

impl CountLatch {
    ghost use Rattle.std.specs.Prelude.{◌≡◌, ◌≤◌, ◌-◌, ◌<◌, ℕ, ◌↔◌, All, IfOk, IsTrue, [], length, vec_len};
    ghost use Rattle.parallel_pool.specs.CountHistory.{Given, times_given};
    ghost use Rattle.parallel_pool.specs.Histories.{Longer};
    ghost use Rattle.parallel_pool.specs.CountLatch.{IsShareOf, share_count, knows, unspent, gives_seen};

    /// A latch of `count` shares, and the shares, of which each has seen no give yet.
    ///
    /// # Errors
    ///
    /// `Fault::Memory` if an allocation fails.
    pub fn with_count(
        alloc: Global,
        count: NonZeroUsize,
    ) -> Result<(CountLatch, Vec<CountShare>), Fault>
        ensures shares { IfOk result (λ made. share_count made.0 ≡ non_zero_usize_get count) }
        ensures count { IfOk result (λ made. vec_len made.1 ≡ non_zero_usize_get count) }
        ensures belong { IfOk result (λ made. All (IsShareOf made.0) made.1.items) }
        ensures unspent { IfOk result (λ made. All (λ share. unspent share ≡ 1) made.1.items) }
        ensures fresh { IfOk result (λ made. All (λ share. gives_seen share ≡ []) made.1.items) }
        ensures fault { IsMemoryOnErr result }
    {
        let (latch, mut founder) = CountLatch::of_word(alloc, count.get())?;
        let mut all = Vec::new(alloc);
        for _ in 0..count.get() {
            let share = latch.share(&mut founder);
            all.push(share)?;
        }
        Ok((latch, all))
    }

    // The latch, and a seat that holds all shares.
    fn of_word(alloc: Global, count: usize) -> Result<(CountLatch, CountShare), Fault>
        ensures made { IfOk result (λ made. IsShareOf made.0 made.1 × (share_count made.0 ≡ count)
            × (unspent made.1 ≡ count)) }
        ensures fault { IsMemoryOnErr result }
    {
        let count = count as u64;
        let (table, seat) = Table::of_words(alloc, &[count], &count)?;
        Ok((CountLatch { table }, CountShare { seat }))
    }

    // A share, cut off those that the first seat holds.
    fn share(&self, founder: &mut CountShare) -> CountShare
        requires belongs { IsShareOf self.now founder.old }
        requires left { 0 < unspent founder.old }
        ensures founder { IsShareOf self.now founder.new }
        ensures less { unspent founder.new ≡ unspent founder.old - 1 }
        ensures share { IsShareOf self.now result }
        ensures unspent { unspent result ≡ 1 }
        ensures fresh { gives_seen result ≡ [] }
    {
        CountShare {
            seat: self.table.shared.split_seat::<Sharing>(&mut founder.seat),
        }
    }

    /// Gives a share, and says whether it was the last. The last give wakes all that wait.
    ///
    /// It is one atomic step, takes no memory and never waits. The share stays with the caller,
    /// spent.
    pub fn give(&self, share: &mut CountShare) -> bool
        requires belongs { IsShareOf self.now share.old }
        requires unspent { unspent share.old ≡ 1 }
        ensures given { Given (knows share.old) (knows share.new) }
        ensures last { IsTrue result ↔ (length (gives_seen share.new) ≡ share_count self.now) }
        ensures at_most { length (gives_seen share.new) ≤ share_count self.now }
        ensures spent { unspent share.new ≡ 0 }
        ensures belongs { IsShareOf self.now share.new }
    {
        let left = self
            .table
            .shared
            .fetch_sub::<CountsDown>(&mut share.seat, 0, 1);
        let is_last = left == 1;
        if is_last {
            self.table.shared.wake_all(0);
        }
        is_last
    }

    /// Lets a share learn which gives another has seen. There is one history: of two shares of one
    /// latch, the gives that the one has seen begin those that the other has.
    pub fn learn(&self, share: &mut CountShare, other: &mut CountShare)
        requires share { IsShareOf self.now share.old }
        requires other { IsShareOf self.now other.old }
        ensures learns { Longer (gives_seen share.old) (gives_seen other.old)
            (gives_seen share.new) }
        ensures unspent { unspent share.new ≡ unspent share.old }
        ensures same { knows other.new ≡ knows other.old }
        ensures share { IsShareOf self.now share.new }
        ensures other { IsShareOf self.now other.new }
    {
        let teller = self.table.shared.split_seat::<Telling>(&mut other.seat);
        self.table
            .shared
            .join_seat::<Hearing>(&mut share.seat, teller);
        self.table.shared.load::<Learning>(&mut share.seat, 0);
    }

    /// Waits until all shares were given. The result is a spent share that has seen them all.
    pub fn wait<R: Wait>(&self, rt: &R) -> CountShare
        ensures all { length (gives_seen result) ≡ share_count self.now }
        ensures once { (by : ℕ) → times_given by (gives_seen result) ≤ 1 }
        ensures spent { unspent result ≡ 0 }
        ensures belongs { IsShareOf self.now result }
    {
        for _ in rt.forever() {
            let (left, seat) = self.table.shared.load_new_seat::<SeesCount>(0);
            if left == 0 {
                return CountShare { seat };
            }
            let low = (left & LOW) as u32;
            if low == 0 {
                thread::yield_now();
            } else {
                self.table.shared.park(rt, 0, low);
            }
        }
        unreachable!()
    }
}
