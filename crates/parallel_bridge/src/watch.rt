//! What watches a part of a list while its items are handed over: it may stop the part, and is told
//! where the part fails.
ghost use Rattle.std.specs.Prelude.{◌≡◌, ◌-◌, ◌/◌, ◌≤◌, ℕ, IsTrue, false};
ghost use Rattle.parallel_bridge.specs.Endings.{EndTogether, Ending, Goes, IsUnderway, IsUnstopped, LooksOnce, failing, refusing, stopping, well};

/// Watches a part of a list. Its laws speak of how parts end, and of no values or errors: a part
/// that is under way is one that may end well now.
///
/// It is no fact of any part that it is stopped. One that ends without a stop is one of which
/// `ends` says so.
pub trait Watch: Sized + Drop {
    /// Whether it may watch a part of that many items.
    ghost may: { Self → ℕ → Type 0 };
    /// The watch before a part's first item, how many items the part has, the watch at its end, and
    /// how it may then have ended.
    ghost ends: { Self → ℕ → Self → Ending → Type 0 };
    /// What may have become of a watch by that many looks.
    ghost looked: { Self → ℕ → Self → Type 0 };
    /// What may have watched the two halves of one part.
    ghost meets: { Self → Self → Type 0 };
    /// What watched the left and the right half, and what that is as one.
    ghost joins: { Self → Self → Self → Type 0 };

    /// The watches of the first `len / 2` items of a part of `len` items, and of the rest.
    fn halve(self, len: usize) -> (Self, Self)
        requires may { may self len }
        requires long { 2 ≤ len }
        ensures front { may result.0 (len / 2) }
        ensures back { may result.1 (len - len / 2) }
        ensures meet { (x y : Ending) (a b : Self) → ends result.0 (len / 2) a x
            → ends result.1 (len - len / 2) b y → meets a b }
        ensures joined { (x y z : Ending) (a b c : Self) → ends result.0 (len / 2) a x
            → ends result.1 (len - len / 2) b y → joins a b c → EndTogether x y z
            → ends self len c z };

    /// Whether the part is to stop: one look.
    fn stopped(&mut self) -> bool
        requires { IsUnderway ends self.old }
        ensures goes { result ≡ false → Goes ends self.old self.new well }
        ensures stops { IsTrue result → Goes ends self.old self.new stopping }
        ensures looks { LooksOnce looked self.old self.new };

    /// Is told that the part has failed.
    fn failed(&mut self)
        requires { IsUnderway ends self.old }
        ensures goes { Goes ends self.old self.new failing };

    /// What watched two halves of one part, as what watched the part.
    fn join(self, right: Self) -> Self
        requires { meets self right }
        ensures { joins self right result };

    /// A part of which no item was handed over yet may end well.
    ghost begins: { (watch : Self) (count : ℕ) → may watch count → ends watch count watch well };

    /// A watch has not looked since itself.
    ghost unlooked: { (watch : Self) → looked watch 0 watch };

    /// A part that may end well may be refused.
    ghost refused: { (first last : Self) (count : ℕ) → ends first count last well
        → ends first count last refusing };
}

/// No watch: no part is stopped, and nobody is told of a failure.
#[derive(Drop)]
pub struct Unwatched;

impl Watch for Unwatched {
    ghost may = { λ _ _. Unit {0} };

    ghost ends = { λ _ _ _ how. IsUnstopped how };

    ghost looked = { λ _ _ _. Unit {0} };

    ghost meets = { λ _ _. Unit {0} };

    ghost joins = { λ _ _ _. Unit {0} };

    ghost begins = { λ _ _ _. tt };

    ghost unlooked = { λ _. tt };

    ghost refused = { λ _ _ _ _. tt };

    fn halve(self, _len: usize) -> (Unwatched, Unwatched) {
        (self, Unwatched)
    }

    fn stopped(&mut self) -> bool {
        false
    }

    fn failed(&mut self) {}

    fn join(self, _right: Unwatched) -> Unwatched {
        self
    }
}
