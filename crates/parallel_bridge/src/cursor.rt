//! What gives the items of a segment one by one, and what is left of the segment after them.
ghost use Rattle.std.specs.Prelude.{◌∷◌, ◌<◌, ℕ, [], IfNone, IfSome, List};
ghost use Rattle.std.specs.Iterator.{Drains, IsFinite, size};
ghost use Rattle.parallel_bridge.specs.Sources.{MayCome};

/// Gives the items of a segment in order, each one once, and then what is left of the segment.
pub trait Cursor<Item: Drop, Rest>: Sized + Drop {
    /// Whether it may be asked.
    ghost ready: { Self → Type 0 };
    /// Whether it may give a list.
    ghost gives: { Self → List Item → Type 0 };
    /// Whether an item may come.
    ghost may: { Self → Item → Type 0 };
    /// At most how many items are left.
    ghost left: { Self → ℕ };
    /// What may be left of the segment.
    ghost leaves: { Self → Rest → Type 0 };

    /// The next item.
    fn next(&mut self) -> Option<Item>
        requires { ready self.old }
        ensures none { IfNone result (gives self.old []) }
        ensures item { IfSome result (λ x. (xs : List Item) → gives self.new xs
            → gives self.old (x ∷ xs)) }
        ensures ready { IfSome result (λ x. ready self.new) }
        ensures may { IfSome result (λ x. may self.old x) }
        ensures others { IfSome result (λ x. (y : Item) → may self.new y → may self.old y) }
        ensures fewer { IfSome result (λ x. left self.new < left self.old) }
        ensures leaves { (rest : Rest) → leaves self.new rest → leaves self.old rest };

    /// Drops the items that didn't come yet.
    fn rest(self) -> Rest
        requires { ready self }
        ensures gives { (xs : List Item) × gives self xs }
        ensures leaves { leaves self result };

    /// What is left where no item is.
    fn end(self) -> Rest
        ensures { leaves self result };
}

/// The items of an iterator. Nothing is left of them.
#[derive(Drop)]
pub struct IterCursor<I> {
    /// The iterator.
    pub iter: I,
}

impl<I: Iterator> Cursor<I::Item, ()> for IterCursor<I>
where
    I::Item: Drop,
{
    ghost ready = { λ s. I.can_next s.iter × IsFinite (I.remaining s.iter) };

    ghost gives = { λ s xs. Drains I.next_gives s.iter xs };

    ghost may = { λ s x. MayCome I.next_gives s.iter x };

    ghost left = { λ s. size (I.remaining s.iter) };

    ghost leaves = { λ s rest. Unit {0} };

    fn next(&mut self) -> Option<I::Item> {
        self.iter.next()
    }

    fn rest(self) {
        pass_over(self.iter)
    }

    fn end(self) {}
}

// Drops the items that are left of an iterator.
fn pass_over<I: Iterator>(iter: I)
where
    I::Item: Drop,
    requires can { I.can_next iter }
    requires ends { IsFinite (I.remaining iter) }
    ensures { (xs : List I.Item) × Drains I.next_gives iter xs }
{
    for _item in iter {}
}
