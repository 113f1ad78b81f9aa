//! Lists that hold a few items at most.

ghost use Rattle.std.specs.Prelude.{◌≡◌, ◌<◌, [], ◌∷◌, ◌++◌, List, length};
ghost use Rattle.std.specs.Cmp.Lexicographic.{lists_equiv, lists_per, pointwise};

use arrayvec::ArrayVec;
use std::marker::Model;

/// At most `MAX` items, in order. A contract sees them as their list.
#[derive(Drop)]
pub struct UpTo<T, const MAX: usize> {
    items: ArrayVec<T, MAX>,
}

impl<T, const MAX: usize> Model for UpTo<T, MAX> {
    ghost use Rattle.std.specs.Prelude.{List};

    ghost Value = { List T };

    ghost view = { λ u. u.items.items };
}

impl<T: Default + Drop, const MAX: usize> UpTo<T, MAX> {
    /// None yet.
    pub fn new() -> UpTo<T, MAX>
        ensures { result ≡ [] }
    {
        UpTo {
            items: ArrayVec::new(),
        }
    }

    /// One more at the end.
    pub fn push(&mut self, item: T)
        requires { length self.old < MAX }
        ensures { self.new ≡ self.old ++ item ∷ [] }
    {
        self.items.push(item);
    }

    /// All of them.
    pub fn as_slice(&self) -> &[T]
        ensures { result.now ≡ self.now }
    {
        self.items.as_slice()
    }
}

impl<T: Copy + Default + Drop, const MAX: usize> UpTo<T, MAX> {
    /// The same items once more. This takes no memory.
    pub fn copied(&self) -> UpTo<T, MAX>
        ensures { result ≡ self.now }
    {
        let mut copy = UpTo::new();
        let items = self.items.as_slice();
        for item in items {
            copy.push(*item);
        }
        copy
    }
}

impl<T: PartialEq, const MAX: usize> PartialEq for UpTo<T, MAX> {
    ghost eq = { pointwise T.eq };

    ghost laws = { lists_per T.laws };

    fn eq(&self, other: &UpTo<T, MAX>) -> bool {
        self.items == other.items
    }
}

impl<T: Eq, const MAX: usize> Eq for UpTo<T, MAX> {
    ghost laws = { lists_equiv T.Eq.laws };
}
