//! What a layer was given so far, for contracts alone.

ghost use Rattle.std.specs.Prelude.{◌≡◌, List, [], ◌∷◌, ◌++◌};
ghost use Rattle.std.specs.Borrow.{ftrue};

use std::marker::{Model, PhantomData};
use std::mem::size_of;

/// What has come so far, as only proofs read it: a clause writes `items`. It takes no memory, and
/// its methods do nothing at run time. A layer that forgets what it was given keeps one, so that
/// its contract can speak of all that it was given.
#[derive(Drop)]
pub struct History<T> {
    of: PhantomData<T>,
    pub ghost items: { List T },
}

// It takes no memory.
const _: () = prove!(size_of::<History<u64>>() == 0);

impl<T> Model for History<T> {
    ghost also_owns = { λ _. ftrue };
}

impl<T> History<T> {
    /// Nothing yet.
    #[inline(always)]
    pub fn new() -> History<T>
        ensures { result.items ≡ [] }
    {
        History { of: PhantomData }
    }

    /// With one item more, where the oldest stands first.
    #[inline(always)]
    pub fn with(&self, item: &T) -> History<T>
        ensures { result.items ≡ self.now.items ++ item.now ∷ [] }
    {
        History { of: PhantomData }
    }

    /// With these items more, where the oldest stands first.
    #[inline(always)]
    pub fn with_all(&self, items: &[T]) -> History<T>
        ensures { result.items ≡ self.now.items ++ items.now }
    {
        History { of: PhantomData }
    }

    /// With one item more, where the newest stands first.
    #[inline(always)]
    pub fn with_newest(&self, item: &T) -> History<T>
        ensures { result.items ≡ item.now ∷ self.now.items }
    {
        History { of: PhantomData }
    }
}
