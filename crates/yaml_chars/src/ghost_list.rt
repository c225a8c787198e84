ghost use Rattle.std.specs.Prelude.{◌≡◌, List, [], ◌∷◌, ◌++◌, chars};
ghost use Rattle.std.specs.Borrow.{ftrue};

use std::marker::{Model, PhantomData};

/// The items that came so far, for clauses alone: it takes no bytes.
pub struct GhostList<X> {
    marker: PhantomData<X>,
    pub ghost items: { List X },
}

impl<X> Model for GhostList<X> {
    ghost also_owns = { λ _. ftrue };
}

impl<X> Drop for GhostList<X> {
    fn drop(self) {
        let Self { marker: _ } = self;
    }
}

impl<X> GhostList<X> {
    /// No item came yet.
    pub fn new() -> GhostList<X>
        ensures { result.items ≡ [] }
    {
        GhostList {
            marker: PhantomData,
        }
    }

    // What came before, and one more.
    fn with(before: &GhostList<X>, item: &X) -> GhostList<X>
        ensures { result.items ≡ before.now.items ++ item.now ∷ [] }
    {
        let _ = before;
        let _ = item;
        GhostList {
            marker: PhantomData,
        }
    }

    /// One more item came.
    pub fn push(&mut self, item: &X)
        ensures { self.new.items ≡ self.old.items ++ item.now ∷ [] }
    {
        let next = GhostList::with(self, item);
        *self = next;
    }
}

impl GhostList<char> {
    // What came before, and the characters of a text.
    fn with_text(before: &GhostList<char>, text: &&str) -> GhostList<char>
        ensures { result.items ≡ before.now.items ++ chars text.now.now }
    {
        let _ = before;
        let _ = text;
        GhostList {
            marker: PhantomData,
        }
    }

    /// The characters of a text came.
    #[inline(always)]
    pub(crate) fn push_text(&mut self, text: &str)
        ensures { self.new.items ≡ self.old.items ++ chars text.now }
    {
        let next = GhostList::with_text(self, &text);
        *self = next;
    }
}
