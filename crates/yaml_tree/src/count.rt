//! A count of comparisons.
ghost use Rattle.std.specs.Prelude.{◌≡◌, ◌+◌, nat_lt};

use std::marker::Model;
use yaml_chars::ghost_list::GhostList;

/// A count of comparisons, which only contracts see. It takes no bytes.
#[derive(Drop)]
pub struct Count {
    counted: GhostList<()>,
}

impl Model for Count {
    ghost use Rattle.std.specs.Prelude.{ℕ, length};

    ghost Value = { ℕ };

    ghost view = { λ c. length c.counted.items };
}

impl Count {
    /// No comparison yet.
    pub fn new() -> Count
        ensures { result ≡ 0 }
    {
        Count {
            counted: GhostList::new(),
        }
    }

    /// Counts one comparison.
    pub fn add(&mut self)
        ensures { self.new ≡ self.old + 1 }
    {
        self.counted.push(&());
    }

    /// Whether a digest is below another; counts one comparison.
    pub(crate) fn is_below(&mut self, digest: u64, other: u64) -> bool
        ensures order { result ≡ nat_lt digest other }
        ensures count { self.new ≡ self.old + 1 }
    {
        self.add();
        digest < other
    }
}
