//! The arrays and objects that are open around a place of a text.
ghost use Rattle.std.specs.Prelude.{◌≤◌};

use crate::reader::LEVELS;

/// Which collections are open, the outermost first. It takes no memory from an allocator.
#[derive(Drop)]
pub(crate) struct Levels {
    are_objects: [bool; LEVELS],
    count: usize,
    ghost within: { count ≤ 255 },
}

impl Levels {
    /// None is open.
    pub(crate) fn new() -> Levels {
        Levels {
            are_objects: [false; LEVELS],
            count: 0,
        }
    }

    pub(crate) fn is_empty(&self) -> bool {
        self.count == 0
    }

    /// Opens an object or an array in the innermost. The result tells whether there may be so many levels.
    #[inline(always)]
    pub(crate) fn open(&mut self, is_object: bool) -> bool {
        if self.count >= LEVELS {
            return false;
        }
        self.are_objects[self.count] = is_object;
        self.count += 1;
        true
    }

    /// Closes the innermost.
    #[inline(always)]
    pub(crate) fn close(&mut self) {
        self.count = self.count.saturating_sub(1);
    }

    /// Whether the innermost is an object.
    #[inline(always)]
    pub(crate) fn is_in_object(&self) -> bool {
        self.count > 0 && self.are_objects[self.count - 1]
    }
}
