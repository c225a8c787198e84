//! When a look ahead pays.

// After so many looks in vain, one after the other, the next ones are left out.
const IN_VAIN: u8 = 3;

// How many are left out then, before one is made again.
const LEFT_OUT: u8 = 7;

/// How looks ahead went so far. A text in which they are mostly in vain, such as one of single words before CR LF, pays for few
/// of them.
#[derive(Clone, Copy, Drop)]
pub(crate) struct Looks {
    in_vain: u8,
    left_out: u8,
}

impl Looks {
    pub(crate) fn new() -> Looks {
        Looks {
            in_vain: 0,
            left_out: 0,
        }
    }

    /// Whether a look is to be made now.
    #[inline(always)]
    pub(crate) fn is_due(&mut self) -> bool {
        if self.left_out == 0 {
            return true;
        }
        self.left_out -= 1;
        false
    }

    /// Notes whether one paid.
    #[inline(always)]
    pub(crate) fn note(&mut self, paid: bool) {
        if paid {
            self.in_vain = 0;
        } else if self.in_vain < IN_VAIN {
            self.in_vain += 1;
        } else {
            self.left_out = LEFT_OUT;
        }
    }
}
