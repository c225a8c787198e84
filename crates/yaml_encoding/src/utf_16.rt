//! Sequences of UTF-16, by the WHATWG Encoding standard, section 14.4.
ghost use Rattle.std.specs.Prelude.{◌≡◌, ◌<◌, length};
ghost use Rattle.yaml_encoding.specs.Decoding.{is_lead, is_trail, utf_16_sequence};
ghost use Rattle.yaml_encoding.specs.Front.{front, sequence_of, unit_by};

use crate::sequence::Sequence;

/// Which byte of a unit comes first.
#[derive(Clone, Copy)]
pub(crate) enum ByteOrder {
    /// The lesser.
    Little,
    /// The greater.
    Big,
}

impl ByteOrder {
    /// The unit of two bytes.
    fn unit(self, first: u8, second: u8) -> u16
        ensures { result ≡ unit_by self first second }
    {
        match self {
            ByteOrder::Little => u16::from(second) * 256 + u16::from(first),
            ByteOrder::Big => u16::from(first) * 256 + u16::from(second),
        }
    }
}

/// Whether a unit is a lead surrogate, the first of two units.
#[tactic(auto, unfolding(crate::specs::Decoding::is_lead))]
fn is_lead(unit: u16) -> bool
    ensures { result ≡ is_lead unit }
{
    0xD800 <= unit && unit <= 0xDBFF
}

/// Whether a unit is a trail surrogate, the second of two units.
#[tactic(auto, unfolding(crate::specs::Decoding::is_trail))]
fn is_trail(unit: u16) -> bool
    ensures { result ≡ is_trail unit }
{
    0xDC00 <= unit && unit <= 0xDFFF
}

/// What an input begins with.
#[tactic(auto, unfolding(crate::specs::Decoding::is_lead, crate::specs::Decoding::is_trail))]
pub(crate) fn utf_16_sequence(order: ByteOrder, input: &[u8]) -> Sequence
    requires { 0 < length input.now }
    ensures { sequence_of result ≡ front (utf_16_sequence (unit_by order)) input.now }
{
    let [first, second, rest @ ..] = input else {
        return Sequence::malformed(1, 0);
    };
    let unit = order.unit(*first, *second);
    if is_trail(unit) {
        return Sequence::malformed(2, 0);
    }
    if !is_lead(unit) {
        return Sequence::means(2, u32::from(unit));
    }
    match rest {
        [] => Sequence::malformed(2, 0),
        [_] => Sequence::malformed(3, 0),
        [first, second, ..] => {
            let trail = order.unit(*first, *second);
            if !is_trail(trail) {
                return Sequence::malformed(2, 2);
            }
            let bits = u32::from(unit - 0xD800) * 0x400 + u32::from(trail - 0xDC00);
            Sequence::means(4, 0x1_0000 + bits)
        }
    }
}
