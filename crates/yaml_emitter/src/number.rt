//! Decimal digits.
ghost use Rattle.std.specs.Prelude.{◌≡◌, ◌+◌, ◌<◌};
ghost use Rattle.std.specs.Fmt.{decimal, signed_decimal};
ghost use Rattle.yaml_emitter.specs.Writing.{Writes};

use crate::writer::{Writer, put_ascii, put_char};
use std::fmt;

/// Writes a number's decimal digits, after `-` where it is negative.
pub(crate) fn write_integer<W: Writer>(out: &mut W, number: i64) -> fmt::Result
    ensures { Writes W.put_gives W.put_leaves out.old result (signed_decimal number) out.new }
{
    if number >= 0 {
        return write_digits(out, number.unsigned_abs());
    }
    put_ascii(out, "-")?;
    write_digits(out, number.unsigned_abs())
}

fn write_digits<W: Writer>(out: &mut W, number: u64) -> fmt::Result
    ensures { Writes W.put_gives W.put_leaves out.old result (decimal number) out.new }
{
    if number < 10 {
        return put_char(out, digit(number));
    }
    write_digits(out, number / 10)?;
    put_char(out, digit(number % 10))
}

fn digit(number: u64) -> char
    requires { number < 10 }
    ensures { result ≡ 48 + number }
{
    char::from(b'0' + number as u8)
}
