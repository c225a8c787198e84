//! Escapes of double-quoted scalars (YAML 1.2, section 5.7).
ghost use Rattle.std.specs.Prelude.{◌≡◌, ◌≢◌, ◌<◌, true, false, Ok, Err, OnOk, IfErr, if◌then◌else◌};
ghost use Rattle.defs_text.specs.Position.{Position};
ghost use Rattle.yaml_chars.specs.WindowView.{Reads, SamePosition, position_of};
ghost use Rattle.model_scanner.specs.declared.context.Context.{Context};
ghost use Rattle.model_scanner.specs.Folding.{Folded};
ghost use Rattle.model_scanner.specs.Quoted.{escape_of, count_of, is_scalar, digits_from, quoted_from, at_part, inside, breaking, named};
ghost use Rattle.yaml_lexers.specs.ShownQuoted.{at, at_folded, ReadsOn, Shows};
ghost use Rattle.yaml_lexers.specs.Shown.{folded};

use crate::folding::Folding;
use crate::quoted::{Quote, read_run, take_closing};
use model_scanner::{Digits, Escape, QuotedPart};
use yaml_chars::class::{hex_value, is_break, is_hex};
use yaml_chars::{Characters, Window};
use yaml_tokens::{Fault, Problem};

#[tactic(auto, unfolding(model_scanner::specs::Quoted::escape_of))]
fn escape_of(c: char) -> Escape
    ensures value { result ≡ escape_of c }
    ensures some { result ≢ Escape.Unknown → c ≢ 0 }
{
    match c {
        '0' => Escape::Char('\0'),
        'a' => Escape::Char('\x07'),
        'b' => Escape::Char('\x08'),
        't' | '\t' => Escape::Char('\t'),
        'n' => Escape::Char('\n'),
        'v' => Escape::Char('\x0b'),
        'f' => Escape::Char('\x0c'),
        'r' => Escape::Char('\r'),
        'e' => Escape::Char('\x1b'),
        ' ' | '"' | '/' | '\\' => Escape::Char(c),
        'N' => Escape::Char('\u{85}'),
        '_' => Escape::Char('\u{A0}'),
        'L' => Escape::Char('\u{2028}'),
        'P' => Escape::Char('\u{2029}'),
        'x' => Escape::Code(Digits::Two),
        'u' => Escape::Code(Digits::Four),
        'U' => Escape::Code(Digits::Eight),
        _ => Escape::Unknown,
    }
}

/// Reads a code's digits. The code has to be a character's.
#[tactic(auto, using(model_scanner::proofs::QuotedLemmas::digit_turn, model_scanner::proofs::QuotedLemmas::digit_fails, model_scanner::proofs::QuotedLemmas::coded, model_scanner::proofs::QuotedLemmas::coded_fails), unfolding(model_scanner::specs::Quoted::is_scalar))]
fn read_code<T: Characters>(
    window: &mut Window<T>,
    quote: &Quote,
    digits: Digits,
    scalar: &mut Folding,
) -> Result<(), Fault>
    ensures ok { OnOk result (Reads window.old window.new (λ a b.
        digits_from quote.now.single quote.now.context quote.now.start (count_of digits) 0 a (position_of window.old) (folded scalar.old) ≡ quoted_from quote.now.single quote.now.context quote.now.start b (at inside window.new scalar.new))) }
    ensures err { IfErr result (λ e. Reads window.old window.new (λ a b. e ≢ Fault.OutOfMemory →
        digits_from quote.now.single quote.now.context quote.now.start (count_of digits) 0 a (position_of window.old) (folded scalar.old) ≡ Err e)) }
{
    let mut code = 0;
    let mut left = digits as usize;
    'digits: while left > 0 {
        let c = window.look_ch();
        if !is_hex(c) {
            return Err(Fault::At(Problem::HexadecimalDigit, quote.start));
        }
        window.skip();
        code = code * 16 + hex_value(c);
        left -= 1;
    }
    let Some(c) = char::from_u32(code) else {
        return Err(Fault::At(Problem::EscapedCode, quote.start));
    };
    scalar.push(c)?;
    Ok(())
}

/// Reads what a backslash names.
#[inline(always)]
#[tactic(auto, using(model_scanner::proofs::QuotedLemmas::named_char, model_scanner::proofs::QuotedLemmas::named_code, model_scanner::proofs::QuotedLemmas::named_unknown))]
fn read_named<T: Characters>(
    window: &mut Window<T>,
    quote: &Quote,
    scalar: &mut Folding,
) -> Result<(), Fault>
    ensures { ReadsOn quote.now named window.old scalar.old result (λ _. inside) window.new scalar.new }
{
    let c = window.look_ch();
    match escape_of(c) {
        Escape::Char(d) => {
            scalar.push(d)?;
            window.skip();
            Ok(())
        }
        Escape::Unknown => Err(Fault::At(Problem::UnknownEscape, quote.start)),
        Escape::Code(digits) => {
            window.skip();
            read_code(window, quote, digits, scalar)
        }
    }
}

/// Whether a backslash stands here. Then the character after it is in the window too.
#[inline(always)]
fn at_backslash<T: Characters>(window: &mut Window<T>) -> bool
    ensures reads { Reads window.old window.new (λ a b. b ≡ a) }
    ensures position { SamePosition window.old window.new }
    ensures here { result ≡ true → Shows window.new 2 92 }
{
    if window.look_ch() != '\\' {
        return false;
    }
    window.lookahead(2);
    true
}

/// Steps over a backslash, and says whether a break stands after it.
#[inline(always)]
fn skip_backslash<T: Characters>(window: &mut Window<T>) -> bool
    requires here { Shows window.old 2 92 }
    ensures reads { Reads window.old window.new (λ a b. (context : Context) (start : Position) (t : Folded) →
        quoted_from false context start a (at_folded inside window.old t) ≡ quoted_from false context start b (at_folded (if result then breaking else named) window.new t)) }
    ensures less { window.new.left < window.old.left }
{
    let breaks = is_break(window.peek(1));
    window.skip();
    breaks
}

/// Reads an escape and the words after it, as long as an escape comes after these, and the closing quote if that does.
pub(crate) fn read_escapes<T: Characters>(
    window: &mut Window<T>,
    quote: &Quote,
    scalar: &mut Folding,
) -> Result<QuotedPart, Fault>
    requires double { quote.now.single ≡ false }
    requires here { Shows window.old 2 92 }
    ensures { ReadsOn quote.now inside window.old scalar.old result at_part window.new scalar.new }
{
    'escapes: loop {
        if skip_backslash(window) {
            return Ok(QuotedPart::Breaking);
        }
        read_named(window, quote, scalar)?;
        if !at_backslash(window) {
            read_run(window, quote, scalar)?;
            if !at_backslash(window) {
                return Ok(take_closing(window, quote));
            }
        }
    }
}
