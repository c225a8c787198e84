//! Characters of a URI, escaped ones too (YAML 1.2, section 5.6).
ghost use Rattle.std.specs.Prelude.{◌≡◌, ◌≢◌, ◌≤◌, ◌<◌, ◌+◌, ◌*◌, ◌^◌, ◌++◌, ℕ, List, [], ◌∷◌, Bool, true, Ok, Err, OnOk, IfOk, IfErr, slice_index, IfSome, IfNone};
ghost use Rattle.yaml_chars.specs.Class.{is_uri, is_tag};
ghost use Rattle.defs_text.specs.Position.{Position};
ghost use Rattle.yaml_chars.specs.WindowView.{Reads, Sees, HasChar, position_of};
ghost use Rattle.model_scanner.specs.Quoted.{is_scalar};
ghost use Rattle.model_scanner.specs.Uri.{Octet, lead, plain, percent, low, uri, uri_from, octet_from, at_octet, at_trail};
ghost use Rattle.yaml_lexers.specs.Shown.{read};
ghost use Rattle.yaml_lexers.specs.ShownTag.{at};

use yaml_chars::class::{hex_value, is_hex, is_tag, is_uri};
use yaml_chars::{Characters, Marker, TextBuilder, Window};
use yaml_tokens::{Fault, Problem};

/// Reads a `%` and a hexadecimal digit.
#[tactic(auto, using(model_scanner::proofs::UriLemmas::percent_fails, model_scanner::proofs::UriLemmas::high_fails))]
fn read_high<T: Characters>(window: &mut Window<T>, start: Marker) -> Result<u32, Fault>
    ensures ok { IfOk result (λ n. Reads window.old window.new (λ a b. (test : ℕ → Bool) (o : Octet) (t : List ℕ) →
        uri_from test start a (at (percent o) window.old t) ≡ uri_from test start b (at (low o n) window.new t))) }
    ensures err { IfErr result (λ e. Reads window.old window.new (λ a b. (test : ℕ → Bool) (o : Octet) (t : List ℕ) →
        uri_from test start a (at (percent o) window.old t) ≡ Err e)) }
    ensures less { OnOk result (window.new.left < window.old.left) }
    ensures small { IfOk result (λ n. n < 16) }
{
    if window.look_ch() != '%' {
        return Err(Fault::At(Problem::TagOctet, start));
    }
    window.skip();
    let c = window.look_ch();
    if !is_hex(c) {
        return Err(Fault::At(Problem::TagOctet, start));
    }
    window.skip();
    Ok(hex_value(c))
}

/// Reads a `%` and two hexadecimal digits.
#[tactic(auto, using(model_scanner::proofs::UriLemmas::low_fails, model_scanner::proofs::UriLemmas::low_turn))]
fn read_octet<T: Characters>(window: &mut Window<T>, start: Marker) -> Result<u32, Fault>
    ensures ok { IfOk result (λ n. Reads window.old window.new (λ a b. (test : ℕ → Bool) (o : Octet) (t : List ℕ) →
        uri_from test start a (at (percent o) window.old t) ≡ octet_from test start o n b (position_of window.new) t)) }
    ensures err { IfErr result (λ e. Reads window.old window.new (λ a b. (test : ℕ → Bool) (o : Octet) (t : List ℕ) →
        uri_from test start a (at (percent o) window.old t) ≡ Err e)) }
    ensures less { OnOk result (window.new.left < window.old.left) }
    ensures small { IfOk result (λ n. n < 256) }
{
    let high = read_high(window, start)?;
    let c = window.look_ch();
    if !is_hex(c) {
        return Err(Fault::At(Problem::TagOctet, start));
    }
    window.skip();
    Ok(high * 16 + hex_value(c))
}

/// What a character's first octet says in UTF-8: how many octets come after it, the first bits of
/// the character's code, and the least code that has so many octets.
#[derive(Clone, Copy)]
struct Lead {
    trails: usize,
    bits: u32,
    least: u32,
}

fn lead_of(octet: u32) -> Option<Lead>
    ensures some { IfSome result (λ l. (start p : Position) (t : List ℕ) → at_octet start lead octet p t ≡ at_trail start l.trails l.bits l.least p t) }
    ensures none { IfNone result ((start p : Position) (t : List ℕ) → at_octet start lead octet p t ≡ Err (Fault.At Problem.TagLeadingOctet start)) }
    ensures small { IfSome result (λ l. (l.bits + 1) * 64 ^ l.trails ≤ 2 ^ 21) }
{
    match octet {
        0x00..=0x7F => Some(Lead {
            trails: 0,
            bits: octet,
            least: 0,
        }),
        0xC0..=0xDF => Some(Lead {
            trails: 1,
            bits: octet - 0xC0,
            least: 0x80,
        }),
        0xE0..=0xEF => Some(Lead {
            trails: 2,
            bits: octet - 0xE0,
            least: 0x800,
        }),
        0xF0..=0xF7 => Some(Lead {
            trails: 3,
            bits: octet - 0xF0,
            least: 0x10000,
        }),
        _ => None,
    }
}

/// Reads the octets of a character in UTF-8, each a `%` and two hexadecimal digits.
#[tactic(auto, unfolding(model_scanner::specs::Quoted::is_scalar))]
fn read_uri_escape<T: Characters>(window: &mut Window<T>, start: Marker) -> Result<char, Fault>
    ensures ok { IfOk result (λ c. Reads window.old window.new (λ a b. (test : ℕ → Bool) (t : List ℕ) →
        uri_from test start a (at (percent lead) window.old t) ≡ uri_from test start b (at plain window.new (t ++ c ∷ [])))) }
    ensures err { IfErr result (λ e. Reads window.old window.new (λ a b. (test : ℕ → Bool) (t : List ℕ) →
        uri_from test start a (at (percent lead) window.old t) ≡ Err e)) }
    ensures less { OnOk result (window.new.left < window.old.left) }
{
    let octet = read_octet(window, start)?;
    let Some(lead) = lead_of(octet) else {
        return Err(Fault::At(Problem::TagLeadingOctet, start));
    };
    let mut code = lead.bits;
    let mut left = lead.trails;
    'trails: while left > 0 {
        let octet = read_octet(window, start)?;
        code = match octet {
            0x80..=0xBF => code * 64 + (octet - 0x80),
            _ => return Err(Fault::At(Problem::TagTrailingOctet, start)),
        };
        left -= 1;
    }
    match char::from_u32(code) {
        // A code that fits in fewer octets is overlong.
        Some(c) if code >= lead.least => Ok(c),
        _ => Err(Fault::At(Problem::TagCodepoint, start)),
    }
}

/// Reads a character of a URI, which may be an escaped one.
#[tactic(auto, using(model_scanner::proofs::UriLemmas::percent_lead))]
fn read_uri_char<T: Characters>(
    window: &mut Window<T>,
    start: Marker,
    c: char,
    text: &mut TextBuilder,
) -> Result<(), Fault>
    requires here { Sees window.old (λ a. c ≡ slice_index a 0) }
    requires has { HasChar window.old }
    requires ahead { 0 < window.old.ahead }
    ensures ok { OnOk result (Reads window.old window.new (λ a b. (test : ℕ → Bool) → test c ≡ true →
        uri_from test start a (at plain window.old text.old) ≡ uri_from test start b (at plain window.new text.new))) }
    ensures err { IfErr result (λ e. Reads window.old window.new (λ a b. (test : ℕ → Bool) → test c ≡ true → e ≢ Fault.OutOfMemory →
        uri_from test start a (at plain window.old text.old) ≡ Err e)) }
    ensures less { OnOk result (window.new.left < window.old.left) }
{
    if c != '%' {
        window.skip();
        text.push(c)?;
        return Ok(());
    }
    let c = read_uri_escape(window, start)?;
    text.push(c)?;
    Ok(())
}

/// Reads the characters of a URI.
#[tactic(auto, using(model_scanner::proofs::UriLemmas::uri_end))]
pub(crate) fn read_uri<T: Characters>(
    window: &mut Window<T>,
    start: Marker,
    text: &mut TextBuilder,
) -> Result<(), Fault>
    ensures ok { OnOk result (Reads window.old window.new (λ a b. uri is_uri start a (position_of window.old) text.old ≡ Ok (read b window.new text.new))) }
    ensures err { IfErr result (λ e. Reads window.old window.new (λ a b. e ≢ Fault.OutOfMemory → uri is_uri start a (position_of window.old) text.old ≡ Err e)) }
    ensures ahead { OnOk result (0 < window.new.ahead) }
{
    'uri: loop {
        let c = window.look_ch();
        if !is_uri(c) {
            return Ok(());
        }
        read_uri_char(window, start, c, text)?;
    }
}

/// Reads the characters of a tag's suffix.
#[tactic(auto, using(model_scanner::proofs::UriLemmas::uri_end))]
pub(crate) fn read_suffix<T: Characters>(
    window: &mut Window<T>,
    start: Marker,
    text: &mut TextBuilder,
) -> Result<(), Fault>
    ensures ok { OnOk result (Reads window.old window.new (λ a b. uri is_tag start a (position_of window.old) text.old ≡ Ok (read b window.new text.new))) }
    ensures err { IfErr result (λ e. Reads window.old window.new (λ a b. e ≢ Fault.OutOfMemory → uri is_tag start a (position_of window.old) text.old ≡ Err e)) }
    ensures ahead { OnOk result (0 < window.new.ahead) }
{
    'suffix: loop {
        let c = window.look_ch();
        if !is_tag(c) {
            return Ok(());
        }
        read_uri_char(window, start, c, text)?;
    }
}
