//! Quoted scalars (YAML 1.2, sections 7.3.1 and 7.3.2).
ghost use Rattle.std.specs.Prelude.{◌≡◌, ◌≢◌, ◌≤◌, ◌<◌, ◌==◌, ◌||◌, true, false, Ok, Err, OnOk, OnErr, IfOk, IfErr};
ghost use Rattle.yaml_chars.specs.Class.{is_blank, is_break};
ghost use Rattle.yaml_chars.specs.WindowView.{Reads, HasChar};
ghost use Rattle.defs_text.specs.Text.{string_chars};
ghost use Rattle.model_scanner.specs.Quoted.{quote_of, refused, quoted, quoted_from, at_part, first, inside, gap};
ghost use Rattle.model_scanner.specs.Folding.{Folded, nothing};
ghost use Rattle.yaml_lexers.specs.Shown.{Lexes, Refuses, folded};
ghost use Rattle.yaml_lexers.specs.ShownQuoted.{at_folded, GoesOn, ReadsOn, Shows};

use crate::escape::read_escapes;
use crate::folding::{FEW, Folding};
use crate::plain::{at_marker, look_ahead};
use model_scanner::{Context, QuotedPart};
use std::alloc::{AllocError, Global};
use yaml_chars::class::{is_blank, is_blank_or_breakz, is_break};
use yaml_chars::{Characters, Marker, Run, Window};
use yaml_tokens::{Fault, Problem};

/// A quoted scalar that is being read: whether its quotes are single, what surrounds it, and the position of its first quote.
#[derive(Clone, Copy)]
pub(crate) struct Quote {
    pub single: bool,
    pub context: Context,
    pub start: Marker,
}

fn quote_of(single: bool) -> char
    ensures value { result ≡ quote_of single }
    ensures some { result ≢ 0 }
{
    if single { '\'' } else { '"' }
}

/// Reads a blank or a break.
#[inline(always)]
fn read_gap<T: Characters>(
    window: &mut Window<T>,
    quote: &Quote,
    c: char,
    scalar: &mut Folding,
) -> Result<(), Fault>
    requires blank { (is_break c || is_blank c) ≡ true }
    requires here { Shows window.old 2 c }
    ensures { ReadsOn quote.now gap window.old scalar.old result (λ _. gap) window.new scalar.new }
{
    if is_break(c) {
        if window.at_cr_lf() {
            window.skip();
        } else {
            window.skip_break();
            scalar.add_break()?;
        }
    } else if scalar.leading && c == '\t' && window.mark().col() + 1 < quote.context.indent {
        return Err(Fault::At(Problem::TabAsIndentation, window.mark()));
    } else {
        window.skip();
        scalar.add_blank(c)?;
    }
    Ok(())
}

/// Reads a character of a line.
#[inline(always)]
#[tactic(auto, using(model_scanner::proofs::QuotedLemmas::inside_gap))]
fn read_in_line<T: Characters>(
    window: &mut Window<T>,
    quote: &Quote,
    c: char,
    scalar: &mut Folding,
) -> Result<QuotedPart, Fault>
    requires here { Shows window.old 2 c }
    ensures { ReadsOn quote.now inside window.old scalar.old result at_part window.new scalar.new }
{
    if is_break(c) || is_blank(c) {
        read_gap(window, quote, c, scalar)?;
        return Ok(QuotedPart::Gap);
    }
    if c == '\\' && !quote.single {
        return read_escapes(window, quote, scalar);
    }
    if c == quote_of(quote.single) {
        let doubled = quote.single && window.peek(1) == '\'';
        window.skip();
        return Ok(if doubled {
            QuotedPart::Doubled
        } else {
            QuotedPart::Closed
        });
    }
    scalar.push(c)?;
    window.skip();
    Ok(QuotedPart::Inside)
}

/// Reads the first character of a line, or one after a gap. A document marker is refused, and a character too far left.
#[inline(always)]
#[tactic(auto, using(model_scanner::proofs::QuotedLemmas::line_inside, model_scanner::proofs::QuotedLemmas::line_fails), unfolding(model_scanner::specs::Quoted::refused))]
fn read_line<T: Characters>(
    window: &mut Window<T>,
    quote: &Quote,
    c: char,
    scalar: &mut Folding,
) -> Result<QuotedPart, Fault>
    requires some { c ≢ 0 }
    requires here { Shows window.old 2 c }
    requires marker { window.old.col ≡ 0 → 4 ≤ window.old.ahead }
    ensures { ReadsOn quote.now first window.old scalar.old result at_part window.new scalar.new }
{
    if at_marker(window) {
        return Err(Fault::At(Problem::QuotedDocumentMarker, quote.start));
    }
    if window.mark().col() + 1 < quote.context.indent {
        return Err(Fault::At(Problem::QuotedIndentation, quote.start));
    }
    scalar.join()?;
    read_in_line(window, quote, c, scalar)
}

/// Reads a character in a gap, or the one after it.
#[tactic(auto, using(model_scanner::proofs::QuotedLemmas::gap_line))]
fn read_in_gap<T: Characters>(
    window: &mut Window<T>,
    quote: &Quote,
    c: char,
    scalar: &mut Folding,
) -> Result<QuotedPart, Fault>
    requires some { c ≢ 0 }
    requires here { Shows window.old 2 c }
    requires marker { window.old.col ≡ 0 → 4 ≤ window.old.ahead }
    ensures { ReadsOn quote.now gap window.old scalar.old result at_part window.new scalar.new }
{
    if is_break(c) || is_blank(c) {
        read_gap(window, quote, c, scalar)?;
        return Ok(QuotedPart::Gap);
    }
    read_line(window, quote, c, scalar)
}

/// Reads what stands here.
#[tactic(auto, using(model_scanner::proofs::QuotedLemmas::after_quote, model_scanner::proofs::QuotedLemmas::after_gap))]
fn read_part<T: Characters>(
    window: &mut Window<T>,
    quote: &Quote,
    part: QuotedPart,
    scalar: &mut Folding,
) -> Result<QuotedPart, Fault>
    requires { part ≢ QuotedPart.Closed }
    ensures { ReadsOn quote.now (at_part part) window.old scalar.old result at_part window.new scalar.new }
{
    look_ahead(window);
    let c = window.ch();
    if c == '\0' {
        return Err(Fault::At(Problem::QuotedEnd, quote.start));
    }
    match part {
        QuotedPart::First => read_line(window, quote, c, scalar),
        QuotedPart::Inside => read_in_line(window, quote, c, scalar),
        QuotedPart::Gap => read_in_gap(window, quote, c, scalar),
        QuotedPart::Breaking => {
            if window.at_cr_lf() {
                window.skip();
                return Ok(QuotedPart::Breaking);
            }
            // A break that the text does not have.
            window.skip_break();
            scalar.leading = true;
            scalar.escaped = true;
            Ok(QuotedPart::After)
        }
        // After an escaped break the closing quote may stand in any column.
        QuotedPart::After if c == quote_of(quote.single) => read_in_line(window, quote, c, scalar),
        QuotedPart::After => read_in_gap(window, quote, c, scalar),
        QuotedPart::Doubled => {
            scalar.push(c)?;
            window.skip();
            Ok(QuotedPart::Inside)
        }
        QuotedPart::Closed => unreachable!(),
    }
}

/// Reads words, and lone blanks between them, as far as the text is known. The result is whether some of it was.
#[inline(always)]
fn read_known<T: Characters>(
    window: &mut Window<T>,
    quote: &Quote,
    scalar: &mut Folding,
) -> Result<bool, AllocError>
    ensures ok { OnOk result (GoesOn quote.now inside window.old scalar.old inside window.new scalar.new) }
    ensures err { OnErr result (Reads window.old window.new (λ _ _. Unit {0})) }
{
    let col = window.mark().col();
    if col + 1 < quote.context.indent {
        return Ok(false);
    }
    scalar.take_words(window, Run::Quoted(quote_of(quote.single)))
}

/// Reads the characters up to a blank, a break, the end, a quote or a backslash.
#[inline(always)]
fn read_word<T: Characters>(
    window: &mut Window<T>,
    quote: &Quote,
    scalar: &mut Folding,
) -> Result<(), AllocError>
    ensures ok { OnOk result (GoesOn quote.now inside window.old scalar.old inside window.new scalar.new) }
    ensures err { OnErr result (Reads window.old window.new (λ _ _. Unit {0})) }
{
    let run = Run::Quoted(quote_of(quote.single));
    window.take_word(run, &mut scalar.text)?;
    Ok(())
}

/// Reads the character that a word begins with. The result is whether one begins here.
#[inline(always)]
fn begin_word<T: Characters>(
    window: &mut Window<T>,
    quote: &Quote,
    scalar: &mut Folding,
) -> Result<bool, AllocError>
    ensures ok { OnOk result (GoesOn quote.now inside window.old scalar.old inside window.new scalar.new) }
    ensures err { OnErr result (Reads window.old window.new (λ _ _. Unit {0})) }
    ensures left { OnOk result (window.new.left ≤ window.old.left) }
{
    let c = window.look_ch();
    if Run::Quoted(quote_of(quote.single)).stops(c) {
        return Ok(false);
    }
    scalar.push(c)?;
    window.skip();
    Ok(true)
}

/// Takes a blank that stands alone between two characters of a line.
#[inline(always)]
fn take_lone_blank<T: Characters>(
    window: &mut Window<T>,
    quote: &Quote,
    scalar: &mut Folding,
) -> Result<bool, AllocError>
    ensures ok { OnOk result (GoesOn quote.now inside window.old scalar.old inside window.new scalar.new) }
    ensures err { OnErr result (Reads window.old window.new (λ _ _. Unit {0})) }
    ensures less { result ≡ Ok true → window.new.left < window.old.left }
    ensures ahead { OnOk result (0 < window.new.ahead) }
{
    let c = window.look_ch();
    if !is_blank(c) {
        return Ok(false);
    }
    window.lookahead(2);
    let next = window.peek(1);
    let col = window.mark().col();
    if is_blank_or_breakz(next) || !scalar.is_joined() || col + 2 < quote.context.indent {
        return Ok(false);
    }
    window.skip();
    scalar.push(c)?;
    Ok(true)
}

/// Reads words of a line, with one blank before each. They are looked for if some were known before; else they are read
/// character by character up to what ends them.
fn read_words<T: Characters>(
    window: &mut Window<T>,
    quote: &Quote,
    scalar: &mut Folding,
    known: bool,
) -> Result<(), AllocError>
    ensures ok { OnOk result (GoesOn quote.now inside window.old scalar.old inside window.new scalar.new) }
    ensures err { OnErr result (Reads window.old window.new (λ _ _. Unit {0})) }
    ensures left { OnOk result (window.new.left ≤ window.old.left) }
{
    let mut known = known;
    'words: loop {
        if !take_lone_blank(window, quote, scalar)? {
            return Ok(());
        }
        begin_word(window, quote, scalar)?;
        // After a look in vain none is made again.
        known = known && read_known(window, quote, scalar)?;
        if !known {
            read_word(window, quote, scalar)?;
        }
    }
}

/// Reads words of a line, with one blank between each two.
pub(crate) fn read_run<T: Characters>(
    window: &mut Window<T>,
    quote: &Quote,
    scalar: &mut Folding,
) -> Result<(), AllocError>
    ensures ok { OnOk result (GoesOn quote.now inside window.old scalar.old inside window.new scalar.new) }
    ensures err { OnErr result (Reads window.old window.new (λ _ _. Unit {0})) }
    ensures left { OnOk result (window.new.left ≤ window.old.left) }
{
    let run = Run::Quoted(quote_of(quote.single));
    // In double quotes words go on up to an escape, and are long.
    let mut left = if quote.single { FEW } else { 1 };
    'few: while left > 0 {
        let Some(c) = window.take(run) else {
            // After a short word too words may be looked for.
            return read_words(window, quote, scalar, true);
        };
        scalar.push(c)?;
        left -= 1;
    }
    let known = read_known(window, quote, scalar)?;
    if !known {
        read_word(window, quote, scalar)?;
    }
    read_words(window, quote, scalar, known)
}

/// The same, where they begin here. Where none begins, nothing is read. In double quotes, where the window holds nothing,
/// words are looked for at once.
#[inline(always)]
fn begin_run<T: Characters>(
    window: &mut Window<T>,
    quote: &Quote,
    scalar: &mut Folding,
) -> Result<(), AllocError>
    ensures ok { OnOk result (GoesOn quote.now inside window.old scalar.old inside window.new scalar.new) }
    ensures err { OnErr result (Reads window.old window.new (λ _ _. Unit {0})) }
    ensures left { OnOk result (window.new.left ≤ window.old.left) }
{
    if quote.single || window.len() > 0 {
        // What the window holds goes into the text before it is stepped over.
        if !begin_word(window, quote, scalar)? {
            return Ok(());
        }
        return read_run(window, quote, scalar);
    }
    let known = read_known(window, quote, scalar)?;
    if !known {
        if !begin_word(window, quote, scalar)? {
            return Ok(());
        }
        read_word(window, quote, scalar)?;
    }
    read_words(window, quote, scalar, known)
}

/// Takes the closing quote of a scalar in double quotes, if it stands here.
#[inline(always)]
pub(crate) fn take_closing<T: Characters>(window: &mut Window<T>, quote: &Quote) -> QuotedPart
    ensures reads { Reads window.old window.new (λ a b. (t : Folded) →
        quoted_from quote.now.single quote.now.context quote.now.start a (at_folded inside window.old t) ≡ quoted_from quote.now.single quote.now.context quote.now.start b (at_folded (at_part result) window.new t)) }
    ensures left { window.new.left ≤ window.old.left }
{
    if quote.single {
        return QuotedPart::Inside;
    }
    if window.look_ch() != '"' {
        return QuotedPart::Inside;
    }
    window.skip();
    QuotedPart::Closed
}

/// Reads the words that a scalar begins with, and in double quotes the closing one, if it stands right after them.
#[inline(always)]
fn begin_words<T: Characters>(
    window: &mut Window<T>,
    quote: &Quote,
    scalar: &mut Folding,
) -> Result<QuotedPart, AllocError>
    requires { folded scalar.old ≡ nothing }
    ensures ok { IfOk result (λ part. GoesOn quote.now first window.old scalar.old (at_part part) window.new scalar.new) }
    ensures err { OnErr result (Reads window.old window.new (λ _ _. Unit {0})) }
    ensures left { OnOk result (window.new.left ≤ window.old.left) }
{
    let col = window.mark().col();
    if col == 0 || col + 1 < quote.context.indent {
        return Ok(QuotedPart::First);
    }
    begin_run(window, quote, scalar)?;
    Ok(take_closing(window, quote))
}

/// Reads a quoted scalar, from the opening quote to after the closing one.
#[tactic(auto, using(model_scanner::proofs::QuotedLemmas::quoted_starts, model_scanner::proofs::QuotedLemmas::closed_end), unfolding(model_scanner::specs::Quoted::quoted))]
pub fn read_quoted<T: Characters>(
    alloc: Global,
    window: &mut Window<T>,
    single: bool,
    context: Context,
) -> Result<String, Fault>
    requires has { HasChar window.old }
    requires ahead { 0 < window.old.ahead }
    ensures ok { IfOk result (λ s. Lexes (quoted single context) window.old window.new (string_chars s)) }
    ensures err { IfErr result (λ e. Refuses (quoted single context) window.old window.new e) }
    ensures less { OnOk result (window.new.left < window.old.left) }
{
    let quote = Quote {
        single,
        context,
        start: window.mark(),
    };
    window.skip();
    let mut scalar = Folding::new(alloc);
    let mut part = begin_words(window, &quote, &mut scalar)?;
    'parts: while part != QuotedPart::Closed {
        part = read_part(window, &quote, part, &mut scalar)?;
        if part == QuotedPart::Inside {
            read_run(window, &quote, &mut scalar)?;
        }
    }
    Ok(scalar.text.into_string())
}
