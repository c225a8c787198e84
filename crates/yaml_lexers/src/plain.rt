//! Plain scalars (YAML 1.2, section 7.3.3).
ghost use Rattle.std.specs.Prelude.{◌≡◌, ◌≢◌, ◌≤◌, ◌<◌, true, false, Ok, Err, OnOk, OnErr, IfOk, IfErr, slice_index};
ghost use Rattle.defs_text.specs.Position.{Position};
ghost use Rattle.yaml_chars.specs.WindowView.{Reads, Sees, HasChar, SamePosition, position_of};
ghost use Rattle.model_scanner.specs.declared.context.Context.{Context};
ghost use Rattle.model_scanner.specs.Folding.{Folded};
ghost use Rattle.model_scanner.specs.Machine.{at_marker};
ghost use Rattle.model_scanner.specs.Plain.{can_be_plain, is_shallow, at_dash, goes_on, starts, plain, plain_from, first, inside, between, ends_gap};
ghost use Rattle.yaml_lexers.specs.Shown.{Lexes, Refuses, at, at_folded, plain_shown, EndsHere};

use crate::folding::{FEW, Folding};
use model_scanner::Context;
use std::alloc::{AllocError, Global};
use yaml_chars::class::{is_blank, is_blank_or_breakz, is_break, is_breakz, is_flow};
use yaml_chars::{Characters, Marker, Run, Window};
use yaml_tokens::{Fault, Problem};

/// A plain scalar's text, and whether it ended after a break, where a key may follow.
#[derive(Drop)]
pub struct Plain {
    /// Its text, with its lines folded.
    pub text: String,
    /// Whether it ended after a break.
    pub leading: bool,
}

#[tactic(auto, unfolding(model_scanner::specs::Plain::can_be_plain))]
fn can_be_plain(flow: bool, c: char, next: char) -> bool
    ensures { result ≡ can_be_plain flow c next }
{
    match c {
        ':' => !(is_blank_or_breakz(next) || flow && is_flow(next)),
        _ => !(flow && is_flow(c)),
    }
}

/// Reads words, and lone blanks between them, as far as the text is known. The result is whether some of it was.
#[inline(always)]
fn read_known<T: Characters>(
    window: &mut Window<T>,
    context: Context,
    scalar: &mut Folding,
) -> Result<bool, AllocError>
    ensures ok { OnOk result (Reads window.old window.new (λ a b. (start : Position) →
        plain_from context start a (at inside window.old scalar.old) ≡ plain_from context start b (at inside window.new scalar.new))) }
    ensures err { OnErr result (Reads window.old window.new (λ _ _. Unit {0})) }
{
    if is_shallow(context, window.mark().col()) {
        return Ok(false);
    }
    scalar.take_words(window, Run::Plain(context.flow))
}

/// Reads a word, and where it has more than a few characters and the text is known, those after it too. The result is
/// whether words may be looked for after it.
#[inline(always)]
fn read_ahead<T: Characters>(
    window: &mut Window<T>,
    context: Context,
    scalar: &mut Folding,
) -> Result<bool, AllocError>
    ensures ok { OnOk result (Reads window.old window.new (λ a b. (start : Position) →
        plain_from context start a (at inside window.old scalar.old) ≡ plain_from context start b (at inside window.new scalar.new))) }
    ensures err { OnErr result (Reads window.old window.new (λ _ _. Unit {0})) }
{
    let mut left = FEW;
    'few: while left > 0 {
        let Some(c) = window.take(Run::Plain(context.flow)) else {
            return Ok(true);
        };
        scalar.push(c)?;
        left -= 1;
    }
    if read_known(window, context, scalar)? {
        return Ok(true);
    }
    read_word(window, context, scalar)?;
    Ok(false)
}

/// Reads the characters up to a blank, a break, the end, a colon or what ends a plain scalar in flow.
fn read_word<T: Characters>(
    window: &mut Window<T>,
    context: Context,
    scalar: &mut Folding,
) -> Result<(), AllocError>
    ensures ok { OnOk result (Reads window.old window.new (λ a b. (start : Position) →
        plain_from context start a (at inside window.old scalar.old) ≡ plain_from context start b (at inside window.new scalar.new))) }
    ensures err { OnErr result (Reads window.old window.new (λ _ _. Unit {0})) }
{
    window.take_word(Run::Plain(context.flow), &mut scalar.text)?;
    Ok(())
}

/// Takes a blank that stands alone between two characters of a line.
#[inline(always)]
fn take_lone_blank<T: Characters>(
    window: &mut Window<T>,
    context: Context,
    scalar: &mut Folding,
) -> Result<bool, AllocError>
    ensures ok { OnOk result (Reads window.old window.new (λ a b. (start : Position) →
        plain_from context start a (at inside window.old scalar.old) ≡ plain_from context start b (at inside window.new scalar.new))) }
    ensures err { OnErr result (Reads window.old window.new (λ _ _. Unit {0})) }
    ensures less { result ≡ Ok true → window.new.left < window.old.left }
    ensures ahead { OnOk result (0 < window.new.ahead) }
{
    let c = window.look_ch();
    if !is_blank(c) {
        return Ok(false);
    }
    window.lookahead(2);
    // After a lone blank any other character is one of the scalar, whatever comes after it.
    let next = window.peek(1);
    if Run::Plain(true).stops(next) || next == '#' || next == '-' {
        return Ok(false);
    }
    let col = window.mark().col();
    if is_shallow(context, col + 1) || !scalar.is_joined() {
        return Ok(false);
    }
    window.skip();
    scalar.push(c)?;
    Ok(true)
}

/// Reads the character that a word begins with, if one begins here.
#[inline(always)]
fn begin_word<T: Characters>(
    window: &mut Window<T>,
    context: Context,
    scalar: &mut Folding,
) -> Result<(), AllocError>
    ensures ok { OnOk result (Reads window.old window.new (λ a b. (start : Position) →
        plain_from context start a (at inside window.old scalar.old) ≡ plain_from context start b (at inside window.new scalar.new))) }
    ensures err { OnErr result (Reads window.old window.new (λ _ _. Unit {0})) }
{
    let c = window.look_ch();
    if Run::Plain(context.flow).stops(c) {
        return Ok(());
    }
    scalar.push(c)?;
    window.skip();
    Ok(())
}

/// Reads words with one blank between each two.
fn read_words<T: Characters>(
    window: &mut Window<T>,
    context: Context,
    scalar: &mut Folding,
) -> Result<(), AllocError>
    ensures ok { OnOk result (Reads window.old window.new (λ a b. (start : Position) →
        plain_from context start a (at inside window.old scalar.old) ≡ plain_from context start b (at inside window.new scalar.new))) }
    ensures err { OnErr result (Reads window.old window.new (λ _ _. Unit {0})) }
{
    let mut known = read_ahead(window, context, scalar)?;
    'words: loop {
        if !take_lone_blank(window, context, scalar)? {
            return Ok(());
        }
        begin_word(window, context, scalar)?;
        // After a look in vain, words are read character by character up to what ends them.
        known = known && read_known(window, context, scalar)?;
        if !known {
            read_word(window, context, scalar)?;
        }
    }
}

/// Reads words, or only the characters of one.
#[inline(always)]
fn read_piece<T: Characters>(
    window: &mut Window<T>,
    context: Context,
    scalar: &mut Folding,
    words: bool,
) -> Result<(), AllocError>
    ensures ok { OnOk result (Reads window.old window.new (λ a b. (start : Position) →
        plain_from context start a (at inside window.old scalar.old) ≡ plain_from context start b (at inside window.new scalar.new))) }
    ensures err { OnErr result (Reads window.old window.new (λ _ _. Unit {0})) }
{
    if words {
        return read_words(window, context, scalar);
    }
    // Where the characters of a word are few, one by one is the fastest.
    'each: while let Some(c) = window.take(Run::Plain(context.flow)) {
        scalar.push(c)?;
    }
    Ok(())
}

/// Reads the characters up to a blank, a break, the end, or what ends a plain scalar. The result is whether a gap may
/// come: without one the scalar ends here.
#[tactic(auto, using(model_scanner::proofs::PlainLemmas::run_end))]
fn read_run<T: Characters>(
    window: &mut Window<T>,
    context: Context,
    scalar: &mut Folding,
) -> Result<bool, AllocError>
    ensures ok { IfOk result (λ gap. Reads window.old window.new (λ a b.
        ((start : Position) → plain_from context start a (at inside window.old scalar.old) ≡ plain_from context start b (at between window.new scalar.new))
        × (gap ≡ false → EndsHere context window.new b))) }
    ensures err { OnErr result (Reads window.old window.new (λ _ _. Unit {0})) }
{
    let mut words = true;
    'run: loop {
        read_piece(window, context, scalar, words)?;
        let c = window.look_ch();
        if is_blank_or_breakz(c) {
            return Ok(true);
        }
        window.lookahead(2);
        let next = window.peek(1);
        if !can_be_plain(context.flow, c, next) {
            return Ok(false);
        }
        scalar.push(c)?;
        window.skip();
        // After a colon mostly a few characters come. After that of a URL more do.
        words = next == '/';
    }
}

/// Sees to it that the next two characters are in the window, and four where a document marker may stand: at a line's
/// first column.
#[inline(always)]
pub(crate) fn look_ahead<T: Characters>(window: &mut Window<T>)
    ensures reads { Reads window.old window.new (λ a b. b ≡ a) }
    ensures position { SamePosition window.old window.new }
    ensures ahead { 2 ≤ window.new.ahead }
    ensures marker { window.new.col ≡ 0 → 4 ≤ window.new.ahead }
{
    let n = if window.mark().col() == 0 { 4 } else { 2 };
    window.lookahead(n);
}

/// Whether a document marker stands here.
#[tactic(auto, unfolding(model_scanner::specs::Machine::at_marker, model_scanner::specs::Machine::is_marker))]
pub(crate) fn at_marker<T: Characters>(window: &Window<T>) -> bool
    requires { window.now.col ≡ 0 → 4 ≤ window.now.ahead }
    ensures { Sees window.now (λ a. result ≡ at_marker window.now.col a) }
{
    if window.mark().col() != 0 {
        return false;
    }
    let (c, d, e) = (window.peek(0), window.peek(1), window.peek(2));
    (c == '-' && d == '-' && e == '-' || c == '.' && d == '.' && e == '.')
        && is_blank_or_breakz(window.peek(3))
}

/// Whether a dash stands here that no plain scalar may begin with.
#[tactic(auto, unfolding(model_scanner::specs::Plain::at_dash))]
fn at_dash<T: Characters>(window: &Window<T>, flow: bool) -> bool
    requires { 2 ≤ window.now.ahead }
    ensures { Sees window.now (λ a. result ≡ at_dash flow a) }
{
    flow && window.peek(0) == '-' && is_flow(window.peek(1))
}

#[tactic(auto, unfolding(model_scanner::specs::Plain::is_shallow))]
fn is_shallow(context: Context, col: usize) -> bool
    ensures { result ≡ is_shallow context col }
{
    !context.flow && col < context.indent
}

/// Whether a scalar goes on at a character after a gap.
#[tactic(auto, unfolding(model_scanner::specs::Plain::goes_on, model_scanner::specs::Plain::at_plain))]
fn goes_on<T: Characters>(window: &mut Window<T>, context: Context) -> Result<bool, Fault>
    ensures reads { Reads window.old window.new (λ a b. (b ≡ a) × (result ≡ goes_on context a (position_of window.old))) }
    ensures position { SamePosition window.old window.new }
    ensures ahead { 0 < window.new.ahead }
    ensures has { result ≡ Ok true → HasChar window.new }
{
    look_ahead(window);
    let mark = window.mark();
    if is_shallow(context, mark.col()) {
        return Ok(false);
    }
    let c = window.ch();
    if c == '#' || at_marker(window) {
        return Ok(false);
    }
    if at_dash(window, context.flow) {
        return Err(Fault::At(Problem::PlainDashInFlow, mark));
    }
    Ok(!is_blank_or_breakz(c) && can_be_plain(context.flow, c, window.peek(1)))
}

/// Steps over a TAB at the indentation's position and the blanks after it, up to the end of the
/// line or a comment.
#[tactic(auto, using(model_scanner::proofs::PlainLemmas::tabs_end))]
fn skip_tabs<T: Characters>(window: &mut Window<T>, start: Marker) -> Result<(), Fault>
    requires tab { Sees window.old (λ a. slice_index a 0 ≡ 9) }
    requires has { HasChar window.old }
    requires ahead { 0 < window.old.ahead }
    ensures ok { OnOk result (Reads window.old window.new (λ a b. (context : Context) (t : Folded) → t.leading ≡ true → window.old.col < context.indent →
        plain_from context start a (at_folded between window.old t) ≡ plain_from context start b (at_folded between window.new t))) }
    ensures err { IfErr result (λ e. Reads window.old window.new (λ a b. (context : Context) (t : Folded) → t.leading ≡ true → window.old.col < context.indent →
        plain_from context start a (at_folded between window.old t) ≡ Err e)) }
    ensures less { window.new.left < window.old.left }
{
    window.skip();
    'tabs: loop {
        let c = window.look_ch();
        if is_breakz(c) || c == '#' {
            return Ok(());
        }
        if !is_blank(c) {
            return Err(Fault::At(Problem::PlainTab, start));
        }
        window.skip();
    }
}

/// Steps over spaces after a break.
#[inline(always)]
#[tactic(auto, using(model_scanner::proofs::RunLemmas::space_run))]
fn skip_spaces<T: Characters>(window: &mut Window<T>)
    ensures { Reads window.old window.new (λ a b. (context : Context) (start : Position) (t : Folded) → t.leading ≡ true →
        plain_from context start a (at_folded between window.old t) ≡ plain_from context start b (at_folded between window.new t)) }
{
    'spaces: while window.take_space() {}
}

/// Reads blanks and breaks.
fn read_gap<T: Characters>(
    window: &mut Window<T>,
    context: Context,
    start: Marker,
    scalar: &mut Folding,
) -> Result<(), Fault>
    ensures ok { OnOk result (Reads window.old window.new (λ a b.
        (plain_from context start a (at between window.old scalar.old) ≡ plain_from context start b (at between window.new scalar.new)) × (ends_gap b ≡ true))) }
    ensures err { IfErr result (λ e. Reads window.old window.new (λ a b. e ≢ Fault.OutOfMemory →
        plain_from context start a (at between window.old scalar.old) ≡ Err e)) }
{
    'gap: loop {
        let c = window.look_ch();
        if is_break(c) {
            window.lookahead(2);
            if window.at_cr_lf() {
                window.skip();
            } else {
                window.skip_break();
                scalar.add_break()?;
            }
        } else if !is_blank(c) {
            return Ok(());
        } else if scalar.leading && c == '\t' && window.mark().col() < context.indent {
            skip_tabs(window, start)?;
        } else {
            window.skip();
            scalar.add_blank(c)?;
            if scalar.leading {
                skip_spaces(window);
            }
        }
    }
}

/// Whether a plain scalar may begin here.
#[tactic(auto, unfolding(model_scanner::specs::Plain::starts))]
fn check_start<T: Characters>(window: &Window<T>, context: Context) -> Result<(), Fault>
    requires { 2 ≤ window.now.ahead }
    ensures { Sees window.now (λ a. result ≡ starts context a (position_of window.now)) }
{
    let start = window.mark();
    if context.flow && start.col() < context.indent {
        return Err(Fault::At(Problem::FlowIndentation, start));
    }
    if at_dash(window, context.flow) {
        return Err(Fault::At(Problem::PlainDashInFlow, start));
    }
    Ok(())
}

/// Reads the character that stands here and the rest of its line, and the gap after it. The result is whether a gap may
/// have come: without one the scalar ends here.
fn read_line<T: Characters>(
    window: &mut Window<T>,
    context: Context,
    start: Marker,
    scalar: &mut Folding,
) -> Result<bool, Fault>
    requires has { HasChar window.old }
    requires ahead { 0 < window.old.ahead }
    ensures ok { IfOk result (λ gap. Reads window.old window.new (λ a b.
        (plain_from context start a (at first window.old scalar.old) ≡ plain_from context start b (at between window.new scalar.new)) × (ends_gap b ≡ true)
        × (gap ≡ false → EndsHere context window.new b))) }
    ensures err { IfErr result (λ e. Reads window.old window.new (λ a b. e ≢ Fault.OutOfMemory →
        plain_from context start a (at first window.old scalar.old) ≡ Err e)) }
    ensures less { OnOk result (window.new.left < window.old.left) }
{
    let c = window.ch();
    scalar.join()?;
    scalar.push(c)?;
    window.skip();
    if !read_run(window, context, scalar)? {
        return Ok(false);
    }
    read_gap(window, context, start, scalar)?;
    Ok(true)
}

fn ended(scalar: Folding) -> Plain
    ensures { plain_shown result ≡ record { text = scalar.text; leading = scalar.leading } }
{
    Plain {
        leading: scalar.leading,
        text: scalar.text.into_string(),
    }
}

/// Reads a plain scalar, which may go on over lines, from its first character on.
#[tactic(auto, using(model_scanner::proofs::PlainLemmas::go_on, model_scanner::proofs::PlainLemmas::stop_here, model_scanner::proofs::PlainLemmas::fail_here), unfolding(model_scanner::specs::Plain::plain))]
pub fn read_plain<T: Characters>(
    alloc: Global,
    window: &mut Window<T>,
    context: Context,
) -> Result<Plain, Fault>
    requires { HasChar window.old }
    ensures ok { IfOk result (λ s. Lexes (plain context) window.old window.new (plain_shown s)) }
    ensures err { IfErr result (λ e. Refuses (plain context) window.old window.new e) }
    ensures less { OnOk result (window.new.left < window.old.left) }
{
    window.lookahead(2);
    let start = window.mark();
    check_start(window, context)?;
    let mut scalar = Folding::new(alloc);
    scalar.make_room()?;
    'lines: loop {
        if !read_line(window, context, start, &mut scalar)? {
            return Ok(ended(scalar));
        }
        if !goes_on(window, context)? {
            return Ok(ended(scalar));
        }
    }
}
