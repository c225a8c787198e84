//! Block scalars (YAML 1.2, section 8.1).
ghost use Rattle.std.specs.Prelude.{◌≡◌, ◌≢◌, ◌≤◌, ◌<◌, ◌^◌, ◌++◌, ◌==◌, ◌&&◌, slice_index, [], ℕ, Bool, true, false, Ok, Err, OnOk, OnErr, IfOk, IfErr};
ghost use Rattle.yaml_chars.specs.WindowView.{Reads, Sees, HasChar, SamePosition, position_of};
ghost use Rattle.yaml_chars.specs.Words.{TakesWords};
ghost use Rattle.yaml_chars.specs.declared.run.Run.TheVariants as run;
ghost use Rattle.defs_text.specs.Text.{string_chars};
ghost use Rattle.model_scanner.specs.BlockScalar.{margin, line, lines_from, begins, begun, with_char, tail, ends_indent, indent_from, first_indent, content, empty_text, after_header, block};
ghost use Rattle.yaml_lexers.specs.Shown.{Lexes, Refuses, read};
ghost use Rattle.yaml_lexers.specs.ShownBlock.{lines, at, column_shown, header_shown};

use crate::header::{Header, read_header};
use crate::plain::at_marker;
use std::alloc::{AllocError, Global};
use yaml_chars::class::{is_blank, is_break, is_breakz};
use yaml_chars::{Characters, Marker, Run, TextBuilder, Window};
use yaml_tokens::{Chomping, Fault, Problem};

/// A block scalar's `|` or `>`: whether it is the literal one, its position, and the column of the
/// innermost block collection around it, counted from 1, 0 where none is open.
#[derive(Clone, Copy)]
struct Indicator {
    literal: bool,
    position: Marker,
    indent: usize,
}

/// The lines of a block scalar so far: the text up to the last content line, the breaks after
/// that line's own, whether it has one, and whether it starts with a blank.
#[derive(Drop)]
struct Lines {
    text: TextBuilder,
    breaks: TextBuilder,
    broken: bool,
    blank: bool,
}

impl Lines {
    fn new(alloc: Global) -> Self
        ensures { lines result ≡ record { text = []; breaks = []; broken = false; blank = false } }
    {
        Lines {
            text: TextBuilder::new(alloc),
            breaks: TextBuilder::new(alloc),
            broken: false,
            blank: false,
        }
    }

    /// Begins a content line with `c`, after what stands between it and the last one.
    #[tactic(auto, unfolding(model_scanner::specs::BlockScalar::between))]
    fn begin(&mut self, literal: bool, c: char) -> Result<(), AllocError>
        ensures { OnOk result (lines self.new ≡ with_char c (begun literal c (lines self.old))) }
    {
        let blank = is_blank(c);
        // Line folding applies to a break between two content lines of which neither begins with
        // a blank (YAML 1.2, section 8.1.3).
        if !literal && self.broken && !self.blank && !blank {
            if self.breaks.is_empty() {
                self.text.push(' ')?;
            } else {
                self.text.append(&self.breaks)?;
            }
        } else {
            if self.broken {
                self.text.push('\n')?;
            }
            if !self.breaks.is_empty() {
                self.text.append(&self.breaks)?;
            }
        }
        self.breaks.clear();
        self.broken = false;
        self.blank = blank;
        self.text.push(c)?;
        Ok(())
    }
}

/// Whether a CR LF comes. Only after a CR a second character is looked at.
#[inline(always)]
fn comes_cr_lf<T: Characters>(window: &mut Window<T>) -> bool
    requires { 0 < window.old.ahead }
    ensures reads { Reads window.old window.new (λ a b. (b ≡ a) × (result ≡ (slice_index b 0 == 13 && slice_index b 1 == 10))) }
    ensures position { SamePosition window.old window.new }
    ensures has { HasChar window.old → HasChar window.new }
{
    if window.ch() != '\r' {
        return false;
    }
    window.lookahead(2);
    window.at_cr_lf()
}

/// Steps over the spaces and empty lines before the first content line. The answer is the most
/// spaces that a line of these begins with.
#[tactic(auto, using(model_scanner::proofs::BlockLemmas::first_stop))]
fn read_first_indent<T: Characters>(
    window: &mut Window<T>,
    block: &mut Lines,
) -> Result<usize, AllocError>
    ensures ok { IfOk result (λ n. Reads window.old window.new (λ a b.
        first_indent a (record { most = 0; spaces = 0; position = position_of window.old; breaks = (lines block.old).breaks }) ≡ read b window.new (column_shown n (lines block.new).breaks))) }
    ensures same { OnOk result (lines block.new ≡ record (lines block.old) { breaks = (lines block.new).breaks }) }
    ensures err { OnErr result (Reads window.old window.new (λ _ _. Unit {0})) }
    ensures ahead { OnOk result (0 < window.new.ahead) }
{
    let mut most = 0usize;
    let mut spaces = 0usize;
    'indent: loop {
        if window.take_space() {
            spaces = window.mark().col();
            continue;
        }
        if !is_break(window.look_ch()) {
            return Ok(most.max(spaces));
        }
        if comes_cr_lf(window) {
            window.skip();
        } else {
            window.skip_break();
            block.breaks.push('\n')?;
            most = most.max(spaces);
            spaces = 0;
        }
    }
}

/// Steps over indentation and empty lines.
#[tactic(auto, using(model_scanner::proofs::BlockLemmas::indent_stop, crate::proofs::BlockLemmas::indent_ends))]
fn read_indent<T: Characters>(
    window: &mut Window<T>,
    column: usize,
    block: &mut Lines,
) -> Result<(), AllocError>
    ensures ok { OnOk result (Reads window.old window.new (λ a b.
        (indent_from column a (record { position = position_of window.old; breaks = (lines block.old).breaks }) ≡ read b window.new (column_shown column (lines block.new).breaks))
        × ((literal : Bool) → lines_from literal column a (at margin window.old block.old) ≡ lines_from literal column b (at margin window.new block.new)) × (ends_indent column window.new.col b ≡ true))) }
    ensures same { OnOk result (lines block.new ≡ record (lines block.old) { breaks = (lines block.new).breaks }) }
    ensures err { OnErr result (Reads window.old window.new (λ _ _. Unit {0})) }
    ensures ahead { OnOk result (0 < window.new.ahead) }
{
    'indent: loop {
        if window.mark().col() < column && window.take_space() {
            continue;
        }
        if !is_break(window.look_ch()) {
            return Ok(());
        }
        if comes_cr_lf(window) {
            window.skip();
        } else {
            window.skip_break();
            block.breaks.push('\n')?;
        }
    }
}

/// Takes words of a line, and lone blanks between them, as far as the text is known. Where nothing is known, the next three
/// characters of a line are in the window then. A fault of memory stands after the one of these that it was refused for.
fn take_known<T: Characters>(
    window: &mut Window<T>,
    text: &mut TextBuilder,
) -> Result<(), AllocError>
    ensures ok { OnOk result (Reads window.old window.new (λ a b. TakesWords run.Line a b (position_of window.old) (position_of window.new) text.old text.new)) }
    ensures err { OnErr result (Reads window.old window.new (λ _ _. Unit {0})) }
{
    let begins = window.len() == 0;
    if window.take_words(Run::Line, text)? || !begins {
        return Ok(());
    }
    window.lookahead(3);
    Ok(())
}

/// Reads the characters up to a break or the end.
fn read_run<T: Characters>(window: &mut Window<T>, block: &mut Lines) -> Result<(), AllocError>
    ensures ok { OnOk result (Reads window.old window.new (λ a b. (literal : Bool) (column : ℕ) →
        lines_from literal column a (at line window.old block.old) ≡ lines_from literal column b (at line window.new block.new))) }
    ensures err { OnErr result (Reads window.old window.new (λ _ _. Unit {0})) }
{
    take_known(window, &mut block.text)?;
    if is_breakz(window.look_ch()) {
        return Ok(());
    }
    window.take_run(Run::Line, &mut block.text)
}

/// Reads a content line and its break.
fn read_line<T: Characters>(window: &mut Window<T>, block: &mut Lines) -> Result<(), AllocError>
    ensures ok { OnOk result (Reads window.old window.new (λ a b. (literal : Bool) (column : ℕ) →
        lines_from literal column a (at line window.old block.old) ≡ lines_from literal column b (at margin window.new block.new))) }
    ensures err { OnErr result (Reads window.old window.new (λ _ _. Unit {0})) }
{
    'line: loop {
        read_run(window, block)?;
        let c = window.look_ch();
        if is_break(c) {
            if comes_cr_lf(window) {
                window.skip();
            } else {
                window.skip_break();
                block.broken = true;
                return Ok(());
            }
        } else if c == '\0' {
            return Ok(());
        } else {
            window.skip();
            block.text.push(c)?;
        }
    }
}

/// Whether a content line begins here.
#[tactic(auto, unfolding(model_scanner::specs::BlockScalar::begins))]
fn begins<T: Characters>(window: &Window<T>, column: usize) -> bool
    requires ahead { 0 < window.now.ahead }
    requires marker { column ≡ 0 → 4 ≤ window.now.ahead }
    ensures sees { Sees window.now (λ a. result ≡ begins column window.now.col a) }
    ensures has { result ≡ true → HasChar window.now }
{
    if window.ch() == '\0' {
        return false;
    }
    window.mark().col() == column && !at_marker(window)
}

/// Reads the lines of a block scalar whose content stands at a column, from the first one on.
#[tactic(auto, using(model_scanner::proofs::BlockLemmas::stop_lines))]
fn read_lines<T: Characters>(
    window: &mut Window<T>,
    literal: bool,
    column: usize,
    block: &mut Lines,
) -> Result<(), AllocError>
    ensures ok { OnOk result (Reads window.old window.new (λ a b. lines_from literal column a (at margin window.old block.old) ≡ Ok (read b window.new (lines block.new)))) }
    ensures err { OnErr result (Reads window.old window.new (λ _ _. Unit {0})) }
    ensures ahead { OnOk result (0 < window.new.ahead) }
{
    'lines: loop {
        read_indent(window, column, block)?;
        // A document marker has three characters and an end, and stands only at a line's first column.
        window.lookahead(if column == 0 { 4 } else { 1 });
        if !begins(window, column) {
            return Ok(());
        }
        let c = window.ch();
        block.begin(literal, c)?;
        window.skip();
        read_line(window, block)?;
    }
}

/// Puts what the chomping leaves of the tail.
#[tactic(auto, unfolding(model_scanner::specs::BlockScalar::tail))]
fn chomp(block: &mut Lines, chomping: Chomping, unbroken: bool) -> Result<(), AllocError>
    ensures { OnOk result (block.new.text ≡ block.old.text ++ tail chomping unbroken (lines block.old)) }
{
    if let Chomping::Strip = chomping {
        return Ok(());
    }
    if block.broken {
        block.text.push('\n')?;
    }
    if unbroken {
        block.text.push('\n')?;
    }
    if let Chomping::Keep = chomping {
        block.text.append(&block.breaks)?;
    }
    Ok(())
}

/// The text of a scalar without a content line at the end of the text.
#[tactic(auto, unfolding(model_scanner::specs::BlockScalar::empty_text))]
fn take_empty(chomping: Chomping, broken: bool, block: Lines) -> Result<TextBuilder, AllocError>
    requires { (lines block).text ≡ [] }
    ensures { IfOk result (λ t. t ≡ empty_text chomping broken (lines block).breaks) }
{
    let Lines {
        mut text,
        breaks,
        broken: _,
        blank: _,
    } = block;
    if !broken {
        return Ok(text);
    }
    match chomping {
        Chomping::Strip => Ok(text),
        Chomping::Keep if !breaks.is_empty() => Ok(breaks),
        Chomping::Clip | Chomping::Keep => {
            text.push('\n')?;
            Ok(text)
        }
    }
}

/// Steps to the first content line, and answers the column where content stands.
#[tactic(auto, unfolding(model_scanner::specs::BlockScalar::content))]
fn read_column<T: Characters>(
    window: &mut Window<T>,
    indent: usize,
    increment: usize,
    block: &mut Lines,
) -> Result<usize, AllocError>
    requires indented { indent ≤ 2 ^ 63 }
    requires increment { increment < 10 }
    requires fresh { lines block.old ≡ record { text = []; breaks = []; broken = false; blank = false } }
    ensures ok { IfOk result (λ n. Reads window.old window.new (λ a b. content indent increment a (position_of window.old) ≡ read b window.new (column_shown n (lines block.new).breaks))) }
    ensures same { OnOk result (lines block.new ≡ record { text = []; breaks = (lines block.new).breaks; broken = false; blank = false }) }
    ensures err { OnErr result (Reads window.old window.new (λ _ _. Unit {0})) }
    ensures ahead { OnOk result (0 < window.new.ahead) }
{
    if increment == 0 {
        let most = read_first_indent(window, block)?;
        return Ok(most.max(indent));
    }
    let column = indent.saturating_sub(1) + increment;
    read_indent(window, column, block)?;
    Ok(column)
}

/// Reads the lines after a header, and what the chomping leaves of their tail. The answer is the token's position and the text.
fn read_after<T: Characters>(
    alloc: Global,
    window: &mut Window<T>,
    indicator: Indicator,
    header: Header,
) -> Result<(Marker, String), Fault>
    requires indented { indicator.indent ≤ 2 ^ 63 }
    requires increment { header.increment < 10 }
    ensures ok { IfOk result (λ s. Reads window.old window.new (λ a b.
        after_header indicator.literal indicator.indent indicator.position (header_shown header) (content indicator.indent header.increment a (position_of window.old)) ≡ Ok (read b window.new (record { position = s.0; text = string_chars s.1 })))) }
    ensures err { IfErr result (λ e. Reads window.old window.new (λ a b. e ≢ Fault.OutOfMemory →
        after_header indicator.literal indicator.indent indicator.position (header_shown header) (content indicator.indent header.increment a (position_of window.old)) ≡ Err e)) }
{
    let mut block = Lines::new(alloc);
    let column = read_column(window, indicator.indent, header.increment, &mut block)?;
    if window.ch() == '\0' {
        let text = take_empty(header.chomping, header.broken, block)?;
        return Ok((indicator.position, text.into_string()));
    }
    let position = window.mark();
    if position.col() < column && indicator.indent <= position.col() {
        return Err(Fault::At(Problem::BlockScalarIndentation, position));
    }
    read_lines(window, indicator.literal, column, &mut block)?;
    let col = window.mark().col();
    let unbroken = window.look_ch() == '\0' && column <= col && 0 < col;
    chomp(&mut block, header.chomping, unbroken)?;
    Ok((position, block.text.into_string()))
}

/// Reads a block scalar, from its `|` or `>` on. `indent` is the innermost block collection's
/// column counted from 1, 0 where none is open. The answer is the token's position and the text.
#[tactic(auto, unfolding(model_scanner::specs::BlockScalar::block))]
pub fn read_block_scalar<T: Characters>(
    alloc: Global,
    window: &mut Window<T>,
    literal: bool,
    indent: usize,
) -> Result<(Marker, String), Fault>
    requires indented { indent ≤ 2 ^ 63 }
    requires has { HasChar window.old }
    requires ahead { 0 < window.old.ahead }
    ensures ok { IfOk result (λ s. Lexes (block literal indent) window.old window.new (record { position = s.0; text = string_chars s.1 })) }
    ensures err { IfErr result (λ e. Refuses (block literal indent) window.old window.new e) }
    ensures less { OnOk result (window.new.left < window.old.left) }
{
    let indicator = Indicator {
        literal,
        position: window.mark(),
        indent,
    };
    window.skip();
    let header = read_header(window, indicator.position)?;
    read_after(alloc, window, indicator, header)
}
