//! Directives (YAML 1.2, section 6.8).
ghost use Rattle.std.specs.Prelude.{◌≡◌, ◌≤◌, ◌<◌, OnOk, IfOk, IfErr};
ghost use Rattle.yaml_chars.specs.WindowView.{Sees, HasChar};
ghost use Rattle.yaml_tokens.specs.Shown.{tok_of};
ghost use Rattle.model_scanner.specs.Directive.{kind, name, number, version_value, tag_value, value, line_end, directive};
ghost use Rattle.yaml_lexers.specs.Shown.{Lexes, Refuses};
ghost use Rattle.yaml_lexers.specs.ShownTag.{kind_shown};

use crate::space::{skip_blanks, skip_comment, skip_linebreak, skip_ws_to_eol};
use crate::tag::{read_handle, read_prefix};
use model_scanner::SkipTabs;
use std::alloc::Global;
use yaml_chars::class::{is_alpha, is_blank_or_breakz, is_break, is_digit};
use yaml_chars::{Characters, Marker, TextBuilder, Window};
use yaml_tokens::{Fault, Problem, TokenType};

/// What a directive is by its name.
#[derive(Clone, Copy, PartialEq, Eq)]
enum Directive {
    Version,
    Tag,
    Unknown,
}

/// The directive whose name stands here.
#[tactic(auto, unfolding(model_scanner::specs::Directive::kind))]
fn directive_here<T: Characters>(window: &Window<T>) -> Directive
    requires { 5 ≤ window.now.ahead }
    ensures { Sees window.now (λ a. kind_shown result ≡ kind a) }
{
    let (a, b, c) = (window.peek(0), window.peek(1), window.peek(2));
    let (d, e) = (window.peek(3), window.peek(4));
    if a == 'Y' && b == 'A' && c == 'M' && d == 'L' && !is_alpha(e) {
        Directive::Version
    } else if a == 'T' && b == 'A' && c == 'G' && !is_alpha(d) {
        Directive::Tag
    } else {
        Directive::Unknown
    }
}

/// Steps over a directive's name.
#[tactic(auto, using(model_scanner::proofs::SpaceLemmas::skip_end), unfolding(model_scanner::specs::Directive::name))]
fn skip_name<T: Characters>(window: &mut Window<T>) -> Result<Directive, Fault>
    ensures ok { IfOk result (λ k. Lexes name window.old window.new (kind_shown k)) }
    ensures err { IfErr result (λ e. Refuses name window.old window.new e) }
{
    window.lookahead(5);
    let position = window.mark();
    let directive = directive_here(window);
    if !is_alpha(window.ch()) {
        return Err(Fault::At(Problem::DirectiveName, position));
    }
    // ASCII letters, digits, `_` and `-`.
    'name: while is_alpha(window.look_ch()) {
        window.skip();
    }
    if !is_blank_or_breakz(window.look_ch()) {
        return Err(Fault::At(Problem::DirectiveNameEnd, position));
    }
    Ok(directive)
}

/// Reads a number of a version, of at most nine digits.
#[tactic(auto, using(model_scanner::proofs::DirectiveLemmas::digits_stop, model_scanner::proofs::DirectiveLemmas::too_long), unfolding(model_scanner::specs::Directive::number, yaml_chars::specs::Class::is_digit))]
fn read_number<T: Characters>(window: &mut Window<T>, start: Marker) -> Result<u32, Fault>
    ensures ok { IfOk result (λ n. Lexes (number start) window.old window.new n) }
    ensures err { IfErr result (λ e. Refuses (number start) window.old window.new e) }
{
    let mut value = 0u32;
    let mut length = 0usize;
    'digits: loop {
        let c = window.look_ch();
        if !is_digit(c) {
            if length == 0 {
                return Err(Fault::At(Problem::VersionNumber, start));
            }
            return Ok(value);
        }
        if length == 9 {
            return Err(Fault::At(Problem::VersionTooLong, start));
        }
        value = value * 10 + (c as u32 - '0' as u32);
        length += 1;
        window.skip();
    }
}

/// Reads the two numbers of a version, with the dot between them.
#[tactic(auto, unfolding(model_scanner::specs::Directive::version_value))]
fn read_version<T: Characters>(window: &mut Window<T>, start: Marker) -> Result<TokenType, Fault>
    ensures ok { IfOk result (λ t. Lexes (version_value start) window.old window.new (tok_of t)) }
    ensures err { IfErr result (λ e. Refuses (version_value start) window.old window.new e) }
{
    skip_blanks(window);
    let major = read_number(window, start)?;
    if window.look_ch() != '.' {
        return Err(Fault::At(Problem::VersionDot, start));
    }
    window.skip();
    let minor = read_number(window, start)?;
    Ok(TokenType::VersionDirective(major, minor))
}

/// Reads a handle and its prefix.
#[tactic(auto, unfolding(model_scanner::specs::Directive::tag_value))]
fn read_tag_directive<T: Characters>(
    alloc: Global,
    window: &mut Window<T>,
    start: Marker,
) -> Result<TokenType, Fault>
    ensures ok { IfOk result (λ t. Lexes (tag_value start) window.old window.new (tok_of t)) }
    ensures err { IfErr result (λ e. Refuses (tag_value start) window.old window.new e) }
{
    skip_blanks(window);
    let handle = read_handle(alloc, window, start)?;
    skip_blanks(window);
    let prefix = read_prefix(alloc, window, start)?;
    if !is_blank_or_breakz(window.look_ch()) {
        return Err(Fault::At(Problem::TagDirectiveEnd, start));
    }
    Ok(TokenType::TagDirective(handle.into_string(), prefix.into_string()))
}

/// Reads what a directive says, up to what may stand before its line's end.
fn read_value<T: Characters>(
    alloc: Global,
    window: &mut Window<T>,
    start: Marker,
    directive: Directive,
) -> Result<TokenType, Fault>
    ensures ok { IfOk result (λ t. Lexes (value start (kind_shown directive)) window.old window.new (tok_of t)) }
    ensures err { IfErr result (λ e. Refuses (value start (kind_shown directive)) window.old window.new e) }
{
    match directive {
        Directive::Version => read_version(window, start),
        Directive::Tag => read_tag_directive(alloc, window, start),
        Directive::Unknown => {
            skip_comment(window);
            let (handle, prefix) = (TextBuilder::new(alloc), TextBuilder::new(alloc));
            Ok(TokenType::TagDirective(handle.into_string(), prefix.into_string()))
        }
    }
}

/// Steps over a directive's line from after its value on, with its break.
#[tactic(auto, using(model_scanner::proofs::DirectiveLemmas::break_stands, model_scanner::proofs::DirectiveLemmas::break_fails), unfolding(model_scanner::specs::Directive::directive_break, model_scanner::specs::Directive::line_end))]
fn skip_line_end<T: Characters>(window: &mut Window<T>, start: Marker) -> Result<(), Fault>
    ensures ok { IfOk result (λ _. Lexes (line_end start) window.old window.new tt) }
    ensures err { IfErr result (λ e. Refuses (line_end start) window.old window.new e) }
{
    skip_ws_to_eol(window, SkipTabs::Yes)?;
    let c = window.look_ch();
    if c == '\0' {
        return Ok(());
    }
    if !is_break(c) {
        return Err(Fault::At(Problem::DirectiveEnd, start));
    }
    skip_linebreak(window);
    Ok(())
}

/// Reads a directive, from the `%` to after its line's break. One of an unknown name is a tag
/// directive of two empty texts.
#[tactic(auto, unfolding(model_scanner::specs::Directive::directive))]
pub fn read_directive<T: Characters>(
    alloc: Global,
    window: &mut Window<T>,
) -> Result<TokenType, Fault>
    requires has { HasChar window.old }
    requires ahead { 0 < window.old.ahead }
    ensures ok { IfOk result (λ t. Lexes directive window.old window.new (tok_of t)) }
    ensures err { IfErr result (λ e. Refuses directive window.old window.new e) }
    ensures less { OnOk result (window.new.left < window.old.left) }
{
    let start = window.mark();
    window.skip();
    let directive = skip_name(window)?;
    let token = read_value(alloc, window, start, directive)?;
    skip_line_end(window, start)?;
    Ok(token)
}
