//! Tags (YAML 1.2, sections 6.8.2 and 6.9.1).
ghost use Rattle.std.specs.Prelude.{◌≡◌, ◌<◌, Ok, Err, OnOk, OnErr, IfOk, IfErr};
ghost use Rattle.yaml_chars.specs.Class.{is_alpha};
ghost use Rattle.yaml_chars.specs.WindowView.{Reads, HasChar, position_of};
ghost use Rattle.defs_text.specs.Text.{string_chars};
ghost use Rattle.model_scanner.specs.Machine.{take_while};
ghost use Rattle.model_scanner.specs.Tag.{verbatim, named, shorthand, tag_here, ends_tag, tag, handle, prefix};
ghost use Rattle.yaml_lexers.specs.Shown.{Lexes, Refuses, read};
ghost use Rattle.yaml_lexers.specs.ShownTag.{tag_shown};

use crate::uri::{read_suffix, read_uri};
use std::alloc::{AllocError, Global};
use yaml_chars::class::{is_alpha, is_blank_or_breakz, is_flow, is_tag};
use yaml_chars::{Characters, Marker, TextBuilder, Window};
use yaml_tokens::{Fault, Problem};

/// Reads ASCII letters, digits, `_` and `-`.
#[tactic(auto, using(model_scanner::proofs::SpaceLemmas::take_end))]
fn read_word<T: Characters>(
    window: &mut Window<T>,
    text: &mut TextBuilder,
) -> Result<(), AllocError>
    ensures ok { OnOk result (Reads window.old window.new (λ a b. take_while is_alpha a (position_of window.old) text.old ≡ read b window.new text.new)) }
    ensures err { OnErr result (Reads window.old window.new (λ _ _. Unit {0})) }
    ensures ahead { OnOk result (0 < window.new.ahead) }
{
    'word: loop {
        let c = window.look_ch();
        if !is_alpha(c) {
            return Ok(());
        }
        text.push(c)?;
        window.skip();
    }
}

/// Reads a tag after its `!<`.
#[tactic(auto, using(model_scanner::proofs::TagLemmas::verbatim_closes, model_scanner::proofs::TagLemmas::verbatim_fails), unfolding(model_scanner::specs::Tag::verbatim))]
fn read_verbatim<T: Characters>(
    alloc: Global,
    window: &mut Window<T>,
    start: Marker,
) -> Result<(String, String), Fault>
    ensures ok { IfOk result (λ s. Lexes (verbatim start) window.old window.new (tag_shown (string_chars s.0) (string_chars s.1))) }
    ensures err { IfErr result (λ e. Refuses (verbatim start) window.old window.new e) }
{
    let handle = TextBuilder::new(alloc);
    let mut uri = TextBuilder::new(alloc);
    read_uri(window, start, &mut uri)?;
    if window.look_ch() != '>' {
        return Err(Fault::At(Problem::VerbatimTagEnd, start));
    }
    window.skip();
    Ok((handle.into_string(), uri.into_string()))
}

/// Reads the suffix after a handle `!name!`.
#[tactic(auto, unfolding(model_scanner::specs::Tag::named))]
fn read_named<T: Characters>(
    alloc: Global,
    window: &mut Window<T>,
    start: Marker,
    name: TextBuilder,
) -> Result<(String, String), Fault>
    ensures ok { IfOk result (λ s. Lexes (named start name) window.old window.new (tag_shown (string_chars s.0) (string_chars s.1))) }
    ensures err { IfErr result (λ e. Refuses (named start name) window.old window.new e) }
{
    let mut handle = TextBuilder::new(alloc);
    handle.push('!')?;
    handle.append(&name)?;
    handle.push('!')?;
    let mut suffix = TextBuilder::new(alloc);
    read_suffix(window, start, &mut suffix)?;
    if suffix.is_empty() {
        return Err(Fault::At(Problem::TagUri, start));
    }
    Ok((handle.into_string(), suffix.into_string()))
}

/// Reads a tag after its first `!`: `!<uri>`, `!`, `!suffix`, `!!suffix` or `!name!suffix`.
#[tactic(auto, unfolding(model_scanner::specs::Tag::shorthand))]
fn read_here<T: Characters>(
    alloc: Global,
    window: &mut Window<T>,
    start: Marker,
) -> Result<(String, String), Fault>
    ensures ok { IfOk result (λ s. Lexes (tag_here start) window.old window.new (tag_shown (string_chars s.0) (string_chars s.1))) }
    ensures err { IfErr result (λ e. Refuses (tag_here start) window.old window.new e) }
{
    if window.look_ch() == '<' {
        window.skip();
        return read_verbatim(alloc, window, start);
    }
    let mut name = TextBuilder::new(alloc);
    read_word(window, &mut name)?;
    if window.look_ch() == '!' {
        window.skip();
        return read_named(alloc, window, start, name);
    }
    // A suffix without a handle begins with the name.
    read_suffix(window, start, &mut name)?;
    let mut exclamation = TextBuilder::new(alloc);
    exclamation.push('!')?;
    if name.is_empty() {
        return Ok((name.into_string(), exclamation.into_string()));
    }
    Ok((exclamation.into_string(), name.into_string()))
}

/// Reads a tag from its `!` on: its handle and its suffix.
#[tactic(auto, unfolding(model_scanner::specs::Tag::tag, model_scanner::specs::Tag::ends_tag))]
pub fn read_tag<T: Characters>(
    alloc: Global,
    window: &mut Window<T>,
    in_flow: bool,
) -> Result<(String, String), Fault>
    requires has { HasChar window.old }
    requires ahead { 0 < window.old.ahead }
    ensures ok { IfOk result (λ s. Lexes (tag in_flow) window.old window.new (tag_shown (string_chars s.0) (string_chars s.1))) }
    ensures err { IfErr result (λ e. Refuses (tag in_flow) window.old window.new e) }
    ensures less { OnOk result (window.new.left < window.old.left) }
{
    let start = window.mark();
    window.skip();
    let tag = read_here(alloc, window, start)?;
    let c = window.look_ch();
    if !is_blank_or_breakz(c) && !(in_flow && is_flow(c)) {
        return Err(Fault::At(Problem::TagEnd, start));
    }
    Ok(tag)
}

/// Reads the handle of a tag directive: `!`, `!!` or `!name!`.
#[tactic(auto, unfolding(model_scanner::specs::Tag::handle))]
pub(crate) fn read_handle<T: Characters>(
    alloc: Global,
    window: &mut Window<T>,
    start: Marker,
) -> Result<TextBuilder, Fault>
    ensures ok { IfOk result (λ h. Lexes (handle start) window.old window.new h) }
    ensures err { IfErr result (λ e. Refuses (handle start) window.old window.new e) }
{
    if window.look_ch() != '!' {
        return Err(Fault::At(Problem::TagStart, start));
    }
    window.skip();
    let mut handle = TextBuilder::new(alloc);
    handle.push('!')?;
    let bare = !is_alpha(window.look_ch());
    read_word(window, &mut handle)?;
    if window.look_ch() == '!' {
        window.skip();
        handle.push('!')?;
        return Ok(handle);
    }
    // After a name a `!` has to stand.
    if !bare {
        return Err(Fault::At(Problem::TagDirectiveHandle, start));
    }
    Ok(handle)
}

/// Reads the prefix of a tag directive: a `!` or a character of a tag, and characters of a URI.
#[tactic(auto, unfolding(model_scanner::specs::Tag::prefix))]
pub(crate) fn read_prefix<T: Characters>(
    alloc: Global,
    window: &mut Window<T>,
    start: Marker,
) -> Result<TextBuilder, Fault>
    ensures ok { IfOk result (λ h. Lexes (prefix start) window.old window.new h) }
    ensures err { IfErr result (λ e. Refuses (prefix start) window.old window.new e) }
{
    let c = window.look_ch();
    let mut prefix = TextBuilder::new(alloc);
    if c != '!' && !is_tag(c) {
        return Err(Fault::At(Problem::GlobalTagCharacter, start));
    }
    read_uri(window, start, &mut prefix)?;
    Ok(prefix)
}
