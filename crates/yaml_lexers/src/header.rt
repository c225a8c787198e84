//! Headers of block scalars (YAML 1.2, section 8.1.1).
ghost use Rattle.std.specs.Prelude.{◌≡◌, ◌<◌, true, false, Ok, Err, IfOk, IfErr};
ghost use Rattle.yaml_chars.specs.WindowView.{Reads, position_of};
ghost use Rattle.model_scanner.specs.BlockScalar.{chomping, increment, indicators, header_end, header};
ghost use Rattle.yaml_lexers.specs.Shown.{read};
ghost use Rattle.yaml_lexers.specs.ShownBlock.{indicators_shown, header_shown};

use crate::space::{skip_linebreak, skip_ws_to_eol};
use model_scanner::SkipTabs;
use yaml_chars::class::{hex_value, is_break, is_digit};
use yaml_chars::{Characters, Marker, Window};
use yaml_tokens::{Chomping, Fault, Problem};

/// A header: the chomping, the indentation indicator or 0 where there is none, and whether a break
/// ended it.
#[derive(Drop)]
pub(crate) struct Header {
    pub chomping: Chomping,
    pub increment: usize,
    pub broken: bool,
}

/// Reads a chomping indicator, if one stands here, else it is `Clip`.
#[tactic(auto, using(model_scanner::proofs::BlockLemmas::no_chomping), unfolding(model_scanner::specs::BlockScalar::chomping))]
fn read_chomping<T: Characters>(window: &mut Window<T>) -> Chomping
    ensures { Reads window.old window.new (λ a b. chomping a (position_of window.old) ≡ read b window.new result) }
{
    match window.look_ch() {
        '+' => {
            window.skip();
            Chomping::Keep
        }
        '-' => {
            window.skip();
            Chomping::Strip
        }
        _ => Chomping::Clip,
    }
}

/// Reads an indentation indicator, if one stands here, else it is 0.
#[tactic(auto, using(model_scanner::proofs::BlockLemmas::no_increment), unfolding(yaml_chars::specs::Class::is_digit, model_scanner::specs::BlockScalar::increment))]
fn read_increment<T: Characters>(window: &mut Window<T>, start: Marker) -> Result<usize, Fault>
    ensures ok { IfOk result (λ n. Reads window.old window.new (λ a b. increment start a (position_of window.old) ≡ Ok (read b window.new n))) }
    ensures err { IfErr result (λ e. Reads window.old window.new (λ a b. increment start a (position_of window.old) ≡ Err e)) }
    ensures small { IfOk result (λ n. n < 10) }
{
    let c = window.look_ch();
    if !is_digit(c) {
        return Ok(0);
    }
    if c == '0' {
        return Err(Fault::At(Problem::BlockScalarZero, start));
    }
    window.skip();
    Ok(c as usize - '0' as usize)
}

/// Reads the chomping and the indentation indicator, in either order.
#[tactic(auto, unfolding(model_scanner::specs::BlockScalar::indicators))]
fn read_indicators<T: Characters>(
    window: &mut Window<T>,
    start: Marker,
) -> Result<(Chomping, usize), Fault>
    ensures ok { IfOk result (λ h. Reads window.old window.new (λ a b. indicators start a (position_of window.old) ≡ Ok (read b window.new (indicators_shown h.0 h.1)))) }
    ensures err { IfErr result (λ e. Reads window.old window.new (λ a b. indicators start a (position_of window.old) ≡ Err e)) }
    ensures small { IfOk result (λ h. h.1 < 10) }
{
    let early = read_chomping(window);
    let increment = read_increment(window, start)?;
    match early {
        Chomping::Clip => Ok((read_chomping(window), increment)),
        Chomping::Strip => Ok((Chomping::Strip, increment)),
        Chomping::Keep => Ok((Chomping::Keep, increment)),
    }
}

/// Steps over the rest of a header's line, with its break. The answer is whether a break ended it.
#[tactic(auto, using(model_scanner::proofs::BlockLemmas::break_stands, model_scanner::proofs::BlockLemmas::header_fails), unfolding(model_scanner::specs::BlockScalar::header_break, model_scanner::specs::BlockScalar::header_end))]
fn end_header<T: Characters>(window: &mut Window<T>, start: Marker) -> Result<bool, Fault>
    ensures ok { IfOk result (λ broken. Reads window.old window.new (λ a b. header_end start a (position_of window.old) ≡ Ok (read b window.new broken))) }
    ensures err { IfErr result (λ e. Reads window.old window.new (λ a b. header_end start a (position_of window.old) ≡ Err e)) }
{
    skip_ws_to_eol(window, SkipTabs::Yes)?;
    let c = window.look_ch();
    if c == '\0' {
        return Ok(false);
    }
    if !is_break(c) {
        return Err(Fault::At(Problem::BlockScalarHeader, start));
    }
    skip_linebreak(window);
    if window.look_ch() == '\t' {
        return Err(Fault::At(Problem::BlockScalarTab, start));
    }
    Ok(true)
}

/// Reads a header from after the `|` or `>` on, with its line's break.
#[tactic(auto, unfolding(model_scanner::specs::BlockScalar::header))]
pub(crate) fn read_header<T: Characters>(
    window: &mut Window<T>,
    start: Marker,
) -> Result<Header, Fault>
    ensures ok { IfOk result (λ h. Reads window.old window.new (λ a b. header start a (position_of window.old) ≡ Ok (read b window.new (header_shown h)))) }
    ensures err { IfErr result (λ e. Reads window.old window.new (λ a b. header start a (position_of window.old) ≡ Err e)) }
    ensures small { IfOk result (λ h. h.increment < 10) }
{
    let (chomping, increment) = read_indicators(window, start)?;
    let broken = end_header(window, start)?;
    Ok(Header {
        chomping,
        increment,
        broken,
    })
}
