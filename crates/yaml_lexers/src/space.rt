//! Spaces, comments and line breaks.
ghost use Rattle.std.specs.Prelude.{◌≡◌, ◌<◌, Ok, Err, IfOk, IfErr};
ghost use Rattle.yaml_chars.specs.WindowView.{Reads, HasChar, position_of};
ghost use Rattle.model_scanner.specs.Blanks.{linebreak, comment, blanks, space};
ghost use Rattle.yaml_lexers.specs.Shown.{read};

use crate::folding::FEW;
use model_scanner::{SkipTabs, Whitespace};
use yaml_chars::class::{is_blank, is_breakz};
use yaml_chars::{Characters, Run, Window};
use yaml_tokens::{Fault, Problem};

/// Steps over the line break that stands here, CR LF as one.
pub fn skip_linebreak<T: Characters>(window: &mut Window<T>)
    requires { HasChar window.old }
    ensures reads { Reads window.old window.new (λ a b. linebreak a (position_of window.old) ≡ read b window.new tt) }
    ensures less { window.new.left < window.old.left }
{
    window.lookahead(2);
    if window.at_cr_lf() {
        window.skip();
        window.skip_break();
    } else {
        window.skip_break();
    }
}

/// Steps to the end of a line of more than a few characters. What stands there is then in the window.
#[inline(never)]
#[tactic(auto, using(model_scanner::proofs::SpaceLemmas::comment_on, model_scanner::proofs::SpaceLemmas::comment_end))]
fn pass_rest<T: Characters>(window: &mut Window<T>)
    ensures reads { Reads window.old window.new (λ a b. comment a (position_of window.old) ≡ read b window.new tt) }
    ensures ahead { 0 < window.new.ahead }
{
    window.pass_words(Run::Line);
    'comment: while let Some(_) = window.take(Run::Line) {}
    window.look_ch();
}

/// Steps to the end of the line. What stands there is then in the window.
#[inline(always)]
#[tactic(auto, using(model_scanner::proofs::SpaceLemmas::skip_end))]
pub fn skip_comment<T: Characters>(window: &mut Window<T>)
    ensures reads { Reads window.old window.new (λ a b. comment a (position_of window.old) ≡ read b window.new tt) }
    ensures ahead { 0 < window.new.ahead }
{
    let mut left = FEW;
    'few: while left > 0 {
        if is_breakz(window.look_ch()) {
            return;
        }
        window.skip();
        left -= 1;
    }
    pass_rest(window);
}

/// Steps over spaces, TABs where these are to be skipped, and a comment, up to the end of the
/// line. What stands after them is then in the window.
#[inline(always)]
#[tactic(auto, using(crate::proofs::SpaceLemmas::no_space), unfolding(model_scanner::specs::Blanks::space))]
pub fn skip_ws_to_eol<T: Characters>(
    window: &mut Window<T>,
    tabs: SkipTabs,
) -> Result<Whitespace, Fault>
    ensures ok { IfOk result (λ w. Reads window.old window.new (λ a b. space tabs a (position_of window.old) ≡ Ok (read b window.new w))) }
    ensures err { IfErr result (λ e. Reads window.old window.new (λ a b. space tabs a (position_of window.old) ≡ Err e)) }
    ensures ahead { 0 < window.new.ahead }
{
    let c = window.look_ch();
    if is_blank(c) || c == '#' {
        return skip_spaces(window, tabs);
    }
    Ok(Whitespace {
        found_tabs: false,
        has_valid_yaml_ws: false,
    })
}

// The same, where a blank or a comment stands here.
#[inline(never)]
#[tactic(auto, using(model_scanner::proofs::SpaceLemmas::spaces_stop, model_scanner::proofs::SpaceLemmas::at_comment), unfolding(model_scanner::specs::Blanks::space))]
fn skip_spaces<T: Characters>(window: &mut Window<T>, tabs: SkipTabs) -> Result<Whitespace, Fault>
    ensures ok { IfOk result (λ w. Reads window.old window.new (λ a b. space tabs a (position_of window.old) ≡ Ok (read b window.new w))) }
    ensures err { IfErr result (λ e. Reads window.old window.new (λ a b. space tabs a (position_of window.old) ≡ Err e)) }
    ensures ahead { 0 < window.new.ahead }
{
    let mut found = Whitespace {
        found_tabs: false,
        has_valid_yaml_ws: false,
    };
    'space: loop {
        let c = window.look_ch();
        if c == ' ' {
            found.has_valid_yaml_ws = true;
            window.skip();
        } else if c == '\t' && tabs == SkipTabs::Yes {
            found.found_tabs = true;
            window.skip();
        } else if c != '#' {
            return Ok(found);
        } else if found.found_tabs || found.has_valid_yaml_ws {
            skip_comment(window);
            return Ok(found);
        } else {
            return Err(Fault::At(Problem::CommentNotSeparated, window.mark()));
        }
    }
}

/// Steps over spaces and TABs.
#[tactic(auto, using(model_scanner::proofs::SpaceLemmas::skip_end))]
pub(crate) fn skip_blanks<T: Characters>(window: &mut Window<T>)
    ensures reads { Reads window.old window.new (λ a b. blanks a (position_of window.old) ≡ read b window.new tt) }
    ensures ahead { 0 < window.new.ahead }
{
    'blanks: loop {
        if !is_blank(window.look_ch()) {
            return;
        }
        window.skip();
    }
}
