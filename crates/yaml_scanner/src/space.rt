//! What stands between two tokens: blanks, line breaks and comments (YAML 1.2, chapter 6).
ghost use Rattle.std.specs.Prelude.{◌≡◌, ◌<◌, ◌≤◌, ℕ, OnOk, IfOk, IfErr, Ok, Err, true, false, Bool, slice_index, ◌==◌, ◌&&◌, ◌||◌, not};
ghost use Rattle.yaml_chars.specs.Class.{is_break, is_blank};
ghost use Rattle.yaml_chars.specs.WindowView.{HasChar, Reads, position_of};
ghost use Rattle.model_scanner.specs.Blanks.{space};
ghost use Rattle.model_scanner.specs.State.{in_flow};
ghost use Rattle.model_scanner.specs.Space.{skip, between, tab_line, white, is_before_indent, skip_spaces, skip_to_next_token, skip_yaml_whitespace};
ghost use Rattle.yaml_lexers.specs.Shown.{read};
ghost use Rattle.yaml_scanner.specs.Runs.{Front, Runs};
ghost use Rattle.yaml_scanner.specs.Shape.{held};
ghost use Rattle.yaml_scanner.specs.Work.{Moves};

use crate::fetcher::{Failed, Fetcher};
use yaml_chars::Characters;
use yaml_chars::class::{is_blank, is_break, is_breakz};
use yaml_lexers::{SkipTabs, Whitespace, skip_comment, skip_linebreak, skip_ws_to_eol};
use yaml_tokens::Problem;

impl<T: Characters> Fetcher<T> {
    /// Steps over a line break. Outside flow a key may begin after it.
    #[inline(always)]
    pub(crate) fn pass_break(&mut self)
        requires { HasChar self.old.window }
        ensures gap { Reads self.old.window self.new.window (λ a b. is_break (slice_index a 0) ≡ true → skip between a (held self.old) ≡ skip between b (held self.new)) }
        ensures white { Reads self.old.window self.new.window (λ a b. is_break (slice_index a 0) ≡ true → (f : Bool) → white false f a (held self.old) ≡ white false true b (held self.new)) }
        ensures bounds { Moves self.old self.new 0 8 }
        ensures less { self.new.window.left < self.old.window.left }
    {
        let key_allowed = self.allows_key();
        skip_linebreak(&mut self.window);
        self.leading = true;
        self.key_allowed = key_allowed;
    }

    /// Steps over a space, and over those after it.
    #[inline(always)]
    #[tactic(auto, using(crate::proofs::SpaceLemmas::gap_space))]
    fn pass_indentation(&mut self)
        requires { Front 1 self.old.window }
        ensures gap { Reads self.old.window self.new.window (λ a b. slice_index a 0 ≡ 32 → skip between a (held self.old) ≡ skip between b (held self.new)) }
        ensures bounds { Moves self.old self.new 0 0 }
        ensures less { self.new.window.left < self.old.window.left }
    {
        self.window.skip();
        'spaces: while self.window.take_space() {}
    }

    /// Whether a key may begin on the next line.
    fn allows_key(&self) -> bool
        ensures { result ≡ (not (in_flow (held self.now)) || self.now.key_allowed) }
    {
        !self.in_flow() || self.key_allowed
    }

    /// Steps to the next token. Most tokens stand right after the one before or after one step over a gap, so the test
    /// for a gap is apart from the loop.
    #[inline(always)]
    #[tactic(auto, using(crate::proofs::SpaceLemmas::no_gap), unfolding(model_scanner::specs::Space::skip_to_next_token))]
    pub(crate) fn skip_to_next_token(&mut self) -> Result<(), Failed>
        ensures runs { Runs skip_to_next_token self.old result self.new 0 0 }
        ensures ahead { OnOk result (0 < self.new.window.ahead) }
    {
        let c = self.window.look_ch();
        if is_break(c) || is_blank(c) || c == '#' {
            return self.skip_gap();
        }
        Ok(())
    }

    // The same, where a blank, a break or a comment stands here.
    #[inline(always)]
    #[tactic(auto, using(crate::proofs::SpaceLemmas::gap_blank, crate::proofs::SpaceLemmas::gap_end), unfolding(model_scanner::specs::Space::skip_to_next_token))]
    fn skip_gap(&mut self) -> Result<(), Failed>
        ensures runs { Runs skip_to_next_token self.old result self.new 0 0 }
        ensures ahead { OnOk result (0 < self.new.window.ahead) }
    {
        'space: loop {
            let c = self.window.look_ch();
            if is_break(c) {
                self.pass_break();
            } else if c == ' ' && self.leading {
                self.pass_indentation();
            } else if self.at_tab_line(c) {
                self.skip_tab_line()?;
            } else if is_blank(c) {
                self.window.skip();
            } else if c == '#' {
                self.pass_comment();
                self.leading = false;
            } else {
                return Ok(());
            }
        }
    }

    /// Whether a character is a TAB in the indentation of a block collection.
    #[tactic(auto, unfolding(model_scanner::specs::Space::is_before_indent))]
    fn at_tab_line(&self, c: char) -> bool
        ensures value { result ≡ ((c == 9) && is_before_indent (held self.now)) }
        ensures tab { result ≡ true → c ≡ 9 }
        ensures before { result ≡ true → is_before_indent (held self.now) ≡ true }
    {
        c == '\t'
            && !self.levels.is_empty()
            && self.leading
            && self.window.mark().col() + 1 < self.levels.indent()
    }

    /// Steps over a comment. After a `?` it does not count as the space that must stand there.
    #[inline(always)]
    fn pass_comment(&mut self)
        requires { Front 1 self.old.window }
        ensures gap { Reads self.old.window self.new.window (λ a b. slice_index a 0 ≡ 35 → skip between a (held self.old) ≡ skip between b (record (held self.new) { leading = false })) }
        ensures tab_line { Reads self.old.window self.new.window (λ a b. slice_index a 0 ≡ 35 → skip tab_line a (held self.old) ≡ skip between b (held self.new)) }
        ensures white { Reads self.old.window self.new.window (λ a b. slice_index a 0 ≡ 35 → (f : Bool) → white false f a (held self.old) ≡ white false f b (held self.new)) }
        ensures bounds { Moves self.old self.new 0 8 }
        ensures less { self.new.window.left < self.old.window.left }
    {
        self.window.skip();
        skip_comment(&mut self.window);
    }

    /// Steps over a TAB in the indentation, and over the rest of its line, which has no content.
    #[tactic(auto, using(crate::proofs::SpaceLemmas::gap_tab, crate::proofs::SpaceLemmas::tab_blank, crate::proofs::SpaceLemmas::tab_end, crate::proofs::SpaceLemmas::tab_content))]
    fn skip_tab_line(&mut self) -> Result<(), Failed>
        requires { Front 1 self.old.window }
        ensures gap { OnOk result (Reads self.old.window self.new.window (λ a b. slice_index a 0 ≡ 9 → is_before_indent (held self.old) ≡ true → skip between a (held self.old) ≡ skip between b (held self.new))) }
        ensures fault { IfErr result (λ _. Reads self.old.window self.new.window (λ a b. slice_index a 0 ≡ 9 → is_before_indent (held self.old) ≡ true → skip between a (held self.old) ≡ Err self.new.fault)) }
        ensures bounds { Moves self.old self.new 0 8 }
        ensures less { self.new.window.left < self.old.window.left }
    {
        self.window.skip();
        'tabs: loop {
            let c = self.window.look_ch();
            if is_blank(c) {
                self.window.skip();
            } else if c == '#' {
                self.pass_comment();
                return Ok(());
            } else if is_breakz(c) {
                return Ok(());
            } else {
                return Err(self.fail_here(Problem::TabInBlockIndentation));
            }
        }
    }

    /// Steps over spaces, TABs where these are to be skipped, and a comment.
    #[inline(always)]
    pub(crate) fn skip_spaces(&mut self, tabs: SkipTabs) -> Result<Whitespace, Failed>
        ensures held { held self.new ≡ record (held self.old) { position = position_of self.new.window } }
        ensures reads { IfOk result (λ w. Reads self.old.window self.new.window (λ a b. space tabs a (position_of self.old.window) ≡ Ok (read b self.new.window w))) }
        ensures fault { IfErr result (λ _. Reads self.old.window self.new.window (λ a b. space tabs a (position_of self.old.window) ≡ Err self.new.fault)) }
        ensures bounds { Moves self.old self.new 0 0 }
        ensures ahead { OnOk result (0 < self.new.window.ahead) }
        ensures less { self.new.window.left ≤ self.old.window.left }
    {
        match skip_ws_to_eol(&mut self.window, tabs) {
            Ok(found) => Ok(found),
            Err(fault) => Err(self.fail(fault)),
        }
    }

    /// The same, where it does not matter what was found.
    #[inline(always)]
    #[tactic(auto, unfolding(model_scanner::specs::Space::skip_spaces))]
    pub(crate) fn pass_spaces(&mut self, tabs: SkipTabs) -> Result<(), Failed>
        ensures runs { Runs (skip_spaces tabs) self.old result self.new 0 0 }
        ensures ahead { OnOk result (0 < self.new.window.ahead) }
    {
        self.skip_spaces(tabs)?;
        Ok(())
    }

    /// What must stand after a `?`: spaces, breaks and comments.
    #[tactic(auto, using(crate::proofs::SpaceLemmas::white_space, crate::proofs::SpaceLemmas::white_stop, crate::proofs::SpaceLemmas::white_missing), unfolding(model_scanner::specs::Space::skip_yaml_whitespace))]
    pub(crate) fn skip_yaml_whitespace(&mut self) -> Result<(), Failed>
        ensures runs { Runs skip_yaml_whitespace self.old result self.new 0 0 }
        ensures ahead { OnOk result (0 < self.new.window.ahead) }
    {
        let mut found = false;
        'space: loop {
            let c = self.window.look_ch();
            if is_break(c) {
                self.pass_break();
                found = true;
            } else if c == ' ' {
                self.window.skip();
                found = true;
            } else if c == '#' {
                self.pass_comment();
            } else if found {
                return Ok(());
            } else {
                return Err(self.fail_here(Problem::WhitespaceExpected));
            }
        }
    }
}
