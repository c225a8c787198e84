//! The next token, by its first characters.
ghost use Rattle.std.specs.Prelude.{◌≡◌, ◌≢◌, ◌≤◌, ◌<◌, ◌==◌, ◌&&◌, ℕ, OnOk, IfErr, true, false};
ghost use Rattle.yaml_chars.specs.WindowView.{Sees};
ghost use Rattle.yaml_tokens.specs.Shown.{tok_of};
ghost use Rattle.model_scanner.specs.Document.{begin_stream, fetch_stream_end, fetch_document_marker, fetch_document_end, begin_line, context, check_after_quoted, fetch_directive, fetch_anchor, fetch_tag, fetch_block_scalar, fetch_flow_scalar, fetch_plain_scalar};
ghost use Rattle.model_scanner.specs.Fetch.{comes_marker, is_value, fetch_token, fetch_indented, fetch_first_column, fetch_here, fetch_next};
ghost use Rattle.yaml_scanner.specs.Fetched.{Gets};
ghost use Rattle.yaml_scanner.specs.Runs.{Brings, Front, Runs, Steps};
ghost use Rattle.yaml_scanner.specs.Shape.{held, state};
ghost use Rattle.yaml_scanner.specs.Work.{Fetches, HasChars, work};

use crate::fetcher::{Failed, Fetcher};
use model_scanner::{BlockStyle, Class, Collection, NameKind, Quotes, class_of};
use yaml_chars::Characters;
use yaml_chars::class::{is_blank_or_breakz, is_breakz, is_flow};
use yaml_lexers::{
    Context, SkipTabs, read_anchor_name, read_block_scalar, read_directive, read_plain,
    read_quoted, read_tag,
};
use yaml_tokens::{Fault, Problem, TEncoding, TScalarStyle, TokenType};

fn is_thrice(c: char, first: char, second: char, third: char) -> bool
    ensures value { result ≡ ((first == c) && (second == c) && (third == c)) }
    ensures third { result ≡ true → third ≡ c }
{
    first == c && second == c && third == c
}

impl<T: Characters> Fetcher<T> {
    /// Skips to the next token, ends the block collections that end there, and fetches the token; with a key that is taken at
    /// once, its `:` too (see `fetch_node`).
    pub(crate) fn fetch_next(&mut self) -> Result<(), Failed>
        requires started { self.old.started ≡ true }
        requires going { self.old.tokens.ended ≡ false }
        ensures { Gets fetch_next self.old result self.new }
    {
        if let Err(fault) = self.skip_to_next_token() {
            return Err(fault);
        }
        // Whether no token waits, and none may become a key.
        let no_open_key = self.tokens.len() == 0 && self.keys.has_none();
        if let Err(fault) = self.drop_stale() {
            return Err(fault);
        }
        let limit = self.window.mark().col() + 1;
        if let Err(fault) = self.unroll_indent(limit) {
            return Err(fault);
        }
        match self.fetch_node(no_open_key) {
            Ok(true) => return Ok(()),
            Ok(false) => {}
            Err(fault) => return Err(fault),
        }
        if let Err(fault) = self.fetch_here() {
            return Err(fault);
        }
        self.drop_stale()
    }

    /// Fetches a token if the text goes on, else the stream's end.
    #[tactic(auto, using(crate::proofs::BlockLemmas::peek_is), unfolding(model_scanner::specs::Fetch::fetch_here, model_scanner::specs::Fetch::fetch_content))]
    fn fetch_here(&mut self) -> Result<(), Failed>
        requires { self.old.tokens.ended ≡ false }
        ensures runs { Brings fetch_here self.old result self.new }
        ensures done { OnOk result (self.new.tokens.ended ≡ true → self.new.window.done ≡ true) }
    {
        // A document marker has three characters and an end, and stands only at a line's first column.
        let n = if self.window.mark().col() == 0 { 4 } else { 2 };
        self.window.lookahead(n);
        if self.window.ch() == '\0' {
            return self.fetch_stream_end();
        }
        if self.window.mark().col() == 0 {
            return self.fetch_first_column();
        }
        self.fetch_indented()
    }

    #[inline(never)]
    pub(crate) fn fetch_stream_start(&mut self) -> Result<(), Failed>
        requires { self.old.started ≡ false }
        ensures held { OnOk result (held self.new ≡ begin_stream (held self.old)) }
        ensures err { IfErr result (λ _. self.new.fault ≡ Fault.OutOfMemory) }
        ensures window { self.new.window ≡ self.old.window }
        ensures less { OnOk result (work self.new < work self.old) }
        ensures run { Fetches self.old self.new }
    {
        let mark = self.window.mark();
        if let Err(_) = self.keys.open_level() {
            return Err(self.fail(Fault::OutOfMemory));
        }
        self.key_allowed = true;
        self.push_token(mark, TokenType::StreamStart(TEncoding::Utf8))?;
        self.started = true;
        Ok(())
    }

    #[inline(never)]
    fn fetch_stream_end(&mut self) -> Result<(), Failed>
        requires { self.old.tokens.ended ≡ false }
        ensures runs { Brings fetch_stream_end self.old result self.new }
        ensures done { OnOk result (self.new.window.done ≡ self.old.window.done) }
    {
        self.window.end_line();
        if self.keys.has_required() {
            return Err(self.fail_here(Problem::KeyExpected));
        }
        self.keys.clear();
        self.unroll_indent(0)?;
        self.key_allowed = false;
        let mark = self.window.mark();
        if let Err(_) = self.tokens.push_end(mark) {
            return Err(self.fail(Fault::OutOfMemory));
        }
        Ok(())
    }

    /// What begins at a line's first column: a directive, a document marker, or a token of a document.
    #[tactic(auto, using(crate::proofs::BlockLemmas::peek_is), unfolding(model_scanner::specs::Fetch::fetch_first_column))]
    fn fetch_first_column(&mut self) -> Result<(), Failed>
        requires { Front 4 self.old.window }
        ensures { Runs fetch_first_column self.old result self.new 7 8 }
    {
        if self.window.ch() == '%' {
            return self.fetch_directive();
        }
        if self.at_marker('-') {
            return self.fetch_document_marker(TokenType::DocumentStart);
        }
        if self.at_marker('.') {
            return self.fetch_document_end();
        }
        self.fetch_indented()
    }

    /// Whether three of a character and then a blank, a break or the end come.
    #[tactic(auto, unfolding(model_scanner::specs::Fetch::comes_marker))]
    fn at_marker(&self, c: char) -> bool
        requires ahead { 4 ≤ self.now.window.ahead }
        requires some { c ≢ 0 }
        ensures sees { Sees self.now.window (λ a. result ≡ comes_marker c a) }
        ensures has { result ≡ true → HasChars 3 self.now.window }
    {
        let first = self.window.peek(0);
        let second = self.window.peek(1);
        let third = self.window.peek(2);
        is_thrice(c, first, second, third) && is_blank_or_breakz(self.window.peek(3))
    }

    /// What does not begin at a line's first column must not stand left of the innermost block
    /// collection.
    #[tactic(auto, unfolding(model_scanner::specs::Fetch::fetch_indented))]
    fn fetch_indented(&mut self) -> Result<(), Failed>
        requires { Front 2 self.old.window }
        ensures { Runs fetch_indented self.old result self.new 7 8 }
    {
        let mark = self.window.mark();
        if mark.col() + 1 < self.levels.indent() {
            return Err(self.fail(Fault::At(Problem::InvalidIndentation, mark)));
        }
        self.fetch_token()
    }

    #[inline(always)]
    #[tactic(auto, using(crate::proofs::BlockLemmas::peek_is), unfolding(model_scanner::specs::Fetch::fetch_token))]
    fn fetch_token(&mut self) -> Result<(), Failed>
        requires { Front 2 self.old.window }
        ensures { Runs fetch_token self.old result self.new 7 8 }
    {
        match class_of(self.window.ch()) {
            Class::OpenBracket => self.fetch_flow_collection_start(Collection::Sequence),
            Class::OpenBrace => self.fetch_flow_collection_start(Collection::Mapping),
            Class::CloseBracket => self.fetch_flow_collection_end(Collection::Sequence),
            Class::CloseBrace => self.fetch_flow_collection_end(Collection::Mapping),
            Class::Comma => self.fetch_flow_entry(),
            Class::Dash if is_blank_or_breakz(self.window.peek(1)) => self.fetch_block_entry(),
            Class::Question if is_blank_or_breakz(self.window.peek(1)) => self.fetch_key(),
            Class::Colon if self.is_value() => self.fetch_value(),
            Class::Asterisk => self.fetch_anchor(NameKind::Alias),
            Class::Ampersand => self.fetch_anchor(NameKind::Anchor),
            Class::Exclamation => self.fetch_tag(),
            Class::Bar if !self.in_flow() => self.fetch_block_scalar(BlockStyle::Literal),
            Class::Greater if !self.in_flow() => self.fetch_block_scalar(BlockStyle::Folded),
            Class::SingleQuote => self.fetch_flow_scalar(Quotes::Single),
            Class::DoubleQuote => self.fetch_flow_scalar(Quotes::Double),
            Class::Percent => Err(self.fail_here(Problem::UnexpectedPercent)),
            Class::AtSign => Err(self.fail_here(Problem::UnexpectedAt)),
            Class::Backtick => Err(self.fail_here(Problem::UnexpectedBacktick)),
            _ => self.fetch_plain_scalar(),
        }
    }

    /// Whether a `:` here is the indicator of a value.
    #[tactic(auto, unfolding(model_scanner::specs::Fetch::is_value))]
    fn is_value(&self) -> bool
        requires { 2 ≤ self.now.window.ahead }
        ensures { Sees self.now.window (λ a. result ≡ is_value (state a self.now)) }
    {
        let next = self.window.peek(1);
        is_blank_or_breakz(next)
            || self.in_flow()
                && (is_flow(next) || self.window.mark().index() == self.adjacent_value_at)
    }

    /// Ends all collections, at a directive or a document marker.
    #[tactic(auto, unfolding(model_scanner::specs::Document::begin_line))]
    fn begin_line(&mut self) -> Result<(), Failed>
        ensures { Steps begin_line self.old result self.new 0 }
    {
        self.unroll_indent(0)?;
        self.remove_implicit_key()?;
        self.key_allowed = false;
        Ok(())
    }

    #[inline(never)]
    #[tactic(auto, unfolding(model_scanner::specs::Document::fetch_directive))]
    fn fetch_directive(&mut self) -> Result<(), Failed>
        requires { Front 1 self.old.window }
        ensures { Runs fetch_directive self.old result self.new 1 8 }
    {
        let mark = self.window.mark();
        self.begin_line()?;
        let directive = match read_directive(self.alloc, &mut self.window) {
            Ok(directive) => directive,
            Err(fault) => return Err(self.fail(fault)),
        };
        self.leading = true;
        self.push_token(mark, directive)
    }

    /// `---` or `...`
    #[inline(never)]
    #[tactic(auto, unfolding(model_scanner::specs::Document::fetch_document_marker))]
    fn fetch_document_marker(&mut self, marker: TokenType) -> Result<(), Failed>
        requires ahead { 3 ≤ self.old.window.ahead }
        requires has { HasChars 3 self.old.window }
        ensures { Runs (fetch_document_marker (tok_of marker)) self.old result self.new 1 8 }
    {
        let mark = self.window.mark();
        self.begin_line()?;
        self.window.skip();
        self.window.skip();
        self.window.skip();
        self.leading = false;
        self.push_token(mark, marker)
    }

    /// `...`, after which the line has no content.
    #[tactic(auto, using(crate::proofs::BlockLemmas::peek_is), unfolding(model_scanner::specs::Document::fetch_document_end, model_scanner::specs::Document::check_document_end))]
    fn fetch_document_end(&mut self) -> Result<(), Failed>
        requires ahead { 3 ≤ self.old.window.ahead }
        requires has { HasChars 3 self.old.window }
        ensures { Runs fetch_document_end self.old result self.new 1 8 }
    {
        self.fetch_document_marker(TokenType::DocumentEnd)?;
        self.pass_spaces(SkipTabs::Yes)?;
        if !is_breakz(self.window.ch()) {
            return Err(self.fail_here(Problem::ContentAfterDocumentEnd));
        }
        Ok(())
    }

    /// `*name` or `&name`
    #[inline(never)]
    #[tactic(auto, unfolding(model_scanner::specs::Document::fetch_anchor))]
    fn fetch_anchor(&mut self, kind: NameKind) -> Result<(), Failed>
        requires { Front 1 self.old.window }
        ensures { Runs (fetch_anchor kind) self.old result self.new 1 8 }
    {
        let mark = self.window.mark();
        self.save_implicit_key();
        self.key_allowed = false;
        let name = match read_anchor_name(self.alloc, &mut self.window) {
            Ok(name) => name,
            Err(fault) => return Err(self.fail(fault)),
        };
        self.leading = false;
        self.push_token(mark, kind.token(name))
    }

    #[inline(never)]
    #[tactic(auto, unfolding(model_scanner::specs::Document::fetch_tag))]
    fn fetch_tag(&mut self) -> Result<(), Failed>
        requires { Front 1 self.old.window }
        ensures { Runs fetch_tag self.old result self.new 1 8 }
    {
        let mark = self.window.mark();
        let in_flow = self.in_flow();
        self.save_implicit_key();
        self.key_allowed = false;
        let (handle, suffix) = match read_tag(self.alloc, &mut self.window, in_flow) {
            Ok(tag) => tag,
            Err(fault) => return Err(self.fail(fault)),
        };
        self.leading = false;
        self.push_token(mark, TokenType::Tag(handle, suffix))
    }

    fn context(&self) -> Context
        ensures { result ≡ context (held self.now) }
    {
        Context {
            flow: self.in_flow(),
            indent: self.levels.indent(),
        }
    }

    #[inline(never)]
    #[tactic(auto, unfolding(model_scanner::specs::Document::fetch_block_scalar))]
    fn fetch_block_scalar(&mut self, style: BlockStyle) -> Result<(), Failed>
        requires { Front 1 self.old.window }
        ensures { Runs (fetch_block_scalar style) self.old result self.new 1 8 }
    {
        self.save_implicit_key();
        self.key_allowed = true;
        self.unroll_non_block_indents();
        let indent = self.levels.indent();
        let literal = style.is_literal();
        let (mark, text) = match read_block_scalar(self.alloc, &mut self.window, literal, indent) {
            Ok(scalar) => scalar,
            Err(fault) => return Err(self.fail(fault)),
        };
        self.leading = true;
        self.push_token(mark, TokenType::Scalar(style.style(), text))
    }

    /// `'` or `"`
    #[inline(never)]
    #[tactic(auto, unfolding(model_scanner::specs::Document::fetch_flow_scalar))]
    fn fetch_flow_scalar(&mut self, quotes: Quotes) -> Result<(), Failed>
        requires { Front 1 self.old.window }
        ensures { Runs (fetch_flow_scalar quotes) self.old result self.new 1 8 }
    {
        let mark = self.window.mark();
        self.save_implicit_key();
        self.key_allowed = false;
        let context = self.context();
        let single = quotes.are_single();
        let text = match read_quoted(self.alloc, &mut self.window, single, context) {
            Ok(text) => text,
            Err(fault) => return Err(self.fail(fault)),
        };
        self.leading = false;
        self.check_after_quoted(mark.line())?;
        self.skip_to_next_token()?;
        // To be as JSON is, a key's `:` may stand right after it, also on a later line.
        let here = self.window.mark().index();
        self.adjacent_value_at = here;
        self.push_token(mark, TokenType::Scalar(quotes.style(), text))
    }

    /// What may stand after a quoted scalar that began on a line.
    #[tactic(auto, using(crate::proofs::BlockLemmas::peek_is), unfolding(model_scanner::specs::Document::check_after_quoted, model_scanner::specs::Document::may_follow_quoted))]
    fn check_after_quoted(&mut self, line: usize) -> Result<(), Failed>
        ensures { Runs (check_after_quoted line) self.old result self.new 0 0 }
    {
        self.pass_spaces(SkipTabs::Yes)?;
        let mark = self.window.mark();
        let same_line = line == mark.line();
        let c = self.window.ch();
        let may_follow = if self.in_flow() {
            is_breakz(c) || matches!(c, ',' | '}' | ']' | ':')
        } else {
            is_breakz(c) || c == ':' && same_line
        };
        if !may_follow {
            return Err(self.fail(Fault::At(Problem::ContentAfterQuoted, mark)));
        }
        Ok(())
    }

    #[inline(never)]
    #[tactic(auto, unfolding(model_scanner::specs::Document::fetch_plain_scalar))]
    fn fetch_plain_scalar(&mut self) -> Result<(), Failed>
        requires { Front 1 self.old.window }
        ensures { Runs fetch_plain_scalar self.old result self.new 1 8 }
    {
        let mark = self.window.mark();
        self.save_implicit_key();
        self.key_allowed = false;
        self.unroll_non_block_indents();
        let context = self.context();
        let plain = match read_plain(self.alloc, &mut self.window, context) {
            Ok(plain) => plain,
            Err(fault) => return Err(self.fail(fault)),
        };
        self.leading = plain.leading;
        self.key_allowed = plain.leading;
        self.push_token(mark, TokenType::Scalar(TScalarStyle::Plain, plain.text))
    }
}
