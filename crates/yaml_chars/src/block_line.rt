//! Lines of block collections of a text in memory. A key with its `:`, and a value or another scalar with the line break after
//! it, are found in the bytes that are known to come, and taken at once.
ghost use Rattle.std.specs.Prelude.{◌≡◌, ◌≢◌, ℕ, ◌+◌, ◌<◌, ◌≤◌, ◌++◌, length, take, drop, slice_index, chars, true, false, IfOk, IfSome, IfNone, OnErr};
ghost use Rattle.yaml_chars.specs.BlockLines.{is_simple, opens_simple, AreSimpleUpTo, IsTextUpTo, EndsKey, EndsLine, Ends, begin, TakesKey, TakesValue, TakesNode};
ghost use Rattle.yaml_chars.specs.declared.block_line.LineKind.TheVariants as part;

use crate::characters::Characters;
use crate::class::is_alphanumeric;
use crate::lanes::{LANES, simple_lanes};
use crate::ring::Ring;
use crate::text_builder::TextBuilder;
use crate::window::Window;
use std::alloc::{AllocError, Global};

// The longest key has so many characters.
const LONGEST: usize = 1024;

/// What is taken of a line at once.
#[derive(Clone, Copy)]
pub enum LineKind {
    /// A key and its `:`.
    Key,
    /// A space, a value, the line feed after it and the spaces of the next line, if they are fewer than this.
    Value(usize),
    /// A key and its `:`; or else a scalar, the line feed after it and the spaces of the next line, if they are fewer than this.
    Node(usize),
}

/// What is taken at once where a key or another scalar of a block collection may begin.
#[derive(Drop)]
pub enum BlockLine {
    /// A key. The `:` after it was taken too.
    Key(TextBuilder),
    /// A scalar. The line feed after it and the next line's spaces were taken too.
    Scalar(TextBuilder),
}

/// Where the text of a part ends, and how many spaces the line after it begins with.
#[derive(Clone, Copy)]
pub(crate) struct Ended {
    pub text: usize,
    pub spaces: usize,
}

/// A part's text, how many bytes it has that were known, whether a line feed comes after it, how many spaces the line
/// after it begins with, and the character after that.
#[derive(Drop)]
pub(crate) struct FoundLine {
    pub text: TextBuilder,
    pub end: usize,
    pub broken: bool,
    pub spaces: usize,
    pub next: char,
}

pub(crate) fn given(text: TextBuilder, ended: Ended, broken: bool, next: char) -> FoundLine
    ensures { result ≡ record { text = text; end = ended.text; broken = broken; spaces = ended.spaces; next = next } }
{
    FoundLine {
        text,
        end: ended.text,
        broken,
        spaces: ended.spaces,
        next,
    }
}

/// A printable ASCII character but `:` and `#`.
#[inline(always)]
#[tactic(auto, unfolding(crate::specs::BlockLines::is_simple))]
fn is_simple(c: char) -> bool
    ensures { result ≡ is_simple c }
{
    c > '\x1f' && c < '\x7f' && c != ':' && c != '#'
}

/// Whether a simple text (see [`Window::take_key`]) may begin with the character: an ASCII letter or digit, or one of `_ / $ ( ~`.
#[inline(always)]
#[tactic(auto, unfolding(crate::specs::BlockLines::opens_simple))]
pub fn opens_simple(c: char) -> bool
    ensures { result ≡ opens_simple c }
{
    is_alphanumeric(c) || matches!(c, '_' | '/' | '$' | '(' | '~')
}

/// Whether the characters that are held from a place on are simple.
#[inline(always)]
fn are_simple(held: &Ring, start: usize) -> bool
    ensures { result ≡ true → (k : ℕ) → start ≤ k → k < length held.now → is_simple (slice_index held.now k) ≡ true }
{
    'held: for i in start..held.len() {
        if !is_simple(held.get(i)) {
            return false;
        }
    }
    true
}

/// How many simple bytes come first, where so many are known to be simple.
#[inline(never)]
fn simple_tail(bytes: &[u8], start: usize) -> usize
    requires { AreSimpleUpTo bytes.now start }
    ensures { AreSimpleUpTo bytes.now result }
{
    let mut at = start;
    'bytes: while at < bytes.len() && is_simple(char::from(bytes[at])) {
        at += 1;
    }
    at
}

/// How many simple bytes come first. Sixteen are looked at together, but for the last ones of a text.
#[inline(always)]
fn simple_end(bytes: &[u8]) -> usize
    ensures { AreSimpleUpTo bytes.now result }
{
    let mut at = 0;
    'blocks: while bytes.len() - at > LANES {
        let count = simple_lanes(bytes, at);
        at += count;
        if count < LANES {
            return at;
        }
    }
    simple_tail(bytes, at)
}

/// Whether a text may begin with the character at a place: of those that are held, or behind them the first byte.
#[inline(always)]
fn opens(held: &Ring, from: usize, bytes: &[u8]) -> bool
    ensures few { result ≡ true → from ≤ 16 }
    ensures begun { result ≡ true → from ≤ length held.now }
    ensures first { result ≡ true → (n : ℕ) → from < length held.now + n → opens_simple (slice_index (held.now ++ take n bytes.now) from) ≡ true }
{
    if from < held.len() {
        return opens_simple(held.get(from));
    }
    from == held.len() && !bytes.is_empty() && opens_simple(char::from(bytes[0]))
}

/// Whether the last of the bytes is no space, or where there are none the last character that is held.
#[inline(always)]
fn closes(held: &Ring, bytes: &[u8], end: usize) -> bool
    requires { end ≤ length bytes.now }
    ensures { result ≡ true → (k : ℕ) → k + 1 ≡ length held.now + end → slice_index (held.now ++ take end bytes.now) k ≢ 32 }
{
    if end > 0 {
        return bytes[end - 1] != b' ';
    }
    held.len() > 0 && held.get(held.len() - 1) != ' '
}

/// How many bytes go on a simple text that begins at a place of what is held.
#[inline(always)]
fn text_end(held: &Ring, from: usize, bytes: &[u8]) -> Option<usize>
    requires { (k : ℕ) → k < from → is_simple (slice_index held.now k) ≡ true }
    ensures { IfSome result (λ end. IsTextUpTo held.now from bytes.now end) }
{
    // The first character is simple, since a text may begin with it.
    if !opens(held, from, bytes) || !are_simple(held, from + 1) {
        return None;
    }
    let end = simple_end(bytes);
    if held.len() + end <= from || !closes(held, bytes, end) {
        return None;
    }
    Some(end)
}

/// Whether a text that ends there is a key: it has `:` and a space or a line feed after it, and is not too long.
#[inline(always)]
fn ends_key(held: &Ring, bytes: &[u8], end: usize) -> bool
    requires { IsTextUpTo held.now 0 bytes.now end }
    ensures { result ≡ true → EndsKey held.now bytes.now end }
{
    if end + 1 >= bytes.len() || bytes[end] != b':' || held.len() + end > LONGEST {
        return false;
    }
    let next = bytes[end + 1];
    next == b' ' || next == b'\n'
}

/// Where a key ends that has `:` and a space or a line feed after it.
#[inline(always)]
fn key_end(held: &Ring, bytes: &[u8]) -> Option<usize>
    ensures { IfSome result (λ end. EndsKey held.now bytes.now end) }
{
    let Some(end) = text_end(held, 0, bytes) else {
        return None;
    };
    if ends_key(held, bytes, end) {
        Some(end)
    } else {
        None
    }
}

/// How many spaces stand at a place.
#[inline(always)]
fn spaces_at(bytes: &[u8], start: usize) -> usize
    requires { start ≤ length bytes.now }
    ensures within { start + result ≤ length bytes.now }
    ensures blank { (k : ℕ) → k < result → slice_index bytes.now (start + k) ≡ 32 }
{
    let mut count = 0;
    'spaces: while start + count < bytes.len() && bytes[start + count] == b' ' {
        count += 1;
    }
    count
}

/// Where a text ends that has a line feed after it, and how many spaces the next line begins with, if they are fewer than
/// this and a visible character comes after them.
#[inline(always)]
fn line_end(held: &Ring, from: usize, bytes: &[u8], text: usize, limit: usize) -> Option<Ended>
    requires { IsTextUpTo held.now from bytes.now text }
    ensures { IfSome result (λ e. EndsLine from limit held.now bytes.now e.text e.spaces) }
{
    if text >= bytes.len() || bytes[text] != b'\n' {
        return None;
    }
    let spaces = spaces_at(bytes, text + 1);
    let next = text + 1 + spaces;
    if spaces >= limit || next >= bytes.len() || bytes[next] <= b' ' || bytes[next] >= 127 {
        return None;
    }
    Some(Ended { text, spaces })
}

/// The same of a value that stands after a space.
#[inline(always)]
fn value_end(held: &Ring, bytes: &[u8], limit: usize) -> Option<Ended>
    ensures { IfSome result (λ e. Ends (part.Value limit) held.now bytes.now e.text e.spaces) }
{
    if held.len() == 0 || held.get(0) != ' ' {
        return None;
    }
    match text_end(held, 1, bytes) {
        Some(text) => line_end(held, 1, bytes, text, limit),
        None => None,
    }
}

/// Where a key ends, or else a scalar that has a line feed after it. For a key there are no spaces.
#[inline(always)]
fn node_end(held: &Ring, bytes: &[u8], limit: usize) -> Option<Ended>
    ensures { IfSome result (λ e. Ends (part.Node limit) held.now bytes.now e.text e.spaces) }
{
    let Some(text) = text_end(held, 0, bytes) else {
        return None;
    };
    if ends_key(held, bytes, text) {
        return Some(Ended { text, spaces: 0 });
    }
    line_end(held, 0, bytes, text, limit)
}

impl LineKind {
    /// Where a part ends in the bytes that come after what is held.
    #[inline(always)]
    pub(crate) fn find(self, held: &Ring, bytes: &[u8]) -> Option<Ended>
        ensures { IfSome result (λ e. Ends self held.now bytes.now e.text e.spaces) }
    {
        match self {
            LineKind::Key => match key_end(held, bytes) {
                Some(text) => Some(Ended { text, spaces: 0 }),
                None => None,
            },
            LineKind::Value(limit) => value_end(held, bytes, limit),
            LineKind::Node(limit) => node_end(held, bytes, limit),
        }
    }

    /// With which of the characters that are held its text begins.
    #[inline(always)]
    pub(crate) fn begin(self) -> usize
        ensures { result ≡ begin self }
    {
        match self {
            LineKind::Key | LineKind::Node(_) => 0,
            LineKind::Value(_) => 1,
        }
    }
}

/// The characters that are held, from one on, and a text after them, in memory that is asked for once.
#[inline(always)]
pub(crate) fn joined(
    alloc: Global,
    held: &Ring,
    from: usize,
    rest: &str,
) -> Result<TextBuilder, AllocError>
    requires { from ≤ length held.now }
    ensures { IfOk result (λ text. text ≡ drop from held.now ++ chars rest.now) }
{
    let mut text = TextBuilder::with_room(alloc, held.len() - from + rest.len())?;
    'held: for i in from..held.len() {
        text.push(held.get(i))?;
    }
    text.push_str(rest)?;
    Ok(text)
}

impl<T: Characters> Window<T> {
    /// Takes a key of a block mapping and the `:` after it, where these are known to come, the key is simple and has at most
    /// 1024 characters, and a space or a line feed stands after the `:`. Else nothing changes. A simple text is of printable ASCII
    /// but `:` and `#`, ends in no space, and begins with a letter, a digit or one of `_ / $ ( ~`, with which no indicator
    /// and no document marker begins. The text has just the memory that it needs.
    ///
    /// # Errors
    ///
    /// Memory was refused. Then nothing changed.
    #[inline(always)]
    pub fn take_key(&mut self, alloc: Global) -> Result<Option<TextBuilder>, AllocError>
        ensures key { IfOk result (λ o. IfSome o (λ key. TakesKey self.old self.new key)) }
        ensures none { IfOk result (λ o. IfNone o (self.new ≡ self.old)) }
        ensures err { OnErr result (self.new ≡ self.old) }
    {
        let found = self.source.part_on(LineKind::Key, &self.ring, alloc)?;
        let Some(key) = found else {
            return Ok(None);
        };
        let FoundLine {
            text,
            end,
            next,
            ..
        } = key;
        let count = self.ring.len() + end + 1;
        self.index += count;
        self.col += count;
        self.ring.keep_only(next);
        Ok(Some(text))
    }

    /// Takes a space, a value, the line feed after it and the spaces that the next line begins with, where these are known
    /// to come, the value is simple as a key is (see [`Window::take_key`]), the spaces are fewer than the limit, and a visible
    /// ASCII character stands after them. Else nothing changes.
    ///
    /// # Errors
    ///
    /// Memory was refused. Then nothing changed.
    #[inline(always)]
    pub fn take_value(
        &mut self,
        alloc: Global,
        limit: usize,
    ) -> Result<Option<TextBuilder>, AllocError>
        ensures value { IfOk result (λ o. IfSome o (λ value. TakesValue limit self.old self.new value)) }
        ensures none { IfOk result (λ o. IfNone o (self.new ≡ self.old)) }
        ensures err { OnErr result (self.new ≡ self.old) }
    {
        let found = self
            .source
            .part_on(LineKind::Value(limit), &self.ring, alloc)?;
        let Some(value) = found else {
            return Ok(None);
        };
        let FoundLine {
            text,
            end,
            spaces,
            next,
            ..
        } = value;
        self.index += self.ring.len() + end + 1 + spaces;
        self.line += 1;
        self.col = spaces;
        self.ring.keep_only(next);
        Ok(Some(text))
    }

    /// Takes a key as [`Window::take_key`] does; or else a simple text, the line feed after it and the spaces that the next
    /// line begins with, where these are known to come, the spaces are fewer than the limit, and a visible ASCII character
    /// stands after them. Else nothing changes.
    ///
    /// # Errors
    ///
    /// Memory was refused. Then nothing changed.
    #[inline(always)]
    pub fn take_node(
        &mut self,
        alloc: Global,
        limit: usize,
    ) -> Result<Option<BlockLine>, AllocError>
        ensures node { IfOk result (λ o. IfSome o (λ node. TakesNode limit self.old self.new node)) }
        ensures none { IfOk result (λ o. IfNone o (self.new ≡ self.old)) }
        ensures err { OnErr result (self.new ≡ self.old) }
    {
        let found = self.source.node_on(limit, &self.ring, alloc)?;
        let Some(node) = found else {
            return Ok(None);
        };
        let FoundLine {
            text,
            end,
            broken,
            spaces,
            next,
        } = node;
        let taken = self.ring.len() + end + 1;
        self.ring.keep_only(next);
        if broken {
            self.index += taken + spaces;
            self.line += 1;
            self.col = spaces;
            return Ok(Some(BlockLine::Scalar(text)));
        }
        self.index += taken;
        self.col += taken;
        Ok(Some(BlockLine::Key(text)))
    }
}
