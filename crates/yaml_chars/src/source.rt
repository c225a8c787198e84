ghost use Rattle.std.specs.Prelude.{◌≡◌, ◌≢◌, ◌<◌, ◌≤◌, ◌^◌, [], ◌∷◌, ◌++◌, true, false, IfOk, IfSome, IfNone, OnErr};
ghost use Rattle.std.specs.Iterator.{IsFinite, size};
ghost use Rattle.yaml_chars.specs.declared.block_line.LineKind.TheVariants as part;
ghost use Rattle.yaml_chars.specs.BlockLines.{GivesPart};
ghost use Rattle.yaml_chars.specs.Run.{GoesOver};
ghost use Rattle.yaml_chars.specs.Source.{Pulls, Came};
ghost use Rattle.yaml_chars.specs.Words.{GivesWords, HasGiven};

use crate::block_line::{FoundLine, LineKind, given, joined};
use crate::characters::Characters;
use crate::count::character_count;
use crate::ghost_list::GhostList;
use crate::looks::Looks;
use crate::ring::Ring;
use crate::run::Run;
use crate::text_builder::TextBuilder;
use std::alloc::{AllocError, Global};
use std::marker::Model;
use std::snapshot::Snapshot;

// A look for words pays where it finds so many characters.
const WORTH: usize = 8;

/// A run, and the text that its characters go into.
pub(crate) struct Filling {
    pub run: Run,
    pub text: TextBuilder,
}

/// How many characters of a run went into a text, the one after them, and whether memory was
/// refused for that.
#[derive(Drop)]
pub(crate) struct Ran {
    pub text: TextBuilder,
    pub count: usize,
    pub after: char,
    pub refused: bool,
}

/// How many characters of a word went into a text, the one after them, and whether memory was refused for that.
#[derive(Clone, Copy)]
pub(crate) struct Met {
    pub count: usize,
    pub after: char,
    pub refused: bool,
}

fn ended(text: TextBuilder, count: usize, after: char, refused: bool) -> Ran
    ensures { result ≡ record { text = text; count = count; after = after; refused = refused } }
{
    Ran {
        text,
        count,
        after,
        refused,
    }
}

fn word_ended(count: usize, after: char, refused: bool) -> Met
    ensures { result ≡ record { count = count; after = after; refused = refused } }
{
    Met {
        count,
        after,
        refused,
    }
}

/// The characters that come, up to their end or to a NUL. After that none is asked for.
#[derive(Drop)]
pub struct Source<T: Characters> {
    iter: T,
    start: Snapshot<T>,
    taken: GhostList<char>,
    done: bool,
    // Looks for words, and for scalars of a line.
    words: Looks,
    nodes: Looks,
}

impl<T: Characters> Model for Source<T> {
    ghost use Rattle.std.specs.Prelude.{if◌then◌else◌};
    ghost use Rattle.yaml_chars.specs.Source.{Pulled, IterStands};

    ghost Value = { Pulled T };

    ghost view = { λ s. record { start = s.start.value; taken = s.taken.items; done = s.done; left = (if s.done then 0 else (T.remaining s.iter).bound) } };

    ghost invariant = { λ s. IterStands T.can_next T.next_gives T.remaining s.start.value s.taken.items s.done s.iter };
}

impl<T: Characters> Source<T> {
    /// The characters of an iterator that was not asked yet.
    pub fn new(iter: T) -> Self
        requires can { T.can_next iter }
        requires finite { IsFinite (T.remaining iter) }
        ensures { result ≡ record { start = iter; taken = []; done = false; left = size (T.remaining iter) } }
    {
        Source {
            start: Snapshot::of(&iter),
            iter,
            taken: GhostList::new(),
            done: false,
            words: Looks::new(),
            nodes: Looks::new(),
        }
    }

    fn has_ended(&self) -> bool
        ensures value { result ≡ self.now.done }
        ensures none { result ≡ true → self.now.left ≡ 0 }
    {
        self.done
    }

    /// The next character, or NUL at the end and from then on.
    #[inline(always)]
    pub fn next(&mut self) -> char
        ensures { Pulls self.old result self.new }
    {
        if self.done {
            return '\0';
        }
        self.pull()
    }

    // The same, where the end was not met yet.
    #[inline(always)]
    fn pull(&mut self) -> char
        requires { self.old.done ≡ false }
        ensures { Pulls self.old result self.new }
    {
        match self.iter.next_char() {
            Some(c) if c != '\0' => {
                self.taken.push(&c);
                c
            }
            _ => {
                self.done = true;
                '\0'
            }
        }
    }

    /// Takes words that are known to come, and lone blanks between them, into a text, and says how many characters
    /// they have: none, where looks for them did not pay. An `Err` changes nothing.
    #[inline(always)]
    pub(crate) fn words_on(&mut self, run: Run, text: &mut TextBuilder) -> Result<usize, AllocError>
        ensures ok { IfOk result (λ count. GivesWords run self.old self.new count text.old text.new) }
        ensures err { OnErr result ((self.new ≡ self.old) × (text.new ≡ text.old)) }
    {
        if !self.words.is_due() {
            return Ok(0);
        }
        let count = self.known_words_on(run, text)?;
        self.words.note(count >= WORTH);
        Ok(count)
    }

    // The same, whether looks paid or not.
    #[inline(always)]
    fn known_words_on(&mut self, run: Run, text: &mut TextBuilder) -> Result<usize, AllocError>
        ensures ok { IfOk result (λ count. GivesWords run self.old self.new count text.old text.new) }
        ensures err { OnErr result ((self.new ≡ self.old) × (text.new ≡ text.old)) }
    {
        if self.has_ended() {
            return Ok(0);
        }
        let known = self.iter.known();
        let found = run.words(known.as_bytes());
        if found.end == 0 {
            return Ok(0);
        }
        let words = &known[..found.end];
        text.push_str(words)?;
        let count = character_count(words, found.beyond);
        self.taken.push_text(words);
        self.iter.pass(found.end);
        Ok(count)
    }

    /// Takes words that are known to come, and lone blanks between them, and says how many characters they have.
    #[inline(always)]
    pub(crate) fn pass_words(&mut self, run: Run) -> usize
        ensures { HasGiven run self.old self.new result }
    {
        if self.has_ended() {
            return 0;
        }
        let known = self.iter.known();
        let found = run.words(known.as_bytes());
        if found.end == 0 {
            return 0;
        }
        let words = &known[..found.end];
        let count = character_count(words, found.beyond);
        self.taken.push_text(words);
        self.iter.pass(found.end);
        count
    }

    /// The same as `part_on` for another scalar than a key or a value of a mapping: none, where looks for such did not pay.
    #[inline(always)]
    pub(crate) fn node_on(
        &mut self,
        limit: usize,
        held: &Ring,
        alloc: Global,
    ) -> Result<Option<FoundLine>, AllocError>
        ensures some { IfOk result (λ o. IfSome o (λ p. GivesPart (part.Node limit) held.now self.old self.new p.end p.broken p.spaces p.next p.text)) }
        ensures none { IfOk result (λ o. IfNone o (self.new ≡ self.old)) }
        ensures err { OnErr result (self.new ≡ self.old) }
    {
        if !self.nodes.is_due() {
            return Ok(None);
        }
        let found = self.part_on(LineKind::Node(limit), held, alloc)?;
        self.nodes.note(found.is_some());
        Ok(found)
    }

    /// Takes a key, a value or another scalar of a line that is known to come, with the character after it. Its text begins with the
    /// characters that a window holds. An `Err` changes nothing.
    #[inline(always)]
    pub(crate) fn part_on(
        &mut self,
        part: LineKind,
        held: &Ring,
        alloc: Global,
    ) -> Result<Option<FoundLine>, AllocError>
        ensures some { IfOk result (λ o. IfSome o (λ p. GivesPart part held.now self.old self.new p.end p.broken p.spaces p.next p.text)) }
        ensures none { IfOk result (λ o. IfNone o (self.new ≡ self.old)) }
        ensures err { OnErr result (self.new ≡ self.old) }
    {
        if self.has_ended() {
            return Ok(None);
        }
        let known = self.iter.known();
        if known.is_empty() {
            return Ok(None);
        }
        let bytes = known.as_bytes();
        let Some(ended) = part.find(held, bytes) else {
            return Ok(None);
        };
        let rest = &known[..ended.text];
        let text = joined(alloc, held, part.begin(), rest)?;
        let last = ended.text + 1 + ended.spaces;
        let next = char::from(bytes[last]);
        let broken = bytes[ended.text] == b'\n';
        let passed = &known[..last + 1];
        self.taken.push_text(passed);
        self.iter.pass(last + 1);
        Ok(Some(given(text, ended, broken, next)))
    }

    /// Takes the characters of a run into a text. Both are moved in and out, so that the loop keeps
    /// them in registers.
    #[inline(always)]
    pub(crate) fn run_on(self, filling: Filling) -> (Source<T>, Ran)
        requires { self.left < 2 ^ 63 }
        ensures { GoesOver filling.run self result.0 result.1.count result.1.after result.1.refused filling.text result.1.text }
    {
        let Filling { run, mut text } = filling;
        let mut source = self;
        let mut count = 0;
        'run: loop {
            let after = source.next();
            if run.stops(after) {
                return (source, ended(text, count, after, false));
            }
            match text.push(after) {
                Ok(()) => count += 1,
                Err(_) => return (source, ended(text, count, after, true)),
            }
        }
    }

    /// The same for a word. Nothing is moved: a word's few characters would not pay for that.
    #[inline(always)]
    pub(crate) fn word_on(&mut self, run: Run, text: &mut TextBuilder) -> Met
        requires { self.old.left < 2 ^ 63 }
        ensures { GoesOver run self.old self.new result.count result.after result.refused text.old text.new }
    {
        if self.has_ended() {
            return word_ended(0, '\0', false);
        }
        let mut count = 0;
        'run: loop {
            let after = self.pull();
            if run.stops(after) {
                return word_ended(count, after, false);
            }
            if let Err(_) = text.push(after) {
                return word_ended(count, after, true);
            }
            count += 1;
        }
    }

    /// Nothing but what the iterator gave was taken.
    pub fn note(&self)
        ensures { Came T.next_gives self.now }
    {
        let _ = &self.done;
    }
}
