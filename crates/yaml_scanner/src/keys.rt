ghost use Rattle.std.specs.Prelude.{◌≡◌, ℕ, ◌+◌, ◌-◌, ◌∷◌, [], OnOk, OnErr, IfErr, Ok, Err, None, true, false, map, is_some, length, ◌<◌};
ghost use Rattle.std.specs.List.{list_any};
ghost use Rattle.model_scanner.specs.State.{Key, with_top, pop};
ghost use Rattle.model_scanner.specs.Keys.{is_far, is_overdue, drop_stale, is_required, has_required, cleared, top_key};
ghost use Rattle.yaml_scanner.specs.ImplicitKeys.{key_of, seen, is_front, is_stale, lowered, still_implicit, no_implicit, top_implicit};

use std::alloc::{AllocError, Global};
use std::marker::Model;
use yaml_chars::Marker;
use yaml_tokens::{Fault, Problem};

// How far before its `:` a key may start (YAML 1.2, section 7.4.2).
const LONGEST_KEY: usize = 1024;

/// A token that may turn out to be a key. Its position counts from the first token that waits.
#[derive(Clone, Copy)]
pub struct ImplicitKey {
    /// Whether its `:` must come, since it stands where a block mapping's key must.
    pub required: bool,
    /// Its place, counted from the first token that waits.
    pub position: usize,
    /// Where it begins.
    pub mark: Marker,
}

/// The possible implicit keys: one for each flow level, and one outside flow. Clauses see the innermost
/// first.
#[derive(Drop)]
pub struct ImplicitKeys {
    levels: Vec<Option<ImplicitKey>>,
    // Whether some level may have a key. Where none may, no level is looked at.
    any: bool,
}

impl Model for ImplicitKeys {
    ghost use Rattle.std.specs.Prelude.{◌≡◌, List, Option, reverse, map, false};
    ghost use Rattle.yaml_scanner.specs.declared.keys.ImplicitKey.{ImplicitKey};
    ghost use Rattle.yaml_scanner.specs.ImplicitKeys.{no_implicit};

    ghost Value = { List (Option ImplicitKey) };

    ghost view = { λ s. reverse s.levels.items };

    ghost invariant = { λ s. s.any ≡ false → map no_implicit s.levels.items ≡ s.levels.items };
}

#[tactic(auto, unfolding(model_scanner::specs::Keys::is_far))]
fn is_far(from: Marker, to: Marker) -> bool
    ensures { result ≡ is_far from to }
{
    from.line() < to.line() || from.index() + LONGEST_KEY < to.index()
}

fn is_overdue(key: Option<ImplicitKey>, mark: Marker) -> bool
    ensures { result ≡ is_overdue mark (key_of 0 key) }
{
    key.is_some_and(|key| is_far(key.mark, mark) && key.required)
}

fn is_required(key: Option<ImplicitKey>) -> bool
    ensures { result ≡ is_required (key_of 0 key) }
{
    key.is_some_and(|key| key.required)
}

fn is_front(key: Option<ImplicitKey>) -> bool
    ensures { result ≡ is_front key }
{
    key.is_some_and(|key| key.position == 0)
}

fn is_stale(key: Option<ImplicitKey>, mark: Marker) -> bool
    ensures { result ≡ is_stale mark key }
{
    key.is_some_and(|key| is_far(key.mark, mark))
}

fn any_stale(keys: &[Option<ImplicitKey>], mark: Marker) -> bool
    ensures { result ≡ list_any (is_stale mark) keys.now }
{
    keys.iter().any(|key| is_stale(*key, mark))
}

fn any_overdue(keys: &[Option<ImplicitKey>], mark: Marker) -> bool
    ensures { result ≡ list_any (λ k. is_overdue mark (key_of 0 k)) keys.now }
{
    keys.iter().any(|key| is_overdue(*key, mark))
}

fn any_required(keys: &[Option<ImplicitKey>]) -> bool
    ensures { result ≡ list_any (λ k. is_required (key_of 0 k)) keys.now }
{
    keys.iter().any(|key| is_required(*key))
}

fn any_front(keys: &[Option<ImplicitKey>]) -> bool
    ensures { result ≡ list_any is_front keys.now }
{
    keys.iter().any(|key| is_front(*key))
}

fn any_key(keys: &[Option<ImplicitKey>]) -> bool
    ensures { result ≡ list_any is_some keys.now }
{
    keys.iter().any(|key| key.is_some())
}

/// Gives up a possible key that began on an earlier line or too far back.
fn drop_one(key: &mut Option<ImplicitKey>, mark: Marker)
    ensures { key.new ≡ still_implicit mark key.old }
{
    let far = match key {
        Some(simple) => is_far(simple.mark, mark),
        None => false,
    };
    if far {
        *key = None;
    }
}

/// A token was handed out before a key.
fn lower_one(key: &mut Option<ImplicitKey>)
    ensures { key.new ≡ lowered key.old }
{
    if let Some(simple) = key {
        simple.position = simple.position.saturating_sub(1);
    }
}

fn drop_far(keys: &mut [Option<ImplicitKey>], mark: Marker)
    ensures { keys.new ≡ map (still_implicit mark) keys.old }
{
    'keys: for key in keys.iter_mut() {
        drop_one(key, mark);
    }
}

fn lower_all(keys: &mut [Option<ImplicitKey>])
    ensures { keys.new ≡ map lowered keys.old }
{
    'keys: for key in keys.iter_mut() {
        lower_one(key);
    }
}

fn close_all(keys: &mut [Option<ImplicitKey>])
    ensures { keys.new ≡ map no_implicit keys.old }
{
    'keys: for key in keys.iter_mut() {
        *key = None;
    }
}

impl ImplicitKeys {
    /// No key may begin yet. It takes no memory.
    pub fn new(alloc: Global) -> Self
        ensures { result ≡ [] }
    {
        ImplicitKeys {
            levels: Vec::new(alloc),
            any: false,
        }
    }

    /// Opens a level without a key. An `Err` changes nothing.
    #[tactic(auto, using(crate::proofs::StackLemmas::pushed))]
    pub fn open_level(&mut self) -> Result<(), AllocError>
        ensures ok { OnOk result (self.new ≡ None ∷ self.old) }
        ensures err { OnErr result (self.new ≡ self.old) }
    {
        self.levels.push(None).map_err(|_| AllocError)
    }

    /// Closes the innermost level.
    #[tactic(auto, using(crate::proofs::KeyLemmas::popped, crate::proofs::KeyLemmas::none_popped))]
    pub fn close_level(&mut self)
        ensures { self.new ≡ pop self.old }
    {
        let _ = self.levels.pop();
    }

    /// The possible key of the innermost level.
    pub fn top(&self) -> Option<ImplicitKey>
        ensures { result ≡ top_implicit self.now }
    {
        *self.levels.last()?
    }

    /// Whether the possible key of the innermost level must be a key.
    #[tactic(auto, using(crate::proofs::KeyLemmas::required_top))]
    pub fn top_is_required(&self) -> bool
        ensures { (g : ℕ) → result ≡ is_required (top_key (seen g self.now)) }
    {
        is_required(self.top())
    }

    /// Sets the possible key of the innermost level.
    #[tactic(auto, using(crate::proofs::StackLemmas::top_set, crate::proofs::StackLemmas::none_set))]
    pub fn set_top(&mut self, key: Option<ImplicitKey>)
        ensures { self.new ≡ with_top key self.old }
    {
        let len = self.levels.len();
        if len > 0 {
            self.levels[len - 1] = key;
            self.any = key.is_some() || self.any && len > 1;
        }
    }

    /// Gives up all possible keys that began on an earlier line or too far back. An `Err` changes nothing.
    #[inline(always)]
    pub fn drop_stale(&mut self, mark: Marker) -> Result<(), Fault>
        ensures ok { OnOk result ((g : ℕ) → drop_stale mark (seen g self.old) ≡ Ok (seen g self.new)) }
        ensures err { IfErr result (λ e. (g : ℕ) → drop_stale mark (seen g self.old) ≡ Err e) }
    {
        if !self.any {
            return Ok(());
        }
        if !any_stale(&self.levels, mark) {
            return Ok(());
        }
        self.end_stale(mark)
    }

    // The same, where some key is stale.
    #[inline(always)]
    fn end_stale(&mut self, mark: Marker) -> Result<(), Fault>
        ensures ok { OnOk result ((g : ℕ) → drop_stale mark (seen g self.old) ≡ Ok (seen g self.new)) }
        ensures err { IfErr result (λ e. (g : ℕ) → drop_stale mark (seen g self.old) ≡ Err e) }
    {
        if any_overdue(&self.levels, mark) {
            return Err(Fault::At(Problem::KeyWithoutColon, mark));
        }
        drop_far(&mut self.levels, mark);
        self.any = any_key(&self.levels);
        Ok(())
    }

    /// Whether some key must still come to its `:`.
    pub fn has_required(&self) -> bool
        ensures { (g : ℕ) → result ≡ has_required (seen g self.now) }
    {
        any_required(&self.levels)
    }

    /// Whether there is a level, and none has a possible key.
    #[tactic(auto, using(crate::proofs::KeyLemmas::none_reversed, crate::proofs::StackLemmas::reversed_len))]
    pub fn has_none(&self) -> bool
        ensures none { result ≡ true → map no_implicit self.now ≡ self.now }
        ensures level { result ≡ true → 0 < length self.now }
    {
        !self.any && !self.levels.is_empty()
    }

    /// Gives up all possible keys.
    pub fn clear(&mut self)
        ensures { (g : ℕ) → seen g self.new ≡ cleared (seen g self.old) }
    {
        close_all(&mut self.levels);
        self.any = false;
    }

    /// Whether a key may still come before the next token.
    #[tactic(auto, using(crate::proofs::KeyLemmas::any_reversed))]
    pub fn may_precede(&self) -> bool
        ensures { result ≡ list_any is_front self.now }
    {
        self.any && any_front(&self.levels)
    }

    /// The next token was handed out.
    pub fn lower(&mut self)
        ensures { self.new ≡ map lowered self.old }
    {
        if self.any {
            lower_all(&mut self.levels);
        }
    }
}
