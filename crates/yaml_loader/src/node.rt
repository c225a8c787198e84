//! The events of a reading, and where a complete node goes.
ghost use Rattle.std.specs.Prelude.{◌≡◌, ◌<◌, ℕ, [], Some, None, IfSome, IfOk, IfErr, OnOk, option_map, unwrap_or, string_bytes};
ghost use Rattle.defs_text.specs.Text.{string_chars};
ghost use Rattle.yaml_tokens.specs.Shown.{style_of};
ghost use Rattle.defs_event.specs.Anchors.{aliased, finished};
ghost use Rattle.defs_event.specs.Event.{Ev};
ghost use Rattle.defs_event.specs.Unfinished.{opened_sequence, opened_mapping, reads, with_tree, with_node, with_start, with_event};
ghost use Rattle.defs_tree.specs.Tree.{bad_value};
ghost use Rattle.yaml_tree.specs.View.{view};
ghost use Rattle.yaml_parser.specs.Shown.{ev_of, perhaps_tag_of};
ghost use Rattle.yaml_loader.specs.View.{opened_of, unfinished_of, Inserts, IsNoInsert, Reads, Refuses, KeepsDocuments, repeated_key};
ghost use Rattle.yaml_loader.specs.RepeatedKey.{TellsKey, shown_key};

use crate::reading::{Open, Refusal, TreeBuilder};
use crate::scalar::scalar_tree;
use std::alloc::{AllocError, Global};
use yaml_parser::{Event, Tag};
use yaml_tokens::TScalarStyle;
use yaml_tree::{Array, Hash, Yaml};

impl TreeBuilder {
    /// Adds one more event. After a refusal only the documents count; after a repeated key also the mapping that has
    /// it.
    #[inline(always)]
    pub(crate) fn take(&mut self, event: Event) -> Result<(), Refusal>
        ensures ok { Reads (with_event (unfinished_of self.old) (ev_of event)) result self.new }
        ensures err { Refuses (with_event (unfinished_of self.old) (ev_of event)) result self.new }
        ensures documents { KeepsDocuments self.old result self.new }
    {
        match event {
            Event::Nothing | Event::StreamStart | Event::StreamEnd | Event::DocumentStart => Ok(()),
            Event::DocumentEnd => self.end_document(),
            Event::Alias(number) => self.take_alias(number),
            Event::Scalar(text, style, anchor, tag) => self.take_scalar(text, style, anchor, tag),
            Event::SequenceStart(anchor, _) => self.start_sequence(anchor),
            Event::SequenceEnd => self.end_sequence(),
            Event::MappingStart(anchor, _) => self.start_mapping(anchor),
            Event::MappingEnd => self.end_mapping(),
        }
    }

    #[inline(never)]
    fn take_alias(&mut self, number: usize) -> Result<(), Refusal>
        ensures ok { Reads (with_event (unfinished_of self.old) (Ev.alias number)) result self.new }
        ensures err { Refuses (with_event (unfinished_of self.old) (Ev.alias number)) result self.new }
        ensures documents { KeepsDocuments self.old result self.new }
    {
        let node = self.aliased(number)?;
        self.insert(node)
    }

    #[inline(always)]
    fn take_scalar(
        &mut self,
        text: String,
        style: TScalarStyle,
        anchor: usize,
        tag: Option<Tag>,
    ) -> Result<(), Refusal>
        ensures ok { let e = Ev.scalar (string_chars text) (style_of style) anchor (perhaps_tag_of tag) in Reads (with_event (unfinished_of self.old) e) result self.new }
        ensures err { let e = Ev.scalar (string_chars text) (style_of style) anchor (perhaps_tag_of tag) in Refuses (with_event (unfinished_of self.old) e) result self.new }
        ensures documents { KeepsDocuments self.old result self.new }
    {
        self.insert_anchored(anchor, scalar_tree(text, style, tag))
    }

    #[inline(never)]
    fn start_sequence(&mut self, anchor: usize) -> Result<(), Refusal>
        ensures ok { let u = unfinished_of self.old in Reads (with_start (opened_sequence anchor []) u u.opened u.root) result self.new }
        ensures err { let u = unfinished_of self.old in Refuses (with_start (opened_sequence anchor []) u u.opened u.root) result self.new }
        ensures documents { KeepsDocuments self.old result self.new }
    {
        self.open(Open::Sequence(anchor, Array::new(self.alloc)))
    }

    #[inline(never)]
    fn start_mapping(&mut self, anchor: usize) -> Result<(), Refusal>
        ensures ok { let u = unfinished_of self.old in Reads (with_start (opened_mapping anchor [] None) u u.opened u.root) result self.new }
        ensures err { let u = unfinished_of self.old in Refuses (with_start (opened_mapping anchor [] None) u u.opened u.root) result self.new }
        ensures documents { KeepsDocuments self.old result self.new }
    {
        self.open(Open::Mapping(anchor, Hash::new(self.alloc), None))
    }

    #[inline(never)]
    fn end_document(&mut self) -> Result<(), Refusal>
        ensures ok { Reads (with_event (unfinished_of self.old) Ev.document_end) result self.new }
        ensures err { Refuses (with_event (unfinished_of self.old) Ev.document_end) result self.new }
        ensures documents { KeepsDocuments self.old result self.new }
    {
        if !self.opened.is_empty() {
            return Err(Refusal::OutOfNesting);
        }
        let node = self.root.take().unwrap_or(Yaml::BadValue);
        self.documents.push(node).map_err(|_| AllocError)?;
        Ok(())
    }

    #[inline(always)]
    fn open(&mut self, collection: Open) -> Result<(), Refusal>
        ensures ok { let u = unfinished_of self.old in Reads (with_start (opened_of collection) u u.opened u.root) result self.new }
        ensures err { let u = unfinished_of self.old in Refuses (with_start (opened_of collection) u u.opened u.root) result self.new }
        ensures documents { KeepsDocuments self.old result self.new }
    {
        if self.opened.is_empty() && self.root.is_some() {
            return Err(Refusal::OutOfNesting);
        }
        self.opened.reserve(1)?;
        self.opened.push_reserved(collection);
        Ok(())
    }

    #[inline(never)]
    fn end_sequence(&mut self) -> Result<(), Refusal>
        ensures ok { Reads (with_event (unfinished_of self.old) Ev.sequence_end) result self.new }
        ensures err { Refuses (with_event (unfinished_of self.old) Ev.sequence_end) result self.new }
        ensures documents { KeepsDocuments self.old result self.new }
    {
        match self.opened.pop() {
            Some(Open::Sequence(anchor, items)) => {
                self.insert_anchored(anchor, Yaml::Array(items))
            }
            Some(Open::Mapping(_, _, _)) => Err(Refusal::OutOfNesting),
            None => Err(Refusal::OutOfNesting),
        }
    }

    #[inline(never)]
    fn end_mapping(&mut self) -> Result<(), Refusal>
        ensures ok { Reads (with_event (unfinished_of self.old) Ev.mapping_end) result self.new }
        ensures err { Refuses (with_event (unfinished_of self.old) Ev.mapping_end) result self.new }
        ensures documents { KeepsDocuments self.old result self.new }
    {
        match self.opened.pop() {
            Some(Open::Mapping(anchor, pairs, None)) => {
                self.insert_anchored(anchor, Yaml::Hash(pairs))
            }
            // The key waits for its value.
            Some(Open::Mapping(_, _, Some(_))) => Err(Refusal::OutOfNesting),
            Some(Open::Sequence(_, _)) => Err(Refusal::OutOfNesting),
            None => Err(Refusal::OutOfNesting),
        }
    }

    /// A copy of the finished node with this anchor, or `BadValue` if there is none. A node is not finished while an
    /// alias stands inside it.
    fn aliased(&self, number: usize) -> Result<Yaml, AllocError>
        ensures { IfOk result (λ node. view node ≡ aliased number (unfinished_of self.now).anchors) }
    {
        match self.anchors.get(&number) {
            Some(node) => node.clone(self.alloc),
            None => Ok(Yaml::BadValue),
        }
    }

    /// A complete node with its anchor, if the number is not 0.
    #[inline(always)]
    fn insert_anchored(&mut self, anchor: usize, node: Yaml) -> Result<(), Refusal>
        ensures ok { let u = unfinished_of self.old in Reads (with_node anchor (view node) u u.opened) result self.new }
        ensures err { let u = unfinished_of self.old in Refuses (with_node anchor (view node) u u.opened) result self.new }
        ensures documents { KeepsDocuments self.old result self.new }
    {
        self.finish(anchor, &node)?;
        self.insert(node)
    }

    /// The node with this anchor is complete: from now on an alias means a copy of it.
    #[inline(always)]
    fn finish(&mut self, anchor: usize, node: &Yaml) -> Result<(), AllocError>
        ensures aliases { let before = (unfinished_of self.old).anchors in let after = (unfinished_of self.new).anchors in
            OnOk result ((n : ℕ) → aliased n (finished anchor (view node.now) before) ≡ aliased n after) }
        ensures others { self.new ≡ record self.old { anchors = self.new.anchors } }
    {
        if anchor > 0 {
            self.keep(anchor, node)?;
        }
        Ok(())
    }

    #[inline(never)]
    fn keep(&mut self, anchor: usize, node: &Yaml) -> Result<(), AllocError>
        requires { 0 < anchor }
        ensures aliases { let before = (unfinished_of self.old).anchors in let after = (unfinished_of self.new).anchors in
            OnOk result ((n : ℕ) → aliased n (finished anchor (view node.now) before) ≡ aliased n after) }
        ensures others { self.new ≡ record self.old { anchors = self.new.anchors } }
    {
        let copy = node.clone(self.alloc)?;
        self.anchors.insert(anchor, copy)?;
        Ok(())
    }

    /// What a fault says of a key that came twice.
    #[cold]
    #[inline(never)]
    pub(crate) fn repeated_key_text(&self) -> Result<String, AllocError>
        ensures { let key = repeated_key (unfinished_of self.now).opened in IfOk result (λ text. TellsKey key (string_bytes text)) }
    {
        text_of_key(self.alloc, self.repeated_key().unwrap_or(&Yaml::BadValue))
    }

    /// The key that came twice: the last one of the innermost mapping.
    fn repeated_key(&self) -> Option<&Yaml>
        ensures { unwrap_or (option_map (λ key. view key.now) result) bad_value ≡ repeated_key (unfinished_of self.now).opened }
    {
        match self.opened.last()? {
            Open::Mapping(_, pairs, _) => Some(pairs.back()?.0),
            Open::Sequence(_, _) => None,
        }
    }

    /// A complete node: the root, the next item, the next key, or the value of the key that waits.
    #[inline(always)]
    fn insert(&mut self, node: Yaml) -> Result<(), Refusal>
        ensures ok { let u = unfinished_of self.old in OnOk result (with_tree (view node) u u.opened ≡ reads (unfinished_of self.new)) }
        ensures err { let u = unfinished_of self.old in Refuses (with_tree (view node) u u.opened) result self.new }
        ensures documents { KeepsDocuments self.old result self.new }
    {
        match self.opened.last_mut() {
            Some(collection) => collection.insert(node),
            None => {
                if self.root.is_some() {
                    return Err(Refusal::OutOfNesting);
                }
                self.root = Some(node);
                Ok(())
            }
        }
    }
}

// What a fault says of this key.
fn text_of_key(alloc: Global, key: &Yaml) -> Result<String, AllocError>
    ensures { IfOk result (λ text. TellsKey (view key.now) (string_bytes text)) }
{
    let mut text = shown_key(alloc, key)?;
    text.push_str(": duplicated key in mapping")?;
    Ok(text)
}

// The key as `Debug` shows it. A string is written here, since no clause says what `Debug` writes.
#[tactic(auto, using(crate::proofs::KeyText::bytes_again))]
fn shown_key(alloc: Global, key: &Yaml) -> Result<String, AllocError>
    ensures { IfOk result (λ text. IfSome (shown_key (view key.now)) (λ known. string_bytes text ≡ known)) }
{
    match key {
        Yaml::String(text) => format!(in alloc; "String({text:?})"),
        _ => format!(in alloc; "{key:?}"),
    }
}

impl Open {
    #[inline(always)]
    fn insert(&mut self, node: Yaml) -> Result<(), Refusal>
        ensures ok { OnOk result (Inserts (opened_of self.old) (view node) (opened_of self.new)) }
        ensures err { IfErr result (λ r. IsNoInsert r (opened_of self.old) (view node) (opened_of self.new)) }
    {
        match self {
            Open::Sequence(_, items) => match items.push(node) {
                Ok(()) => Ok(()),
                Err(_) => Err(Refusal::OutOfMemory),
            },
            Open::Mapping(_, pairs, key) => match key.take() {
                None => {
                    *key = Some(node);
                    Ok(())
                }
                Some(key) => insert_pair(pairs, key, node),
            },
        }
    }
}

// Not a call of its own, which would copy both nodes once more.
#[inline(always)]
#[tactic(auto, using(crate::proofs::OpenedLemmas::last_of_push))]
fn insert_pair(pairs: &mut Hash, key: Yaml, value: Yaml) -> Result<(), Refusal>
    ensures ok { OnOk result ((n : ℕ) → Inserts (opened_mapping n pairs.old (Some (view key))) (view value) (opened_mapping n pairs.new None)) }
    ensures err { IfErr result (λ r. (n : ℕ) → IsNoInsert r (opened_mapping n pairs.old (Some (view key))) (view value) (opened_mapping n pairs.new None)) }
{
    match pairs.put(key, value) {
        Ok(false) => Ok(()),
        Ok(true) => Err(Refusal::RepeatedKey),
        Err(_) => Err(Refusal::OutOfMemory),
    }
}
