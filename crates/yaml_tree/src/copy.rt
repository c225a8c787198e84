//! Copies of trees. What is half copied stands in memory and not on the stack, however deep the tree is.
ghost use Rattle.std.specs.Prelude.{◌≡◌, ◌+◌, ◌<◌, ◌≤◌, ◌∷◌, [], true, IfOk, OnErr, IfSome, IfNone};
ghost use Rattle.yaml_tree.specs.Copying.{source_tree, begun_tree, left, IsFilled};
ghost use Rattle.yaml_tree.specs.Flat.{flat};
ghost use Rattle.yaml_tree.specs.Node.{takes_memory};
ghost use Rattle.yaml_tree.specs.View.{view, items_view};
ghost use Rattle.yaml_tree.specs.Weight.{nodes, parts};

use crate::array::Array;
use crate::hash::Hash;
use crate::yaml::Yaml;
use std::alloc::{AllocError, Global};
use std::mem;

/// An array or a hash.
#[derive(Clone, Copy)]
pub(crate) enum Source<'a> {
    Items(&'a Array),
    Pairs(&'a Hash),
}

impl<'a> Source<'a> {
    /// The items, or the keys and values.
    pub(crate) fn row(self) -> &'a [Yaml]
        ensures { items_view result.now ≡ parts (source_tree self.entry) }
    {
        match self {
            Source::Items(items) => items.items.as_slice(),
            Source::Pairs(pairs) => pairs.row.as_slice(),
        }
    }

    /// Where its memory is from.
    pub(crate) fn allocator(self) -> Global {
        match self {
            Source::Items(items) => *items.items.allocator(),
            Source::Pairs(pairs) => pairs.allocator(),
        }
    }

    // The array or hash of a copied row.
    #[inline(always)]
    fn whole(self, alloc: Global, row: Vec<Yaml>) -> Result<Yaml, AllocError>
        requires { items_view row.items ≡ parts (source_tree self) }
        ensures { IfOk result (λ y. view y ≡ source_tree self.entry) }
    {
        match self {
            Source::Items(_) => Ok(Yaml::Array(Array { items: row })),
            Source::Pairs(pairs) => Ok(Yaml::Hash(pairs.with_row(alloc, row)?)),
        }
    }
}

/// The copy of a scalar, or an array or a hash that is to be copied.
enum Begun<'a> {
    Scalar(Yaml),
    Collection(Source<'a>),
}

#[inline(always)]
#[tactic(auto, using(crate::proofs::TextLemmas::same_chars))]
fn begin<'a>(alloc: Global, node: &'a Yaml) -> Result<Begun<'a>, AllocError>
    ensures tree { IfOk result (λ b. begun_tree b ≡ view node.now) }
    ensures only_in_memory { OnErr result (takes_memory (view node.now) ≡ true) }
{
    match node {
        Yaml::Real(text) => Ok(Begun::Scalar(Yaml::Real(String::from_str(alloc, text.as_str())?))),
        Yaml::Integer(n) => Ok(Begun::Scalar(Yaml::Integer(*n))),
        Yaml::String(text) => Ok(Begun::Scalar(Yaml::String(String::from_str(
            alloc,
            text.as_str(),
        )?))),
        Yaml::Boolean(b) => Ok(Begun::Scalar(Yaml::Boolean(*b))),
        Yaml::Array(items) => Ok(Begun::Collection(Source::Items(items))),
        Yaml::Hash(pairs) => Ok(Begun::Collection(Source::Pairs(pairs))),
        Yaml::Alias(n) => Ok(Begun::Scalar(Yaml::Alias(*n))),
        Yaml::Null => Ok(Begun::Scalar(Yaml::Null)),
        Yaml::BadValue => Ok(Begun::Scalar(Yaml::BadValue)),
    }
}

/// An array or a hash of which some parts are copied.
#[derive(Drop)]
struct Level<'a> {
    source: Source<'a>,
    copied: Vec<Yaml>,
    rest: &'a [Yaml],
}

impl<'a> Level<'a> {
    fn new(alloc: Global, source: Source<'a>) -> Result<Level<'a>, AllocError>
        ensures source { IfOk result (λ l. source_tree l.source ≡ source_tree source.entry) }
        ensures filled { IfOk result (λ l. IsFilled l []) }
        ensures left { IfOk result (λ l. left l < nodes (source_tree source.entry)) }
    {
        let rest = source.row();
        Ok(Level {
            source,
            copied: Vec::with_capacity(alloc, rest.len())?,
            rest,
        })
    }

    // Copies the scalars before the next array or hash, and returns that, or `None` at the end.
    fn copy_scalars(&mut self, alloc: Global) -> Result<Option<Source<'a>>, AllocError>
        requires { IsFilled self.old [] }
        ensures source { source_tree self.new.source ≡ source_tree self.old.source }
        ensures found { IfOk result (λ o. IfSome o (λ s. IsFilled self.new (source_tree s ∷ []))) }
        ensures left { IfOk result (λ o. IfSome o (λ s. nodes (source_tree s) + left self.new ≤ left self.old)) }
        ensures end { IfOk result (λ o. IfNone o (items_view self.new.copied.items ≡ parts (source_tree self.new.source))) }
    {
        while let Some((node, rest)) = self.rest.split_first() {
            self.rest = rest;
            match begin(alloc, node)? {
                Begun::Scalar(copy) => self.copied.push(copy)?,
                Begun::Collection(source) => return Ok(Some(source)),
            }
        }
        Ok(None)
    }
}

// The items of an array, or the keys and values of a hash, copied.
fn copy_row(alloc: Global, source: Source<'_>) -> Result<Vec<Yaml>, AllocError>
    ensures { IfOk result (λ v. items_view v.items ≡ parts (source_tree source.entry)) }
{
    let mut open = Vec::new(alloc);
    let mut level = Level::new(alloc, source)?;
    'levels: loop {
        match level.copy_scalars(alloc)? {
            Some(inner) => {
                let inner = Level::new(alloc, inner)?;
                open.push(mem::replace(&mut level, inner))?;
            }
            None => {
                let Level { source, copied, .. } = level;
                let Some(outer) = open.pop() else {
                    return Ok(copied);
                };
                level = outer;
                level.copied.push(source.whole(alloc, copied)?)?;
            }
        }
    }
}

impl Yaml {
    /// A copy, equal to the node. An `Err` comes only where memory was refused, which none but a text, an array or a
    /// hash asks for.
    pub fn clone(&self, alloc: Global) -> Result<Yaml, AllocError>
        ensures tree { IfOk result (λ y. view y ≡ view self.now) }
        ensures only_in_memory { OnErr result (takes_memory (view self.now) ≡ true) }
    {
        match begin(alloc, self)? {
            Begun::Scalar(copy) => Ok(copy),
            Begun::Collection(source) => source.whole(alloc, copy_row(alloc, source)?),
        }
    }
}

impl Array {
    /// A copy with equal items. An `Err` comes only where memory was refused.
    pub fn clone(&self, alloc: Global) -> Result<Array, AllocError>
        ensures { IfOk result (λ a. a ≡ self.now) }
    {
        let items = copy_row(alloc, Source::Items(self))?;
        Ok(Array { items })
    }
}

impl Hash {
    /// A copy with equal pairs in the same order. An `Err` comes only where memory was refused.
    pub fn clone(&self, alloc: Global) -> Result<Hash, AllocError>
        ensures { IfOk result (λ h. h ≡ self.now) }
    {
        self.with_row(alloc, copy_row(alloc, Source::Pairs(self))?)
    }

    // The hash of a copy of its own row.
    fn with_row(&self, alloc: Global, row: Vec<Yaml>) -> Result<Hash, AllocError>
        requires { items_view row.items ≡ flat self.now }
        ensures { IfOk result (λ h. h ≡ self.now) }
    {
        let ranks = self.ranks.clone(alloc)?;
        Ok(Hash { row, ranks })
    }
}
