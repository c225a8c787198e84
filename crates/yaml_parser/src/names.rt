ghost use Rattle.std.specs.Prelude.{◌≡◌, List, [], Bool, true, false, Some, None, option_map, string_bytes, if◌then◌else◌, bytes_eq, String, IfOk, IfErr, OnOk};
ghost use Rattle.std.specs.BTreeMap.{get_by_text};
ghost use Rattle.std.specs.declared.alloc.Global.{Global};
ghost use Rattle.defs_text.specs.Text.{string_chars};
ghost use Rattle.yaml_tokens.specs.declared.problem.Fault.TheVariants.{OutOfMemory};
ghost use Rattle.yaml_tokens.specs.declared.problem.Fault.TheVariants as fault;
ghost use Rattle.yaml_tokens.specs.declared.problem.Problem.TheVariants.{UnknownAnchor};
ghost use Rattle.defs_event.specs.Names as defs;
ghost use Rattle.defs_event.specs.Names.{at_document, no_names, number, with_anchor};
ghost use Rattle.defs_event.specs.Raw.{Directive};
ghost use Rattle.yaml_parser.specs.Named.{IsNamed, IsOwn, is_own, prefix_of};
ghost use Rattle.yaml_parser.specs.Declares.{HasRead, Declares};
ghost use Rattle.yaml_parser.specs.Held.{Notes};
ghost use Rattle.yaml_parser.specs.Resolves.{Resolves, IsUndeclared};

use crate::event::{Tag, copied};
use std::alloc::{AllocError, Global};
use std::collections::BTreeMap;
use yaml_chars::Marker;
use yaml_chars::ghost_list::GhostList;
use yaml_tokens::{Fault, Problem};

// What `!!` stands for where it is not declared (YAML 1.2, section 6.8.2.1).
const CORE_PREFIX: &str = "tag:yaml.org,2002:";

/// Sets the value of a name, and gives its old value. An `Err` changes no value.
#[tactic(auto, using(crate::proofs::NameLemmas::put_text))]
fn put<V: Drop>(
    map: &mut BTreeMap<String, V>,
    key: String,
    value: V,
) -> Result<Option<V>, AllocError>
    ensures before { IfOk result (λ o. o ≡ get_by_text map.old (string_bytes key)) }
    ensures kept { OnOk result ((x : String Global) → get_by_text map.new (string_bytes x) ≡ (if bytes_eq (string_chars x) (string_chars key) then Some value else get_by_text map.old (string_bytes x))) }
{
    match map.insert(key, value) {
        Ok(before) => Ok(before),
        Err(_) => Err(AllocError),
    }
}

/// Whether this is a directive other than `%YAML` and `%TAG`.
#[tactic(auto, using(crate::proofs::NameLemmas::empty_chars, crate::proofs::NameLemmas::nonempty_chars))]
fn declares_nothing(handle: &String, prefix: &String) -> bool
    ensures yes { result ≡ true → (string_chars handle.now ≡ []) × (string_chars prefix.now ≡ []) }
    ensures no { result ≡ false → string_chars handle.now ≡ [] → string_chars prefix.now ≡ [] → ⊥ }
{
    handle.is_empty() && prefix.is_empty()
}

/// Whether declared handles count in later documents too.
#[derive(Drop)]
pub struct Keeping {
    /// Whether they do now.
    pub tags: bool,
    /// Whether this was so from the stream's start on.
    pub steady: bool,
    /// With what the events were read, one by one.
    pub settings: GhostList<bool>,
}

impl Keeping {
    /// Makes the setting, which is the first or is not.
    pub fn set(&mut self, tags: bool, steady: bool)
        ensures tags { self.new.tags ≡ tags }
        ensures steady { self.new.steady ≡ steady }
        ensures settings { self.new.settings ≡ self.old.settings }
    {
        self.tags = tags;
        self.steady = steady;
    }

    /// Notes that one more event was read.
    pub fn note(&mut self)
        ensures { Notes self.old self.new }
    {
        let tags = self.tags;
        self.settings.push(&tags);
    }
}

/// What a handle was declared to stand for.
#[derive(Drop)]
pub struct Declaration {
    prefix: String,
    // The rank of the declaration in the stream, from 1.
    number: usize,
}

/// The names of a stream: anchors with their numbers, and tag handles with their prefixes.
#[derive(Drop)]
pub struct Names {
    alloc: Global,
    // How many anchors came so far.
    count: usize,
    anchors: BTreeMap<String, usize>,
    // How many declarations came so far.
    declared: usize,
    // How many of them came before this document.
    earlier: usize,
    handles: BTreeMap<String, Declaration>,
    /// Whether handles are kept.
    pub keeping: Keeping,
}

impl Names {
    /// The names before a stream: there are none. It takes no memory.
    pub fn new(alloc: Global) -> Self
        ensures tags { result.keeping.tags ≡ false }
        ensures steady { result.keeping.steady ≡ true }
        ensures settings { result.keeping.settings.items ≡ [] }
        ensures named { IsNamed result no_names }
    {
        Names {
            alloc,
            count: 0,
            anchors: BTreeMap::new(alloc),
            declared: 0,
            earlier: 0,
            handles: BTreeMap::new(alloc),
            keeping: Keeping {
                tags: false,
                steady: true,
                settings: GhostList::new(),
            },
        }
    }

    /// Forgets what a document's start forgets: the anchors, and the handles unless they are kept.
    pub fn start_document(&mut self)
        ensures keep { self.new.keeping ≡ self.old.keeping }
        ensures own { (names : defs.Names) → IsNamed self.old names → IsOwn self.new [] }
        ensures named { (names : defs.Names) → IsNamed self.old names → IsNamed self.new (at_document self.old.keeping.tags names []) }
    {
        self.anchors.clear();
        self.earlier = self.declared;
        if !self.keeping.tags {
            self.handles.clear();
        }
    }

    /// Declares a handle. A document may declare each handle only once.
    pub fn declare(&mut self, mark: Marker, handle: String, prefix: String) -> Result<(), Fault>
        ensures keep { self.new.keeping ≡ self.old.keeping }
        ensures declares { (keep : Bool) (names : defs.Names) (read : List Directive) → HasRead self.old keep names read → Declares mark self.new keep names read (string_chars handle) (string_chars prefix) result }
    {
        if declares_nothing(&handle, &prefix) {
            return Ok(());
        }
        let Some(number) = self.declared.checked_add(1) else {
            return Err(Fault::OutOfMemory);
        };
        let before = put(&mut self.handles, handle, Declaration { prefix, number })?;
        if self.is_own(&before) {
            return Err(Fault::At(Problem::RepeatedHandle, mark));
        }
        self.declared = number;
        Ok(())
    }

    /// Whether a declaration, if there is one, is of this document.
    fn is_own(&self, declaration: &Option<Declaration>) -> bool
        ensures { result ≡ is_own self.now.earlier declaration.now }
    {
        match declaration {
            Some(declaration) => self.earlier < declaration.number,
            None => false,
        }
    }

    /// A tag with its handle's prefix. `mark` is the position of a fault.
    #[tactic(auto, using(crate::proofs::NameLemmas::empty_chars, crate::proofs::NameLemmas::nonempty_chars, crate::proofs::NameLemmas::resolved_empty, crate::proofs::NameLemmas::resolved_nonempty, crate::proofs::NameLemmas::undeclared_resolves))]
    pub fn resolve(&self, mark: Marker, handle: String, suffix: String) -> Result<Tag, Fault>
        ensures { (names : defs.Names) → IsNamed self.now names → Resolves mark names (record { handle = string_chars handle; suffix = string_chars suffix }) result }
    {
        if handle.is_empty() {
            return Ok(Tag { handle, suffix });
        }
        match self.prefix(&handle)? {
            Some(prefix) => Ok(Tag {
                handle: prefix,
                suffix,
            }),
            None => self.undeclared(mark, handle, suffix),
        }
    }

    /// A copy of what a handle was declared to stand for.
    #[tactic(auto, using(yaml_chars::proofs::TextLemmas::string_chars_same))]
    fn prefix(&self, handle: &String) -> Result<Option<String>, AllocError>
        ensures { IfOk result (λ o. option_map string_chars o ≡ option_map prefix_of (get_by_text self.now.handles (string_bytes handle.now))) }
    {
        match self.handles.get(handle.as_str()) {
            Some(declaration) => Ok(Some(copied(self.alloc, &declaration.prefix)?)),
            None => Ok(None),
        }
    }

    /// A tag whose handle was not declared.
    #[tactic(auto, using(crate::proofs::NameLemmas::secondary_is, crate::proofs::NameLemmas::primary_is, crate::proofs::NameLemmas::undeclared_primary, crate::proofs::NameLemmas::core_is))]
    fn undeclared(&self, mark: Marker, handle: String, suffix: String) -> Result<Tag, Fault>
        ensures { IsUndeclared mark (string_chars handle) (string_chars suffix) result }
    {
        if handle.as_str() == "!!" {
            let handle = String::from_str(self.alloc, CORE_PREFIX)?;
            return Ok(Tag { handle, suffix });
        }
        if handle.as_str() == "!" {
            return Ok(Tag { handle, suffix });
        }
        Err(Fault::At(Problem::UndeclaredHandle, mark))
    }

    /// Numbers an anchor, if there is one.
    pub fn register(&mut self, anchor: Option<String>) -> Result<usize, Fault>
        ensures keep { self.new.keeping ≡ self.old.keeping }
        ensures value { IfOk result (λ n. (names : defs.Names) → IsNamed self.old names → n ≡ number names (option_map string_chars anchor)) }
        ensures named { OnOk result ((names : defs.Names) → IsNamed self.old names → IsNamed self.new (with_anchor names (option_map string_chars anchor))) }
        ensures err { IfErr result (λ f. f ≡ OutOfMemory) }
    {
        let Some(name) = anchor else {
            return Ok(0);
        };
        let Some(number) = self.count.checked_add(1) else {
            return Err(Fault::OutOfMemory);
        };
        put(&mut self.anchors, name, number)?;
        self.count = number;
        Ok(number)
    }

    /// The number of the anchor that an alias means.
    pub fn number_of(&self, mark: Marker, name: &String) -> Result<usize, Fault>
        ensures some { IfOk result (λ n. get_by_text self.now.anchors (string_bytes name.now) ≡ Some n) }
        ensures none { IfErr result (λ f. (f ≡ fault.At UnknownAnchor mark) × (get_by_text self.now.anchors (string_bytes name.now) ≡ None)) }
    {
        match self.anchors.get(name.as_str()) {
            Some(number) => Ok(*number),
            None => Err(Fault::At(Problem::UnknownAnchor, mark)),
        }
    }
}
