//! Loads of texts that a stranger wrote, within limits.
//!
//! Two kinds of text can end a program that loads them. A text can hold two keys of one mapping that nest so deep that their
//! comparison, which recurses, runs out of stack. And 60 aliases of aliases can make 3^20 nodes, since each alias is loaded
//! as a copy of its node. [`load_with_limits`] refuses both:
//!
//! ```
//! let text = "- &a [x, y]\n- *a\n";
//! match load_with_limits(alloc, text, Limits::for_text(text)) {
//!     Ok(documents) => assert_eq!(rt; documents.len(), 1), // what `load_from_str` gives
//!     Err(error) => match &error {
//!         LimitsError::Scan(fault) => println!(rt; "no YAML: {fault}")?,
//!         LimitsError::Levels(position) => println!(rt; "too deep in line {}", position.line())?,
//!         LimitsError::Size(position) => println!(rt; "too large in line {}", position.line())?,
//!     },
//! }
//! ```
//!
//! - `levels` limits how deep nodes stand one in another, and so the stack of each call that recurses on the trees:
//!   comparison, hashing, overlay and merge.
//! - `size` limits how many nodes are made and how many bytes their content and their tags have, and how many tokens wait
//!   until a flow collection that may be a key closes, and so the memory and the time of the load.
//!
//! What an event would make is counted before the loader has the event: an alias as the whole tree that it is a copy of, a
//! node with an anchor once where it stands and once as the copy that is kept for its aliases, a tag where its node stands
//! (`specs/Made`). A tag is a copy of the prefix that its handle stands for: under a `%TAG` whose prefix has 50,000
//! characters each `!e!a` copies as many. The numbers are exact: a count that does not fit in 64 bits is over every limit.
//!
//! `Ok` is what `YamlLoader::load_from_str` gives for the text. [`LimitsError`] tells the text's fault from a limit.
//!
//! [`load_marked_with_limits`] loads the same with the position of each node, in one load:
//!
//! ```
//! let documents = load_marked_with_limits(alloc, text, Limits::for_text(text))?;
//! let document = documents.first().ok_or("no document")?;
//! let port = document.get_key("port").ok_or("no port")?;
//! assert_eq!(rt; (port.marker().line(), port.marker().col()), (2, 6));
//! ```
//!
//! [`LimitedDocuments`] gives the documents one by one, each within the limits on its own:
//!
//! ```
//! let mut errors = 0_u64;
//! for document in LimitedDocuments::new(alloc, "level: info\n---\nlevel: error\n", limits) {
//!     let document = document?;
//!     let level = document.get_key("level").and_then(|level| level.as_str());
//!     if level == Some("error") {
//!         errors = errors.saturating_add(1);
//!     }
//! }
//! assert_eq!(rt; errors, 1);
//! ```
ghost use Rattle.std.specs.Prelude.{◌≡◌, ◌≤◌, ◌<◌, ◌+◌, ◌-◌, ◌*◌, ◌^◌, min, length, IfSome};
ghost use Rattle.defs_text.specs.Position.{Position};
ghost use Rattle.yaml_loader.specs.Made.{Made, IsWithin};
ghost use Rattle.yaml_loader.specs.Handing.{HoldsBack};

pub use crate::limited_documents::LimitedDocuments;
pub use crate::limited_load::load_with_limits;
pub use crate::limited_marked::load_marked_with_limits;
pub use crate::limits_error::LimitsError;
use yaml_chars::Marker;
use yaml_scanner::Backlog;

// How many tokens may wait beside as many as there may be nodes and bytes.
const FEW_TOKENS: usize = 1000;

/// How much a load may make.
#[derive(Clone, Copy, Debug, PartialEq, Eq)]
pub struct Limits {
    /// How deep nodes may stand one in another. A scalar and an empty collection have one level, any other collection has
    /// one more than its deepest node.
    pub levels: usize,
    /// How many nodes there may be, and how many bytes their content and their tags may have in UTF-8, together. An alias
    /// counts as a copy of its node, with all nodes in it. A node with an anchor counts twice, since a copy is kept for its
    /// aliases. A tag counts once, where its node stands, with the whole prefix that its handle stands for.
    ///
    /// Nothing in a flow collection that may be a key is counted before its bracket closes. So no more tokens may wait than so
    /// many and 1,000 more.
    pub size: usize,
}

impl Limits {
    /// Limits for a text that a stranger wrote: 256 levels, which no flow collection exceeds, and a size of three times the
    /// text's bytes and 100,000 more, for anchors and aliases.
    ///
    /// A text without anchors, aliases and tags is within this size: the most that one is known to make is two and a half
    /// times its bytes, where each pair `:,` of a flow sequence is a mapping and two nulls. A tag counts with its prefix, of
    /// 18 bytes for `!!`: the item `!!int 1,` makes not quite three times its bytes, and `!!a,` five times. So a text of
    /// more than 50,000 bytes that is little but tags of a letter or two is too large.
    pub fn for_text(text: &str) -> Limits
        ensures levels { result.levels ≡ 256 }
        ensures size { result.size ≡ min (3 * length text.now + 100000) (2 ^ 64 - 1) }
        ensures within { (m : Made) → m.size ≤ min (3 * length text.now + 100000) (2 ^ 64 - 1) → m.levels ≤ 256 → IsWithin result m }
    {
        Limits {
            levels: 256,
            size: text.len().saturating_mul(3).saturating_add(100_000),
        }
    }

    /// How many tokens may wait.
    pub(crate) fn room(&self) -> usize
        ensures { result ≡ min (self.now.size + 1000) (2 ^ 64 - 1) }
    {
        self.size.saturating_add(FEW_TOKENS)
    }

    /// Where more tokens waited than may.
    pub(crate) fn excess(&self, backlog: Option<Backlog>) -> Option<Marker>
        ensures { IfSome result (λ p. HoldsBack self.now backlog p) }
    {
        let Backlog { mark, tokens } = backlog?;
        if tokens <= self.room() {
            return None;
        }
        Some(mark)
    }
}
