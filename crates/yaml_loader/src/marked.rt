//! Trees with positions: each node of a document, with the line and the column where it begins in the text.
//!
//! [`load_marked`] loads what `YamlLoader::load_from_str` loads, and refuses what it refuses. A [`Marked`] is a node: it is
//! looked up as a `Yaml` is, and its `marker` is its position.
//!
//! ```
//! let documents = load_marked(alloc, "host: a\nport: none\n")?;
//! let document = documents.first().ok_or("no document")?;
//! let port = document.get_key("port").ok_or("no port")?;
//! assert_eq!(rt; port.as_i64(), None);
//! assert_eq!(rt; (port.marker().line(), port.marker().col()), (2, 6));
//! ```
//!
//! A node begins where the event does that starts it:
//!
//! | Node | Position |
//! |---|---|
//! | a scalar, an alias, a flow collection | its first character, after its anchor and its tag |
//! | a block sequence | its first `-`; at the column of its key, what follows that `-` |
//! | a block mapping | its first `?`, or the `:` of its first pair: its first key has the column where it begins |
//! | a node that is not written | the next token after its place |
//!
//! An alias is a copy of a tree. It has the alias's own position (`marker`), beside that of the tree (`tree_marker`); its
//! parts have the positions of the tree's parts.
//!
//! [`MarkedLoader`] is what takes the events, for a receiver of your own that wraps it.
//!
//! Lines count from 1 and columns from 0, in characters. Positions take memory of their own, about as much as the trees.
//! The depth of a tree needs no more stack.
pub use crate::marked_documents::MarkedDocuments;
pub use crate::marked_load::load_marked;
pub use crate::marked_node::Marked;
pub use crate::marked_parts::{Items, Pairs};
pub use crate::marked_receiver::MarkedLoader;
