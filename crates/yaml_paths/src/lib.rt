//! Nodes by their paths, and typed reads: a text, a number, a truth value, or a list of these, with an error that says where and
//! what stood there instead.
//!
//! A path is a row of steps: [`Step::Key`] into a hash, [`Step::Index`] into an array. [`at`] gives the node at its end, and
//! [`read`] and [`read_list`] its value. [`read_or`] has a default for a value that is missing, and [`read_optional`] gives
//! `None`. The module [`marked`] has the same for nodes with positions; there an error has its position in the text too. Here
//! `PORT` is `&[Step::Key("server"), Step::Key("port")]`:
//!
//! ```
//! let documents = load_marked(alloc, "server:\n  port: none\n")?;
//! let document = documents.first().ok_or("no document")?;
//! let Err(error) = marked::read::<i64>(document, PORT) else {
//!     return Err(Fail::from("a number"));
//! };
//! let text = format!(in alloc; "{error}")?;
//! let wanted = r#"line 2, column 9: $["server"]["port"]: a string, where an integer is wanted"#;
//! assert_eq!(rt; text.as_str(), wanted);
//! ```
//!
//! - A value is read only from a node of its kind: `80` is no text, and `"80"` no number.
//! - A key is the text of a `String`. A place counts from 0, and names an item of an array alone.
//! - A node is missing if a hash has no such key or an array no such item. Null has neither: in a section that is left empty,
//!   as `server:` alone, all keys are missing.
//! - A node of another kind is never taken for a missing one. On the way a key wants a hash and a place an array, so with
//!   `server: oops` the error is `$["server"]: a string, where a hash is wanted`. Null at the path's end is another kind too.
//! - An error borrows the path that was asked for, so `at` and `read` take no memory.
#![tactic(auto)]

mod error;
mod from_yaml;
mod kind;
pub mod laws;
pub mod marked;
mod plain;
mod step;

pub use error::{ReadError, Reason};
pub use from_yaml::FromYaml;
pub use kind::Kind;
pub use plain::{at, read, read_list, read_optional, read_or};
pub use step::Step;
