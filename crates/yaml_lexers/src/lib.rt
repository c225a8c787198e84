//! Lexing functions over a window: spaces, flow and block scalars, anchors, tags and directives.
#![tactic(auto)]

mod anchor;
mod block;
mod directive;
mod escape;
mod folding;
mod header;
mod plain;
mod quoted;
mod space;
mod tag;
mod uri;

pub use anchor::read_anchor_name;
pub use block::read_block_scalar;
pub use directive::read_directive;
pub use model_scanner::{Context, SkipTabs, Whitespace};
pub use plain::{Plain, read_plain};
pub use quoted::read_quoted;
pub use space::{skip_comment, skip_linebreak, skip_ws_to_eol};
pub use tag::read_tag;
