//! The examples of the doc comments, line for line; docs/examples.py says which have no test here.

mod documents;
mod dumps;
mod events;
mod hashes;
mod json;
mod limits;
mod loads;
mod marked;
mod merges;
mod paths;
mod tokens;
mod trees;
