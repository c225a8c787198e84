//! The relations between trees and their texts: JSON texts, layouts and basic layouts, with the tokens of such texts; the JSON text of a tree,
//! which trees have one, and the first node that has none.
#![tactic(auto)]

pub mod laws;
