//! Definitions over YAML trees and texts: typing, spelling, order, the text of a dump, one tree laid over another, merge keys; and their laws.
#![tactic(auto)]

pub mod laws;
