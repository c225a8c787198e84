//! What each layer answers, call by call: tokens, events, trees and dumps, deep ones too; copies and faults; how trees print; what is
//! refused by readers that fail after each number of bytes, by writers that refuse each of their calls or each byte, and
//! for events out of nesting.
#![tactic(auto)]

#[cfg(test)]
mod at_once;
#[cfg(test)]
mod calls;
#[cfg(test)]
mod deep;
#[cfg(test)]
mod emitter;
#[cfg(test)]
mod events;
#[cfg(test)]
mod faults;
#[cfg(test)]
mod kept;
#[cfg(test)]
mod lines;
#[cfg(test)]
mod made;
#[cfg(test)]
mod nodes;
#[cfg(test)]
mod pairs;
#[cfg(test)]
mod printed;
#[cfg(test)]
mod pushes;
#[cfg(test)]
mod refused_events;
#[cfg(test)]
mod refused_json;
#[cfg(test)]
mod refused_parts;
#[cfg(test)]
mod refused_reads;
#[cfg(test)]
mod refused_writes;
#[cfg(test)]
mod scanner;
#[cfg(test)]
mod thresholds;
#[cfg(test)]
mod tokens;
#[cfg(test)]
mod tree_writes;
#[cfg(test)]
mod typing;
