//! Small programs that call the library, each proved from public contracts alone: a place to start from.
#![tactic(auto)]

pub mod agreement;
pub mod anchors;
pub mod calls;
pub mod comparisons;
pub mod defaults;
#[cfg(test)]
mod examples;
pub mod front_matter;
pub mod json_and_back;
pub mod json_to_yaml;
pub mod layered_settings;
pub mod lint;
pub mod many_documents;
#[cfg(test)]
mod marked_tests;
pub mod merged_settings;
#[cfg(test)]
mod missing_tests;
pub mod one_by_one;
#[cfg(test)]
mod paths_tests;
#[cfg(test)]
mod receiver_tests;
pub mod round_trip;
pub mod rows;
pub mod settings;
pub mod strangers;
pub mod strangers_log;
pub mod strangers_settings;
pub mod typed_reads;
pub mod validator;
