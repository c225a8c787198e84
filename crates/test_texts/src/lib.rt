//! Tests that go through all layers: tables of texts by subject, with the trees or faults that they give. In `specs/` each word
//! that a public clause or CALLING.md names is imported from the facade alone.
#![tactic(auto)]

#[cfg(test)]
mod tests;
