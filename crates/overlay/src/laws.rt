//! Laws of merge keys: functions whose clause is a theorem about the definitions. A proof calls a law to learn its theorem.

pub use defs_tree::laws::{
    merge_finds_the_first, merge_keeps_keys_distinct, no_merge_key_is_left, own_pairs_come_first,
    trees_without_merge_keys_have_no_fault, trees_without_merge_keys_stay,
};
