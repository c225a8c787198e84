//! Laws of the definitions, each the contract of an empty function.

ghost use Rattle.defs_tree.specs.Laws.{OrderIsTotal, EqualityIsExact, EqualityIsAnEquivalence, InsertKeepsKeysDistinct, InsertedValueIsFound, InsertKeepsOtherValues, InsertKeepsTheOrder, PlaceFindsTheValue, LinesMakeTheText, LinesAreUnbroken, LinesAreThoseOfStd, BoxLinesAreUnbroken, FollowedByIsACut, TypingGivesAPlainScalar, StringsFitNoRow, SpellingStandsForItsScalar, DigitsAreLeast, OverlayKeepsKeysDistinct};
ghost use Rattle.defs_tree.specs.MergeLaws.{MergeFindsTheFirst, OwnPairsComeFirst, MergeKeepsKeysDistinct, NoMergeKeyIsLeft, TreesWithoutMergeKeysStay, TreesWithoutMergeKeysHaveNoFault};

/// The order of trees is total.
#[tactic(auto, using(crate::proofs::OrderLaws::tree_cmp_total))]
pub fn order_is_total()
    ensures { OrderIsTotal }
{}

/// The test of equality holds of two trees exactly if they are the same.
#[tactic(auto, using(crate::proofs::OrderLaws::tree_eq_decides))]
pub fn equality_is_exact()
    ensures { EqualityIsExact }
{}

/// Equality is reflexive, symmetric and transitive.
#[tactic(auto, using(crate::proofs::OrderLaws::tree_eq_equiv))]
pub fn equality_is_an_equivalence()
    ensures { EqualityIsAnEquivalence }
{}

/// If the keys are distinct, they are distinct after an insertion.
#[tactic(auto, using(crate::proofs::PairsLaws::AreDistinct_insert))]
pub fn insert_keeps_keys_distinct()
    ensures { InsertKeepsKeysDistinct }
{}

/// The value that was inserted at a key is found there.
#[tactic(auto, using(crate::proofs::PairsLaws::lookup_insert))]
pub fn inserted_value_is_found()
    ensures { InsertedValueIsFound }
{}

/// An insertion leaves the value at every other key.
#[tactic(auto, using(crate::proofs::PairsLaws::lookup_insert_other))]
pub fn insert_keeps_other_values()
    ensures { InsertKeepsOtherValues }
{}

/// The pairs of the other keys keep their order, and the new pair is the last.
#[tactic(auto, using(crate::proofs::PairsLaws::insert_in_order))]
pub fn insert_keeps_the_order()
    ensures { InsertKeepsTheOrder }
{}

/// The value at a key's place is the key's value. A key without a place has no value.
#[tactic(auto, using(crate::proofs::Places::place_finds))]
pub fn place_finds_the_value()
    ensures { PlaceFindsTheValue }
{}

/// The texts of one language followed by another are those that can be split into a text of each.
pub fn followed_by_is_a_cut()
    ensures { FollowedByIsACut }
{}

/// The lines of a text, each followed by a line feed, are the text, with one more line feed if the text does not end
/// in one.
#[tactic(auto, using(crate::proofs::LinesLaws::lines_of_ended))]
pub fn lines_make_the_text()
    ensures { LinesMakeTheText }
{}

/// No line holds a line feed.
#[tactic(auto, using(crate::proofs::LinesLaws::lines_of_unbroken))]
pub fn lines_are_unbroken()
    ensures { LinesAreUnbroken }
{}

/// If a text has no CR, its lines are those that `str::lines` gives.
#[tactic(auto, using(crate::proofs::LinesLaws::lines_of_std))]
pub fn lines_are_those_of_std()
    ensures { LinesAreThoseOfStd }
{}

/// No line in which a tree is written holds a line feed. So the lines of its text are these lines.
#[tactic(auto, using(crate::proofs::BoxLaws::box_unbroken))]
pub fn box_lines_are_unbroken()
    ensures { BoxLinesAreUnbroken }
{}

/// A plain text stands for a null, a boolean, an integer of 64 bits, or a real or string with that text.
#[tactic(auto, using(crate::proofs::TypingLaws::typing_plain))]
pub fn typing_gives_a_plain_scalar()
    ensures { TypingGivesAPlainScalar }
{}

/// A text is a string exactly if no row of the typing table fits it.
#[tactic(auto, using(crate::proofs::TypingLaws::strings_exactly))]
pub fn strings_fit_no_row()
    ensures { StringsFitNoRow }
{}

/// The spelling of a scalar that is written plainly stands for that scalar.
#[tactic(auto, using(crate::proofs::ReadBack::spelling_back))]
pub fn spelling_stands_for_its_scalar()
    ensures { SpellingStandsForItsScalar }
{}

/// The number of binary digits of n is the least k with n below 2^k.
pub fn digits_are_least()
    ensures { DigitsAreLeast }
{}

/// If two trees have distinct keys, one laid over the other has distinct keys.
#[tactic(auto, using(crate::proofs::OverlayLaws::overlay_distinct))]
pub fn overlay_keeps_keys_distinct()
    ensures { OverlayKeepsKeysDistinct }
{}

/// The value at a key is the mapping's own, or else that of the first merged mapping that has the key.
#[tactic(auto, using(crate::proofs::Merging::merge_finds))]
pub fn merge_finds_the_first()
    ensures { MergeFindsTheFirst }
{}

/// The mapping's own pairs come first, in their order, and the merged ones after them.
#[tactic(auto, using(crate::proofs::Merging::own_first))]
pub fn own_pairs_come_first()
    ensures { OwnPairsComeFirst }
{}

/// If a tree has distinct keys, it has distinct keys after its merges.
#[tactic(auto, using(crate::proofs::Merging::merged_distinct))]
pub fn merge_keeps_keys_distinct()
    ensures { MergeKeepsKeysDistinct }
{}

/// No merge key is left.
#[tactic(auto, using(crate::proofs::Merging::none_is_left))]
pub fn no_merge_key_is_left()
    ensures { NoMergeKeyIsLeft }
{}

/// A tree without merge keys stays as it is.
#[tactic(auto, using(crate::proofs::Merging::merged_same))]
pub fn trees_without_merge_keys_stay()
    ensures { TreesWithoutMergeKeysStay }
{}

/// In a tree without merge keys there is nothing that cannot be merged.
#[tactic(auto, using(crate::proofs::Unmergeable::no_fault))]
pub fn trees_without_merge_keys_have_no_fault()
    ensures { TreesWithoutMergeKeysHaveNoFault }
{}
