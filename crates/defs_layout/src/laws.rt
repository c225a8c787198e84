//! Laws of the relations and of the JSON texts of trees, each the contract of an empty function.

ghost use Rattle.defs_layout.specs.Laws.{JsonTreesAreSound, LaidOutTreesAreSound, BasicLayoutsAreLayouts, LayoutsInTurnAreLayouts};
ghost use Rattle.defs_layout.specs.JsonLaws.{JsonTextsAreJson, ValuesHaveJson, JsonHasNoFault};

/// The tree of a JSON text is sound: no hash has a key twice, integers have 64 bits, and there is no alias and no bad
/// value.
pub fn json_trees_are_sound()
    ensures { JsonTreesAreSound }
{}

/// Each tree of a layout is sound: no hash has a key twice, integers have 64 bits, and there is no alias and no bad
/// value.
pub fn laid_out_trees_are_sound()
    ensures { LaidOutTreesAreSound }
{}

/// A basic layout of a tree is a layout of that one tree.
#[tactic(auto, using(crate::proofs::InTurn::is_layout))]
pub fn basic_layouts_are_layouts()
    ensures { BasicLayoutsAreLayouts }
{}

/// Basic layouts of several trees, each followed by an LF, are a layout of these trees.
#[tactic(auto, using(crate::proofs::InTurn::layouts_in_turn))]
pub fn layouts_in_turn_are_layouts()
    ensures { LayoutsInTurnAreLayouts }
{}

/// The text of a tree, compact or indented, is a JSON text of that tree, where it nests at most 255 levels.
#[tactic(auto, using(crate::proofs::Written::json_texts_are_json))]
pub fn json_texts_are_json()
    ensures { JsonTextsAreJson }
{}

/// No other tree is the value of a JSON text.
pub fn values_have_json()
    ensures { ValuesHaveJson }
{}

/// In a tree that has a JSON text there is no node that has none.
#[tactic(auto, using(crate::proofs::Faults::no_fault))]
pub fn json_has_no_fault()
    ensures { JsonHasNoFault }
{}
