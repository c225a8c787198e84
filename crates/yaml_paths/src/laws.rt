//! Laws of paths: functions whose clause is a theorem about the definitions. A proof calls a law to learn its theorem.
ghost use Rattle.yaml_paths.specs.Laws.{EachLeadsToANodeOrHasAFault};

/// There is a reason why a path leads to no node exactly where it leads to none.
#[tactic(auto, using(crate::proofs::Nowhere::each_leads_to_a_node_or_has_a_fault))]
pub fn each_path_leads_to_a_node_or_has_a_fault()
    ensures { EachLeadsToANodeOrHasAFault }
{}
