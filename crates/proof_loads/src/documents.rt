//! Laws of the documents of any text, each the contract of an empty function.

ghost use Rattle.proof_loads.specs.Documents.{ReadDocumentsComeBack, AliasesInsideTheirNodeAreBadValues};

/// If a document can be written, its dump means that one document, in each setting, whatever text the document
/// was read from.
#[tactic(auto, using(crate::proofs::DocumentTrees::documents_come_back))]
pub fn read_documents_come_back()
    ensures { ReadDocumentsComeBack }
{}

/// An alias inside the node that it means stands for a bad value.
pub fn aliases_inside_their_node_are_bad_values()
    ensures { AliasesInsideTheirNodeAreBadValues }
{}
