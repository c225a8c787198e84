//! Laws of texts that are one quoted scalar, each the contract of an empty function.

ghost use Rattle.proof_loads.specs.QuotedTexts.{QuotedTextsMeanTheirString, QuotedTextsAreWithoutNul};

/// Each text of one quoted scalar, followed by nothing but line feeds, means that one string, also if the text
/// without quotes would be another scalar.
#[tactic(auto, using(crate::proofs::QuotedTexts::quoted_texts_are_read))]
pub fn quoted_texts_mean_their_string()
    ensures { QuotedTextsMeanTheirString }
{}

/// No text of one quoted scalar has a NUL.
pub fn quoted_texts_are_without_nul()
    ensures { QuotedTextsAreWithoutNul }
{}
