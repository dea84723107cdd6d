//! The state of a decoder of OER (X.696), how each record that it finds changes it, and how many octets it lacks at
//! least after an error. The function does nothing; its contract is a law.
#![tactic(auto)]

ghost use Rattle.oer_codec_held_laws.specs.Few.{FewFound};

/// What is found is also found with a few octets appended, and if an element is missing, so are those that are to come
/// after it.
pub fn few_more_are_found()
    ensures { FewFound }
{}
