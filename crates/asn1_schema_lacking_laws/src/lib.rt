//! How much more input a failed decoder needs at least: laws of the states of a decoder, for all encoding rules.
#![tactic(auto)]

ghost use Rattle.asn1_schema_lacking_laws.specs.Carried.{CarriesAtOnce};
ghost use Rattle.asn1_schema_laws.specs.Chains.{OneRecord};
ghost use Rattle.asn1_schema_laws.specs.Records.{Record};

/// The states of a decoder.
pub trait States {
    /// Relates the state before a record, the record, and the state after it.
    ghost step: { Self → Record → Self → Type 0 };

    /// At most one of the records that answer a question is next, as far as the decoder can say, and at most one state
    /// follows it.
    ghost one_record: { OneRecord step };
}

/// Such a decoder satisfies the laws for the weakest statement: a record is not next in the input as it is.
pub fn carries_at_once<S: States>()
    ensures { CarriesAtOnce S.step }
{}
