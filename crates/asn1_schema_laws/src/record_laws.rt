//! The records of a value: rows, and the law that at most one value of a type has the records that come next.

ghost use Rattle.asn1_schema_laws.specs.Chains.{OneRecord};
ghost use Rattle.asn1_schema_laws.specs.Laws.{OneValue};
ghost use Rattle.asn1_schema_laws.specs.Records.{Record};
ghost use Rattle.asn1_schema_laws.specs.Rows.{AdditionRows, ComponentRows, MemberRows};

/// The records of components that are present, absent, missing, or at a default (X.680 25 and 27).
pub fn component_rows()
    ensures { ComponentRows }
{}

/// The records of SEQUENCE OF, SET OF and CHOICE (X.680 26, 28 and 29).
pub fn member_rows()
    ensures { MemberRows }
{}

/// The records of additions and of groups of them (X.680 25).
pub fn addition_rows()
    ensures { AdditionRows }
{}

/// The states of a decoder.
pub trait States {
    /// The state before a record, the record, and the state after it.
    ghost step: { Self → Record → Self → Type 0 };

    /// Of the records that answer a question, at most one comes next, as far as a decoder is given it, and one state
    /// follows it.
    ghost one_record: { OneRecord step };
}

/// From a state of such a decoder, the records of at most one value of a type come next, and one state follows them.
pub fn one_value<S: States>()
    ensures { OneValue S.step }
{}
