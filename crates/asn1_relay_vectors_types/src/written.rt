//! Generic encoding of components and additions as they were read.
ghost use Rattle.std.specs.Prelude.{◌≡◌, OnOk, OnErr, IfErr};
ghost use Rattle.asn1_schema_authored.specs.Writes.{CannotWriteAdded, WritesAdded};
ghost use Rattle.asn1_schema_encode.specs.Writes.{CannotWriteTail, WritesTail};
ghost use Rattle.asn1_schema_errors.specs.Calls.{EncoderCall};

use asn1_schema::{
    AddedGroupComponent, AddedOptionalComponent, AddedRequiredComponent, AdditionsOf, ComponentsOf,
    CountOf, Encode, EncodeComponents, EncodeError, EncodeExtension, EncodeSequence, Encoder, End,
    ExtensibleComponents, Group, NoMore, OptionalComponent, RequiredComponent,
};

/// Components that are encoded as they were read.
pub trait WriteComponents: ComponentsOf {
    /// Encodes the components, and the end of the sequence or set.
    fn write_components<E: Encoder>(&self, encoder: &mut E) -> Result<(), EncodeError>
        ensures ok { OnOk result
            (WritesTail E.step Self.table (Self.root self.now) (Self.added self.now) encoder.old encoder.new) }
        ensures only { IfErr result
            (CannotWriteTail E.step Self.table (Self.root self.now) (Self.added self.now) encoder.old) }
        ensures call { EncoderCall E.has_failed E.front encoder.old encoder.new result };
}

/// Additions that are encoded as they were read.
pub trait WriteAdditions: AdditionsOf {
    /// Encodes the additions, and the end of the sequence or set.
    fn write_additions<E: Encoder>(&self, encoder: &mut E) -> Result<(), EncodeError>
        ensures ok { OnOk result (WritesAdded E.step Self.additions (Self.parts self.now) encoder.old encoder.new) }
        ensures only { IfErr result (CannotWriteAdded E.step Self.additions (Self.parts self.now) encoder.old) }
        ensures call { EncoderCall E.has_failed E.front encoder.old encoder.new result };
}

impl WriteComponents for End {
    fn write_components<E: Encoder>(&self, encoder: &mut E) -> Result<(), EncodeError> {
        encoder.end()?;
        Ok(())
    }
}

impl<T: Encode, R: WriteComponents> WriteComponents for RequiredComponent<T, R> {
    fn write_components<E: Encoder>(&self, encoder: &mut E) -> Result<(), EncodeError> {
        self.0.encode(encoder)?;
        self.1.write_components(encoder)?;
        Ok(())
    }
}

impl<T: Encode, R: WriteComponents> WriteComponents for OptionalComponent<T, R> {
    fn write_components<E: Encoder>(&self, encoder: &mut E) -> Result<(), EncodeError> {
        encoder.encode_optional(&self.0)?;
        self.1.write_components(encoder)?;
        Ok(())
    }
}

impl<M: CountOf<A>, A: WriteAdditions> WriteComponents for ExtensibleComponents<M, A> {
    fn write_components<E: Encoder>(&self, encoder: &mut E) -> Result<(), EncodeError> {
        let count = A::count();
        encoder.begin_additions(count)?;
        self.0.write_additions(encoder)?;
        Ok(())
    }
}

impl WriteAdditions for NoMore {
    fn write_additions<E: Encoder>(&self, encoder: &mut E) -> Result<(), EncodeError> {
        encoder.end()?;
        Ok(())
    }
}

impl<T: Encode, R: WriteAdditions> WriteAdditions for AddedRequiredComponent<T, R> {
    fn write_additions<E: Encoder>(&self, encoder: &mut E) -> Result<(), EncodeError> {
        encoder.encode_required_extension_addition(&self.0)?;
        self.1.write_additions(encoder)?;
        Ok(())
    }
}

impl<T: Encode, R: WriteAdditions> WriteAdditions for AddedOptionalComponent<T, R> {
    fn write_additions<E: Encoder>(&self, encoder: &mut E) -> Result<(), EncodeError> {
        encoder.encode_extension_addition(&self.0)?;
        self.1.write_additions(encoder)?;
        Ok(())
    }
}

impl<G: Group, R: WriteAdditions> WriteAdditions for AddedGroupComponent<G, R> {
    fn write_additions<E: Encoder>(&self, encoder: &mut E) -> Result<(), EncodeError> {
        encoder.encode_extension_addition_group(&self.0)?;
        self.1.write_additions(encoder)?;
        Ok(())
    }
}

/// Components, borrowed for encoding.
#[derive(Drop)]
pub struct Lent<'a, C>(pub &'a C);

impl<'a, C: WriteComponents> ComponentsOf for Lent<'a, C> {
    ghost table = { C.table };

    ghost root = { λ x. C.root x.0.now };

    ghost added = { λ x. C.added x.0.now };

    ghost typed = { C.typed };

    ghost valued = { λ d x. C.valued d x.0.now };
}

impl<'a, C: WriteComponents> EncodeComponents for Lent<'a, C> {
    fn encode_components<E: Encoder>(&self, encoder: &mut E) -> Result<(), EncodeError> {
        self.0.write_components(encoder)
    }
}
