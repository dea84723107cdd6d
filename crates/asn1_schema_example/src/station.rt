//! SEQUENCE {id INTEGER (0..65535), name UTF8String, height [0] INTEGER OPTIONAL, active BOOLEAN, samples SEQUENCE OF
//! INTEGER (0..255)}.
ghost use Rattle.asn1_schema.proofs.Author.{refl, sequence_of, sequence_tag};

use asn1_schema::{
    Components, ComponentsOf, DecodeComponents, DecodeError, Decoder, EncodeComponents,
    EncodeError, Encoder, End, Global, Heading, Implicit, Optional, OptionalComponent, Required,
    RequiredComponent, Tag, tag,
};
use asn1_values::Integer;

/// A station, as `Sequence<Station>`.
#[derive(Drop)]
pub struct Station {
    /// Its number.
    pub id: u16,
    /// Its name.
    pub name: String,
    /// Its height in metres, if it is known.
    pub height: Option<Implicit<tag::Context<0>, Integer>>,
    /// Whether it sends.
    pub active: bool,
    /// Its last measurements.
    pub samples: Vec<u8>,
}

type Last = RequiredComponent<bool, RequiredComponent<Vec<u8>, End>>;

type Rest = OptionalComponent<Implicit<tag::Context<0>, Integer>, Last>;

type Form = RequiredComponent<u16, RequiredComponent<String, Rest>>;

impl Components for Station {
    const TAG: Tag = Tag::SEQUENCE;

    ghost TAG = { sequence_tag };

    ghost shape = { sequence_of ⟦<Form as ComponentsOf>⟧ tt refl (λ x. record {
      0 = x.id;
      1 = record {
        0 = x.name;
        1 =
            record { 0 = x.height; 1 = record { 0 = x.active; 1 = record { 0 = x.samples; 1 = record {} } } };
      };
    }) };

    fn heading() -> Heading {
        Heading::sequence(1)
    }

    fn write_components<E: Encoder>(&self, encoder: &mut E) -> Result<(), EncodeError> {
        let last = Required(&self.active, Required(&self.samples, End));
        let rest = Required(&self.name, Optional(&self.height, last));
        Required(&self.id, rest).encode_components(encoder)
    }

    #[inline(always)]
    fn read_components<D: Decoder>(alloc: Global, decoder: &mut D) -> Result<Self, DecodeError> {
        let form = Form::decode_components(alloc, decoder)?;
        let RequiredComponent(id, RequiredComponent(name, OptionalComponent(height, last))) = form;
        let RequiredComponent(active, RequiredComponent(samples, End)) = last;
        Ok(Station {
            id,
            name,
            height,
            active,
            samples,
        })
    }
}
