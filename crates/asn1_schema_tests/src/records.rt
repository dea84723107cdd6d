//! Records of ENUMERATED, SET, groups, additions and CHOICE, as they are kept and read back.
use crate::colour::Colour;
use crate::common::{Wanted, are_records, decoder, encoder};
use asn1_schema::records::{Item, RecordDecoder, RecordEncoder};
use asn1_schema::{
    Chosen, CodecKind, DecodeError, Decoder, EncodeError, Encoder, Identifier, Tag, TagPlace,
    TagTables,
};
use std::alloc::{AllocError, Global};

/// Writes SET {.., OPTIONAL, ..., [[..]], .., ..} with an empty group to an encoder.
fn write_group<E: Encoder>(encoder: &mut E) -> Result<(), EncodeError> {
    encoder.begin_set(Tag::SET, true, 1)?;
    encoder.begin_additions(3)?;
    encoder.encode_addition(true)?;
    encoder.begin_group(2)?;
    encoder.end()?;
    encoder.end_addition()?;
    encoder.end()
}

/// The records of that SET, whose group is empty.
const SET: [Wanted; 7] = [
    Wanted::Set(true, 1),
    Wanted::Additions(3),
    Wanted::Addition(true),
    Wanted::Group(2),
    Wanted::Ends,
    Wanted::AdditionEnds,
    Wanted::Ends,
];

/// The levels left inside the group of such a SET, which is present, and after the SET.
fn levels_of_group<D: Decoder>(decoder: &mut D) -> Result<(usize, usize), DecodeError> {
    decoder.begin_set(Tag::SET, true, 1)?;
    decoder.begin_additions(3)?;
    if !decoder.get_addition()? {
        return Err(DecodeError::Incomplete);
    }
    decoder.begin_group(2)?;
    let within = decoder.levels_left();
    decoder.end()?;
    decoder.end_addition()?;
    decoder.end()?;
    Ok((within, decoder.levels_left()))
}

/// Whether that SET is kept, and read back.
fn is_group_kept(alloc: Global) -> bool {
    let mut encoder = RecordEncoder::new(alloc, CodecKind::Oer);
    if write_group(&mut encoder) != Ok(()) {
        return false;
    }
    let items = encoder.into_items();
    are_records(&items, &SET)
        && levels_of_group(&mut RecordDecoder::new(items, CodecKind::Oer)) == Ok((126, 128))
}

/// Writes the beginning of a SET to an encoder, up to the end of an addition, whose group has not ended.
fn write_open_group<E: Encoder>(encoder: &mut E) -> Result<(), EncodeError> {
    encoder.begin_set(Tag::SET, true, 1)?;
    encoder.begin_additions(3)?;
    encoder.encode_addition(true)?;
    encoder.begin_group(2)?;
    encoder.end_addition()
}

/// The records of that beginning.
const OPEN: [Wanted; 5] = [
    Wanted::Set(true, 1),
    Wanted::Additions(3),
    Wanted::Addition(true),
    Wanted::Group(2),
    Wanted::AdditionEnds,
];

/// Whether that beginning is kept.
fn is_open_group_kept(alloc: Global) -> bool {
    let mut encoder = RecordEncoder::new(alloc, CodecKind::Oer);
    write_open_group(&mut encoder) == Ok(()) && are_records(&encoder.into_items(), &OPEN)
}

/// Begins a CHOICE of these root alternatives, with an extension marker, and these additions; this alternative is
/// chosen.
fn write_choice<E: Encoder>(
    encoder: &mut E,
    roots: &[Tag],
    additions: &[Tag],
    chosen: Chosen,
) -> Result<(), EncodeError> {
    encoder.begin_choice(Tag::EOC, roots, true, additions, chosen)
}

/// Whether the first added alternative of a CHOICE is kept.
fn is_addition_kept(alloc: Global) -> bool {
    let mut encoder = RecordEncoder::new(alloc, CodecKind::Oer);
    let chosen = Chosen::addition(0);
    write_choice(
        &mut encoder,
        &[Tag::BOOL, Tag::NULL],
        &[Tag::INTEGER],
        chosen,
    ) == Ok(())
        && are_records(
            &encoder.into_items(),
            &[Wanted::Choice(
                true,
                Chosen {
                    added: true,
                    place: 0,
                },
            )],
        )
}

/// The alternative written; the root alternatives, extension marker, additions and indices of the CHOICE that is read;
/// and the result.
type Row = (
    Chosen,
    &'static [Tag],
    bool,
    &'static [Tag],
    &'static [TagPlace],
    Result<Chosen, DecodeError>,
);

const FIRST_PLACE: TagPlace = TagPlace {
    tag: Tag::BOOL,
    place: 0,
};

const NULL_PLACE: TagPlace = TagPlace {
    tag: Tag::NULL,
    place: 1,
};

const ADDED_PLACE: TagPlace = TagPlace {
    tag: Tag::INTEGER,
    place: 2,
};

const SECOND: Chosen = Chosen {
    added: false,
    place: 1,
};

/// The alternative is found; one that the CHOICE lacks is an error; and a CHOICE without an extension marker is
/// another type.
const CHOICES: [Row; 3] = [
    (
        SECOND,
        &[Tag::BOOL, Tag::NULL],
        true,
        &[],
        &[FIRST_PLACE, NULL_PLACE],
        Ok(SECOND),
    ),
    (
        Chosen {
            added: true,
            place: 1,
        },
        &[Tag::BOOL, Tag::NULL],
        true,
        &[Tag::INTEGER],
        &[FIRST_PLACE, ADDED_PLACE, NULL_PLACE],
        Err(DecodeError::InvalidTagVariantOnChoice),
    ),
    (
        Chosen {
            added: false,
            place: 0,
        },
        &[Tag::BOOL],
        false,
        &[],
        &[FIRST_PLACE],
        Err(DecodeError::NotValidCanonicalEncoding),
    ),
];

/// The alternative that a decoder returns for the CHOICE of a row.
fn chosen_of<D: Decoder>(decoder: &mut D, row: &Row) -> Result<Chosen, DecodeError> {
    let (_, roots, is_extensible, additions, places, _) = row;
    let Some(tables) = TagTables::checked(roots, *is_extensible, additions, places) else {
        return Err(DecodeError::Incomplete);
    };
    decoder.begin_choice(Tag::EOC, &tables)
}

/// Whether the result for a CHOICE is as its row says.
fn is_found(alloc: Global, row: &Row) -> bool {
    let (chosen, .., wanted) = row;
    let mut kept = encoder(alloc);
    write_choice(&mut kept, &[], &[], *chosen) == Ok(())
        && chosen_of(&mut decoder(kept), row) == *wanted
}

#[test]
fn sets_and_choices(rt: HostRuntime) {
    let alloc = rt.alloc();
    assert!(rt; is_group_kept(alloc) && is_open_group_kept(alloc) && is_addition_kept(alloc));
    for row in &CHOICES {
        assert!(rt; is_found(alloc, row));
    }
    assert!(rt; !Chosen::root(3).added && Chosen::root(3).place == 3);
    assert!(rt; Chosen::addition(0).added && Chosen::addition(0) != Chosen::root(0));
}

/// Writes a colour to an encoder.
fn write_colour<E: Encoder>(encoder: &mut E, colour: Colour) -> Result<(), EncodeError> {
    encoder.encode_enumerated(Tag::ENUMERATED, &colour, Identifier::EMPTY)
}

/// Reads a colour from a decoder.
fn colour_of<D: Decoder>(decoder: &mut D) -> Result<Colour, DecodeError> {
    decoder.decode_enumerated(Tag::ENUMERATED)
}

/// Whether an item is kept as its number, and read back.
fn is_colour_kept(alloc: Global, colour: Colour, number: isize) -> bool {
    let mut encoder = RecordEncoder::new(alloc, CodecKind::Uper);
    if write_colour(&mut encoder, colour) != Ok(()) {
        return false;
    }
    let items = encoder.into_items();
    are_records(&items, &[Wanted::OneOf(true, number)])
        && colour_of(&mut RecordDecoder::new(items, CodecKind::Uper)) == Ok(colour)
}

/// An item of an enumeration with or without an extension marker, with this number.
fn items_of(alloc: Global, is_extensible: bool, number: isize) -> Result<Vec<Item>, AllocError> {
    let mut items = Vec::new(alloc);
    items.push(Item::OneOf(is_extensible, number))?;
    Ok(items)
}

/// Whether reading an item, with or without an extension marker and with this number, as a colour fails with this
/// error.
fn is_no_colour(alloc: Global, is_extensible: bool, number: isize, wanted: DecodeError) -> bool {
    match items_of(alloc, is_extensible, number) {
        Ok(items) => colour_of(&mut RecordDecoder::new(items, CodecKind::Uper)) == Err(wanted),
        Err(AllocError) => false,
    }
}

#[test]
fn enumerations(rt: HostRuntime) {
    let alloc = rt.alloc();
    assert!(rt; is_colour_kept(alloc, Colour::Blue, 2) && is_colour_kept(alloc, Colour::Green, 1));
    assert!(rt; is_no_colour(alloc, true, 3, DecodeError::DiscriminantValueNotFound));
    assert!(rt; is_no_colour(alloc, false, 0, DecodeError::NotValidCanonicalEncoding));
}
