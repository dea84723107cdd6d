//! Look-up of a tag in an ascending table: rows.
use asn1_schema::{Chosen, Tag, TagPlace, TagProbe, TagTables, find_place, is_place_table};

/// Whether a table is the one of some tags, and gives this index for a tag, with at most this number of comparisons.
fn is_found(
    places: &[TagPlace],
    tags: &[Tag],
    sought: u32,
    wanted: Option<usize>,
    most: u64,
) -> bool {
    if !is_place_table(places, tags, &[]) {
        return false;
    }
    let mut probe = TagProbe::new(places);
    let found = find_place(&mut probe, Tag::new_context(sought));
    found == wanted && probe.count() <= most && probe.len() == tags.len()
}

/// A tag with a number, and an index.
fn at(number: u32, place: usize) -> TagPlace {
    TagPlace {
        tag: Tag::new_context(number),
        place,
    }
}

/// Whether each of three tags is found, and another is not.
fn are_three_found() -> bool {
    let tags = [
        Tag::new_context(0),
        Tag::new_context(1),
        Tag::new_context(u32::MAX),
    ];
    let places = [at(0, 0), at(1, 1), at(u32::MAX, 2)];
    is_found(&places, &tags, 1, Some(1), 2)
        && is_found(&places, &tags, u32::MAX, Some(2), 2)
        && is_found(&places, &tags, 2, None, 2)
        && is_found(&[], &[], 2, None, 0)
}

/// Whether unordered tags are found at their indices, those of the root before the added ones.
fn are_added_found() -> bool {
    let places = [at(1, 1), at(4, 2), at(7, 0)];
    is_place_table(
        &places,
        &[Tag::new_context(7), Tag::new_context(1)],
        &[Tag::new_context(4)],
    ) && !is_place_table(
        &places,
        &[Tag::new_context(7), Tag::new_context(4)],
        &[Tag::new_context(1)],
    )
}

/// Whether the last of two hundred even tags is found, and an odd one is not.
fn are_many_found() -> bool {
    let mut tags = [Tag::new_context(0); 200];
    let mut places = [at(0, 0); 200];
    for place in 0..200 {
        let number = 2 * place as u32;
        tags[place] = Tag::new_context(number);
        places[place] = at(number, place);
    }
    is_found(&places, &tags, 398, Some(199), 8) && is_found(&places, &tags, 3, None, 8)
}

/// Whether a table with two entries exchanged, one without an entry, and one with a wrong index, are rejected.
fn are_refused() -> bool {
    let tags = [Tag::new_context(0), Tag::new_context(1)];
    !is_place_table(&[at(1, 1), at(0, 0)], &tags, &[])
        && !is_place_table(&[at(0, 0)], &tags, &[])
        && !is_place_table(&[at(0, 1), at(1, 0)], &tags, &[])
}

/// The alternative of a tag of CHOICE {[7], [1], ..., [4]}, with or without its extension marker.
fn alternative(extensible: bool, number: u32) -> Option<Chosen> {
    let roots = [Tag::new_context(7), Tag::new_context(1)];
    let additions = [Tag::new_context(4)];
    let places = [at(1, 1), at(4, 2), at(7, 0)];
    let tables = TagTables::checked(&roots, extensible, &additions, &places)?;
    tables.alternative(Tag::new_context(number))
}

/// Whether alternatives of the root and, after an extension marker, added ones are found by their tags.
fn are_alternatives_told() -> bool {
    alternative(true, 7) == Some(Chosen::root(0))
        && alternative(true, 1) == Some(Chosen::root(1))
        && alternative(true, 4) == Some(Chosen::addition(0))
        && alternative(true, 2).is_none()
        && alternative(false, 7) == Some(Chosen::root(0))
        && alternative(false, 4).is_none()
        && TagTables::checked(&[], false, &[], &[at(1, 0)]).is_none()
}

#[test]
fn tags_are_looked_up(rt: HostRuntime) {
    assert!(rt; are_three_found());
    assert!(rt; are_added_found());
    assert!(rt; are_many_found());
    assert!(rt; are_refused());
    assert!(rt; are_alternatives_told());
}
