//! Whether the values of a tape are within the constraints of their types that count in all rules.
#![tactic(auto, using(std::proofs::lemmas::Grind::common_steps))]

ghost use Rattle.std.specs.Prelude.{◌≡◌, ◌&&◌, ◌||◌, ℕ, Bool, List, length, not, position, slice_get};
ghost use Rattle.std.specs.List.{list_all};
ghost use Rattle.asn1_model.specs.Schema.{any_count, any_size};
ghost use Rattle.asn1_schema_laws.specs.Records.{bits, octets};
ghost use Rattle.asn1_model.specs.Numbers.{admits, is_within, is_count_within};
ghost use Rattle.asn1_model.specs.Strings.{is_identifier, is_octet, may_hold};
ghost use Rattle.asn1_schema_constraints.specs.Terms.{size_of};
ghost use Rattle.asn1_table_types.specs.Choices.{tags_at};
ghost use Rattle.asn1_table_nodes.specs.Meaning.{bounds_in, held_in};
ghost use Rattle.asn1_table_tape.specs.Records.{record_of, number_record, item_record, bits_record, octets_record};
ghost use Rattle.asn1_table_tape.specs.Records.{text_record, list_record, choice_record};
ghost use Rattle.asn1_table_tape.specs.Strings.{kind_in, text_of};
ghost use Rattle.asn1_table_tape.specs.declared.strings.CharacterString.{CharacterString as Text};
ghost use Rattle.asn1_table_building.specs.Admitted.{is_admitted, is_text_of};

use asn1_schema_constraints::{Bounded, Sizes};
use asn1_schema_tags::{Chosen, EnumerationItems, ItemTables};
use asn1_table_tape::{CharacterString, Event};
use asn1_table_types::{NumberLimits, TypeNode, Types};
use asn1_values_alphabets::StaticPermittedAlphabet;
use asn1_values_identifiers::{ObjectIdentifier, subidentifiers_of};
use asn1_values_integers::Integer;

/// The index of the first event whose value is outside a constraint of its type, if there is one.
pub fn first_outside(types: &Types, tape: &[Event]) -> Option<usize>
    ensures { result ≡ position (λ e. not (is_admitted (record_of types.now.nodes.items e))) tape.now }
{
    tape.iter().position(|event| !is_inside(types, event))
}

/// Whether the value of an event is within the constraints of its type.
fn is_inside(types: &Types, event: &Event) -> bool
    ensures { result ≡ is_admitted (record_of types.now.nodes.items event.now) }
{
    match event {
        Event::Number(place, number) => is_number_inside(types, *place, number),
        Event::Item(place, item) => is_item_inside(types, *place, *item),
        Event::Bits(place, bits) => is_length_inside(bit_sizes(types, *place), bits.len()),
        Event::Octets(place, octets) => {
            are_octets_inside(octet_sizes(types, *place), octets.as_slice())
        }
        Event::Text(place, text) => is_text_inside(text_sizes(types, *place), text),
        Event::Arcs(arcs) => has_octets(arcs),
        Event::ListBegins(_, count) => Bounded::<usize>::None.holds(*count),
        Event::ChoiceBegins(place, chosen) => is_choice_inside(types, *place, *chosen),
        _ => true,
    }
}

/// Whether a number is within the value constraint of its type (X.680 51.4).
fn is_number_inside(types: &Types, place: usize, number: &Integer) -> bool
    ensures { result ≡ is_admitted (number_record (slice_get types.now.nodes.items place) number.now) }
{
    match types.node(place) {
        Some(TypeNode::Integer(limits)) => is_within_limits(*limits, number),
        _ => true,
    }
}

/// Whether a number is within limits, or one of 128 bits where they have an extension marker.
fn is_within_limits(limits: Option<NumberLimits>, number: &Integer) -> bool
    ensures { result ≡ (is_within (held_in limits) number.now
        && ((bounds_in limits).extensible || is_within (bounds_in limits).range number.now)) }
{
    match limits {
        None => true,
        Some(limits) => {
            let wide = Bounded::Range {
                start: Some(i128::MIN),
                end: Some(i128::MAX),
            };
            wide.in_bound(number) && (limits.is_extensible || limits.root.in_bound(number))
        }
    }
}

/// Whether an item is one of its type (X.680 20).
fn is_item_inside(types: &Types, place: usize, item: isize) -> bool
    ensures { result ≡ is_admitted (item_record (slice_get types.now.nodes.items place) item) }
{
    match types.node(place) {
        Some(TypeNode::Enumerated(table)) => {
            let items = ItemTables::new(
                table.root.as_slice(),
                table.is_extensible,
                table.additions.as_slice(),
            );
            items.has(&item)
        }
        _ => false,
    }
}

/// Any size.
fn any_sizes() -> Sizes
    ensures { size_of result ≡ any_size }
{
    Sizes {
        root: Bounded::None,
        is_extensible: false,
    }
}

/// The sizes of the BIT STRING at an index; any size where another type is there.
fn bit_sizes(types: &Types, place: usize) -> Sizes
    ensures { (bs : List Bool) → bits_record (slice_get types.now.nodes.items place) bs
        ≡ bits (size_of result) any_count bs }
{
    match types.node(place) {
        Some(TypeNode::BitString(sizes)) => *sizes,
        _ => any_sizes(),
    }
}

/// The sizes of the OCTET STRING at an index; any size where another type is there.
fn octet_sizes(types: &Types, place: usize) -> Sizes
    ensures { (os : List ℕ) → octets_record (slice_get types.now.nodes.items place) os
        ≡ octets (size_of result) any_count os }
{
    match types.node(place) {
        Some(TypeNode::OctetString(sizes)) => *sizes,
        _ => any_sizes(),
    }
}

/// The sizes of the character string at an index; any size where another type is there.
fn text_sizes(types: &Types, place: usize) -> Sizes
    ensures { (x : Text) → is_admitted (text_record (slice_get types.now.nodes.items place) x)
        ≡ is_text_of (size_of result) (kind_in x) (text_of x) }
{
    match types.node(place) {
        Some(TypeNode::CharacterString(table)) => table.sizes,
        _ => any_sizes(),
    }
}

/// Whether a size admits a length (X.680 51.5).
fn is_length_inside(sizes: Sizes, length: usize) -> bool
    ensures { result ≡ admits (size_of sizes) any_count length }
{
    is_size_of(sizes, length)
}

/// Whether a length is within a size, or this has an extension marker.
fn is_size_of(sizes: Sizes, length: usize) -> bool
    ensures { result ≡ ((size_of sizes).extensible || is_count_within (size_of sizes).counts length) }
{
    sizes.is_extensible || sizes.root.contains(&length)
}

/// Whether a size admits octets (X.680 51.5).
fn are_octets_inside(sizes: Sizes, octets: &[u8]) -> bool
    ensures { result ≡ (list_all is_octet octets.now && admits (size_of sizes) any_count (length octets.now)) }
{
    is_length_inside(sizes, octets.len())
}

/// Whether a size admits a string. It counts in all rules for kinds whose characters each have one length.
fn is_text_inside(sizes: Sizes, text: &CharacterString) -> bool
    ensures { result ≡ is_text_of (size_of sizes) (kind_in text.now) (text_of text.now) }
{
    match text {
        CharacterString::Numeric(text) => are_characters_inside(sizes, text),
        CharacterString::Printable(text) => are_characters_inside(sizes, text),
        CharacterString::Visible(text) => are_characters_inside(sizes, text),
        CharacterString::Ia5(text) => are_characters_inside(sizes, text),
        CharacterString::Bmp(text) => are_characters_inside(sizes, text),
        CharacterString::General(text) => are_characters_inside(any_sizes(), text),
        CharacterString::Graphic(text) => are_characters_inside(any_sizes(), text),
        CharacterString::Teletex(text) => are_characters_inside(any_sizes(), text),
        CharacterString::Utf8(_) => true,
    }
}

/// Whether a size admits characters.
fn are_characters_inside<S: StaticPermittedAlphabet>(sizes: Sizes, text: &S) -> bool
    ensures { result ≡ (may_hold S.kind (S.characters text.now)
        && is_count_within any_count (length (S.characters text.now))
        && admits (size_of sizes) any_count (length (S.characters text.now))) }
{
    is_length_inside(sizes, text.char_count())
}

/// Whether arcs have contents octets: there are at least two (X.690 8.19).
fn has_octets(arcs: &ObjectIdentifier) -> bool
    ensures { result ≡ is_identifier arcs.now }
{
    match subidentifiers_of(&arcs.as_oid()) {
        Some(_) => true,
        None => false,
    }
}

/// Whether an added alternative is one of a type with an extension marker (X.680 29).
fn is_choice_inside(types: &Types, place: usize, chosen: Chosen) -> bool
    ensures { result ≡ is_admitted (choice_record (tags_at types.now.nodes.items place) chosen) }
{
    match types.choice_tags(place) {
        Some(tags) => !chosen.added || tags.extensible(),
        None => !chosen.added,
    }
}
