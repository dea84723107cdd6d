//! How far decoders have read.
use asn1_schema_decode::Decoder;
use asn1_schema_errors::CodecKind;
use asn1_schema_tags::TagTables;
use oer_codec_decoder::Decoder as OctetDecoder;
use oer_codec_reading::alternatives::read_alternative_tag;
use oer_codec_reading::{Cursor, EncodingRules, enter_open_type};
use per_codec_decoder::Decoder as PackedDecoder;
use per_codec_reading::PackedRules;
use per_codec_reading_values::{Stretch, read_alternative_index};
use std::alloc::Global;

/// From how many bits on an open type comes in fragments (X.691 11.9.3.8), which are joined before they are read.
const FRAGMENTED: usize = 8 * 16_384;

/// A decoder that says how far it has read. Places in a message are bits, from 0.
pub trait Standing: Decoder {
    /// How many bits of the message are unread, or of the innermost open type if one has begun.
    fn unread(&self) -> usize;

    /// The place after the index of an alternative of a CHOICE, or after its tag.
    fn after_index(
        &self,
        alloc: Global,
        input: &[u8],
        from: usize,
        tables: &TagTables<'_>,
    ) -> Option<usize>;

    /// The place after an open type, unless it comes in fragments.
    fn after_open_type(&self, alloc: Global, input: &[u8], from: usize) -> Option<usize>;
}

impl<'input> Standing for OctetDecoder<'input> {
    fn unread(&self) -> usize {
        self.remaining().len().saturating_mul(8)
    }

    fn after_index(
        &self,
        _alloc: Global,
        input: &[u8],
        from: usize,
        tables: &TagTables<'_>,
    ) -> Option<usize> {
        let mut cursor = Cursor::new(octets_from(input, from));
        let before = cursor.len();
        read_alternative_tag(&mut cursor, EncodingRules::Oer, tables).ok()?;
        Some(octets_later(from, before, cursor.len()))
    }

    fn after_open_type(&self, _alloc: Global, input: &[u8], from: usize) -> Option<usize> {
        let mut cursor = Cursor::new(octets_from(input, from));
        let before = cursor.len();
        let behind = enter_open_type(&mut cursor, EncodingRules::Oer).ok()?;
        Some(octets_later(from, before, behind.len()))
    }
}

impl<'input> Standing for PackedDecoder<'input> {
    fn unread(&self) -> usize {
        self.input().len()
    }

    fn after_index(
        &self,
        alloc: Global,
        input: &[u8],
        from: usize,
        tables: &TagTables<'_>,
    ) -> Option<usize> {
        let mut stretch = Stretch::from_octets(input);
        stretch.move_to(from);
        let mut cursor = stretch.cursor();
        read_alternative_index(
            alloc,
            &mut cursor,
            rules_of(self.codec()),
            tables.roots().len(),
            tables.extensible(),
            tables.additions().len(),
        )
        .ok()?;
        Some(cursor.position())
    }

    fn after_open_type(&self, alloc: Global, input: &[u8], from: usize) -> Option<usize> {
        let mut stretch = Stretch::from_octets(input);
        stretch.move_to(from);
        let inside = stretch.take_open_type(alloc, rules_of(self.codec())).ok()?;
        if inside.bits().len() >= FRAGMENTED {
            return None;
        }
        Some(stretch.cursor().position())
    }
}

/// The lenient rules of a codec.
fn rules_of(kind: CodecKind) -> PackedRules {
    match kind {
        CodecKind::Aper => PackedRules::Aper,
        _ => PackedRules::Uper,
    }
}

/// The octets from a bit on, which is the first of an octet.
fn octets_from(input: &[u8], from: usize) -> &[u8] {
    let octet = from / 8;
    if octet < input.len() {
        &input[octet..]
    } else {
        &[]
    }
}

/// The place at which `after` octets are left, if `before` were left at `from`.
fn octets_later(from: usize, before: usize, after: usize) -> usize {
    from.saturating_add(before.saturating_sub(after).saturating_mul(8))
}
