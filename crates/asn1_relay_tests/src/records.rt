//! Values through the codec that stores records.
use crate::assertions::assert_same;
use asn1_schema_decode::{Decode, Decoder};
use asn1_schema_encode::{Encode, Encoder};
use asn1_schema_errors::{CodecKind, DecodeError, EncodeError};
use asn1_schema_example::measure::Measure;
use asn1_schema_example::setting::Setting;
use asn1_schema_records::{Item, RecordDecoder, RecordEncoder};
use asn1_values_integers::Integer;
use std::alloc::Global;
use std::test::Fail;

/// The records of a setting.
fn setting_records(alloc: Global, level: Option<u8>) -> Result<Vec<Item>, EncodeError> {
    let setting = Setting {
        on: true,
        level,
        step: (),
    };
    let mut encoder = RecordEncoder::new(alloc, CodecKind::Uper);
    setting.encode(&mut encoder)?;
    Ok(encoder.into_items())
}

/// What a decoder finds, called through its bound.
fn found<T: Decode, D: Decoder>(alloc: Global, decoder: &mut D) -> Result<T, DecodeError> {
    T::decode(alloc, decoder)
}

/// Whether a decoder finds a setting, and nothing after it.
fn is_found<D: Decoder>(
    alloc: Global,
    decoder: &mut D,
    level: Option<u8>,
) -> Result<bool, DecodeError> {
    let setting: Setting = found(alloc, decoder)?;
    let is_setting = setting.on && setting.level == level && decoder.levels_left() == 128;
    let end: Result<bool, DecodeError> = found(alloc, decoder);
    Ok(is_setting && end == Err(DecodeError::Incomplete))
}

/// Whether a setting is read back from its records.
fn is_read_back(alloc: Global, level: Option<u8>) -> Result<bool, Fail> {
    let records = setting_records(alloc, level)?;
    let mut decoder = RecordDecoder::new(records, CodecKind::Uper);
    Ok(is_found(alloc, &mut decoder, level)?)
}

/// Whether an encoder returns its rules, and stores each record of a setting.
fn is_named_and_kept(alloc: Global) -> Result<bool, EncodeError> {
    let codec = RecordEncoder::new(alloc, CodecKind::Uper).codec();
    Ok(setting_records(alloc, Some(7))?.len() == 6 && codec == CodecKind::Uper)
}

#[test]
fn a_setting_is_read_back(rt: HostRuntime) -> Result<(), Fail> {
    let alloc = rt.alloc();
    let are_read_back = is_read_back(alloc, Some(7))? && is_read_back(alloc, None)?;
    let is_kept = is_named_and_kept(alloc)?;
    assert!(rt; are_read_back && is_kept);
    Ok(())
}

/// Why a setting is not read from the first `count` of its records, if it is not.
fn refusal(
    alloc: Global,
    level: Option<u8>,
    count: usize,
    levels: usize,
) -> Result<Option<DecodeError>, EncodeError> {
    let mut items = setting_records(alloc, level)?;
    items.truncate(count);
    let mut decoder = RecordDecoder::with_levels(items, CodecKind::Uper, levels);
    let setting: Result<Setting, DecodeError> = found(alloc, &mut decoder);
    Ok(setting.err())
}

/// The first count of its six records from which a setting is read, or which fails with an error other than
/// `Incomplete`.
fn first_unrefused(alloc: Global) -> Result<Option<usize>, EncodeError> {
    for count in 0..6 {
        if refusal(alloc, Some(7), count, 128)? != Some(DecodeError::Incomplete) {
            return Ok(Some(count));
        }
    }
    Ok(None)
}

#[test]
fn truncated_and_nested_settings_are_refused(rt: HostRuntime) -> Result<(), Fail> {
    let alloc = rt.alloc();
    let nested = refusal(alloc, None, 6, 0)?;
    assert_same(&rt, &first_unrefused(alloc)?, &None);
    assert_same(&rt, &nested, &Some(DecodeError::ExceedsMaxParseDepth));
    Ok(())
}

/// The records of a measure.
fn measure_records(alloc: Global, offset: i64) -> Result<Vec<Item>, EncodeError> {
    let measure = Measure {
        offset: Integer::from(offset),
        exact: None,
    };
    let mut encoder = RecordEncoder::new(alloc, CodecKind::Coer);
    measure.encode(&mut encoder)?;
    Ok(encoder.into_items())
}

/// Whether records are exactly those of a measure whose default is absent.
fn is_left_out(records: &[Item]) -> bool {
    matches!(
        records,
        [
            Item::SequenceBegins(false, 2),
            Item::PresenceBit(false),
            Item::PresenceBit(false),
            Item::Ends
        ]
    )
}

/// Whether a record is this number.
fn is_number(item: &Item, number: &Integer) -> bool {
    match item {
        Item::Integer(_, found) => found == number,
        _ => false,
    }
}

/// Whether records are exactly those of a measure with this number.
fn is_measure(records: &[Item], number: &Integer) -> bool {
    match records {
        [
            _,
            Item::PresenceBit(true),
            item,
            Item::PresenceBit(false),
            _,
        ] => is_number(item, number),
        _ => false,
    }
}

/// Whether a default is absent.
fn a_default_is_left_out(alloc: Global) -> Result<bool, EncodeError> {
    let records = measure_records(alloc, 0)?;
    Ok(is_left_out(&records))
}

/// Whether another value is written.
fn another_value_is_written(alloc: Global) -> Result<bool, EncodeError> {
    let records = measure_records(alloc, 3)?;
    Ok(is_measure(&records, &Integer::from(3_i64)))
}

#[test]
fn defaults(rt: HostRuntime) -> Result<(), Fail> {
    let is_left_out = a_default_is_left_out(rt.alloc())?;
    assert!(rt; is_left_out && another_value_is_written(rt.alloc())?);
    Ok(())
}
