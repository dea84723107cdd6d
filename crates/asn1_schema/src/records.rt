//! The plain codec: it keeps the records of a value without encoding them, and reads them back.

pub use asn1_schema_records::{Item, Limits, RecordDecoder, RecordEncoder, Sizes};
