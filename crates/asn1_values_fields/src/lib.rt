//! Writes lists of fields as bits and reads bits as lists of fields, at any alignment.
#![tactic(auto)]

pub mod fault;
pub mod field_bits;
pub mod field_shape;
pub mod laws;
pub mod reading;

pub use fault::{FieldFault, FieldFaultKind};
pub use field_bits::{FieldBits, write_fields};
pub use field_shape::{FieldShape, FieldValue};
pub use laws::written_fields_are_read;
pub use reading::read_fields;
