//! Values of the types of a table are read and written by each set of encoding rules, and messages of these types are
//! translated from one set to another: one message, a stream, or from hop to hop over two versions of a type.
#![tactic(auto, using(std::proofs::lemmas::Grind::common_steps))]

mod codecs;
mod oer;
mod per;
mod routing;
mod streams;
mod table_relay;
mod table_type;
mod translation;
mod versions;

pub use oer::{decode_oer, encode_oer};
pub use per::{decode_per, encode_per};
pub use routing::route_by;
pub use streams::run_by;
pub use table_relay::TableRelay;
pub use table_type::TableType;
pub use translation::recode_by;
pub use versions::Versions;
