//! Translation between encoding rules of ASN.1: of one message (`recode`, `recode_into`), of streams of messages in
//! pieces of any length (`Relay`, `run`), and of messages that pass from hop to hop, each of which knows the older or
//! the newer version of their type (`route`). The type is a Rust type, or one that is known only at run time
//! (`MessageType`: `recode_of`, `recode_into_of`, `RelayOf`, `run_of`, `route_of`).
#![tactic(auto)]

mod codec;
mod ends;
mod fault;
mod front;
mod hop;
mod memory;
mod message_type;
mod older_relay;
mod relay;
mod route_fault;
mod routing;
mod running;
mod rust_type;
mod standard;
mod translation;
mod typed_relay;

pub use asn1_schema_errors::{CodecKind, DecodeError, EncodeError};
pub use asn1_schema_types::Extends;
pub use codec::Codec;
pub use ends::{ReadFailed, Sink, Source, WriteFailed};
pub use fault::{RelayFault, RelayFaultKind};
pub use hop::{Hop, Version};
pub use memory::{MemorySink, MemorySource};
pub use message_type::{MessageSchema, MessageType};
pub use older_relay::older_relay_is_told;
pub use relay::RelayOf;
pub use route_fault::{RouteFault, RouteFaultKind};
pub use routing::{route, route_of};
pub use running::{RunFault, run, run_of};
pub use rust_type::RustType;
pub use standard::{StdSink, StdSource, write_octets};
pub use translation::{
    RecodeFault, detours_change_no_answer, recode, recode_into, recode_into_of, recode_of,
};
pub use typed_relay::Relay;
