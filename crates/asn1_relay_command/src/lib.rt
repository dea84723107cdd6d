//! The command of the program `asn1_relay`.
#![tactic(auto)]

mod fault;
mod messages;
mod order;
mod program;

pub use fault::{Fault, HopFault};
pub use messages::{read_all, translate_message, translate_octets, translate_stream, write_all};
pub use order::{Kind, Order, Pair, Translation, codec_named, hops_in, limit_in, read_order};
pub use program::{command, refuse_arguments, report, translate_all};
