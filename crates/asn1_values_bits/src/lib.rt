//! Bits in octets: views, a growable buffer, a reader, and the numbers that bits encode. Contracts see all of these as
//! lists of booleans.
#![tactic(auto)]

mod bit_appender;
mod bit_buffer;
mod bit_reader;
mod bit_str;
mod bit_views_traits;
mod bit_window;
pub mod bits;
mod order;
mod traits;

pub use bit_appender::BitAppender;
pub use bit_buffer::{BitBuffer, free_bits};
pub use bit_reader::BitReader;
pub use bit_str::BitStr;
