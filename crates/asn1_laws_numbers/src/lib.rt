//! Numbers, encodings and octets of the definitions: digits and two's complement are positional sums of the fewest
//! digits (X.691 11.3 and 11.4, X.696 10), the octets of an object identifier determine it (X.690 8.19), UTF-8 is that
//! of std (ISO/IEC 10646), and all that is written are octets. The functions do nothing: their contracts are the laws.
#![tactic(auto)]

pub mod number_laws;
pub mod octet_laws;
