//! An OCTET STRING with an extensible size constraint.

use asn1_schema::{Constrained, ExtensibleSizeRange};
use asn1_values::OctetString;

/// OCTET STRING (SIZE (1..3, ...)) (X.680 23).
pub type Octets = Constrained<ExtensibleSizeRange<1, 3>, OctetString>;
