//! An INTEGER from -5 to 5.

use asn1_values::ConstrainedInteger;

/// INTEGER (-5..5) (X.680 19).
pub type Small = ConstrainedInteger<-5, 5>;
