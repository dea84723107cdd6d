//! A form as the value constraint that it is made of.
ghost use Rattle.std.specs.Prelude.{◌≡◌};
ghost use Rattle.asn1_schema_constraints.specs.Terms.{bounds_of};
ghost use Rattle.asn1_schema_forms.specs.Forms.{form_bounds};

use crate::NumberForm;
use asn1_schema_constraints::{Bounded, Constraints, Extensible, Value};

impl NumberForm {
    /// The bounds as a value constraint (X.680 51.4).
    pub fn constraints(&self) -> Constraints<'static>
        ensures { bounds_of result.value ≡ form_bounds self.now }
    {
        Constraints {
            value: Some(Extensible::new(Value::new(Bounded::const_new(self.low(), self.high())))),
            ..Constraints::NONE
        }
    }
}
