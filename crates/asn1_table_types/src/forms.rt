//! The forms of the numbers of types, worked out once (X.691 11.5, X.696 10).
#![tactic(auto, using(std::proofs::lemmas::Grind::common_steps))]

ghost use Rattle.std.specs.Prelude.{◌≡◌, Some, IfOk, IfSome};
ghost use Rattle.asn1_schema_forms.specs.Forms.{form_bounds};
ghost use Rattle.asn1_table_nodes.specs.Meaning.{bounds_in};
ghost use Rattle.asn1_table_types.specs.Forms.{AreForms, bounds_there};

use crate::{NumberLimits, TypeNode};
use asn1_schema_forms::NumberForm;
use std::alloc::{AllocError, Global};

/// Of each type the form of its numbers, if it is an INTEGER that has one.
pub fn forms_of(alloc: Global, nodes: &[TypeNode]) -> Result<Vec<Option<NumberForm>>, AllocError>
    ensures { IfOk result (λ forms. AreForms nodes.now forms.items) }
{
    let mut forms = Vec::with_capacity(alloc, nodes.len())?;
    for place in 0..nodes.len() {
        forms.push(form_of(&nodes[place]))?;
    }
    Ok(forms)
}

/// The form of the numbers of a type, if it is an INTEGER between two bounds, without an extension marker.
fn form_of(node: &TypeNode) -> Option<NumberForm>
    ensures { IfSome result (λ form. bounds_there (Some node.now) ≡ Some (form_bounds form)) }
{
    match node {
        TypeNode::Integer(Some(limits)) => form_under(limits),
        _ => None,
    }
}

/// The form of numbers under limits, if these have no extension marker.
fn form_under(limits: &NumberLimits) -> Option<NumberForm>
    ensures { IfSome result (λ form. bounds_in (Some limits.now) ≡ form_bounds form) }
{
    if limits.is_extensible {
        return None;
    }
    NumberForm::of(limits.root)
}
