//! The names of the types of modules.
use asn1_notation_tree::{Assignment, AssignmentKind, Module, Syntax};
use std::alloc::{AllocError, Global};

/// The names of all type assignments of some files, as `Module.Type`, each on a line. A parameterised one (X.683 8) has
/// its parameters after it, as in `Module.Type {Parameter, other}`.
pub fn list_types(alloc: Global, files: &[Syntax]) -> Result<String, AllocError> {
    let mut text = String::new(alloc);
    for file in files {
        for module in &file.modules {
            for assignment in &module.assignments {
                if is_type(&assignment.kind) {
                    list_type(&mut text, module, assignment)?;
                }
            }
        }
    }
    Ok(text)
}

/// Whether an assignment defines a type (X.680 16.1 and 16.6).
fn is_type(kind: &AssignmentKind) -> bool {
    match kind {
        AssignmentKind::Type(_) | AssignmentKind::ValueSet(..) => true,
        _ => false,
    }
}

/// The name of a type on a line.
fn list_type(
    text: &mut String,
    module: &Module,
    assignment: &Assignment,
) -> Result<(), AllocError> {
    text.push_str(module.name.text.as_str())?;
    text.push('.')?;
    text.push_str(assignment.name.text.as_str())?;
    let mut before = " {";
    for parameter in &assignment.parameters {
        text.push_str(before)?;
        text.push_str(parameter.name.text.as_str())?;
        before = ", ";
    }
    if !assignment.parameters.is_empty() {
        text.push('}')?;
    }
    text.push('\n')
}
