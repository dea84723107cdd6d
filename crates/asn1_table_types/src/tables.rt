//! Tables of types that are lawful.
ghost use Rattle.std.specs.Prelude.{◌≡◌, ℕ, true, IfOk, IfErr, IfSome, OnOk, Some, map, slice_get};
ghost use Rattle.std.specs.Option.{option_copied};
ghost use Rattle.asn1_table_types.specs.Choices.{tags_at, tags_in};
ghost use Rattle.asn1_schema_forms.specs.Forms.{form_bounds};
ghost use Rattle.asn1_table_types.specs.Flaws.{is_sound, lacks};
ghost use Rattle.asn1_table_types.specs.Forms.{AreForms, bounds_there};
ghost use Rattle.asn1_table_nodes.specs.Defaults.{has_defaults};
ghost use Rattle.asn1_table_nodes.specs.Meaning.{type_of, type_at};
ghost use Rattle.asn1_table_nodes.specs.Reduced.{has_reduced_defaults};
ghost use Rattle.asn1_table_types.specs.Tables.{AreLawful, AreTidy, IsRefused, IsDueAt, error_of};

use crate::checks::{check_defaults, check_node};
use crate::choice_tags::{AlternativeTags, choices_of};
use crate::faults::Refusal;
use crate::forms::forms_of;
use crate::{TableError, TypeNode};
use asn1_schema_forms::NumberForm;
use asn1_schema_tags::TagTables;
use asn1_table_nodes::has_reduced_defaults;
use std::alloc::Global;

/// Types, each of them lawful and with defaults in normal form, however deep it is unfolded.
#[derive(Drop)]
pub struct Types {
    nodes: Vec<TypeNode>,
    // Of each node the tags, if it is a CHOICE.
    choices: Vec<Option<AlternativeTags>>,
    // Of each node the form of its numbers, if it is an INTEGER with one.
    forms: Vec<Option<NumberForm>>,
    pub ghost lawful: { AreLawful nodes.items },
    pub ghost tidy: { AreTidy nodes.items },
    pub ghost tagged: { choices.items ≡ map tags_in nodes.items },
    pub ghost formed: { AreForms nodes.items forms.items },
}

impl Types {
    /// A table of these types, if each is lawful and has its defaults in normal form, however deep it is unfolded. An
    /// index may be outside the table.
    ///
    /// # Errors
    ///
    /// `Unlawful` with the index of a type that is not lawful and what is wrong with it; `DefaultNotNormal` with the
    /// index of a type with a default that is not in normal form; `OutOfMemory`.
    pub fn new(alloc: Global, nodes: Vec<TypeNode>) -> Result<Types, TableError>
        ensures types { IfOk result (λ types. types.nodes ≡ nodes) }
        ensures refused { IfErr result (λ e. IsRefused nodes.items e) }
    {
        check_all(alloc, nodes.as_slice())?;
        let Ok(choices) = choices_of(alloc, nodes.as_slice()) else {
            return Err(TableError::OutOfMemory);
        };
        let Ok(forms) = forms_of(alloc, nodes.as_slice()) else {
            return Err(TableError::OutOfMemory);
        };
        Ok(Types {
            nodes,
            choices,
            forms,
        })
    }

    /// The types, by their indices.
    pub fn nodes(&self) -> &[TypeNode]
        ensures { result.now ≡ self.now.nodes.items }
    {
        self.nodes.as_slice()
    }

    /// The type at an index, if there is one.
    pub fn node(&self, place: usize) -> Option<&TypeNode>
        ensures { option_copied result ≡ slice_get self.now.nodes.items place }
    {
        self.nodes.get(place)
    }

    /// The form of the numbers of the INTEGER at an index, if it has one.
    #[inline(always)]
    pub fn number_form(&self, place: usize) -> Option<&NumberForm>
        ensures { IfSome result
            (λ form. bounds_there (slice_get self.now.nodes.items place) ≡ Some (form_bounds form.now)) }
    {
        match self.forms.get(place) {
            Some(Some(form)) => Some(form),
            _ => None,
        }
    }

    /// The tags of the CHOICE at an index, as a codec takes them (X.680 29), if a CHOICE is there.
    pub fn choice_tags(&self, place: usize) -> Option<TagTables<'_>>
        ensures { result ≡ tags_at self.now.nodes.items place }
    {
        match self.choices.get(place) {
            Some(Some(tags)) => Some(tags.tables()),
            _ => None,
        }
    }
}

/// Checks each type of a table.
fn check_all(alloc: Global, nodes: &[TypeNode]) -> Result<(), TableError>
    ensures sound { OnOk result ((i : ℕ) → is_sound (type_at nodes.now 2 i) ≡ true) }
    ensures typed { OnOk result ((n i : ℕ) → has_defaults (type_at nodes.now n i) ≡ true) }
    ensures reduced { OnOk result ((i : ℕ) → has_reduced_defaults nodes.now (slice_get nodes.now i) ≡ true) }
    ensures refused { IfErr result (λ e. IsRefused nodes.now e) }
{
    for place in 0..nodes.len() {
        check_place(alloc, nodes, place)?;
    }
    Ok(())
}

/// Checks the type at an index.
fn check_place(alloc: Global, nodes: &[TypeNode], place: usize) -> Result<(), TableError>
    ensures sound { OnOk result (is_sound (type_at nodes.now 2 place) ≡ true) }
    ensures typed { OnOk result ((n : ℕ) → has_defaults (type_at nodes.now n place) ≡ true) }
    ensures reduced { OnOk result (has_reduced_defaults nodes.now (slice_get nodes.now place) ≡ true) }
    ensures refused { IfErr result (λ e. IsRefused nodes.now e) }
{
    let Some(node) = nodes.get(place) else {
        return Ok(());
    };
    if let Err(refusal) = check_whole(alloc, nodes, node) {
        return Err(refused_at(place, refusal));
    }
    if !has_reduced_defaults(nodes, node) {
        return Err(TableError::DefaultNotNormal { place });
    }
    Ok(())
}

/// A node of a table meets its conditions, and so do its defaults.
fn check_whole(alloc: Global, nodes: &[TypeNode], node: &TypeNode) -> Result<(), Refusal>
    ensures sound { OnOk result (is_sound (type_of nodes.now 2 (Some node.now)) ≡ true) }
    ensures typed { OnOk result ((n : ℕ) → has_defaults (type_of nodes.now n (Some node.now)) ≡ true) }
    ensures lacking { IfErr result (λ r. IsDueAt (λ n. lacks (type_of nodes.now n (Some node.now))) r) }
{
    check_node(alloc, nodes, node)?;
    check_defaults(nodes, node)?;
    Ok(())
}

/// The refusal of the type at an index.
fn refused_at(place: usize, refusal: Refusal) -> TableError
    ensures { result ≡ error_of place refusal }
{
    match refusal {
        Refusal::Flawed(flaw) => TableError::Unlawful { place, flaw },
        Refusal::NoMemory => TableError::OutOfMemory,
    }
}
