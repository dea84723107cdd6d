//! Whether the normal form of a sequence leaves out a component with the value on a tape: it is the component's default
//! (X.680 25), or a group of additions of which nothing is left.
#![tactic(auto, using(std::proofs::lemmas::Grind::common_steps))]

ghost use Rattle.std.specs.Prelude.{◌≡◌, ℕ, List, true};
ghost use Rattle.std.specs.List.{list_all};
ghost use Rattle.asn1_model.specs.Lawful.{has_typed_default, is_lawful};
ghost use Rattle.asn1_model.specs.Normal.{normal, is_at_default, is_group_left_out};
ghost use Rattle.asn1_model.specs.Schema.{Schema};
ghost use Rattle.asn1_model.specs.Tidy.{has_normal_default};
ghost use Rattle.asn1_model.specs.Value.{Value};
ghost use Rattle.asn1_schema_laws.specs.Presents.{presents, Fits};
ghost use Rattle.asn1_table_tape.specs.Records.{records_of};
ghost use Rattle.asn1_table_tape.specs.Values.{is_absence};
ghost use Rattle.asn1_table_nodes.specs.Meaning.{presence_of, type_at};
ghost use Rattle.asn1_table_nodes.specs.declared.nodes.TypeNode.{TypeNode as Node};

use crate::defaults::is_value;
use crate::tape::Event;
use asn1_table_types::{Presence, TypeNode, Types};

/// Whether a component with this presence has its default as its value, if its type is lawful and the default is one of
/// its values in normal form.
pub fn is_default(presence: &Presence, value: &[Event]) -> bool
    ensures { (ns : List Node) (s : Schema) (v : Value) → has_typed_default s (presence_of presence.now) ≡ true
        → has_normal_default s (presence_of presence.now) ≡ true → is_lawful s ≡ true → Fits s v
        → records_of ns value.now ≡ presents s (normal s v)
        → result ≡ is_at_default (presence_of presence.now) s v }
{
    match presence {
        Presence::Default(default) => is_value(default, value),
        _ => false,
    }
}

/// Whether this value of the type at an index is a group of additions of which no component is there.
pub fn is_empty_group(types: &Types, index: usize, value: &[Event]) -> bool
    ensures { (n : ℕ) (v : Value) → Fits (type_at types.now.nodes.items n index) v
        → records_of types.now.nodes.items value.now ≡ presents (type_at types.now.nodes.items n index)
        (normal (type_at types.now.nodes.items n index) v)
        → result ≡ is_group_left_out (type_at types.now.nodes.items n index) v }
{
    match types.node(index) {
        Some(TypeNode::Group(_)) => !value.is_empty() && are_absent(&value[1..]),
        _ => false,
    }
}

// Whether records say that components are absent, and nothing else but the end.
fn are_absent(events: &[Event]) -> bool
    ensures { result ≡ list_all is_absence events.now }
{
    for event in events {
        if !is_absence_of(event) {
            return false;
        }
    }
    true
}

// Whether a record says that a component is absent, or is the end.
fn is_absence_of(event: &Event) -> bool
    ensures { result ≡ is_absence event.now }
{
    match event {
        Event::PresenceBit(is_present) => !*is_present,
        Event::Ends => true,
        _ => false,
    }
}
