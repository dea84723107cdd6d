//! Lists of names.
#![tactic(auto, using(std::proofs::lemmas::Grind::common_steps))]

ghost use Rattle.std.specs.Prelude.{◌≡◌, Some, IfSome};
ghost use Rattle.std.specs.Option.{option_copied};
ghost use Rattle.asn1_table_names.specs.Texts.{text_at};

/// The name at an index, if there is one.
pub fn name_at(names: &[String], index: usize) -> Option<&str>
    ensures { option_copied result ≡ text_at names.now index }
{
    match names.get(index) {
        Some(name) => Some(name.as_str()),
        None => None,
    }
}

/// The index of a name, if it is there.
pub fn index_of(names: &[String], name: &str) -> Option<usize>
    ensures { IfSome result (λ i. text_at names.now i ≡ Some name.now) }
{
    for index in 0..names.len() {
        if let Some(other) = name_at(names, index) {
            if other == name {
                return Some(index);
            }
        }
    }
    None
}
