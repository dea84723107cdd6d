//! Where octets differ.
ghost use Rattle.std.specs.Prelude.{◌≡◌, ◌≢◌, ◌<◌, ℕ, length, IfSome, IfNone, take, slice_get};

/// The index of the first octet at which these octets differ from others: it has another value there, or only one of
/// them has an octet there. None if they are equal.
#[tactic(auto, using(crate::proofs::Lists::same_beginnings, std::proofs::lemmas::Grind::common_steps))]
pub fn first_difference(left: &[u8], right: &[u8]) -> Option<usize>
    ensures same { IfNone result (left.now ≡ right.now) }
    ensures before { IfSome result (λ i. take i left.now ≡ take i right.now) }
    ensures differs { IfSome result (λ i. slice_get left.now i ≢ slice_get right.now i) }
{
    let shorter = left.len().min(right.len());
    for index in 0..shorter {
        if left[index] != right[index] {
            return Some(index);
        }
    }
    if left.len() == right.len() {
        return None;
    }
    Some(shorter)
}
