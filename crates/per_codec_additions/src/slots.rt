//! Extension additions that are stored until their sequence or set ends (X.691 19.7 to 19.9).
ghost use Rattle.std.specs.Prelude.{◌≡◌, ◌++◌, ◌∷◌, [], List, Bool, ℕ, None, Some, IfOk, IfErr, OnOk, OnErr};
ghost use Rattle.std.specs.Prelude.{MatchOption};
ghost use Rattle.asn1_model.specs.Form.{exactly, is_any_present};
ghost use Rattle.asn1_model.specs.Per.{open_type};
ghost use Rattle.per_codec_packing.specs.FieldLists.{field_list_at};
ghost use Rattle.per_codec_additions.specs.Slots.{complete_octets, is_there, kept_bits, IsSlotOf, Keeps};
ghost use Rattle.per_codec_writing.specs.Writing.{Adds, place};
ghost use Rattle.per_codec_rules.specs.Variants.{is_aligned};

use asn1_schema_errors::EncodeError;
use asn1_values_bits::BitBuffer;
use per_codec_packing::Packing;
use per_codec_rules::Variant;
use per_codec_writing::push_counted_octets;
use std::alloc::{AllocError, Global};
use std::marker::Model;

// The most octets that are stored in place.
const PLACE_OCTETS: usize = 16;

/// Additions that are stored until their sequence or set ends: the bits of each that is present. Few octets are
/// stored in place, those of longer additions in sequence in a shared buffer.
#[derive(Drop)]
pub struct Slots {
    pub(crate) slots: Vec<Slot>,
    // The octets of the longer additions.
    pub(crate) shared: Vec<u8>,
    // Whether an addition is present.
    is_any_present: bool,
}

/// How an addition is stored: the octets of its complete encoding (X.691 11.1), and its number of bits.
#[derive(Clone, Copy)]
pub(crate) enum Slot {
    /// It is absent.
    Absent,
    /// The first `count` of these octets.
    InPlace {
        octets: [u8; PLACE_OCTETS],
        count: usize,
        bits: usize,
    },
    /// The octets between two positions of the shared buffer.
    Shared {
        from: usize,
        to: usize,
        bits: usize,
    },
}

impl Model for Slots {
    ghost use Rattle.std.specs.Prelude.{Bool, List, Option};
    ghost use Rattle.per_codec_additions.specs.Slots.{all_bits, AreSlots};

    ghost Value = { List (Option (List Bool)) };

    ghost view = { λ s. all_bits s.shared.items s.slots.items };

    ghost invariant = { λ s. AreSlots s.shared.items s.slots.items s.is_any_present };
}

/// Stores an addition that is present, by its bits: in place if they are few, else at the end of the shared buffer.
#[inline(always)]
fn keep(shared: &mut Vec<u8>, contents: &BitBuffer) -> Result<Slot, AllocError>
    ensures grown { (more : List ℕ) × (shared.new.items ≡ shared.old.items ++ more) }
    ensures kept { IfOk result (λ slot. Keeps shared.new.items slot contents.now) }
{
    let bytes = contents.as_bytes();
    let bits = contents.len();
    let from = shared.len();
    if bytes.len() > PLACE_OCTETS {
        shared.extend_from_slice(bytes)?;
        return Ok(Slot::Shared {
            from,
            to: shared.len(),
            bits,
        });
    }
    let mut octets = [0; PLACE_OCTETS];
    octets[..bytes.len()].copy_from_slice(bytes);
    Ok(Slot::InPlace {
        octets,
        count: bytes.len().max(1),
        bits,
    })
}

impl Slots {
    /// No additions, and capacity for `count` of them.
    ///
    /// # Errors
    ///
    /// `AllocError` if memory ran out.
    pub fn with_capacity(alloc: Global, count: usize) -> Result<Self, AllocError>
        ensures { IfOk result (λ slots. slots ≡ []) }
    {
        let slots = Vec::with_capacity(alloc, count)?;
        Ok(Slots {
            slots,
            shared: Vec::new(alloc),
            is_any_present: false,
        })
    }

    /// Whether an addition is present.
    #[inline(always)]
    pub fn is_any_present(&self) -> bool
        ensures { result ≡ is_any_present self.now }
    {
        self.is_any_present
    }

    /// Stores that the next addition is absent.
    ///
    /// # Errors
    ///
    /// `AllocError` if memory ran out. Nothing changes then.
    #[inline(always)]
    pub fn push_absent(&mut self) -> Result<(), AllocError>
        ensures ok { OnOk result (self.new ≡ self.old ++ None ∷ []) }
        ensures err { OnErr result (self.new ≡ self.old) }
    {
        self.slots.push(Slot::Absent)?;
        Ok(())
    }

    /// Stores the bits of an addition that is present. They are copied.
    ///
    /// # Errors
    ///
    /// `AllocError` if memory ran out. Nothing changes then.
    #[inline(always)]
    pub fn push_present(&mut self, contents: &BitBuffer) -> Result<(), AllocError>
        ensures ok { OnOk result (self.new ≡ self.old ++ Some contents.now ∷ []) }
        ensures err { OnErr result (self.new ≡ self.old) }
    {
        let slot = keep(&mut self.shared, contents)?;
        self.slots.push(slot)?;
        self.is_any_present = true;
        Ok(())
    }
}

impl Slot {
    /// Whether it is present.
    #[inline(always)]
    pub(crate) fn is_present(&self) -> bool
        ensures { result ≡ is_there self.now }
    {
        match self {
            Slot::Absent => false,
            _ => true,
        }
    }

    /// The octets of its complete encoding (X.691 11.1), in place or from the shared buffer, if it is present.
    #[inline(always)]
    fn octets<'a>(&'a self, shared: &'a [u8]) -> Option<&'a [u8]>
        requires { IsSlotOf shared.now self.now }
        ensures { MatchOption result (kept_bits shared.now self.now ≡ None) (λ octets. (bits : List Bool)
            × (kept_bits shared.now self.now ≡ Some bits) × (octets.now ≡ complete_octets bits)) }
    {
        match self {
            Slot::Absent => None,
            Slot::InPlace { octets, count, .. } => Some(&octets[..*count]),
            Slot::Shared { from, to, .. } => Some(&shared[*from..*to]),
        }
    }

    /// Adds the addition as an open type, if it is present (X.691 19.9). The only error is `OutOfMemory`.
    #[inline]
    pub(crate) fn push(
        &self,
        output: &mut Packing,
        variant: Variant,
        shared: &[u8],
    ) -> Result<(), EncodeError>
        requires { IsSlotOf shared.now self.now }
        ensures present { OnOk result ((bits : List Bool) → kept_bits shared.now self.now ≡ Some bits → Adds
            (field_list_at (open_type (is_aligned variant) (exactly bits)) (place output.old)) output.old output.new) }
        ensures absent { OnOk result (kept_bits shared.now self.now ≡ None → output.new ≡ output.old) }
        ensures only { IfErr result (λ e. e ≡ EncodeError.OutOfMemory) }
    {
        let Some(octets) = self.octets(shared) else {
            return Ok(());
        };
        push_counted_octets(output, variant, octets)?;
        Ok(())
    }
}
