//! The open frames, the innermost first.
ghost use Rattle.std.specs.Prelude.{◌≡◌, ◌∷◌, [], Bool, None, true, false, OnOk, IfErr, MatchOption, MatchResult};
ghost use Rattle.asn1_schema_laws.specs.Records.{addition, addition_ends, additions_begin, ends, further};
ghost use Rattle.asn1_schema_laws.specs.Records.{presence_bit};
ghost use Rattle.per_codec_packing.specs.Packed.{Packed};
ghost use Rattle.per_codec_encoder.specs.declared.frame.Frame.{Frame};
ghost use Rattle.per_codec_encoder.specs.Frames.{enclosed, CountsAddition, KeepsAddition};
ghost use Rattle.per_codec_encoder.specs.Holding.{AreSound, Does, Cannot};
ghost use Rattle.per_codec_rules.specs.Variants.{is_aligned};

use crate::additions::{keep_addition, next_addition, open_additions};
use crate::ends::end_complete;
use crate::frame::Frame;
use crate::sequences::{next_member, set_presence_bit};
use asn1_schema_errors::EncodeError;
use asn1_schema_scopes::Stack;
use asn1_values_bits::BitBuffer;
use per_codec_packing::Packing;
use per_codec_rules::Variant;
use std::alloc::{AllocError, Global};
use std::marker::Model;
use std::mem;

/// The open frames, the innermost first. An open type that is innermost is stored apart until something opens in it.
#[derive(Drop)]
pub(crate) struct Frames {
    // What precedes the innermost open type, if that is the innermost frame.
    enclosing: Option<Packing>,
    others: Stack<Frame>,
    // The buffer of an open type that has ended, for the next one.
    room: Vec<u8>,
}

impl Model for Frames {
    ghost use Rattle.std.specs.Prelude.{List};
    ghost use Rattle.per_codec_encoder.specs.declared.frame.Frame.{Frame};
    ghost use Rattle.per_codec_encoder.specs.Frames.{enclosed};

    ghost Value = { List Frame };

    ghost view = { λ f. enclosed f.enclosing f.others };
}

/// Moves an innermost open type to the other frames.
#[inline(always)]
fn settle(enclosing: &mut Option<Packing>, others: &mut Stack<Frame>) -> Result<(), AllocError>
    ensures none { OnOk result (enclosing.new ≡ None) }
    ensures same { OnOk result (others.new ≡ enclosed enclosing.old others.old) }
{
    if enclosing.is_none() {
        return Ok(());
    }
    if let Some(outer) = enclosing.take() {
        others.open(Frame::OpenType { outer })?;
    }
    Ok(())
}

impl Frames {
    /// No open frames. It does not allocate.
    pub(crate) fn new(alloc: Global) -> Self
        ensures { result ≡ [] }
    {
        Frames {
            enclosing: None,
            others: Stack::new(alloc),
            room: Vec::new(alloc),
        }
    }

    /// Closes all frames.
    #[inline(always)]
    pub(crate) fn clear(&mut self)
        ensures { self.new ≡ [] }
    {
        if self.enclosing.is_some() {
            self.enclosing = None;
        }
        self.others.clear();
    }

    /// Drops all frames.
    #[inline(always)]
    pub(crate) fn let_go(self) {
        let Frames { others, .. } = self;
        others.let_go();
    }

    /// Opens a frame inside all others.
    ///
    /// # Errors
    ///
    /// `AllocError` if memory ran out; an innermost open type is then dropped.
    #[inline(always)]
    pub(crate) fn open(&mut self, frame: Frame) -> Result<(), AllocError>
        ensures items { OnOk result (self.new ≡ frame ∷ self.old) }
    {
        settle(&mut self.enclosing, &mut self.others)?;
        self.others.open(frame)
    }

    /// Opens an open type, whose bits are kept apart, in the buffer of an earlier one. What precedes it is stored.
    ///
    /// # Errors
    ///
    /// `AllocError` if memory ran out.
    #[inline(always)]
    pub(crate) fn open_type(
        &mut self,
        output: &mut Packing,
        alloc: Global,
    ) -> Result<(), AllocError>
        ensures items { OnOk result (self.new ≡ Frame.OpenType output.old ∷ self.old) }
        ensures bits { OnOk result (output.new ≡ record { field_list = []; placed = true }) }
    {
        settle(&mut self.enclosing, &mut self.others)?;
        let room = mem::replace(&mut self.room, Vec::new(alloc));
        self.enclosing = Some(mem::replace(output, Packing::from_octets(room)));
        Ok(())
    }

    /// Closes the innermost frame and returns it, if one is open.
    #[inline(always)]
    pub(crate) fn close(&mut self) -> Option<Frame>
        ensures items { MatchOption result (self.old ≡ []) (λ frame. self.old ≡ frame ∷ self.new) }
    {
        if self.enclosing.is_none() {
            return self.others.close();
        }
        match self.enclosing.take() {
            Some(outer) => Some(Frame::OpenType { outer }),
            None => None,
        }
    }

    /// Ends the innermost frame, if nothing is due in it and nothing is written at its end. Returns whether it did.
    #[inline(always)]
    pub(crate) fn end_complete(&mut self) -> bool
        ensures ended { result ≡ true → (al : Bool) (o : Packed) → Does al ends self.old o self.new o }
        ensures same { result ≡ false → self.new ≡ self.old }
    {
        if self.enclosing.is_some() {
            return false;
        }
        end_complete(&mut self.others)
    }

    /// Begins the `count` extension additions, after the root of the innermost sequence or set with an extension bit
    /// (X.691 19.7).
    ///
    /// # Errors
    ///
    /// `CallOutOfPlace` if the innermost frame is not a sequence or set with an extension bit, or a presence bit of
    /// it is due; `OutOfMemory`.
    #[inline(always)]
    pub(crate) fn begin_additions(
        &mut self,
        output: &Packing,
        alloc: Global,
        count: usize,
    ) -> Result<(), EncodeError>
        ensures { MatchResult result (λ _. (al : Bool)
            → Does al (additions_begin count) self.old output.now self.new output.now)
            (λ e. (al : Bool) → Cannot al (additions_begin count) self.old output.now e) }
    {
        if self.enclosing.is_some() {
            return Err(EncodeError::CallOutOfPlace);
        }
        open_additions(output, &mut self.others, alloc, count)
    }

    /// Sets the presence bit of the next component of the innermost sequence, set or group that may be absent (X.691
    /// 19.2 and 19.3).
    ///
    /// # Errors
    ///
    /// `CallOutOfPlace` if the innermost frame is not a sequence, set or group with a presence bit due.
    #[inline(always)]
    pub(crate) fn encode_presence_bit(
        &mut self,
        output: &mut Packing,
        present: bool,
    ) -> Result<(), EncodeError>
        requires { AreSound self.old output.old }
        ensures { MatchResult result (λ _. (al : Bool) → Does al (presence_bit present) self.old output.old self.new
            output.new)
            (λ e. (al : Bool) → Cannot al (presence_bit present) self.old output.old e) }
    {
        if self.enclosing.is_some() {
            return Err(EncodeError::CallOutOfPlace);
        }
        set_presence_bit(output, &mut self.others, present)
    }

    /// Begins a further element of the innermost list or bag if `more`, else expects none to be due.
    ///
    /// # Errors
    ///
    /// `CallOutOfPlace` if the innermost frame is not a list or bag, or there are more or fewer elements than due;
    /// `OutOfMemory`.
    #[inline(always)]
    pub(crate) fn encode_further(
        &mut self,
        output: &mut Packing,
        alloc: Global,
        variant: Variant,
        more: bool,
    ) -> Result<(), EncodeError>
        ensures { MatchResult result (λ _. Does (is_aligned variant) (further more)
            self.old output.old self.new output.new)
            (Cannot (is_aligned variant) (further more) self.old output.old) }
    {
        if self.enclosing.is_some() {
            return Err(EncodeError::CallOutOfPlace);
        }
        next_member(output, &mut self.others, alloc, variant, more)
    }

    /// Stores the bits of an addition of the innermost sequence or set. Their buffer is reused for the next open
    /// type.
    ///
    /// # Errors
    ///
    /// `CallOutOfPlace` if the innermost frame takes no addition; `OutOfMemory`.
    #[inline(always)]
    pub(crate) fn keep_addition(&mut self, contents: BitBuffer) -> Result<(), EncodeError>
        ensures ok { OnOk result (KeepsAddition contents self.old self.new) }
        ensures only { IfErr result (λ e. (al : Bool) (outer o : Packed)
            → Cannot al addition_ends (Frame.OpenType outer ∷ self.old) o e) }
    {
        if self.enclosing.is_some() {
            return Err(EncodeError::CallOutOfPlace);
        }
        let kept = keep_addition(&mut self.others, &contents);
        self.room = contents.into_vec();
        kept
    }

    /// Counts the next addition of the innermost sequence or set.
    ///
    /// # Errors
    ///
    /// `CallOutOfPlace` if the innermost frame takes no addition, or none is due; `OutOfMemory`.
    #[inline(always)]
    pub(crate) fn next_addition(&mut self, present: bool) -> Result<(), EncodeError>
        ensures ok { OnOk result (CountsAddition present self.old self.new) }
        ensures only { IfErr result (λ e. (al : Bool) (o : Packed) → Cannot al (addition present) self.old o e) }
    {
        if self.enclosing.is_some() {
            return Err(EncodeError::CallOutOfPlace);
        }
        next_addition(&mut self.others, present)
    }
}
