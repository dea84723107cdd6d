//! All open frames.
ghost use Rattle.std.specs.Prelude.{◌≡◌, ◌+◌, ◌^◌, ◌<◌, ◌∷◌, [], List, OnOk, OnErr, IfSome, IfNone};
ghost use Rattle.std.specs.Prelude.{MatchResult};
ghost use Rattle.asn1_schema_laws.specs.Records.{ends, further};
ghost use Rattle.oer_codec_encoder.specs.declared.frame.Frame.TheVariants.{Added, Bag, Components, OpenType};
ghost use Rattle.oer_codec_encoder.specs.Frames.{frame_of, frames_of, told, with_next};
ghost use Rattle.oer_codec_encoder.specs.EarlierOctets.{ground, Keeps};
ghost use Rattle.oer_codec_encoder.specs.Holding.{AreSound, Does, Cannot};

use crate::bags::{exchange, next_of_bag};
use crate::ends::{end_frame, end_small};
use crate::frame::{Additions, Frame, Preamble};
use crate::sequences::count_member;
use asn1_schema_errors::EncodeError;
use asn1_schema_scopes::Stack;
use std::alloc::{AllocError, Global};
use std::marker::Model;

/// An innermost frame that needs no more than one number: a frame around a single value, or a list whose element has
/// opened nothing.
#[derive(Clone, Copy)]
pub(crate) enum SmallFrame {
    /// A list.
    Members {
        /// The number of elements still due.
        due: usize,
    },
    /// A root alternative of a choice.
    Alternative,
    /// An addition or an added alternative. Its octets follow one octet reserved for the length determinant.
    OpenType {
        /// The position of the reserved octet.
        start: usize,
    },
}

impl SmallFrame {
    /// The same frame as a `Frame`.
    #[inline(always)]
    fn frame(self) -> Frame
        ensures { result ≡ frame_of self }
    {
        match self {
            SmallFrame::Members { due } => Frame::Members { due },
            SmallFrame::Alternative => Frame::Alternative,
            SmallFrame::OpenType { start } => Frame::OpenType { start },
        }
    }
}

/// All frames that are open, from the inside out: the small frame, if there is one, then the others. The small frame
/// and the innermost other one need no allocation.
#[derive(Drop)]
pub(crate) struct Frames {
    small: Option<SmallFrame>,
    others: Stack<Frame>,
}

impl Model for Frames {
    ghost use Rattle.std.specs.Prelude.{List};
    ghost use Rattle.oer_codec_encoder.specs.declared.frame.Frame.{Frame};
    ghost use Rattle.oer_codec_encoder.specs.Frames.{frames_of};

    ghost Value = { List Frame };

    ghost view = { λ f. frames_of f.small f.others };
}

/// Opens a small frame as a frame inside all others. Rarely called: only where something begins in an open type, in
/// an alternative or in the first element of a list.
#[cold]
fn settle_small(others: &mut Stack<Frame>, small: SmallFrame) -> Result<(), AllocError>
    ensures ok { OnOk result (others.new ≡ frame_of small ∷ others.old) }
    ensures kept { OnErr result (others.new ≡ others.old) }
{
    others.open(small.frame())
}

/// Moves the small frame, if there is one, to the other frames. If an allocation fails, nothing changes.
#[inline(always)]
fn settle(small: &mut Option<SmallFrame>, others: &mut Stack<Frame>) -> Result<(), AllocError>
    ensures none { OnOk result (small.new ≡ None) }
    ensures same { OnOk result (others.new ≡ frames_of small.old others.old) }
    ensures kept { OnErr result (frames_of small.new others.new ≡ frames_of small.old others.old) }
{
    if let Some(around) = *small {
        settle_small(others, around)?;
        *small = None;
    }
    Ok(())
}

/// Closes the innermost frame if it is an open type, and returns the position of its reserved octet. The innermost
/// frame is not a small one.
#[inline(always)]
fn close_other_open_type(others: &mut Stack<Frame>) -> Option<usize>
    ensures some { IfSome result (λ start. others.old ≡ OpenType start ∷ others.new) }
    ensures none { IfNone result ((start : _) (k : _) → others.old ≡ OpenType start ∷ k → ⊥) }
    ensures still { IfNone result (others.new ≡ others.old) }
{
    let Some(Frame::OpenType { start }) = others.innermost else {
        return None;
    };
    let _closed = others.close();
    Some(start)
}

/// Ends the innermost frame, which is not a small one.
#[inline(always)]
fn end_other(
    octets: &mut Vec<u8>,
    alloc: Global,
    others: &mut Stack<Frame>,
) -> Result<(), EncodeError>
    requires { AreSound others.old octets.old.items }
    ensures step { MatchResult result (λ _. Does ends others.old octets.old.items others.new octets.new.items)
        (Cannot ends others.old octets.old.items) }
    ensures kept { OnErr result (Keeps others.old octets.old.items others.new octets.new.items) }
{
    let Some(frame) = &mut others.innermost else {
        return Err(EncodeError::CallOutOfPlace);
    };
    end_frame(octets, alloc, frame)?;
    let _closed = others.close();
    Ok(())
}

/// Begins a further element of the innermost list or bag if `more`, else expects none to be due. The innermost frame
/// is not a small one.
#[inline(always)]
fn encode_other_further(
    octets: &mut Vec<u8>,
    alloc: Global,
    others: &mut Stack<Frame>,
    more: bool,
) -> Result<(), EncodeError>
    ensures step { MatchResult result
        (λ _. Does (further more) others.old octets.old.items others.new octets.new.items)
        (Cannot (further more) others.old octets.old.items) }
    ensures kept { OnErr result (Keeps others.old octets.old.items others.new octets.new.items) }
{
    match &mut others.innermost {
        Some(Frame::Members { due }) => count_member(due, more)?,
        Some(Frame::Bag(bag)) => return next_of_bag(octets, bag, alloc, more),
        _ => return Err(EncodeError::CallOutOfPlace),
    }
    Ok(())
}

/// Exchanges the octets with those that the innermost frame, a bag, has set aside.
#[inline(always)]
fn set_other_aside(octets: &mut Vec<u8>, others: &mut Stack<Frame>)
    requires { (b : _) × (k : _) × (others.old ≡ Bag b ∷ k) }
    ensures { (b : _) (k : _) → others.old ≡ Bag b ∷ k → let a = b.value in (c : _) × (others.new ≡ Bag c ∷ k)
        × (c.value ≡ record a { outer = octets.old }) × (octets.new ≡ a.outer) }
{
    let Some(Frame::Bag(bag)) = &mut others.innermost else {
        return;
    };
    exchange(octets, bag);
}

/// Restores the octets that a frame set aside, which only a bag does.
fn bring_back(octets: &mut Vec<u8>, frame: &mut Frame)
    ensures { (k : _) → ground k octets.new.items ≡ ground (frame.old ∷ k) octets.old.items }
{
    match frame {
        Frame::Bag(bag) => exchange(octets, bag),
        _ => {}
    }
}

/// Closes all frames, and restores the octets that the outermost bag among them set aside.
fn bring_all_back(octets: &mut Vec<u8>, others: &mut Stack<Frame>)
    ensures octets { octets.new.items ≡ ground others.old octets.old.items }
    ensures none { others.new ≡ [] }
{
    while let Some(mut frame) = others.close() {
        bring_back(octets, &mut frame);
    }
}

impl Frames {
    /// No open frames. It does not allocate.
    #[inline(always)]
    pub(crate) fn new(alloc: Global) -> Self
        ensures { result ≡ [] }
    {
        Frames {
            small: None,
            others: Stack::new(alloc),
        }
    }

    /// Closes all frames.
    #[inline(always)]
    pub(crate) fn clear(&mut self)
        ensures { self.new ≡ [] }
    {
        self.small = None;
        self.others.clear();
    }

    /// Drops all frames.
    #[inline(always)]
    pub(crate) fn let_go(self) {
        let Frames { others, .. } = self;
        others.let_go();
    }

    /// Closes all frames, and restores the octets that the outermost bag set aside, if a bag is open.
    pub(crate) fn bring_back(&mut self, octets: &mut Vec<u8>)
        ensures octets { octets.new.items ≡ ground self.old octets.old.items }
        ensures none { self.new ≡ [] }
    {
        bring_all_back(octets, &mut self.others);
        self.small = None;
    }

    /// Exchanges the octets with those that the innermost frame, a bag, has set aside.
    pub(crate) fn set_aside(&mut self, octets: &mut Vec<u8>)
        requires { (b : _) × (k : _) × (self.old ≡ Bag b ∷ k) }
        ensures { (b : _) (k : _) → self.old ≡ Bag b ∷ k → let a = b.value in (c : _) × (self.new ≡ Bag c ∷ k)
            × (c.value ≡ record a { outer = octets.old }) × (octets.new ≡ a.outer) }
    {
        match self.small {
            Some(_) => {}
            None => set_other_aside(octets, &mut self.others),
        }
    }

    /// Opens a frame inside all others. If an allocation fails, nothing changes.
    #[inline(always)]
    pub(crate) fn open(&mut self, frame: Frame) -> Result<(), AllocError>
        ensures ok { OnOk result (self.new ≡ frame ∷ self.old) }
        ensures kept { OnErr result (self.new ≡ self.old) }
    {
        settle(&mut self.small, &mut self.others)?;
        self.others.open(frame)
    }

    /// Opens a small frame inside all others. If an allocation fails, nothing changes.
    #[inline(always)]
    pub(crate) fn open_small(&mut self, small: SmallFrame) -> Result<(), AllocError>
        ensures ok { OnOk result (self.new ≡ frame_of small ∷ self.old) }
        ensures kept { OnErr result (self.new ≡ self.old) }
    {
        settle(&mut self.small, &mut self.others)?;
        self.small = Some(small);
        Ok(())
    }

    /// Closes the innermost frame if it is an open type, and returns the position of its reserved octet.
    #[inline(always)]
    pub(crate) fn close_open_type(&mut self) -> Option<usize>
        ensures some { IfSome result (λ start. self.old ≡ OpenType start ∷ self.new) }
        ensures none { IfNone result ((start : _) (k : _) → self.old ≡ OpenType start ∷ k → ⊥) }
        ensures still { IfNone result (self.new ≡ self.old) }
    {
        match self.small {
            Some(SmallFrame::OpenType { start }) => {
                self.small = None;
                Some(start)
            }
            Some(SmallFrame::Members { .. } | SmallFrame::Alternative) => None,
            None => close_other_open_type(&mut self.others),
        }
    }

    /// Ends the innermost frame (X.696 16, 17, 19, 20 and 30).
    ///
    /// # Errors
    ///
    /// `CallOutOfPlace` if the innermost frame does not take this call, and `OutOfMemory`.
    #[inline(always)]
    pub(crate) fn end_innermost(
        &mut self,
        octets: &mut Vec<u8>,
        alloc: Global,
    ) -> Result<(), EncodeError>
        requires { AreSound self.old octets.old.items }
        ensures step { MatchResult result (λ _. Does ends self.old octets.old.items self.new octets.new.items)
            (Cannot ends self.old octets.old.items) }
        ensures kept { OnErr result (Keeps self.old octets.old.items self.new octets.new.items) }
    {
        if let Some(small) = self.small {
            self.small = None;
            return end_small(octets, alloc, small);
        }
        end_other(octets, alloc, &mut self.others)
    }

    /// The preamble of the innermost frame, if it is a sequence that has not passed its root.
    #[inline(always)]
    pub(crate) fn preamble(&self) -> Option<Preamble>
        ensures some { IfSome result (λ p. (k : _) × (self.now ≡ Components p ∷ k)) }
        ensures none { IfNone result ((p : _) (k : _) → self.now ≡ Components p ∷ k → ⊥) }
    {
        match (&self.small, &self.others.innermost) {
            (None, Some(Frame::Components(preamble))) => Some(*preamble),
            _ => None,
        }
    }

    /// Replaces the innermost frame, a sequence in its root.
    #[inline(always)]
    pub(crate) fn replace(&mut self, frame: Frame)
        requires { (p : _) × (k : _) × (self.old ≡ Components p ∷ k) }
        ensures { (f : _) (k : _) → self.old ≡ f ∷ k → self.new ≡ frame ∷ k }
    {
        self.others.innermost = Some(frame);
    }

    /// Takes the next presence bit of the innermost sequence, and returns the preamble as it was before.
    #[inline(always)]
    pub(crate) fn next_presence_bit(&mut self) -> Option<Preamble>
        requires { (p : _) (k : _) → self.old ≡ Components p ∷ k → p.given + p.due < 2 ^ 64 }
        ensures some { IfSome result (λ p. (k : _) × (self.old ≡ Components p ∷ k) × (0 < p.due)
            × (self.new ≡ Components (told p) ∷ k)) }
        ensures none { IfNone result ((p : _) (k : _) → self.old ≡ Components p ∷ k → p.due ≡ 0) }
        ensures still { IfNone result (self.new ≡ self.old) }
    {
        match (&self.small, &mut self.others.innermost) {
            (None, Some(Frame::Components(preamble))) => {
                if preamble.due == 0 {
                    return None;
                }
                let before = *preamble;
                preamble.due -= 1;
                preamble.given += 1;
                Some(before)
            }
            _ => None,
        }
    }

    /// Begins a further element of the innermost list or bag if `more`, else expects none to be due (X.696 17 and 19).
    /// It writes nothing.
    ///
    /// # Errors
    ///
    /// `CallOutOfPlace` if the innermost frame does not take this call, and `OutOfMemory`.
    #[inline(always)]
    pub(crate) fn encode_further(
        &mut self,
        octets: &mut Vec<u8>,
        alloc: Global,
        more: bool,
    ) -> Result<(), EncodeError>
        ensures step { MatchResult result
            (λ _. Does (further more) self.old octets.old.items self.new octets.new.items)
            (Cannot (further more) self.old octets.old.items) }
        ensures kept { OnErr result (Keeps self.old octets.old.items self.new octets.new.items) }
    {
        match &mut self.small {
            Some(SmallFrame::Members { due }) => {
                count_member(due, more)?;
                Ok(())
            }
            Some(SmallFrame::Alternative | SmallFrame::OpenType { .. }) => {
                Err(EncodeError::CallOutOfPlace)
            }
            None => encode_other_further(octets, alloc, &mut self.others, more),
        }
    }

    /// Counts the next addition of the innermost sequence, and returns the additions as they were before.
    #[inline(always)]
    pub(crate) fn next_addition(&mut self, present: bool) -> Option<Additions>
        requires { (a : _) (k : _) → self.old ≡ Added a ∷ k → a.given + a.due < 2 ^ 64 }
        ensures some { IfSome result (λ a. (k : _) × (self.old ≡ Added a ∷ k) × (0 < a.due)
            × (self.new ≡ Added (with_next present a) ∷ k)) }
        ensures none { IfNone result ((a : _) (k : _) → self.old ≡ Added a ∷ k → a.due ≡ 0) }
        ensures still { IfNone result (self.new ≡ self.old) }
    {
        match (&self.small, &mut self.others.innermost) {
            (None, Some(Frame::Added(additions))) => {
                if additions.due == 0 {
                    return None;
                }
                let before = *additions;
                additions.due -= 1;
                additions.given += 1;
                additions.any = additions.any || present;
                Some(before)
            }
            _ => None,
        }
    }

    /// The additions of the innermost sequence, if it has passed its root.
    #[inline(always)]
    pub(crate) fn additions(&self) -> Option<&Additions>
        ensures some { IfSome result (λ a. (k : _) × (self.now ≡ Added a.now ∷ k)) }
        ensures none { IfNone result ((a : _) (k : _) → self.now ≡ Added a ∷ k → ⊥) }
    {
        match (&self.small, &self.others.innermost) {
            (None, Some(Frame::Added(additions))) => Some(additions),
            _ => None,
        }
    }
}
