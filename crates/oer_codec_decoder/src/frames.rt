//! Open scopes.
ghost use Rattle.std.specs.Prelude.{◌≡◌, ◌<◌, ◌∷◌, ◌++◌, [], ◌+◌, ◌-◌, ◌^◌, List, min, None, Some, OnOk, OnErr, IfErr};
ghost use Rattle.std.specs.Prelude.{IfOk, IfSome, map};
ghost use Rattle.std.specs.Prelude.{IfNone};
ghost use Rattle.oer_codec_laws.specs.Takes.{AdditionEnds, Ends, NextPresenceBit, NextMember};
ghost use Rattle.oer_codec_laws.specs.Takes.{components, members};
ghost use Rattle.oer_codec_reading.specs.Fronts.{freedoms};
ghost use Rattle.oer_codec_decoder.specs.Refusals.{NoAdditionEnd, NoEnd, NotFinished};
ghost use Rattle.oer_codec_longer_laws.specs.Few.{around, due};
ghost use Rattle.oer_codec_decoder.specs.declared.frames.Frame.{Frame};
ghost use Rattle.oer_codec_decoder.specs.Scopes.{NextPresent, frame_of, owing, scope_of, scopes_of};

use crate::additions::Additions;
use crate::endings::finish;
use asn1_schema_errors::DecodeError;
use asn1_schema_scopes::Stack;
use asn1_values_bits::BitStr;
use oer_codec_reading::{Cursor, EncodingRules, leave_open_type, take_bit};
use std::alloc::{AllocError, Global};
use std::marker::Model;

/// What has begun and has not ended.
#[derive(Drop)]
pub(crate) enum Frame<'input> {
    /// The components of a SEQUENCE, SET or group (X.696 16): the extension bit, if there is an extension marker, and
    /// the presence bits that are still to come.
    Components(Option<bool>, BitStr<'input>),
    /// The extension additions of such a type (X.696 16.4).
    Added(Additions<'input>),
    /// An open type (X.696 30): its octets are read by a separate cursor, and the octets after it are these.
    OpenType(Cursor<'input>),
    /// The elements of a SEQUENCE OF or SET OF (X.696 17 and 19): how many are still to come.
    Members(usize),
    /// A root alternative of a choice (X.696 20).
    Alternative,
}

/// A scope that contains a single value.
#[derive(Drop)]
pub(crate) enum Enclosing<'input> {
    /// A root alternative of a choice (X.696 20).
    Alternative,
    /// An open type (X.696 30): its octets are read by a separate cursor, and the octets after it are these.
    OpenType(Cursor<'input>),
}

impl<'input> Frame<'input> {
    /// `due` plus the number of elements of this frame that are still to come, saturating at 64 bits. `None` for an
    /// open type: its length determinant says that all its octets are there (X.696 30).
    #[inline(always)]
    fn add_due(&self, due: usize) -> Option<usize>
        ensures some { IfSome result (λ n. (fs : List Frame)
            → min (due + owing (self.now ∷ fs)) (2 ^ 64 - 1) ≡ min (n + owing fs) (2 ^ 64 - 1)) }
        ensures most { IfSome result (λ n. n < 2 ^ 64) }
        ensures none { IfNone result ((fs : List Frame) → owing (self.now ∷ fs) ≡ 0) }
    {
        match self {
            Frame::OpenType(_) => None,
            Frame::Members(members) => Some(due.saturating_add(*members)),
            _ => Some(due),
        }
    }
}

impl<'input> Enclosing<'input> {
    /// The same scope as a frame among others.
    #[inline(always)]
    fn frame(self) -> Frame<'input>
        ensures { result ≡ frame_of self.entry }
    {
        match self {
            Enclosing::Alternative => Frame::Alternative,
            Enclosing::OpenType(behind) => Frame::OpenType(behind),
        }
    }
}

/// The number of elements that are still to come in frames, the outermost first, saturating at 64 bits; `Err` with the
/// number before the first open type, if there is one. It borrows only the frames, not the decoder, so that the
/// compiler need not keep a decoder in memory unless it fails.
#[cold]
fn frames_due(frames: &[Frame<'_>]) -> Result<usize, usize>
    ensures ok { IfOk result (λ n. (fs : List Frame)
        → min (owing (frames.now ++ fs)) (2 ^ 64 - 1) ≡ min (n + owing fs) (2 ^ 64 - 1)) }
    ensures most { IfOk result (λ n. n < 2 ^ 64) }
    ensures within { IfErr result (λ n. (fs : List Frame) → min (owing (frames.now ++ fs)) (2 ^ 64 - 1) ≡ n) }
{
    let mut due = 0;
    for frame in frames {
        let Some(more) = frame.add_due(due) else {
            return Err(due);
        };
        due = more;
    }
    Ok(due)
}

/// The number of elements that are still to come in all frames, counted from the outermost one up to the first open
/// type, saturating at 64 bits.
#[inline(always)]
fn all_frames_due(frames: &Stack<Frame<'_>>) -> usize
    ensures { result ≡ min (due (map scope_of frames.now)) (2 ^ 64 - 1) }
{
    let Some(innermost) = &frames.innermost else {
        return 0;
    };
    match frames_due(frames.outer()) {
        Ok(due) => innermost.add_due(due).unwrap_or(due),
        Err(due) => due,
    }
}

/// Turns the scope that contains a single value into a frame inside all others. Called seldom: if something begins in
/// an open type or in an alternative.
#[cold]
fn settle_enclosing<'input>(
    enclosing: &mut Option<Enclosing<'input>>,
    frames: &mut Stack<Frame<'input>>,
) -> Result<(), AllocError>
    ensures frames { OnOk result (map scope_of frames.new ≡ scopes_of enclosing.old frames.old) }
    ensures none { OnOk result (enclosing.new ≡ None) }
{
    let Some(around) = enclosing.take() else {
        return Ok(());
    };
    frames.open(around.frame())
}

/// As `settle_enclosing`; does nothing if there is no scope that contains a single value.
#[inline(always)]
fn settle<'input>(
    enclosing: &mut Option<Enclosing<'input>>,
    frames: &mut Stack<Frame<'input>>,
) -> Result<(), AllocError>
    ensures frames { OnOk result (map scope_of frames.new ≡ scopes_of enclosing.old frames.old) }
    ensures none { OnOk result (enclosing.new ≡ None) }
{
    if enclosing.is_none() {
        return Ok(());
    }
    settle_enclosing(enclosing, frames)
}

/// Closes the scope that contains a single value. An open type (X.696 30) ends.
#[inline(always)]
fn close_enclosing<'input>(
    enclosing: Enclosing<'input>,
    cursor: &mut Cursor<'input>,
    rules: EncodingRules,
) -> Result<(), DecodeError>
    ensures ok { OnOk result ((k : _) → Ends (freedoms rules) cursor.old (scope_of (frame_of enclosing.entry) ∷ k)
        (cursor.new, k)) }
    ensures only { IfErr result (NotFinished (freedoms rules) (scope_of (frame_of enclosing.entry)) cursor.old) }
{
    match enclosing {
        Enclosing::Alternative => Ok(()),
        Enclosing::OpenType(behind) => leave_open_type(cursor, rules, behind),
    }
}

/// Closes the innermost frame, if nothing of it is still to come.
#[inline(always)]
fn close_frame<'input>(
    frames: &mut Stack<Frame<'input>>,
    cursor: &mut Cursor<'input>,
    rules: EncodingRules,
) -> Result<(), DecodeError>
    ensures ok { OnOk result (Ends (freedoms rules) cursor.old (map scope_of frames.old)
        (cursor.new, map scope_of frames.new)) }
    ensures only { IfErr result (NoEnd (freedoms rules) cursor.old (map scope_of frames.old)) }
    ensures left { OnErr result (map scope_of frames.new ≡ around (map scope_of frames.old)) }
{
    let Some(frame) = frames.close() else {
        return Err(DecodeError::NotValidCanonicalEncoding);
    };
    finish(frame, cursor, rules)
}

/// Closes the innermost frame, if it is that of an addition (X.696 30).
#[cold]
fn close_frame_of_addition<'input>(
    frames: &mut Stack<Frame<'input>>,
    cursor: &mut Cursor<'input>,
    rules: EncodingRules,
) -> Result<(), DecodeError>
    ensures ok { OnOk result (AdditionEnds (freedoms rules) cursor.old (map scope_of frames.old)
        (cursor.new, map scope_of frames.new)) }
    ensures only { IfErr result (NoAdditionEnd (freedoms rules) cursor.old (map scope_of frames.old)) }
{
    let Some(Frame::OpenType(behind)) = frames.close() else {
        return Err(DecodeError::NotValidCanonicalEncoding);
    };
    let Some(Frame::Added(_)) = &frames.innermost else {
        return Err(DecodeError::NotValidCanonicalEncoding);
    };
    leave_open_type(cursor, rules, behind)?;
    Ok(())
}

/// All open scopes: one that contains a single value, which is innermost if there is one, and the others.
#[derive(Drop)]
pub(crate) struct Nested<'input> {
    enclosing: Option<Enclosing<'input>>,
    frames: Stack<Frame<'input>>,
}

impl<'input> Model for Nested<'input> {
    ghost use Rattle.std.specs.Prelude.{List};
    ghost use Rattle.oer_codec_laws.specs.Takes.{Scope};
    ghost use Rattle.oer_codec_decoder.specs.Scopes.{scopes_of};

    ghost Value = { List Scope };

    ghost view = { λ s. scopes_of s.enclosing s.frames };
}

impl<'input> Nested<'input> {
    /// No open scope.
    pub(crate) fn new(alloc: Global) -> Self
        ensures { result ≡ [] }
    {
        Nested {
            enclosing: None,
            frames: Stack::new(alloc),
        }
    }

    /// Closes all scopes.
    pub(crate) fn clear(&mut self)
        ensures { self.new ≡ [] }
    {
        self.enclosing = None;
        self.frames.clear();
    }

    /// The number of elements that are still to come in each SEQUENCE OF and SET OF that is open outside open types,
    /// saturating at 64 bits.
    #[inline(always)]
    pub(crate) fn due(&self) -> usize
        ensures { result ≡ min (due self.now) (2 ^ 64 - 1) }
    {
        all_frames_due(&self.frames)
    }

    /// Opens a scope inside all others.
    #[inline(always)]
    pub(crate) fn open(&mut self, frame: Frame<'input>) -> Result<(), AllocError>
        ensures { OnOk result (self.new ≡ scope_of frame.entry ∷ self.old) }
    {
        settle(&mut self.enclosing, &mut self.frames)?;
        self.frames.open(frame)
    }

    /// Opens, inside all others, a scope that contains a single value.
    #[inline(always)]
    pub(crate) fn enclose(&mut self, enclosing: Enclosing<'input>) -> Result<(), AllocError>
        ensures { OnOk result (self.new ≡ scope_of (frame_of enclosing.entry) ∷ self.old) }
    {
        settle(&mut self.enclosing, &mut self.frames)?;
        self.enclosing = Some(enclosing);
        Ok(())
    }

    /// Replaces the innermost scope, which is that of components.
    #[inline(always)]
    pub(crate) fn replace(&mut self, frame: Frame<'input>)
        ensures { (x : _) (ms : _) (k : _) → self.old ≡ components x ms ∷ k → self.new ≡ scope_of frame.entry ∷ k }
    {
        self.frames.innermost = Some(frame);
    }

    /// Sets the number of elements of the innermost list that are still to come. Called seldom: if something begins in
    /// an element, or the list ends early.
    #[cold]
    pub(crate) fn set_due(&mut self, due: usize)
        ensures { (n : _) (k : _) → self.old ≡ members n ∷ k → self.new ≡ members due ∷ k }
    {
        self.frames.innermost = Some(Frame::Members(due));
    }

    /// The extension bit of the innermost SEQUENCE, if all its presence bits were read.
    #[inline(always)]
    pub(crate) fn extension_bit(&self) -> Option<bool>
        ensures some { IfSome result (λ set. (k : _) × (self.now ≡ components (Some set) [] ∷ k)) }
        ensures none { IfNone result ((set : _) (k : _) → self.now ≡ components (Some set) [] ∷ k → ⊥) }
    {
        if self.enclosing.is_some() {
            return None;
        }
        match &self.frames.innermost {
            Some(Frame::Components(Some(set), presence)) => {
                if presence.is_empty() {
                    return Some(*set);
                }
                None
            }
            _ => None,
        }
    }

    /// The next presence bit of the innermost SEQUENCE.
    #[inline(always)]
    pub(crate) fn next_presence_bit(&mut self) -> Option<bool>
        ensures some { IfSome result (λ present. (os : _) → NextPresenceBit present os self.old (os, self.new)) }
        ensures none { IfNone result ((present : _) (os : _) (b : _) → NextPresenceBit present os self.old b → ⊥) }
    {
        if self.enclosing.is_some() {
            return None;
        }
        match &mut self.frames.innermost {
            Some(Frame::Components(_, presence)) => take_bit(presence),
            _ => None,
        }
    }

    /// Whether the next addition of the innermost SEQUENCE is present.
    #[inline(always)]
    pub(crate) fn next_addition(&mut self) -> Option<bool>
        ensures some { IfSome result (λ present. NextPresent present self.old self.new) }
        ensures none { IfNone result ((present : _) (after : _) → NextPresent present self.old after → ⊥) }
    {
        if self.enclosing.is_some() {
            return None;
        }
        match &mut self.frames.innermost {
            Some(Frame::Added(additions)) => additions.next(),
            _ => None,
        }
    }

    /// Whether an element of the innermost list is still to come.
    #[inline(always)]
    pub(crate) fn next_member(&mut self) -> Option<bool>
        ensures some { IfSome result (λ more. (os : _) → NextMember more os self.old (os, self.new)) }
        ensures none { IfNone result ((more : _) (os : _) (b : _) → NextMember more os self.old b → ⊥) }
    {
        if self.enclosing.is_some() {
            return None;
        }
        match &mut self.frames.innermost {
            Some(Frame::Members(due)) => {
                if *due == 0 {
                    return Some(false);
                }
                *due -= 1;
                Some(true)
            }
            _ => None,
        }
    }

    /// Closes the innermost scope. Fails if something of it is still to come.
    #[inline(always)]
    pub(crate) fn close(
        &mut self,
        cursor: &mut Cursor<'input>,
        rules: EncodingRules,
    ) -> Result<(), DecodeError>
        ensures ok { OnOk result (Ends (freedoms rules) cursor.old self.old (cursor.new, self.new)) }
        ensures only { IfErr result (NoEnd (freedoms rules) cursor.old self.old) }
        ensures left { OnErr result (self.new ≡ around self.old) }
    {
        if self.enclosing.is_none() {
            return close_frame(&mut self.frames, cursor, rules);
        }
        match self.enclosing.take() {
            Some(enclosing) => close_enclosing(enclosing, cursor, rules),
            None => Err(DecodeError::NotValidCanonicalEncoding),
        }
    }

    /// Closes the innermost scope, if it is that of an addition (X.696 30).
    #[inline(always)]
    pub(crate) fn close_addition(
        &mut self,
        cursor: &mut Cursor<'input>,
        rules: EncodingRules,
    ) -> Result<(), DecodeError>
        ensures ok { OnOk result (AdditionEnds (freedoms rules) cursor.old self.old (cursor.new, self.new)) }
        ensures only { IfErr result (NoAdditionEnd (freedoms rules) cursor.old self.old) }
    {
        let Some(enclosing) = self.enclosing.take() else {
            return close_frame_of_addition(&mut self.frames, cursor, rules);
        };
        let Enclosing::OpenType(behind) = enclosing else {
            return Err(DecodeError::NotValidCanonicalEncoding);
        };
        let Some(Frame::Added(_)) = &self.frames.innermost else {
            return Err(DecodeError::NotValidCanonicalEncoding);
        };
        leave_open_type(cursor, rules, behind)?;
        Ok(())
    }
}
