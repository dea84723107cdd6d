//! Open scopes.
ghost use Rattle.std.specs.Prelude.{◌≡◌, ◌<◌, ◌+◌, ◌-◌, ◌^◌, ◌∷◌, [], List, map, true, false, min};
ghost use Rattle.std.specs.Prelude.{OnOk, IfOk, IfErr, IfSome, IfNone, MatchBool};
ghost use Rattle.per_codec_laws.specs.Takes.{NextPresenceBit, NextMember, open_type};
ghost use Rattle.per_codec_reading.specs.Fronts.{freedoms, is_aligned, IsFresh};
ghost use Rattle.per_codec_decoder.specs.Members.{NoFurther};
ghost use Rattle.per_codec_longer_laws.specs.Few.{due};
ghost use Rattle.per_codec_decoder.specs.declared.frames.Frame.{Frame};
ghost use Rattle.per_codec_decoder.specs.Scopes.{behind_around, behind_frame, behind_frames, behind_of, scope_of};
ghost use Rattle.per_codec_decoder.specs.Scopes.{owing, scope_around, scopes_of};
ghost use Rattle.per_codec_decoder.specs.Scopes.{HasExtensionBit, NoAdditions, NextBitmapBit, NoAdditionDue, Leaves};
ghost use Rattle.per_codec_decoder.specs.Scopes.{LeavesBehind};
ghost use Rattle.per_codec_decoder.specs.Scopes.{LeavesAddition, NoAdditionEnd, NoEnd, IsAdded};

use crate::additions::Additions;
use crate::members::DueMembers;
use asn1_schema_errors::DecodeError;
use asn1_schema_scopes::Stack;
use per_codec_reading::{Cursor, PackedRules};
use per_codec_reading_values::Stretch;
use std::alloc::{AllocError, Global};
use std::marker::Model;

/// What has begun and has not ended.
#[derive(Drop)]
pub enum Frame<'input> {
    /// The components of a SEQUENCE, SET or group (X.691 19): the presence bits that are still to come, and the
    /// extension bit, if there is one.
    Components(Stretch<'input>, Option<bool>),
    /// The extension additions of a SEQUENCE or SET (X.691 19.7) that are still to come.
    Added(Additions<'input>),
    /// An addition, or an added alternative (X.691 11.2): the position after its open type.
    OpenType(Stretch<'input>),
    /// The elements of a list (X.691 20): those that are due.
    Members(DueMembers),
    /// A root alternative of a choice (X.691 23).
    Alternative,
}

/// A scope that contains a single value.
#[derive(Drop)]
pub enum Enclosing<'input> {
    /// An addition, or an added alternative (X.691 11.2): the position after its open type.
    OpenType(Stretch<'input>),
    /// A root alternative of a choice (X.691 23).
    Alternative,
}

/// What is left to skip at the end of a scope.
#[derive(Drop)]
pub enum Ending<'input> {
    /// Nothing.
    Nothing,
    /// The unknown additions with these presence bits (X.691 19.8).
    Unknown(Stretch<'input>),
    /// The padding of an open type, after which comes this position (X.691 11.2).
    OpenType(Stretch<'input>),
}

impl<'input> Frame<'input> {
    /// `due` plus the number of elements of this frame that are still to come, saturating at 64 bits. `None` for an
    /// open type: its length determinant says that all its octets are there (X.691 11.2).
    fn add_due(&self, due: usize) -> Option<usize>
        ensures some { IfSome result (λ n. (fs : List Frame)
            → min (due + owing (self.now ∷ fs)) (2 ^ 64 - 1) ≡ min (n + owing fs) (2 ^ 64 - 1)) }
        ensures most { IfSome result (λ n. n < 2 ^ 64) }
        ensures none { IfNone result ((fs : List Frame) → owing (self.now ∷ fs) ≡ 0) }
    {
        match self {
            Frame::OpenType(_) => None,
            Frame::Members(members) => Some(due.saturating_add(members.due())),
            _ => Some(due),
        }
    }
}

impl<'input> Enclosing<'input> {
    /// The same scope as a frame.
    #[inline(always)]
    fn frame(self) -> Frame<'input>
        ensures scope { scope_of result ≡ scope_around self.entry }
        ensures behind { (k : _) → behind_frame result k ≡ behind_around self.entry k }
    {
        match self {
            Enclosing::OpenType(behind) => Frame::OpenType(behind),
            Enclosing::Alternative => Frame::Alternative,
        }
    }

    /// What is left to skip at its end.
    #[inline(always)]
    fn ending(self) -> Ending<'input>
        ensures scope { (k : _) → Leaves result (scope_around self.entry ∷ k) k }
        ensures behind { (k : _) → LeavesBehind result (behind_around self.entry k) k }
    {
        match self {
            Enclosing::OpenType(behind) => Ending::OpenType(behind),
            Enclosing::Alternative => Ending::Nothing,
        }
    }
}

/// Moves the scope that contains a single value to the frames: the scopes stay the same. Called seldom: if something
/// begins in an open type or in an alternative.
#[cold]
fn settle<'input>(
    enclosing: &mut Option<Enclosing<'input>>,
    frames: &mut Stack<Frame<'input>>,
) -> Result<(), AllocError>
    ensures moved { OnOk result (enclosing.new ≡ None) }
    ensures scopes { OnOk result (map scope_of frames.new ≡ scopes_of enclosing.old frames.old) }
    ensures behind { OnOk result (behind_frames frames.new ≡ behind_of enclosing.old frames.old) }
{
    if let Some(around) = enclosing.take() {
        frames.open(around.frame())?;
    }
    Ok(())
}

/// The number of elements that are still to come in frames, counted from the outermost one up to the first open type,
/// saturating at 64 bits.
#[cold]
fn frames_due(frames: &Stack<Frame<'_>>) -> usize
    ensures { result ≡ min (due (map scope_of frames.now)) (2 ^ 64 - 1) }
{
    let Some(innermost) = &frames.innermost else {
        return 0;
    };
    let mut due = 0;
    for frame in frames.outer() {
        let Some(more) = frame.add_due(due) else {
            return due;
        };
        due = more;
    }
    innermost.add_due(due).unwrap_or(due)
}

/// All open scopes: one that contains a single value, which is innermost if there is one, and the frames.
#[derive(Drop)]
pub struct Scopes<'input> {
    enclosing: Option<Enclosing<'input>>,
    frames: Stack<Frame<'input>>,
}

impl<'input> Model for Scopes<'input> {
    ghost use Rattle.per_codec_decoder.specs.Scopes.{Open, scopes_of, behind_of};

    ghost Value = { Open };

    ghost view = { λ s. record {
      scopes = scopes_of s.enclosing s.frames;
      behind = behind_of s.enclosing s.frames;
    } };
}

impl<'input> Scopes<'input> {
    /// No open scope.
    #[inline(always)]
    pub fn new(alloc: Global) -> Self
        ensures { result ≡ record { scopes = []; behind = [] } }
    {
        Scopes {
            enclosing: None,
            frames: Stack::new(alloc),
        }
    }

    /// Whether no scope is open and nothing was allocated for any, as usual at the end of a message.
    #[inline(always)]
    pub fn hold_no_memory(&self) -> bool {
        self.enclosing.is_none() && self.frames.holds_no_memory()
    }

    /// Closes all scopes.
    pub fn clear(&mut self)
        ensures { self.new.scopes ≡ [] }
    {
        self.enclosing = None;
        self.frames.clear();
    }

    /// The number of elements that are still to come in each SEQUENCE OF and SET OF that is open outside open types,
    /// saturating at 64 bits.
    #[cold]
    pub fn due(&self) -> usize
        ensures { result ≡ min (due self.now.scopes) (2 ^ 64 - 1) }
    {
        frames_due(&self.frames)
    }

    /// The allocator.
    pub fn allocator(&self) -> Global {
        self.frames.allocator()
    }

    /// Opens a scope inside all others.
    ///
    /// # Errors
    ///
    /// If memory runs out; the scopes must then not be used any more.
    #[inline(always)]
    pub fn open(&mut self, frame: Frame<'input>) -> Result<(), AllocError>
        ensures scopes { OnOk result (self.new.scopes ≡ scope_of frame.entry ∷ self.old.scopes) }
        ensures behind { OnOk result (self.new.behind ≡ behind_frame frame.entry self.old.behind) }
    {
        if self.enclosing.is_none() {
            return self.frames.open(frame);
        }
        settle(&mut self.enclosing, &mut self.frames)?;
        self.frames.open(frame)
    }

    /// Opens, inside all others, a scope that contains a single value.
    ///
    /// # Errors
    ///
    /// If memory runs out; the scopes must then not be used any more.
    #[inline(always)]
    pub fn enclose(&mut self, enclosing: Enclosing<'input>) -> Result<(), AllocError>
        ensures scopes { OnOk result (self.new.scopes ≡ scope_around enclosing.entry ∷ self.old.scopes) }
        ensures behind { OnOk result (self.new.behind ≡ behind_around enclosing.entry self.old.behind) }
    {
        if self.enclosing.is_none() {
            self.enclosing = Some(enclosing);
            return Ok(());
        }
        settle(&mut self.enclosing, &mut self.frames)?;
        self.enclosing = Some(enclosing);
        Ok(())
    }

    /// The next presence bit of the innermost SEQUENCE, SET or group, if one is due.
    #[inline(always)]
    pub fn next_presence_bit(&mut self) -> Option<bool>
        ensures some { IfSome result (λ present. (p : _)
            → NextPresenceBit present p self.old.scopes (p, self.new.scopes)) }
        ensures behind { self.new.behind ≡ self.old.behind }
        ensures none { IfNone result ((present : _) (p : _) (b : _) → NextPresenceBit present p self.old.scopes b → ⊥) }
    {
        if self.enclosing.is_some() {
            return None;
        }
        match &mut self.frames.innermost {
            Some(Frame::Components(presence, _)) => presence.next_bit(),
            _ => None,
        }
    }

    /// The extension bit of the innermost SEQUENCE or SET, if all its root components were read.
    #[inline(always)]
    pub fn extension_bit(&self) -> Option<bool>
        ensures some { IfSome result (λ bit. HasExtensionBit bit self.now.scopes) }
        ensures none { IfNone result (NoAdditions self.now.scopes) }
    {
        if self.enclosing.is_some() {
            return None;
        }
        match &self.frames.innermost {
            Some(Frame::Components(presence, bit)) if presence.is_empty() => *bit,
            _ => None,
        }
    }

    /// Replaces the innermost scope, that of a SEQUENCE or SET all of whose root components were read.
    #[inline(always)]
    pub fn replace(&mut self, frame: Frame<'input>)
        requires { (bit : _) × HasExtensionBit bit self.old.scopes }
        ensures scopes { (s : _) (k : _) → self.old.scopes ≡ s ∷ k → self.new.scopes ≡ scope_of frame.entry ∷ k }
        ensures behind { self.new.behind ≡ behind_frame frame.entry self.old.behind }
    {
        self.frames.innermost = Some(frame);
    }

    /// Whether the next addition of the innermost SEQUENCE or SET is present, if one is due. Additions after the end of
    /// the bitmap are absent.
    #[inline(always)]
    pub fn next_addition(&mut self) -> Option<bool>
        ensures some { IfSome result (λ is_there. NextBitmapBit is_there self.old.scopes self.new.scopes) }
        ensures behind { self.new.behind ≡ self.old.behind }
        ensures none { IfNone result (NoAdditionDue self.old.scopes) }
    {
        if self.enclosing.is_some() {
            return None;
        }
        match &mut self.frames.innermost {
            Some(Frame::Added(additions)) => additions.next(),
            _ => None,
        }
    }

    /// Closes the innermost scope and returns it.
    #[inline(always)]
    fn close(&mut self) -> Option<Frame<'input>>
        ensures some { IfSome result (λ frame. self.old.scopes ≡ scope_of frame ∷ self.new.scopes) }
        ensures behind { IfSome result (λ frame. self.old.behind ≡ behind_frame frame self.new.behind) }
        ensures none { IfNone result (self.old.scopes ≡ []) }
    {
        if let Some(enclosing) = self.enclosing.take() {
            return Some(enclosing.frame());
        }
        self.frames.close()
    }

    /// Whether the innermost scope is that of extension additions.
    #[inline(always)]
    fn is_in_additions(&self) -> bool
        ensures { MatchBool result (IsAdded self.now.scopes) (IsAdded self.now.scopes → ⊥) }
    {
        match &self.frames.innermost {
            Some(Frame::Added(_)) => self.enclosing.is_none(),
            _ => false,
        }
    }

    /// Removes the innermost scope and returns the position after it, if it is an open type.
    #[inline(always)]
    fn take_open_type(&mut self) -> Option<Stretch<'input>>
        ensures some { IfSome result (λ behind. self.old.scopes ≡ open_type behind.place ∷ self.new.scopes) }
        ensures behind { IfSome result (λ behind. self.old.behind ≡ behind.storage ∷ self.new.behind) }
        ensures none { IfNone result ((p : _) (k : _) → self.old.scopes ≡ open_type p ∷ k → ⊥) }
    {
        if let Some(enclosing) = self.enclosing.take() {
            return match enclosing {
                Enclosing::OpenType(place) => Some(place),
                Enclosing::Alternative => None,
            };
        }
        match self.close() {
            Some(Frame::OpenType(place)) => Some(place),
            _ => None,
        }
    }

    /// Closes the innermost scope and returns the position after its open type, if it is an addition. Otherwise the
    /// scopes must not be used any more.
    #[inline(always)]
    pub fn leave_addition(&mut self) -> Option<Stretch<'input>>
        ensures some { IfSome result (λ behind. LeavesAddition behind.place self.old.scopes self.new.scopes) }
        ensures behind { IfSome result (λ behind. self.old.behind ≡ behind.storage ∷ self.new.behind) }
        ensures none { IfNone result (NoAdditionEnd self.old.scopes) }
    {
        let place = self.take_open_type()?;
        if !self.is_in_additions() {
            return None;
        }
        Some(place)
    }

    /// Takes an element of the innermost list that is due before any other length determinant, if there is one.
    #[inline(always)]
    pub fn take_due_member(&mut self) -> bool
        ensures there { result ≡ true → (al : _) (free : _) (p : _) → NextMember al free true p self.old.scopes
            (p, self.new.scopes) }
        ensures behind { self.new.behind ≡ self.old.behind }
        ensures none { result ≡ false → self.new ≡ self.old }
    {
        if self.enclosing.is_some() {
            return false;
        }
        match &mut self.frames.innermost {
            Some(Frame::Members(members)) => members.take_due(),
            _ => false,
        }
    }

    /// Whether an element of the innermost list is still to come, after the next length determinant if none is due.
    ///
    /// # Errors
    ///
    /// Those of a length determinant, `SizeConstraintNotSatisfied` if the number of all elements is not allowed, and
    /// `NotValidCanonicalEncoding` if strict rules do not accept it here, or if the innermost scope is not a list.
    #[inline(always)]
    pub fn next_member(
        &mut self,
        cursor: &mut Cursor<'_>,
        rules: PackedRules,
    ) -> Result<bool, DecodeError>
        ensures ok { IfOk result (λ more. NextMember (is_aligned rules)
            (freedoms rules) more cursor.old self.old.scopes (cursor.new, self.new.scopes)) }
        ensures behind { OnOk result (self.new.behind ≡ self.old.behind) }
        ensures only { IfErr result (NoFurther (is_aligned rules) (freedoms rules) cursor.old self.old.scopes) }
        ensures fresh { IfErr result IsFresh }
    {
        if self.enclosing.is_some() {
            return Err(DecodeError::NotValidCanonicalEncoding);
        }
        match &mut self.frames.innermost {
            Some(Frame::Members(members)) => members.next(cursor, rules),
            _ => Err(DecodeError::NotValidCanonicalEncoding),
        }
    }

    /// Closes the innermost scope and returns what is left to skip at its end, if nothing else of it is still to come.
    /// Otherwise the scopes must not be used any more.
    #[inline(always)]
    pub fn leave(&mut self) -> Option<Ending<'input>>
        ensures some { IfSome result (λ ending. Leaves ending self.old.scopes self.new.scopes) }
        ensures behind { IfSome result (λ ending. LeavesBehind ending self.old.behind self.new.behind) }
        ensures none { IfNone result (NoEnd self.old.scopes) }
    {
        if let Some(enclosing) = self.enclosing.take() {
            return Some(enclosing.ending());
        }
        match self.close() {
            Some(Frame::Components(presence, None)) => {
                if !presence.is_empty() {
                    return None;
                }
                Some(Ending::Nothing)
            }
            Some(Frame::Added(additions)) => {
                if additions.left > 0 {
                    return None;
                }
                if additions.bitmap.is_empty() {
                    return Some(Ending::Nothing);
                }
                Some(Ending::Unknown(additions.bitmap))
            }
            Some(Frame::OpenType(place)) => Some(Ending::OpenType(place)),
            Some(Frame::Members(members)) => {
                if !members.is_last() {
                    return None;
                }
                Some(Ending::Nothing)
            }
            Some(Frame::Alternative) => Some(Ending::Nothing),
            _ => None,
        }
    }
}
