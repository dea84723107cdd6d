//! Open scopes, and the number of elements of the innermost list that are still to come.
ghost use Rattle.std.specs.Prelude.{◌≡◌, ◌∷◌, ◌<◌, ◌-◌, ◌^◌, [], List, Some, min, OnOk, OnErr, IfErr, IfSome};
ghost use Rattle.std.specs.Prelude.{IfNone};
ghost use Rattle.oer_codec_laws.specs.Takes.{AdditionEnds, Ends, NextPresenceBit, NextMember, Scope};
ghost use Rattle.oer_codec_laws.specs.Takes.{components, members};
ghost use Rattle.oer_codec_longer_laws.specs.Few.{around, due};
ghost use Rattle.oer_codec_reading.specs.Fronts.{freedoms};
ghost use Rattle.oer_codec_decoder.specs.Refusals.{NoAdditionEnd, NoEnd};
ghost use Rattle.oer_codec_decoder.specs.Scopes.{NextPresent, frame_of, scope_of, with_due};

use crate::frames::{Enclosing, Frame, Nested};
use asn1_schema_errors::DecodeError;
use oer_codec_reading::{Cursor, EncodingRules};
use std::alloc::{AllocError, Global};
use std::marker::Model;

/// All open scopes. If a list is innermost, a separate number says how many of its elements are still to come, so that
/// the next element is found without a look at the frames. When something begins in an element, the number moves into
/// the frame of the list.
#[derive(Drop)]
pub(crate) struct Scopes<'input> {
    // Zero if no list is innermost, or if its frame has the number.
    due: usize,
    nested: Nested<'input>,
}

impl<'input> Model for Scopes<'input> {
    ghost use Rattle.std.specs.Prelude.{◌≡◌, ◌∷◌, ◌<◌, List};
    ghost use Rattle.oer_codec_laws.specs.Takes.{Scope, members};
    ghost use Rattle.oer_codec_decoder.specs.Scopes.{with_due};

    ghost Value = { List Scope };

    ghost view = { λ s. with_due s.due s.nested };

    ghost invariant = { λ s. 0 < s.due → (k : List Scope) × (s.nested ≡ members 0 ∷ k) };
}

/// Moves the number of due elements of the innermost list back into its frame.
#[inline(always)]
fn settle(due: &mut usize, nested: &mut Nested<'_>)
    requires { 0 < due.old → (k : List Scope) × (nested.old ≡ members 0 ∷ k) }
    ensures given { nested.new ≡ with_due due.old nested.old }
    ensures none { due.new ≡ 0 }
{
    if *due > 0 {
        nested.set_due(*due);
        *due = 0;
    }
}

impl<'input> Scopes<'input> {
    /// No open scope.
    pub(crate) fn new(alloc: Global) -> Self
        ensures { result ≡ [] }
    {
        Scopes {
            due: 0,
            nested: Nested::new(alloc),
        }
    }

    /// Closes all scopes.
    pub(crate) fn clear(&mut self)
        ensures { self.new ≡ [] }
    {
        self.due = 0;
        self.nested.clear();
    }

    /// The number of elements that are still to come in each SEQUENCE OF and SET OF that is open outside open types,
    /// saturating at 64 bits.
    #[inline(always)]
    pub(crate) fn due(&mut self) -> usize
        ensures { result ≡ min (due self.old) (2 ^ 64 - 1) }
    {
        settle(&mut self.due, &mut self.nested);
        self.nested.due()
    }

    /// Opens a scope inside all others.
    #[inline(always)]
    pub(crate) fn open(&mut self, frame: Frame<'input>) -> Result<(), AllocError>
        ensures { OnOk result (self.new ≡ scope_of frame.entry ∷ self.old) }
    {
        settle(&mut self.due, &mut self.nested);
        if let Frame::Members(due) = frame {
            self.nested.open(Frame::Members(0))?;
            self.due = due;
            return Ok(());
        }
        self.nested.open(frame)
    }

    /// Opens, inside all others, a scope that contains a single value.
    #[inline(always)]
    pub(crate) fn enclose(&mut self, enclosing: Enclosing<'input>) -> Result<(), AllocError>
        ensures { OnOk result (self.new ≡ scope_of (frame_of enclosing.entry) ∷ self.old) }
    {
        settle(&mut self.due, &mut self.nested);
        self.nested.enclose(enclosing)
    }

    /// Replaces the innermost scope, which is that of components.
    #[inline(always)]
    pub(crate) fn replace(&mut self, frame: Frame<'input>)
        ensures { (x : _) (ms : _) (k : _) → self.old ≡ components x ms ∷ k → self.new ≡ scope_of frame.entry ∷ k }
    {
        settle(&mut self.due, &mut self.nested);
        self.nested.replace(frame);
    }

    /// The extension bit of the innermost SEQUENCE, if all its presence bits were read.
    #[inline(always)]
    pub(crate) fn extension_bit(&mut self) -> Option<bool>
        ensures some { IfSome result (λ set. (k : _) × (self.old ≡ components (Some set) [] ∷ k)) }
        ensures none { IfNone result ((set : _) (k : _) → self.old ≡ components (Some set) [] ∷ k → ⊥) }
        ensures same { self.new ≡ self.old }
    {
        settle(&mut self.due, &mut self.nested);
        self.nested.extension_bit()
    }

    /// The next presence bit of the innermost SEQUENCE.
    #[inline(always)]
    pub(crate) fn next_presence_bit(&mut self) -> Option<bool>
        ensures some { IfSome result (λ present. (os : _) → NextPresenceBit present os self.old (os, self.new)) }
        ensures none { IfNone result ((present : _) (os : _) (b : _) → NextPresenceBit present os self.old b → ⊥) }
    {
        settle(&mut self.due, &mut self.nested);
        self.nested.next_presence_bit()
    }

    /// Whether the next addition of the innermost SEQUENCE is present.
    #[inline(always)]
    pub(crate) fn next_addition(&mut self) -> Option<bool>
        ensures some { IfSome result (λ present. NextPresent present self.old self.new) }
        ensures none { IfNone result ((present : _) (after : _) → NextPresent present self.old after → ⊥) }
    {
        settle(&mut self.due, &mut self.nested);
        self.nested.next_addition()
    }

    /// Whether an element of the innermost list is still to come.
    #[inline(always)]
    pub(crate) fn next_member(&mut self) -> Option<bool>
        ensures some { IfSome result (λ more. (os : _) → NextMember more os self.old (os, self.new)) }
        ensures none { IfNone result ((more : _) (os : _) (b : _) → NextMember more os self.old b → ⊥) }
    {
        if self.due > 0 {
            self.due -= 1;
            return Some(true);
        }
        settle(&mut self.due, &mut self.nested);
        self.nested.next_member()
    }

    /// Closes the innermost scope. Fails if something of it is still to come.
    #[inline(always)]
    pub(crate) fn close(
        &mut self,
        cursor: &mut Cursor<'input>,
        rules: EncodingRules,
    ) -> Result<(), DecodeError>
        ensures ok { OnOk result (Ends (freedoms rules) cursor.old self.old (cursor.new, self.new)) }
        ensures only { IfErr result (NoEnd (freedoms rules) cursor.old self.old) }
        ensures left { OnErr result (self.new ≡ around self.old) }
    {
        settle(&mut self.due, &mut self.nested);
        self.nested.close(cursor, rules)
    }

    /// Closes the innermost scope, if it is that of an addition (X.696 30).
    #[inline(always)]
    pub(crate) fn close_addition(
        &mut self,
        cursor: &mut Cursor<'input>,
        rules: EncodingRules,
    ) -> Result<(), DecodeError>
        ensures ok { OnOk result (AdditionEnds (freedoms rules) cursor.old self.old (cursor.new, self.new)) }
        ensures only { IfErr result (NoAdditionEnd (freedoms rules) cursor.old self.old) }
    {
        settle(&mut self.due, &mut self.nested);
        self.nested.close_addition(cursor, rules)
    }
}
