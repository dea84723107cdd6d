//! A stack of open scopes.
ghost use Rattle.std.specs.Prelude.{◌≡◌, ◌∷◌, [], List, MatchOption, OnErr, OnOk, drop, reverse, true};

use std::alloc::{AllocError, Global};
use std::marker::Model;
use std::mem;

/// The open scopes, the innermost first. The innermost one is stored in place: nothing is allocated before a scope
/// opens in another.
#[derive(Drop)]
pub struct Stack<F> {
    /// The innermost scope, if one is open. It may be changed in place.
    pub innermost: Option<F>,
    // In the order in which they began.
    outer: Vec<F>,
}

impl<F> Model for Stack<F> {
    ghost use Rattle.std.specs.Prelude.{◌≡◌, List, [], None};
    ghost use Rattle.asn1_schema_scopes.specs.Stacks.{stacked};

    ghost Value = { List F };

    ghost view = { λ s. stacked s.innermost s.outer.items };

    ghost invariant = { λ s. s.innermost ≡ None → s.outer.items ≡ [] };
}

impl<F: Drop> Stack<F> {
    /// No open scope. It does not allocate.
    #[inline(always)]
    pub fn new(alloc: Global) -> Self
        ensures { result ≡ [] }
    {
        Stack {
            innermost: None,
            outer: Vec::new(alloc),
        }
    }

    /// Opens a scope inside all others.
    ///
    /// # Errors
    ///
    /// If memory runs out; the others are then unchanged.
    #[inline(always)]
    pub fn open(&mut self, scope: F) -> Result<(), AllocError>
        ensures ok { OnOk result (self.new ≡ scope ∷ self.old) }
        ensures kept { OnErr result (self.new ≡ self.old) }
    {
        if self.innermost.is_none() {
            // There is no previous scope to drop.
            mem::forget(mem::replace(&mut self.innermost, Some(scope)));
            return Ok(());
        }
        self.outer.reserve(1)?;
        if let Some(around) = mem::replace(&mut self.innermost, Some(scope)) {
            self.outer.push_reserved(around);
        }
        Ok(())
    }

    /// Closes the innermost scope and returns it, if one is open.
    #[inline(always)]
    pub fn close(&mut self) -> Option<F>
        ensures value { MatchOption result (self.old ≡ []) (λ scope. self.old ≡ scope ∷ self.new) }
        ensures rest { self.new ≡ drop 1 self.old }
    {
        if self.outer.is_empty() {
            return self.innermost.take();
        }
        mem::replace(&mut self.innermost, self.outer.pop())
    }

    /// Closes all scopes.
    #[inline(always)]
    pub fn clear(&mut self)
        ensures { self.new ≡ [] }
    {
        if self.innermost.is_some() {
            self.innermost = None;
        }
        if !self.outer.is_empty() {
            self.outer.clear();
        }
    }

    /// The scopes around the innermost one, in the order in which they began.
    #[inline(always)]
    pub fn outer(&self) -> &[F]
        ensures { reverse result.now ≡ drop 1 self.now }
    {
        self.outer.as_slice()
    }

    /// The allocator.
    #[inline(always)]
    pub fn allocator(&self) -> Global {
        *self.outer.allocator()
    }

    /// Whether no scope is open and nothing was allocated for any, as usual at the end of a message.
    #[inline(always)]
    pub fn holds_no_memory(&self) -> bool
        ensures { result ≡ true → self.now ≡ [] }
    {
        self.innermost.is_none() && self.outer.capacity() == 0
    }

    /// Drops the scopes. At the end of a message none are open, and usually nothing was allocated; then no destructor
    /// is called.
    #[inline(always)]
    pub fn let_go(self) {
        let Stack { innermost, outer } = self;
        if innermost.is_none() {
            mem::forget(innermost);
        } else {
            drop(innermost);
        }
        if outer.capacity() == 0 {
            mem::forget(outer);
        } else {
            drop(outer);
        }
    }
}
