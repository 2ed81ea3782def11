//! A box that C keeps.
ghost use Rattle.std.specs.Prelude.{◌≡◌, false, Some, None, MatchOption, IsTrue};
ghost use Rattle.std.specs.Borrow.{Bor, MutBor};
ghost use mathlib.Core.Logic.{◌↔◌};
ghost use Rattle.lus_foreign.specs.Holds.{is_live, has_content, IsHandle};
ghost use Rattle.lus_foreign.specs.declared.content.Content.{Content as ContentType};

mod kept;
mod parts;

use crate::content::Content;
pub use kept::Kept;
use parts::Parts;
use std::alloc::Global;
use std::mem;

/// Nothing was done: a handle is empty or of another kind, or one that is to be filled isn't empty.
pub const HANDLE: u32 = 8;

/// What C keeps: `live` is 0 where it holds nothing.
#[repr(C)]
pub struct Handle {
    live: u64,
    kept: Kept,
    ghost agree: { is_live live ≡ has_content kept.held },
}

impl Handle {
    /// Whether it holds nothing.
    pub fn is_free(&self) -> bool
        ensures { IsTrue result ↔ (has_content self.now.kept.held ≡ false) }
    {
        self.live == 0
    }

    /// What it holds, and then it holds nothing.
    pub fn take(&mut self, alloc: Global) -> Option<Box<Content>>
        ensures { MatchOption result ((self.old.kept.held ≡ None) × (self.new ≡ self.old)) (λ b. (self.old.kept.held ≡ Some b.value) × (self.new.kept.held ≡ None)) }
    {
        if self.live == 0 {
            return None;
        }
        let none = Handle {
            live: 0,
            kept: Kept::empty(alloc),
        };
        let old = mem::replace(self, none);
        let Handle { live: _, kept } = old;
        Some(kept.into_parts().into_box())
    }

    /// Holds this, where it holds nothing.
    pub fn put(&mut self, content: Box<Content>)
        requires { has_content self.old.kept.held ≡ false }
        ensures { self.new.kept.held ≡ Some content.value }
    {
        let some = Handle {
            live: 1,
            kept: Kept::of_parts(Parts::of(content)),
        };
        let old = mem::replace(self, some);
        let Handle { live: _, kept } = old;
        kept.let_go();
    }

    /// What is answered of what this holds; `HANDLE`, where that is nothing.
    pub fn with<F: FnMut(&Content) -> u32>(&mut self, alloc: Global, ask: &mut F) -> u32
        requires { F.IsAlwaysCallable ask.old }
        ensures asked { MatchOption self.old.kept.held (IsHandle result × (ask.new ≡ ask.old))
            (λ c. (p : Bor ContentType) × (p.now ≡ c) × F.step ask.old p result ask.new) }
        ensures same { self.new.kept.held ≡ self.old.kept.held }
    {
        let Some(content) = self.take(alloc) else {
            return HANDLE;
        };
        let status = ask(&content);
        self.put(content);
        status
    }

    /// What is answered of what this holds, and it holds what is left of that.
    pub fn with_mut<F: FnMut(&mut Content) -> u32>(&mut self, alloc: Global, ask: &mut F) -> u32
        requires { F.IsAlwaysCallable ask.old }
        ensures { MatchOption self.old.kept.held (IsHandle result × (ask.new ≡ ask.old) × (self.new.kept.held ≡ self.old.kept.held))
            (λ c. (p : MutBor ContentType) × (q : MutBor ContentType) × (p.now ≡ c) × F.step ask.old p result q ask.new × (self.new.kept.held ≡ Some q.now)) }
    {
        let Some(mut content) = self.take(alloc) else {
            return HANDLE;
        };
        let status = ask(&mut content);
        self.put(content);
        status
    }

    /// What is answered of what this holds, and it holds what is given back.
    pub fn replace<F: FnMut(Content) -> (Content, u32)>(
        &mut self,
        alloc: Global,
        ask: &mut F,
    ) -> u32
        requires { F.IsAlwaysCallable ask.old }
        ensures { MatchOption self.old.kept.held (IsHandle result × (ask.new ≡ ask.old) × (self.new.kept.held ≡ self.old.kept.held))
            (λ c. (d : ContentType) × F.step ask.old c (d, result) ask.new × (self.new.kept.held ≡ Some d)) }
    {
        let Some(mut content) = self.take(alloc) else {
            return HANDLE;
        };
        let held = mem::replace(&mut *content, Content::none(alloc));
        let (held, status) = ask(held);
        *content = held;
        self.put(content);
        status
    }
}
