//! A box as its pointer, or nothing.
ghost use Rattle.std.specs.Prelude.{◌≡◌, true, false, Some, None, Option};
ghost use Rattle.lus_foreign.specs.Holds.{kept_owns, kept_coded, has_content};
ghost use Rattle.lus_foreign.specs.declared.content.Content.{Content as ContentType};

use super::parts::Parts;
use crate::content::Content;
use std::alloc::Global;
use std::marker::Model;
use std::ptr;

#[repr(C)]
pub struct Kept {
    at: *mut u8,
    alloc: Global,
    pub ghost held: { Option ContentType } by { kept_coded },
}

impl Model for Kept {
    ghost also_owns = { λ k. kept_owns k.alloc k.at k.held };
}

impl Kept {
    pub(super) fn empty(alloc: Global) -> Kept
        ensures { result.held ≡ None }
    {
        Kept {
            at: ptr::null_mut(),
            alloc,
        }
    }

    pub(super) fn let_go(self)
        requires { has_content self.held ≡ false }
    {
        let Kept { at: _, alloc: _ } = self;
    }

    pub(super) fn of_parts(parts: Parts<Content, Global>) -> Kept
        ensures { result.held ≡ Some parts.value }
    {
        let Parts { ptr, alloc } = parts;
        Kept {
            at: ptr as *mut u8,
            alloc,
        }
    }

    pub(super) fn into_parts(self) -> Parts<Content, Global>
        requires { has_content self.held ≡ true }
        ensures { self.held ≡ Some result.value }
    {
        let Kept { at, alloc } = self;
        Parts {
            ptr: at as *mut Content,
            alloc,
        }
    }
}
