//! A range manager as C has it.
ghost use Rattle.std.specs.Prelude.{◌≡◌, Bool, true, false};
ghost use Rattle.std.specs.Global.{Global};
ghost use Rattle.mm_c.specs.RangeOwned.{handle_owns};
ghost use Rattle.mm_c.specs.States.{State};

use crate::parts::Parts;
use crate::ranges::Ranges;
use std::alloc::Global;
use std::marker::Model;

/// A pointer to a range manager, if it is live. The struct is C's, and what it points to is the library's.
#[repr(C)]
#[derive(Drop)]
pub struct RangeHandle {
    ptr: *mut u8,
    ghost heap: { Global },
    pub ghost live: { Bool },
    pub ghost value: { State },
}

impl Model for RangeHandle {
    ghost also_owns = { λ h. handle_owns h.live h.heap h.ptr h.value };
}

impl RangeHandle {
    /// Takes the manager out of the handle, which then has none.
    pub fn take(&mut self, alloc: Global) -> Parts<Ranges, Global>
        requires { self.old.live ≡ true }
        ensures value { result.value ≡ self.old.value }
        ensures closed { self.new.live ≡ false }
    {
        Parts {
            ptr: self.ptr as *mut Ranges,
            alloc,
        }
    }

    /// Puts a manager into the handle.
    pub fn put(&mut self, parts: Parts<Ranges, Global>)
        ensures value { self.new.value ≡ parts.value }
        ensures live { self.new.live ≡ true }
    {
        let Parts { ptr, alloc: _ } = parts;
        self.ptr = ptr as *mut u8;
    }
}
