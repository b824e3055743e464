//! Defines handles of contexts, outcomes and runs in slices.
ghost use Rattle.std.specs.Prelude.{◌≡◌, ◌≢◌, None, Some, Option, is_some, option_map};
ghost use Rattle.jt_ffi.specs.Owning.{held_coded};
ghost use Rattle.jt_ffi.specs.declared.local.Local.{Local};
ghost use Rattle.jt_ffi.specs.contracts.local.Local.{the_row as held_row};

use crate::local::Local;
use crate::parts::Parts;
use std::alloc::Global;
use std::marker::Model;

/// A handle of a context, an outcome or a run in slices, or of nothing. The caller provides its
/// memory, which is zero at first, and changes neither field.
#[repr(C)]
pub struct LocalHandle {
    at: *mut u8,
    full: bool,
    pub ghost held: { Option Local } by { held_coded held_row },
}

impl Model for LocalHandle {
    ghost use Rattle.jt_ffi.specs.Owning.{handle_owns};
    ghost use Rattle.jt_ffi.specs.contracts.local.Local.{the_row as held_row};

    ghost also_owns = { λ h. handle_owns held_row h.full h.at h.held };
}

impl LocalHandle {
    /// Removes and returns the held value. The handle then holds nothing.
    pub(crate) fn take(&mut self, alloc: Global) -> Option<Box<Local>>
        ensures held { self.old.held ≡ option_map (λ b. b.value) result }
        ensures empty { self.new.held ≡ None }
    {
        if self.is_full() {
            Some(self.empty(alloc).into_box())
        } else {
            None
        }
    }

    /// Puts the value of the box into the handle.
    pub(crate) fn put(&mut self, held: Box<Local>)
        requires { self.old.held ≡ None }
        ensures { self.new.held ≡ Some held.value }
    {
        self.fill(Parts::of(held));
    }

    /// Puts back the result of `take`.
    pub(crate) fn put_back(&mut self, held: Option<Box<Local>>)
        requires { self.old.held ≡ None }
        ensures { self.new.held ≡ option_map (λ b. b.value) held }
    {
        if let Some(held) = held {
            self.put(held);
        }
    }

    /// Returns whether the handle holds a value.
    fn is_full(&mut self) -> bool
        ensures { (result ≡ is_some self.old.held) × (self.new ≡ self.old) }
    {
        self.full
    }

    /// Puts the value of the parts into the handle.
    fn fill(&mut self, parts: Parts<Local, Global>)
        requires { self.old.held ≡ None }
        ensures { self.new.held ≡ Some parts.value }
    {
        let Parts { ptr, alloc: _ } = parts;
        self.at = ptr as *mut u8;
        self.full = true;
    }

    /// Removes the held value and returns the parts of its box.
    fn empty(&mut self, alloc: Global) -> Parts<Local, Global>
        requires { self.old.held ≢ None }
        ensures { (self.old.held ≡ Some result.value) × (self.new.held ≡ None) }
    {
        self.full = false;
        let ptr = self.at as *mut Local;
        Parts { ptr, alloc }
    }
}
