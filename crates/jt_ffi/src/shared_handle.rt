//! Defines handles of images and libraries.
ghost use Rattle.std.specs.Prelude.{◌≡◌, ◌≢◌, None, Some, Option, is_some, option_map};
ghost use Rattle.jt_ffi.specs.Owning.{held_coded};
ghost use Rattle.jt_ffi.specs.declared.shared.Shared.{Shared};
ghost use Rattle.jt_ffi.specs.contracts.shared.Shared.{the_row as held_row};

use crate::parts::Parts;
use crate::shared::Shared;
use std::alloc::Global;
use std::marker::Model;

/// A handle of an image or a library, or of nothing. The caller provides its memory, which is zero
/// at first, and changes neither field.
#[repr(C)]
pub struct SharedHandle {
    at: *mut u8,
    full: bool,
    pub ghost held: { Option Shared } by { held_coded held_row },
}

impl Model for SharedHandle {
    ghost use Rattle.jt_ffi.specs.Owning.{handle_owns};
    ghost use Rattle.jt_ffi.specs.contracts.shared.Shared.{the_row as held_row};

    ghost also_owns = { λ h. handle_owns held_row h.full h.at h.held };
}

impl SharedHandle {
    /// Removes and returns the held value. The handle then holds nothing.
    pub(crate) fn take(&mut self, alloc: Global) -> Option<Box<Shared>>
        ensures held { self.old.held ≡ option_map (λ b. b.value) result }
        ensures empty { self.new.held ≡ None }
    {
        if self.is_full() {
            Some(self.empty(alloc).into_box())
        } else {
            None
        }
    }

    /// Puts the value of the box into the handle.
    pub(crate) fn put(&mut self, held: Box<Shared>)
        requires { self.old.held ≡ None }
        ensures { self.new.held ≡ Some held.value }
    {
        self.fill(Parts::of(held));
    }

    /// Puts back the result of `take`.
    pub(crate) fn put_back(&mut self, held: Option<Box<Shared>>)
        requires { self.old.held ≡ None }
        ensures { self.new.held ≡ option_map (λ b. b.value) held }
    {
        if let Some(held) = held {
            self.put(held);
        }
    }

    /// Returns whether the handle holds a value.
    fn is_full(&mut self) -> bool
        ensures { (result ≡ is_some self.old.held) × (self.new ≡ self.old) }
    {
        self.full
    }

    /// Puts the value of the parts into the handle.
    fn fill(&mut self, parts: Parts<Shared, Global>)
        requires { self.old.held ≡ None }
        ensures { self.new.held ≡ Some parts.value }
    {
        let Parts { ptr, alloc: _ } = parts;
        self.at = ptr as *mut u8;
        self.full = true;
    }

    /// Removes the held value and returns the parts of its box.
    fn empty(&mut self, alloc: Global) -> Parts<Shared, Global>
        requires { self.old.held ≢ None }
        ensures { (self.old.held ≡ Some result.value) × (self.new.held ≡ None) }
    {
        self.full = false;
        let ptr = self.at as *mut Shared;
        Parts { ptr, alloc }
    }
}

// Each value that a handle holds may go to another thread.
unsafe impl Send for SharedHandle {}
