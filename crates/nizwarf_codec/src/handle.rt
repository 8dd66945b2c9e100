//! The handle that C holds: one pointer, null or a box's. No other module has raw pointers.

ghost use Rattle.std.specs.Prelude.{◌≡◌};
ghost use Rattle.std.specs.declared.option.Option.{Option};
ghost use Rattle.std.specs.declared.option.Option.TheVariants.{None, Some};
ghost use Rattle.std.specs.Option.{MatchOption};
ghost use Rattle.nizwarf_codec.specs.declared.memory.Memory.{Memory};
ghost use Rattle.nizwarf_codec.specs.Handle.{owned, coded};

use crate::memory::Memory;
use raw_box::Slot;
use std::alloc::Global;
use std::marker::Model;
use std::mem;

/// A handle: a server, or none, where the pointer is null. C sees one pointer, and never looks into
/// it; contracts see the value after it.
#[repr(C)]
pub struct Handle {
    at: *mut u8,
    alloc: Global,
    pub ghost value: { Option Memory } by { coded },
}

impl Model for Handle {
    ghost also_owns = { λ h. owned h.alloc h.at h.value };
}

impl Handle {
    fn of_slot(slot: Slot<Memory>) -> Handle
        ensures { result.value ≡ slot.value }
    {
        let Slot { ptr, alloc } = slot;
        Handle {
            at: ptr.cast::<u8>(),
            alloc,
        }
    }

    fn into_slot(self) -> Slot<Memory>
        ensures { result.value ≡ self.value }
    {
        let Handle { at, alloc } = self;
        Slot {
            ptr: at.cast::<Memory>(),
            alloc,
        }
    }

    /// Takes out the box, if there is one, and leaves null.
    pub fn take(&mut self, alloc: Global) -> Option<Box<Memory>>
        ensures left { self.new.value ≡ None }
        ensures taken { MatchOption result (self.old.value ≡ None) (λ b.
            self.old.value ≡ Some b.value) }
    {
        mem::replace(self, Handle::of_slot(Slot::none(alloc)))
            .into_slot()
            .into_box()
    }

    /// Puts in a box, where there is none.
    pub fn put(&mut self, b: Box<Memory>)
        requires { self.old.value ≡ None }
        ensures { self.new.value ≡ Some b.value }
    {
        let old = mem::replace(self, Handle::of_slot(Slot::with(b)));
        match old.into_slot().into_box() {
            None => {}
            Some(_) => unreachable!(),
        }
    }
}

impl Drop for Handle {
    fn drop(self) {
        drop(self.into_slot().into_box());
    }
}
