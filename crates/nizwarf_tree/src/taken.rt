//! The handle of taken memory that C holds: one pointer, as that of a server.

ghost use Rattle.std.specs.Prelude.{◌≡◌};
ghost use Rattle.std.specs.declared.option.Option.{Option};
ghost use Rattle.std.specs.declared.option.Option.TheVariants.{None, Some};
ghost use Rattle.std.specs.Option.{IfSome, MatchOption};
ghost use Rattle.nizwarf_tree.specs.declared.memory.Memory.{Memory};
ghost use Rattle.nizwarf_tree.specs.Taken.{owned, coded};

use crate::memory::Memory;
use raw_box::Slot;
use std::alloc::Global;
use std::marker::Model;
use std::mem;

/// A handle: the memory of a reply, or none, where the pointer is null. C sees one pointer, and never looks into
/// it; contracts see the value after it.
#[repr(C)]
pub struct Taken {
    at: *mut u8,
    alloc: Global,
    pub ghost value: { Option Memory } by { coded },
}

impl Model for Taken {
    ghost also_owns = { λ h. owned h.alloc h.at h.value };
}

impl Taken {
    fn of_slot(slot: Slot<Memory>) -> Taken
        ensures { result.value ≡ slot.value }
    {
        let Slot { ptr, alloc } = slot;
        Taken {
            at: ptr.cast::<u8>(),
            alloc,
        }
    }

    fn into_slot(self) -> Slot<Memory>
        ensures { result.value ≡ self.value }
    {
        let Taken { at, alloc } = self;
        Slot {
            ptr: at.cast::<Memory>(),
            alloc,
        }
    }

    /// Takes out the box, if there is one, and leaves null.
    pub fn take(&mut self, alloc: Global) -> Option<Box<Memory>>
        ensures left { self.new.value ≡ None }
        ensures taken { MatchOption result (self.old.value ≡ None) (λ b.
            self.old.value ≡ Some b.value) }
    {
        mem::replace(self, Taken::of_slot(Slot::none(alloc)))
            .into_slot()
            .into_box()
    }

    /// Takes out the box, or makes one of no bytes where there is none. `None` where there is no memory for
    /// that.
    pub fn take_or_new(&mut self, alloc: Global) -> Option<Box<Memory>>
        ensures left { self.new.value ≡ None }
        ensures taken { IfSome self.old.value (λ m. MatchOption result ⊥ (λ b. b.value ≡ m)) }
    {
        match self.take(alloc) {
            Some(memory) => Some(memory),
            None => {
                let memory = Memory {
                    room: Vec::new(alloc),
                };
                Box::new(alloc, memory).ok()
            }
        }
    }

    /// Puts in a box. One that is there is dropped.
    pub fn put(&mut self, b: Box<Memory>)
        ensures { self.new.value ≡ Some b.value }
    {
        let old = mem::replace(self, Taken::of_slot(Slot::with(b)));
        drop(old);
    }
}

// Memory is plain data, and any thread may give it back.
unsafe impl Send for Taken {}

impl Drop for Taken {
    fn drop(self) {
        drop(self.into_slot().into_box());
    }
}
