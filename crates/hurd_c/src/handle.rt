//! A world that C keeps.
ghost use Rattle.std.specs.Prelude.{◌≡◌, Option, None, Some};
ghost use Rattle.std.specs.Option.{MatchOption};
ghost use Rattle.hurd_sitting.specs.declared.sitting.Sitting.{Sitting};
ghost use Rattle.hurd_c.specs.Held.{world_coded, world_held};

use crate::parts::Parts;
use hurd_sitting::Sitting;
use std::alloc::Global;
use std::marker::Model;
use std::ptr::null_mut;

/// What C keeps: where a world is with what its last text told, or null where there is none. To C it is a struct of one pointer.
#[repr(C)]
pub struct Handle {
    at: *mut u8,
    alloc: Global,
    pub ghost value: { Option Sitting } by { world_coded },
}

impl Model for Handle {
    ghost also_owns = { λ h. world_held h.alloc h.at h.value };
}

impl Handle {
    /// No world.
    pub fn none(alloc: Global) -> Handle
        ensures { result.value ≡ None }
    {
        Handle {
            at: null_mut(),
            alloc,
        }
    }

    /// The world of a box that was taken apart.
    fn of_parts(parts: Parts<Sitting, Global>) -> Handle
        ensures { result.value ≡ Some parts.value }
    {
        let Parts { ptr, alloc } = parts;
        Handle {
            at: ptr as *mut u8,
            alloc,
        }
    }

    /// The world as parts of a box, if there is one.
    fn into_parts(self) -> Option<Parts<Sitting, Global>>
        ensures { MatchOption result (self.value ≡ None) (λ parts. self.value ≡ Some parts.value) }
    {
        let Handle { at, alloc } = self;
        if at.is_null() {
            None
        } else {
            Some(Parts {
                ptr: at as *mut Sitting,
                alloc,
            })
        }
    }

    /// This world.
    pub fn of(world: Box<Sitting>) -> Handle
        ensures { result.value ≡ Some world.value }
    {
        Handle::of_parts(Parts::of(world))
    }

    /// The world, if there is one.
    pub fn taken(self) -> Option<Box<Sitting>>
        ensures { MatchOption result (self.value ≡ None) (λ world. self.value ≡ Some world.value) }
    {
        match self.into_parts() {
            Some(parts) => Some(parts.into_box()),
            None => None,
        }
    }
}

impl Drop for Handle {
    fn drop(self) {
        drop(self.taken());
    }
}
