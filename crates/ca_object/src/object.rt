//! A heap object as C code holds it, as a pointer that may be null, with its conversions from and
//! to a box.
ghost use Rattle.std.specs.Prelude.{◌≡◌, None, Option, Some, option_map};
ghost use Rattle.ca_object.specs.Owning.{owns_object};

use std::alloc::Global;
use std::marker::Model;
use std::ptr::null_mut;

/// An object on the heap, or none, as its pointer. Whoever has it owns the object.
pub struct Object<T> {
    pub at: *mut T,
    pub ghost value: { Option T },
}

impl<T> Model for Object<T> {
    ghost also_owns = { λ o. owns_object T.row o.at o.value };
}

impl<T: Drop> Object<T> {
    /// No object.
    pub fn none() -> Object<T>
        ensures { result.value ≡ None }
    {
        Object { at: null_mut() }
    }

    /// The object of a box.
    pub fn of(object: Box<T, Global>) -> Object<T>
        ensures { result.value ≡ Some object.value }
    {
        let at = Box::into_raw(object);
        Object { at }
    }

    /// The object as a box again, if there is one.
    pub fn into_box(self, alloc: Global) -> Option<Box<T, Global>>
        ensures { option_map (λ b. b.value) result ≡ self.value }
    {
        let Object { at } = self;
        if at.is_null() {
            return None;
        }
        Some(unsafe { Box::from_raw(alloc, at) })
    }
}
