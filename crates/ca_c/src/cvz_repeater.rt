//! What C holds of a repeater.

ghost use Rattle.std.specs.Prelude.{◌≡◌, None, Option, Some, option_map};
ghost use Rattle.std.specs.Coded.{coded_option};
ghost use Rattle.ca_object.specs.Owning.{owns_object};
ghost use Rattle.ca_c.specs.declared.repeater_object.RepeaterObject.{RepeaterObject};
ghost use Rattle.ca_c.specs.contracts.repeater_object.RepeaterObject.{the_row as row};

use crate::repeater_object::RepeaterObject;
use ca_object::Object;
use std::alloc::Global;
use std::marker::{Model, Send};
use std::mem::replace;

/// A repeater, or none, as C holds it: a struct of one pointer, which is null at first.
#[repr(C)]
pub struct CvzRepeater {
    at: *mut u8,
    pub ghost value: { Option RepeaterObject } by { coded_option row.coded },
}

impl Model for CvzRepeater {
    ghost also_owns = { λ h. owns_object row h.at h.value };
}

// C may hand it to another thread, which then has it alone.
unsafe impl Send for CvzRepeater {}

impl CvzRepeater {
    pub(crate) fn of(object: Object<RepeaterObject>) -> CvzRepeater
        ensures { result.value ≡ object.value }
    {
        let Object { at } = object;
        CvzRepeater { at: at as *mut u8 }
    }

    pub(crate) fn into_object(self) -> Object<RepeaterObject>
        ensures { result.value ≡ self.value }
    {
        let CvzRepeater { at } = self;
        Object {
            at: at as *mut RepeaterObject,
        }
    }

    /// Takes the repeater out, if there is one. There is none then.
    pub(crate) fn take(&mut self, alloc: Global) -> Option<Box<RepeaterObject, Global>>
        ensures out { option_map (λ b. b.value) result ≡ self.old.value }
        ensures left { self.new.value ≡ None }
    {
        replace(self, CvzRepeater::of(Object::none()))
            .into_object()
            .into_box(alloc)
    }

    /// Puts a repeater in. One that was there is freed.
    pub(crate) fn put(&mut self, alloc: Global, repeater: Box<RepeaterObject, Global>)
        ensures { self.new.value ≡ Some repeater.value }
    {
        let _ = replace(self, CvzRepeater::of(Object::of(repeater)))
            .into_object()
            .into_box(alloc);
    }
}
