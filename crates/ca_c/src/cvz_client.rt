//! What C holds of a client.

ghost use Rattle.std.specs.Prelude.{◌≡◌, None, Option, Some, option_map};
ghost use Rattle.std.specs.Coded.{coded_option};
ghost use Rattle.ca_object.specs.Owning.{owns_object};
ghost use Rattle.ca_c.specs.declared.client_object.ClientObject.{ClientObject};
ghost use Rattle.ca_c.specs.contracts.client_object.ClientObject.{the_row as row};

use crate::client_object::ClientObject;
use ca_object::Object;
use std::alloc::Global;
use std::marker::{Model, Send};
use std::mem::replace;

/// A client, or none, as C holds it: a struct of one pointer, which is null at first.
#[repr(C)]
pub struct CvzClient {
    at: *mut u8,
    pub ghost value: { Option ClientObject } by { coded_option row.coded },
}

impl Model for CvzClient {
    ghost also_owns = { λ h. owns_object row h.at h.value };
}

// C may hand it to another thread, which then has it alone.
unsafe impl Send for CvzClient {}

impl CvzClient {
    pub(crate) fn of(object: Object<ClientObject>) -> CvzClient
        ensures { result.value ≡ object.value }
    {
        let Object { at } = object;
        CvzClient { at: at as *mut u8 }
    }

    pub(crate) fn into_object(self) -> Object<ClientObject>
        ensures { result.value ≡ self.value }
    {
        let CvzClient { at } = self;
        Object {
            at: at as *mut ClientObject,
        }
    }

    /// Takes the client out, if there is one. There is none then.
    pub(crate) fn take(&mut self, alloc: Global) -> Option<Box<ClientObject, Global>>
        ensures out { option_map (λ b. b.value) result ≡ self.old.value }
        ensures left { self.new.value ≡ None }
    {
        replace(self, CvzClient::of(Object::none()))
            .into_object()
            .into_box(alloc)
    }

    /// Puts a client in. One that was there is freed.
    pub(crate) fn put(&mut self, alloc: Global, client: Box<ClientObject, Global>)
        ensures { self.new.value ≡ Some client.value }
    {
        let _ = replace(self, CvzClient::of(Object::of(client)))
            .into_object()
            .into_box(alloc);
    }
}
