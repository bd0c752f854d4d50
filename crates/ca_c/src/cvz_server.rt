//! What C holds of a server.

ghost use Rattle.std.specs.Prelude.{◌≡◌, None, Option, Some, option_map};
ghost use Rattle.std.specs.Coded.{coded_option};
ghost use Rattle.ca_object.specs.Owning.{owns_object};
ghost use Rattle.ca_c.specs.declared.server_object.ServerObject.{ServerObject};
ghost use Rattle.ca_c.specs.contracts.server_object.ServerObject.{the_row as row};

use crate::server_object::ServerObject;
use ca_object::Object;
use std::alloc::Global;
use std::marker::{Model, Send};
use std::mem::replace;

/// A server, or none, as C holds it: a struct of one pointer, which is null at first.
#[repr(C)]
pub struct CvzServer {
    at: *mut u8,
    pub ghost value: { Option ServerObject } by { coded_option row.coded },
}

impl Model for CvzServer {
    ghost also_owns = { λ h. owns_object row h.at h.value };
}

// C may hand it to another thread, which then has it alone.
unsafe impl Send for CvzServer {}

impl CvzServer {
    pub(crate) fn of(object: Object<ServerObject>) -> CvzServer
        ensures { result.value ≡ object.value }
    {
        let Object { at } = object;
        CvzServer { at: at as *mut u8 }
    }

    pub(crate) fn into_object(self) -> Object<ServerObject>
        ensures { result.value ≡ self.value }
    {
        let CvzServer { at } = self;
        Object {
            at: at as *mut ServerObject,
        }
    }

    /// Takes the server out, if there is one. There is none then.
    pub(crate) fn take(&mut self, alloc: Global) -> Option<Box<ServerObject, Global>>
        ensures out { option_map (λ b. b.value) result ≡ self.old.value }
        ensures left { self.new.value ≡ None }
    {
        replace(self, CvzServer::of(Object::none()))
            .into_object()
            .into_box(alloc)
    }

    /// Puts a server in. One that was there is freed.
    pub(crate) fn put(&mut self, alloc: Global, server: Box<ServerObject, Global>)
        ensures { self.new.value ≡ Some server.value }
    {
        let _ = replace(self, CvzServer::of(Object::of(server)))
            .into_object()
            .into_box(alloc);
    }
}
