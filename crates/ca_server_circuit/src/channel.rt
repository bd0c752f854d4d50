//! An open channel as a circuit keeps it.
ghost use Rattle.std.specs.Prelude.{◌≡◌, IfOk, IfSome, false, true};

use crate::name::KeptName;
use ca_wire::Cid;
use std::alloc::{AllocError, Global};
use std::marker::Model;

/// An open channel of a circuit. It takes 16 bytes in its table: most circuits have few channels,
/// and a table takes memory for 64.
#[derive(Debug, Drop)]
pub(crate) struct ServedChannel {
    kept: Box<KeptChannel>,
}

/// What is kept of a channel.
#[derive(Debug, Drop)]
pub(crate) struct KeptChannel {
    cid: Cid,
    // Its record was removed.
    retired: bool,
    // The name of its record.
    name: KeptName,
    // The place of its record when the channel was created. The record is mostly still
    // there; its name decides.
    place: usize,
}

impl Model for KeptChannel {
    ghost use Rattle.ca_model.specs.Server.{OpenChannel};

    ghost Value = { OpenChannel };

    ghost view = { λ c. record { cid = c.cid; name = c.name; retired = c.retired } };
}

impl Model for ServedChannel {
    ghost use Rattle.ca_model.specs.Server.{OpenChannel};

    ghost Value = { OpenChannel };

    ghost view = { λ c. c.kept.value };
}

impl KeptChannel {
    // Its id at the client.
    pub(crate) fn cid(&self) -> Cid
        ensures { result ≡ self.now.cid }
    {
        self.cid
    }

    // The name of its record.
    pub(crate) fn name(&self) -> &[u8]
        ensures { result.now ≡ self.now.name }
    {
        self.name.as_slice()
    }

    // Where its record was. It promises nothing.
    pub(crate) fn place(&self) -> usize {
        self.place
    }

    // Whether its record was removed.
    pub(crate) fn is_retired(&self) -> bool
        ensures { result ≡ self.now.retired }
    {
        self.retired
    }

    // A copy of it, if its name has no memory of its own.
    fn copy(&self) -> Option<KeptChannel>
        ensures { IfSome result (λ c. c ≡ self.now) }
    {
        match self.name.copy() {
            Some(name) => Some(KeptChannel {
                cid: self.cid,
                retired: self.retired,
                name,
                place: self.place,
            }),
            None => None,
        }
    }

    fn retire(&mut self)
        ensures { self.new ≡ record self.old { retired = true } }
    {
        self.retired = true;
    }
}

impl ServedChannel {
    // A channel to the record of this name, which is at this place.
    pub(crate) fn new(
        alloc: Global,
        cid: Cid,
        name: Vec<u8>,
        place: usize,
    ) -> Result<ServedChannel, AllocError>
        ensures { IfOk result (λ c.
            c ≡ record { cid = cid; name = name.items; retired = false }) }
    {
        let kept = KeptChannel {
            cid,
            retired: false,
            name: KeptName::of(name),
            place,
        };
        match Box::new(alloc, kept) {
            Ok(kept) => Ok(ServedChannel { kept }),
            Err(_) => Err(AllocError),
        }
    }

    // What is kept of it.
    pub(crate) fn kept(&self) -> &KeptChannel
        ensures { result.now ≡ self.now }
    {
        self.kept.as_ref()
    }

    // A copy of what is kept of it, if its name has no memory of its own.
    pub(crate) fn copy(&self) -> Option<KeptChannel>
        ensures { IfSome result (λ c. c ≡ self.now) }
    {
        self.kept().copy()
    }

    // Its id at the client.
    pub(crate) fn cid(&self) -> Cid
        ensures { result ≡ self.now.cid }
    {
        self.kept().cid()
    }

    // The name of its record.
    pub(crate) fn name(&self) -> &[u8]
        ensures { result.now ≡ self.now.name }
    {
        self.kept().name()
    }

    // Where its record was. It promises nothing.
    pub(crate) fn place(&self) -> usize {
        self.kept().place()
    }

    // Whether its record was removed.
    pub(crate) fn is_retired(&self) -> bool
        ensures { result ≡ self.now.retired }
    {
        self.kept().is_retired()
    }

    // Its record was removed.
    pub(crate) fn retire(&mut self)
        ensures { self.new ≡ record self.old { retired = true } }
    {
        self.kept.as_mut().retire();
    }
}
