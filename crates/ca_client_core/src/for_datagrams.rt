//! What a datagram makes a client send, for a recorder of histories. No client needs these calls.
ghost use Rattle.std.specs.Prelude.{◌≡◌, ◌+◌, ◌≤◌, ◌++◌, length, map, vec_capacity, vec_len};
ghost use Rattle.ca_client_tables.specs.Noting.{as_sent};
ghost use Rattle.ca_client_core.specs.ForDatagrams.{NotesDatagram};
ghost use Rattle.ca_client_core.specs.ForHistories.{sending_of};

use crate::client::ClientCore;
use crate::for_histories::{Aim, Sending};
use ca_client_tables::{Address, Creation};
use std::alloc::AllocError;

/// Takes a datagram that came from this address, as `datagram` does: what it made the client send,
/// in order, and no more than one message for each 16 of its bytes. Only a message in it takes
/// memory. Without memory nothing changes.
pub fn take_datagram(
    core: &mut ClientCore,
    now: u64,
    from: Address,
    bytes: &[u8],
) -> Result<Vec<Sending>, AllocError>
    ensures { NotesDatagram
        core.old
        (record { now = now; from = from; bytes = bytes.now })
        result
        core.new }
{
    core.receive(now, from, bytes)
}

// Puts these CREATE_CHANs after what is sent. There is room for them.
pub(crate) fn push_creations(sent: &mut Vec<Sending>, creations: Vec<Creation>)
    requires { vec_len sent.old + length creations.items ≤ vec_capacity sent.old }
    ensures { map sending_of sent.new.items
        ≡ map sending_of sent.old.items ++ map as_sent creations.items }
{
    for creation in creations {
        sent.push_reserved(of_creation(creation));
    }
}

// A CREATE_CHAN as it is sent.
pub(crate) fn of_creation(creation: Creation) -> Sending
    ensures { sending_of result ≡ as_sent creation }
{
    let Creation {
        circuit,
        channel,
        message,
    } = creation;
    Sending {
        circuit,
        message,
        aim: Aim::Create(channel),
    }
}
