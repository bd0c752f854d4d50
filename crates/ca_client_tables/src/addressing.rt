//! Datagrams to the servers of a client.
ghost use Rattle.std.specs.Prelude.{◌≡◌, ◌≢◌, ◌++◌, [], IfOk, OnErr, OnOk, flat_map, map};
ghost use Rattle.ca_model.specs.ClientEnds.{to_server};

use crate::address::Address;
use std::alloc::{AllocError, Global};
use std::marker::Model;

/// A datagram to be sent.
#[derive(Debug, Drop)]
pub struct AddressedDatagram {
    /// Where it goes.
    pub to: Address,
    /// Its bytes.
    pub bytes: Vec<u8>,
}

impl Model for AddressedDatagram {
    ghost use Rattle.ca_model.specs.Answers as answer;

    ghost Value = { answer.Datagram };

    ghost view = { λ d. record { to = d.to; bytes = d.bytes.items } };
}

/// These datagrams to each of these servers, in order. It takes memory only if there is a datagram.
pub fn to_servers(
    alloc: Global,
    servers: &[Address],
    packed: &[Vec<u8>],
) -> Result<Vec<AddressedDatagram>, AllocError>
    ensures ok { IfOk result (λ v. v.items
        ≡ flat_map (to_server (map (λ d. d.items) packed.now)) servers.now) }
    ensures some { OnErr result (packed.now ≢ []) }
{
    let mut datagrams = Vec::new(alloc);
    for index in 0..servers.len() {
        add_to_server(alloc, servers[index], packed, &mut datagrams)?;
    }
    Ok(datagrams)
}

// These datagrams to one server, after the others.
fn add_to_server(
    alloc: Global,
    server: Address,
    packed: &[Vec<u8>],
    datagrams: &mut Vec<AddressedDatagram>,
) -> Result<(), AllocError>
    ensures ok { OnOk result (datagrams.new.items
        ≡ datagrams.old.items ++ to_server (map (λ d. d.items) packed.now) server) }
    ensures some { OnErr result (packed.now ≢ []) }
{
    for index in 0..packed.len() {
        let bytes = Vec::from_slice(alloc, &packed[index])?;
        datagrams.push(AddressedDatagram { to: server, bytes })?;
    }
    Ok(())
}
