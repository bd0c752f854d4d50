//! The repeater's members, and what it sends for each datagram. Begin at `receive`. It does
//! no IO: whoever owns the UDP socket sends what is returned.
ghost use Rattle.std.specs.Prelude.{◌≡◌, ◌≢◌, ◌++◌, ◌&&◌, ◌||◌, [], nat_lt, not, filter, IfOk};
ghost use Rattle.std.specs.Prelude.{OnOk, OnErr};
ghost use Rattle.ca_repeat.specs.Addresses.{is_member, loopback, same};
ghost use Rattle.ca_repeat.specs.Fan.{Receives, confirmed, enrolled, handed};
ghost use Rattle.ca_repeat.specs.First.{IsFirst, passed, registers};
ghost use Rattle.ca_text.specs.Limits.{repeater_members};

use crate::address::{UdpAddress, is_loopback, is_same};
use crate::first::{FirstMessage, first_of, is_registration, is_used_up, passed_on};
use crate::outgoing::Outgoing;
use ca_dgram::confirm;
use ca_text::{REPEATER_MEMBERS, Refusal};
use std::alloc::{AllocError, Global};
use std::marker::Model;

/// The repeater's members, in order of registration.
#[derive(Debug, Drop)]
pub struct RepeaterCore {
    members: Vec<UdpAddress>,
}

impl Model for RepeaterCore {
    ghost use Rattle.std.specs.Prelude.{List};
    ghost use Rattle.ca_repeat.specs.declared.address.UdpAddress.{UdpAddress};

    ghost Value = { List UdpAddress };

    ghost view = { λ r. r.members.items };
}

impl RepeaterCore {
    /// A repeater with no member.
    pub fn new(alloc: Global) -> RepeaterCore
        ensures { result ≡ [] }
    {
        RepeaterCore {
            members: Vec::new(alloc),
        }
    }

    /// What is sent, in order, for a datagram that came from this address.
    ///
    /// A refusal changes nothing, and there is something to send then.
    pub fn receive(&mut self, from: UdpAddress, bytes: &[u8]) -> Result<Vec<Outgoing>, Refusal>
        ensures { Receives self.old from bytes.now result self.new }
    {
        let alloc = *self.members.allocator();
        let first = first_of(bytes);
        let known = is_among(&self.members, from);
        let answered = is_admitted(first, from, known, self.members.len());
        let mut sends = confirmation(alloc, answered, from)?;
        hand_on(alloc, &self.members, from, first, bytes, &mut sends)?;
        enroll(&mut self.members, answered, known, from)?;
        Ok(sends)
    }

    /// Drops the member to whom a send was refused.
    pub fn refused(&mut self, to: UdpAddress)
        ensures { self.new ≡ filter (λ m. not (same m to)) self.old }
    {
        self.members.retain(|member| !is_same(*member, to));
    }
}

/// Whether the address is a member's.
fn is_among(members: &[UdpAddress], from: UdpAddress) -> bool
    ensures { result ≡ is_member members.now from }
{
    members.iter().any(|member| is_same(*member, from))
}

/// Whether the registration of this sender is answered, among n members.
fn is_admitted(first: FirstMessage, from: UdpAddress, known: bool, count: usize) -> bool
    ensures { result
        ≡ (registers first && loopback from && (known || nat_lt count repeater_members)) }
{
    is_registration(first) && is_loopback(from) && (known || count < REPEATER_MEMBERS)
}

/// The answer to a registration, if there is one.
fn confirmation(alloc: Global, answered: bool, to: UdpAddress) -> Result<Vec<Outgoing>, AllocError>
    ensures ok { IfOk result (λ v. v.items ≡ confirmed answered to) }
    ensures err { OnErr result (confirmed answered to ≢ []) }
{
    let mut sends = Vec::new(alloc);
    if answered {
        let bytes = Vec::from_slice(alloc, &confirm())?;
        sends.push(Outgoing::new(to, bytes))?;
    }
    Ok(sends)
}

/// Writes what is handed on of the datagram, if there is any of it, for each member but the sender.
fn hand_on(
    alloc: Global,
    members: &[UdpAddress],
    from: UdpAddress,
    first: FirstMessage,
    bytes: &[u8],
    sends: &mut Vec<Outgoing>,
) -> Result<(), AllocError>
    requires { IsFirst bytes.now first }
    ensures ok { OnOk result (sends.new.items
        ≡ sends.old.items ++ handed (passed first from.ip bytes.now) from members.now) }
    ensures err { OnErr result (handed (passed first from.ip bytes.now) from members.now ≢ []) }
{
    if is_used_up(first, bytes) {
        return Ok(());
    }
    for member in members {
        if !is_same(*member, from) {
            let copy = passed_on(alloc, first, from, bytes)?;
            sends.push(Outgoing::new(*member, copy))?;
        }
    }
    Ok(())
}

/// Puts a new member after the others.
fn enroll(
    members: &mut Vec<UdpAddress>,
    answered: bool,
    known: bool,
    from: UdpAddress,
) -> Result<(), AllocError>
    ensures ok { OnOk result (members.new.items
        ≡ enrolled (answered && not known) members.old.items from) }
    ensures err { OnErr result (members.new.items ≡ members.old.items) }
    ensures answered { OnErr result (confirmed answered from ≢ []) }
{
    if answered && !known {
        members.push(from)?;
    }
    Ok(())
}
