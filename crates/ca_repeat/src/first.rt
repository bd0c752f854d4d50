//! How the repeater treats a datagram by its first message: a registration is taken off its front,
//! a beacon without an address gets its sender's, anything else is passed on unchanged.
ghost use Rattle.std.specs.Prelude.{◌≡◌, ℕ, IfOk, length, nat_eq};
ghost use Rattle.ca_repeat.specs.First.{IsFirst, passed, registers};

use crate::address::UdpAddress;
use ca_text::Command;
use ca_wire::{One, read_one};
use std::alloc::{AllocError, Global};

/// What a datagram begins with.
#[derive(Clone, Copy)]
pub(crate) enum FirstMessage {
    /// Nothing, or a REPEATER_REGISTER of n bytes.
    Registration(usize),
    /// An RSRV_IS_UP whose address is zero.
    BlankBeacon,
    Other,
}

/// What begins these bytes.
pub(crate) fn first_of(bytes: &[u8]) -> FirstMessage
    ensures { IsFirst bytes.now result }
{
    if bytes.is_empty() {
        return FirstMessage::Registration(0);
    }
    let One::Whole(head) = read_one(bytes) else {
        return FirstMessage::Other;
    };
    let header = head.header;
    if header.command == Command::RepeaterRegister.number() {
        return FirstMessage::Registration(head.start + header.size as usize);
    }
    if header.command != Command::RsrvIsUp.number() {
        return FirstMessage::Other;
    }
    if header.p2 != 0 {
        return FirstMessage::Other;
    }
    FirstMessage::BlankBeacon
}

/// Whether it asks to register the sender.
pub(crate) fn is_registration(first: FirstMessage) -> bool
    ensures { result ≡ registers first }
{
    matches!(first, FirstMessage::Registration(_))
}

/// Whether nothing of the datagram is handed on.
pub(crate) fn is_used_up(first: FirstMessage, bytes: &[u8]) -> bool
    requires { IsFirst bytes.now first }
    ensures { (ip : ℕ) → result ≡ nat_eq (length (passed first ip bytes.now)) 0 }
{
    match first {
        FirstMessage::Registration(end) => end == bytes.len(),
        FirstMessage::BlankBeacon => false,
        FirstMessage::Other => false,
    }
}

/// What is handed on of a datagram from this address.
pub(crate) fn passed_on(
    alloc: Global,
    first: FirstMessage,
    from: UdpAddress,
    bytes: &[u8],
) -> Result<Vec<u8>, AllocError>
    requires { IsFirst bytes.now first }
    ensures { IfOk result (λ v. v.items ≡ passed first from.ip bytes.now) }
{
    match first {
        FirstMessage::Registration(end) => Vec::from_slice(alloc, &bytes[end..]),
        FirstMessage::BlankBeacon => filled(alloc, from, bytes),
        FirstMessage::Other => Vec::from_slice(alloc, bytes),
    }
}

/// The beacon with its sender's address, which is in bytes 12 to 15 of either form of a header.
fn filled(alloc: Global, from: UdpAddress, bytes: &[u8]) -> Result<Vec<u8>, AllocError>
    requires { IsFirst bytes.now FirstMessage.BlankBeacon }
    ensures { IfOk result (λ v. v.items ≡ passed FirstMessage.BlankBeacon from.ip bytes.now) }
{
    let mut beacon = Vec::from_slice(alloc, &bytes[..12])?;
    beacon.extend_from_slice(&from.ip.to_be_bytes())?;
    beacon.extend_from_slice(&bytes[16..])?;
    Ok(beacon)
}
