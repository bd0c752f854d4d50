//! Payloads that are made before a call, and their messages once it has given an id.
ghost use Rattle.std.specs.Prelude.{◌≡◌, ◌≤◌, [], IfOk, OnOk};
ghost use Rattle.ca_dbr.specs.Elements.{bytes_of, count_of, elements};
ghost use Rattle.ca_wire.specs.Fields.{IsPayload, padded};
ghost use Rattle.ca_wire.specs.Messages.{mask_payload, on_channel};

use ca_dbr::{Meta, Value, write_value};
use ca_text::{Command, Mask};
use ca_wire::{Ioid, Message, Sid, Wanted, event_add_request};
use std::alloc::{AllocError, Global};

/// The payload of an EVENT_ADD.
pub fn mask_payload(alloc: Global, mask: Mask) -> Result<Vec<u8>, AllocError>
    ensures made { IfOk result (λ v. v.items ≡ mask_payload mask) }
    ensures fits { IfOk result (λ v. IsPayload v.items) }
{
    let wanted = Wanted {
        sid: Sid::new(0),
        id: Ioid::new(0),
        data_type: 0,
        count: 0,
    };
    let message = event_add_request(alloc, wanted, mask)?;
    let _ = message.header();
    Vec::from_slice(alloc, message.payload())
}

/// A copy of the value.
pub fn value_again(alloc: Global, value: &Value) -> Result<Value, AllocError>
    ensures { IfOk result (λ v. elements v ≡ elements value.now) }
{
    match value.copy(alloc) {
        Ok(copy) => Ok(copy),
        Err(_) => Err(AllocError),
    }
}

/// The payload of a write of this value.
pub fn put_payload(alloc: Global, value: &Value) -> Result<Vec<u8>, AllocError>
    ensures { IfOk result (λ v. v.items ≡ padded (bytes_of (elements value.now))) }
{
    let mut payload = Vec::new(alloc);
    write_bytes(value, &mut payload)?;
    pad(&mut payload)?;
    Ok(payload)
}

// Writes the elements of a value into no bytes.
fn write_bytes(value: &Value, out: &mut Vec<u8>) -> Result<(), AllocError>
    requires { out.old.items ≡ [] }
    ensures { OnOk result (out.new.items ≡ bytes_of (elements value.now)) }
{
    match write_value(value.base_type().number(), value, &Meta::ZERO, out) {
        Ok(()) => Ok(()),
        Err(_) => Err(AllocError),
    }
}

// Fills the bytes with zeros up to a multiple of 8.
fn pad(bytes: &mut Vec<u8>) -> Result<(), AllocError>
    ensures { OnOk result (bytes.new.items ≡ padded bytes.old.items) }
{
    let over = bytes.len() % 8;
    if over == 0 {
        return Ok(());
    }
    bytes.extend_from_slice(&[0u8; 8][over..])
}

/// How many elements a value has, if there are at most n.
pub fn count_within(value: &Value, most: u32) -> u32
    ensures { count_of (elements value.now) ≤ most → result ≡ count_of (elements value.now) }
{
    let count = value.count();
    if count > most as usize {
        return most;
    }
    count as u32
}

/// The message of a request on a channel, with this payload. It does not allocate.
pub fn with_payload(command: Command, wanted: Wanted, payload: Vec<u8>) -> Message
    requires { IsPayload payload.items }
    ensures { result ≡ on_channel command wanted payload.items }
{
    let Wanted {
        sid,
        id,
        data_type,
        count,
    } = wanted;
    let made = Message::new(
        command.number(),
        data_type,
        count,
        sid.number(),
        id.number(),
        payload,
    );
    match made {
        Ok(message) => message,
        Err(_) => unreachable!(),
    }
}
