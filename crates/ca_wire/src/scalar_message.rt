//! A reply to a read, or an update, of one element with a payload of eight bytes: the most frequent
//! message of a server, written directly as 24 bytes.
ghost use Rattle.std.specs.Prelude.{◌≡◌, ◌++◌, OnErr, OnOk};
ghost use Rattle.std.specs.Int.{to_be_bytes, w64};
ghost use Rattle.ca_text.specs.Command.{command_number};
ghost use Rattle.ca_text.specs.Status.{normal};
ghost use Rattle.ca_wire.specs.Header.{number16, number32};
ghost use Rattle.ca_wire.specs.Message.{spelling};
ghost use Rattle.ca_wire.specs.Messages.{scalar};

use crate::ids::Ioid;
use ca_text::{Command, Status};
use std::alloc::AllocError;

/// What an answer or an update says that has one element, whose payload is eight bytes: its
/// command, its type, the id that it answers, and these bytes as one number.
#[derive(Clone, Copy, Debug, PartialEq, Eq)]
pub struct ScalarMessage {
    pub command: Command,
    pub data_type: u16,
    pub id: Ioid,
    pub payload: u64,
}

/// Writes its one spelling at the end.
#[inline(always)]
pub(crate) fn spell_scalar(said: ScalarMessage, out: &mut Vec<u8>) -> Result<(), AllocError>
    ensures ok { OnOk result (out.new.items ≡ out.old.items ++ spelling (scalar said)) }
    ensures err { OnErr result (out.new.items ≡ out.old.items) }
{
    out.extend_from_slice(&three_words(
        first_half(said.command, said.data_type),
        second_half(said.id),
        said.payload,
    ))
}

/// Command, size, type and count.
#[inline(always)]
fn first_half(command: Command, data_type: u16) -> u64
    ensures { to_be_bytes w64 result
        ≡ number16 (command_number command) ++ (number16 8 ++ (number16 data_type ++ number16 1)) }
{
    let (command, data_type) = (u64::from(command.number()), u64::from(data_type));
    command * 0x1_0000_0000_0000 + 0x8_0000_0001 + data_type * 0x1_0000
}

/// Status and id.
#[inline(always)]
pub(crate) fn second_half(id: Ioid) -> u64
    ensures { to_be_bytes w64 result ≡ number32 normal ++ number32 id }
{
    u64::from(Status::NORMAL.number) * 0x1_0000_0000 + u64::from(id.number())
}

/// The bytes of three numbers, the highest byte of each first.
#[inline(always)]
fn three_words(first: u64, second: u64, third: u64) -> [u8; 24]
    ensures { result ≡ to_be_bytes w64 first ++ (to_be_bytes w64 second ++ to_be_bytes w64 third) }
{
    let first = first.to_be_bytes();
    let second = second.to_be_bytes();
    let third = third.to_be_bytes();
    [
        first[0], first[1], first[2], first[3], first[4], first[5], first[6], first[7], second[0],
        second[1], second[2], second[3], second[4], second[5], second[6], second[7], third[0],
        third[1], third[2], third[3], third[4], third[5], third[6], third[7],
    ]
}
