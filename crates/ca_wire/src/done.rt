//! The reply to a WRITE_NOTIFY of one element, written directly as 16 bytes without a `Message` in
//! between.
ghost use Rattle.std.specs.Prelude.{◌≡◌, ◌++◌, OnErr, OnOk};
ghost use Rattle.std.specs.Int.{to_be_bytes, w64};
ghost use Rattle.ca_text.specs.Command.{command_number};
ghost use Rattle.ca_text.specs.declared.command.Command.TheVariants as command;
ghost use Rattle.ca_wire.specs.Header.{number16};
ghost use Rattle.ca_wire.specs.Message.{spelling};
ghost use Rattle.ca_wire.specs.Messages.{done};

use crate::ids::Ioid;
use crate::scalar_message::second_half;
use ca_text::Command;
use std::alloc::AllocError;

/// What the reply to a WRITE_NOTIFY of one element says that was done: the type and
/// the id that it named.
#[derive(Clone, Copy, Debug, PartialEq, Eq)]
pub struct Done {
    pub data_type: u16,
    pub id: Ioid,
}

/// Writes its one spelling at the end.
#[inline(always)]
pub(crate) fn spell_done(said: Done, out: &mut Vec<u8>) -> Result<(), AllocError>
    ensures ok { OnOk result (out.new.items ≡ out.old.items ++ spelling (done said)) }
    ensures err { OnErr result (out.new.items ≡ out.old.items) }
{
    out.extend_from_slice(&two_words(done_half(said.data_type), second_half(said.id)))
}

/// Command, size, type and count.
#[inline(always)]
fn done_half(data_type: u16) -> u64
    ensures { to_be_bytes w64 result
        ≡ number16 (command_number command.WriteNotify)
        ++ (number16 0 ++ (number16 data_type ++ number16 1)) }
{
    u64::from(Command::WriteNotify.number()) * 0x1_0000_0000_0000
        + u64::from(data_type) * 0x1_0000
        + 1
}

/// The bytes of two numbers, the highest byte of each first.
#[inline(always)]
fn two_words(first: u64, second: u64) -> [u8; 16]
    ensures { result ≡ to_be_bytes w64 first ++ to_be_bytes w64 second }
{
    let first = first.to_be_bytes();
    let second = second.to_be_bytes();
    [
        first[0], first[1], first[2], first[3], first[4], first[5], first[6], first[7], second[0],
        second[1], second[2], second[3], second[4], second[5], second[6], second[7],
    ]
}
