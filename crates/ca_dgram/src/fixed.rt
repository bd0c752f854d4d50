//! The datagrams of 16 bytes: a server's beacon, a client's registration with the repeater of its
//! host, and the repeater's confirmation.
ghost use Rattle.std.specs.Prelude.{◌≡◌, ◌<◌};
ghost use Rattle.std.specs.Net.Addr.{ipv4_bits};
ghost use Rattle.ca_text.specs.Command.{command_number};
ghost use Rattle.ca_wire.specs.Header.{short_header};
ghost use Rattle.ca_wire.specs.Message.{Spells, header_of, spelling};
ghost use Rattle.ca_dgram.specs.Messages.{beacon_message, confirm_message, register_message};

use ca_text::{Command, MINOR_VERSION};
use ca_wire::{Header, short_form};
use std::net::Ipv4Addr;

/// The beacon of this number, of a server that listens at this TCP port (RSRV_IS_UP).
///
/// It names no address, so its receiver takes the sender's. Port 65,535 is written
/// in these 16 bytes too.
pub fn beacon(number: u32, port: u16) -> [u8; 16]
    ensures bytes { result ≡ short_header (header_of (beacon_message number port)) }
    ensures read { Spells result (beacon_message number port) }
    ensures written { port < 65535 → result ≡ spelling (beacon_message number port) }
{
    header_bytes(Command::RsrvIsUp, MINOR_VERSION, port, number, 0)
}

/// The registration of a client of this address with the repeater of its host (REPEATER_REGISTER).
pub fn register(address: Ipv4Addr) -> [u8; 16]
    ensures { result ≡ spelling (register_message (ipv4_bits address)) }
{
    header_bytes(Command::RepeaterRegister, 0, 0, 0, address.to_bits())
}

/// The repeater's answer to a registration (REPEATER_CONFIRM).
pub fn confirm() -> [u8; 16]
    ensures { result ≡ spelling confirm_message }
{
    header_bytes(Command::RepeaterConfirm, 0, 0, 0, 0x7f00_0001)
}

/// The header of 16 bytes with these fields, of a message with no payload.
fn header_bytes(command: Command, data_type: u16, count: u16, p1: u32, p2: u32) -> [u8; 16]
    ensures { result
        ≡ short_header (record {
          command = command_number command;
          data_type = data_type;
          size = 0;
          count = count;
          p1 = p1;
          p2 = p2;
        }) }
{
    short_form(&Header {
        command: command.number(),
        data_type,
        size: 0,
        count: u32::from(count),
        p1,
        p2,
    })
}
