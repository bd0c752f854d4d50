//! How large the replies to the next message on a circuit are at most, known before the step that
//! handles it.
ghost use Rattle.std.specs.Prelude.{◌≡◌};
ghost use Rattle.ca_model.specs.Faults.{read_count};
ghost use Rattle.ca_world_servers.specs.Answering.{Answers, AreShownWithin};

use ca_arena::Handle;
use ca_display::display_size;
use ca_records::Record;
use ca_server_core::ServerCore;
use ca_text::{Command, PAYLOAD_LIMIT};
use ca_wire::{Message, Sid};
use ca_world_data::payloads::count_within;

// What a reply without a value has at most: an ERROR with the extended header of its message, which
// is 24 bytes, and an empty text of 8.
const MOST_WITHOUT_VALUE: usize = 32;

/// How many bytes of payload the first reply to this message has at most, if the message is
/// the next on this circuit. There are at most two replies, and the second has none.
pub fn reply_size(core: &ServerCore, circuit: Handle, message: &Message) -> usize
    ensures { Answers core.now circuit message.now result }
{
    if message.command() != Command::ReadNotify.number() {
        return MOST_WITHOUT_VALUE;
    }
    let Some(name) = core.served_name(circuit, Sid::new(message.p1())) else {
        return 0;
    };
    let Some(of) = core.record(name) else {
        return 0;
    };
    shown_size(of, message)
}

// How many bytes the image of what a READ_NOTIFY is shown of this record has at most, with its
// padding: none if the read is refused for its type or its count.
fn shown_size(of: &Record, message: &Message) -> usize
    ensures { AreShownWithin of.now message.now result }
{
    let count = count_asked(of, message);
    if count > of.count() {
        return 0;
    }
    let Ok(size) = display_size(message.data_type(), count) else {
        return 0;
    };
    if size > PAYLOAD_LIMIT {
        return 0;
    }
    size + 7
}

// How many elements a READ_NOTIFY of this record asks for; a count of 0 means the present count.
fn count_asked(of: &Record, message: &Message) -> u32
    ensures { result ≡ read_count of.now message.now }
{
    let count = message.count();
    if count != 0 {
        return count;
    }
    count_within(of.held().value(), of.count())
}
