//! Messages and bytes: the one spelling of a message, its reading in either header form, and the
//! reading of a stream of messages that comes in any pieces.
#![tactic(auto)]

mod buffer;
mod deframer;
mod done;
mod header;
mod ids;
mod laws;
mod made;
mod message;
mod pipe;
mod reading;
mod replies;
mod requests;
mod scalar_message;

pub use buffer::Buffer;
pub use deframer::Deframer;
pub use done::Done;
pub use header::{Header, short_form, spell_header};
pub use ids::{Cid, Ioid, Priority, Sid};
pub use laws::{one_reading, read_again};
pub use made::{Payload, spell_made};
pub use message::{Message, message_at, spell, spelled_size};
pub use pipe::Pipe;
pub use reading::{Head, One, read_one};
pub use replies::{
    Answered, cancel_reply, created_reply, disconnect, failed_reply, no_cid, not_found_reply,
    put_status, quoted, read_head, read_status, rights_reply, search_reply, update_head,
    version_header, version_reply,
};
pub use requests::{
    Wanted, clear_request, create_request, event_add_request, event_cancel_request, header_only,
    name_request, put_head, put_request, read_request, search_header, search_request,
    version_request,
};
pub use scalar_message::ScalarMessage;
