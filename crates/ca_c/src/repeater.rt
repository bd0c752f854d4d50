//! The repeater's exports.

ghost use Rattle.std.specs.Prelude.{◌≡◌, None};
ghost use Rattle.ca_object.specs.Calling.{Calls};
ghost use Rattle.ca_c.specs.Answers.{no_object};
ghost use Rattle.ca_c.specs.Repeaters.{Begins, DoesDatagram, DoesOutgoing, DoesRefused};

use crate::answers::{NO_OBJECT, refused};
use crate::client_structs::CvzAddress;
use crate::cvz_repeater::CvzRepeater;
use crate::repeater_object::RepeaterObject;
use ca_repeat::RepeaterCore;
use ca_text::Refusal;
use std::alloc::Global;

/// Makes a repeater with no member. One that the struct had is freed. Refused as OutOfMemory: then
/// the struct has what it had.
#[unsafe(no_mangle)]
pub extern "C" fn cvz_repeater_new(alloc: Global, repeater: &mut CvzRepeater) -> i32
    ensures { Begins result repeater.old.value repeater.new.value }
{
    let begun = RepeaterObject {
        core: RepeaterCore::new(alloc),
        sends: Vec::new(alloc),
        taken: 0,
    };
    let Ok(object) = Box::new(alloc, begun) else {
        return refused(Refusal::OutOfMemory);
    };
    repeater.put(alloc, object);
    0
}

/// Frees the repeater, if there is one.
#[unsafe(no_mangle)]
pub extern "C" fn cvz_repeater_free(alloc: Global, repeater: &mut CvzRepeater)
    ensures { repeater.new.value ≡ None }
{
    let _ = repeater.take(alloc);
}

/// Takes a datagram that came from there. `cvz_repeater_outgoing` has the datagrams that are to be
/// sent for it. Refused as OutOfMemory.
#[unsafe(no_mangle)]
pub extern "C" fn cvz_repeater_datagram(
    alloc: Global,
    repeater: &mut CvzRepeater,
    from: &CvzAddress,
    bytes: &[u8],
) -> i32
    ensures { Calls no_object repeater.old.value result repeater.new.value
        (λ s n t. DoesDatagram s n t from.now bytes.now) }
{
    let Some(mut object) = repeater.take(alloc) else {
        return NO_OBJECT;
    };
    let answer = object.datagram(*from, bytes);
    repeater.put(alloc, object);
    answer
}

/// Hands over the next of those datagrams, and where it goes, and says how long it is:
/// 0 once there is none.
#[unsafe(no_mangle)]
pub extern "C" fn cvz_repeater_outgoing(
    alloc: Global,
    repeater: &mut CvzRepeater,
    to: &mut CvzAddress,
    room: &mut [u8],
) -> usize
    ensures call { Calls 0 repeater.old.value result repeater.new.value
        (λ s n t. DoesOutgoing s n t to.old to.new room.old room.new) }
    ensures kept_to { repeater.old.value ≡ None → to.new ≡ to.old }
    ensures kept_room { repeater.old.value ≡ None → room.new ≡ room.old }
{
    let Some(mut object) = repeater.take(alloc) else {
        return 0;
    };
    let answer = object.outgoing(to, room);
    repeater.put(alloc, object);
    answer
}

/// Drops the member to whom a send was refused.
#[unsafe(no_mangle)]
pub extern "C" fn cvz_repeater_refused(
    alloc: Global,
    repeater: &mut CvzRepeater,
    to: &CvzAddress,
) -> i32
    ensures { Calls no_object repeater.old.value result repeater.new.value
        (λ s n t. DoesRefused s n t to.now) }
{
    let Some(mut object) = repeater.take(alloc) else {
        return NO_OBJECT;
    };
    let answer = object.refused(*to);
    repeater.put(alloc, object);
    answer
}
