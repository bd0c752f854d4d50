//! Whether an end may take a message, for whose step there is no memory: a step that takes none
//! needs none.
ghost use Rattle.std.specs.Prelude.{◌≡◌, ◌+◌, ◌-◌, ◌<◌, ◌≤◌, ◌⊎◌, drop, false, length, true};
ghost use Rattle.ca_model.specs.Client.{Client};
ghost use Rattle.ca_world.specs.Resting.{ComesDown, ComesUp, RestsDown, RestsUp, bytes_down};
ghost use Rattle.ca_world.specs.Resting.{bytes_up};
ghost use Rattle.ca_world_data.specs.Does.{MayHear, MayTake};
ghost use Rattle.ca_world_data.specs.Seen.{joined_of};

use ca_server_core::ServerCore;
use ca_text::OUTPUT_LIMIT;
use ca_wire::spelled_size;
use ca_world_data::history::{Sent, Told};
use ca_world_data::joined::Joined;

/// Whether the server's end of a circuit may take a message, while `waiting` bytes wait at its
/// client.
pub(crate) fn may_take(core: &ServerCore, joined: &Joined, waiting: usize) -> bool
    requires { ComesUp waiting core.now (joined_of joined.now) }
    ensures takes { result ≡ true → MayTake core.now (joined_of joined.now) }
    ensures rests { result ≡ false → RestsUp core.now (joined_of joined.now) }
{
    if core.out_bytes(joined.at_server).len() >= OUTPUT_LIMIT {
        return false;
    }
    came_up(&joined.lists.up, joined.lists.handled.len(), waiting)
}

// Whether there is a message at this place, and no more bytes wait than those after it have.
fn came_up(up: &[Sent], place: usize, waiting: usize) -> bool
    ensures yes { result ≡ true
        → (place < length up.now) × (waiting ≤ bytes_up (drop (place + 1) up.now)) }
    ensures no { result ≡ false
        → (length up.now ≤ place)
        ⊎ ((place < length up.now) × (bytes_up (drop (place + 1) up.now) < waiting)) }
{
    if place >= up.len() {
        return false;
    }
    if left_over_up(&up[place + 1..], waiting) > 0 {
        return false;
    }
    true
}

// How many of `waiting` bytes are left over if these messages of a client are taken off.
fn left_over_up(messages: &[Sent], waiting: usize) -> usize
    ensures { result ≡ waiting - bytes_up messages.now }
{
    let mut left = waiting;
    for sent in messages {
        left = left.saturating_sub(spelled_size(&sent.message));
    }
    left
}

/// Whether the client's end of a circuit may take a message, while `waiting` bytes wait at its
/// server.
pub(crate) fn may_hear(joined: &Joined, waiting: usize) -> bool
    ensures hears { (core : Client) → ComesDown waiting core (joined_of joined.now)
        → result ≡ true → MayHear core (joined_of joined.now) }
    ensures rests { (core : Client) → ComesDown waiting core (joined_of joined.now)
        → result ≡ false → RestsDown core (joined_of joined.now) }
{
    came_down(&joined.lists.down, joined.lists.heard.len(), waiting)
}

// Whether there is a message at this place, and no more bytes wait than those after it have.
fn came_down(down: &[Told], place: usize, waiting: usize) -> bool
    ensures yes { result ≡ true
        → (place < length down.now) × (waiting ≤ bytes_down (drop (place + 1) down.now)) }
    ensures no { result ≡ false
        → (length down.now ≤ place)
        ⊎ ((place < length down.now) × (bytes_down (drop (place + 1) down.now) < waiting)) }
{
    if place >= down.len() {
        return false;
    }
    if left_over_down(&down[place + 1..], waiting) > 0 {
        return false;
    }
    true
}

// How many of `waiting` bytes are left over if these messages of a server are taken off.
fn left_over_down(messages: &[Told], waiting: usize) -> usize
    ensures { result ≡ waiting - bytes_down messages.now }
{
    let mut left = waiting;
    for told in messages {
        left = left.saturating_sub(spelled_size(&told.message));
    }
    left
}
