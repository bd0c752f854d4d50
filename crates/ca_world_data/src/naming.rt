//! What a client's handles name, and the lines for what its core reports.
ghost use Rattle.std.specs.Prelude.{◌≡◌, map};
ghost use Rattle.ca_client_core.specs.Notices.{notice_of};
ghost use Rattle.ca_ids.specs.Table.{same_handle};
ghost use Rattle.ca_model.specs.ClientEvents as world;
ghost use Rattle.ca_world_data.specs.Named.{IsMeant, MeanTheirs};
ghost use Rattle.ca_world_data.specs.Seen.{intent_of, line_of, named_of, names_of};
ghost use Rattle.ca_world_data.specs.Telling.{created_as};

use crate::client::Names;
use crate::history::{Ask, Intent, Kind, Line};
use ca_arena::Handle;
use ca_client_core::Notice;
use ca_dbr::Outcome;

/// The number of a channel. One that is not named has the number after all others.
pub fn channel_number(names: &Names, channel: Handle) -> usize
    ensures { result ≡ world.channel_number (names_of names.now) channel }
{
    place_in(&names.channels, channel)
}

// The place of a handle, or how many there are.
fn place_in(channels: &[Handle], channel: Handle) -> usize
    ensures { result ≡ world.place_of (same_handle channel) channels.now }
{
    for place in 0..channels.len() {
        if is_same(channel, channels[place]) {
            return place;
        }
    }
    channels.len()
}

/// What is meant by a request or a subscription of this handle, among those that are named so.
pub fn meant_by(named: &[(Handle, Intent)], handle: Handle) -> Intent
    ensures { intent_of result ≡ world.meant_by (map named_of named.now) handle }
{
    for place in 0..named.len() {
        let (other, meant) = named[place];
        if is_same(other, handle) {
            return meant;
        }
    }
    Intent::OfCircuit
}

// What is meant by a request or a subscription of this handle, which may be named at this place. If
// it is not, all places are looked at.
fn meant_near(named: &[(Handle, Intent)], place: usize, handle: Handle) -> Intent
    requires { MeanTheirs (map named_of named.now) }
    ensures { intent_of result ≡ world.meant_by (map named_of named.now) handle }
{
    if place < named.len() {
        let (near, is) = named[place];
        if is_same(near, handle) {
            return is;
        }
    }
    meant_by(named, handle)
}

/// Whether both are one handle.
pub fn is_same(a: Handle, b: Handle) -> bool
    ensures { result ≡ same_handle a b }
{
    a.index == b.index && a.generation == b.generation
}

/// The number of a plain write that was meant so.
fn write_number(meant: Intent) -> usize
    ensures { result ≡ world.write_number (intent_of meant) }
{
    match meant {
        Intent::On(_, ask) => match ask {
            Ask::Request(kind, number) => match kind {
                Kind::Write => number,
                Kind::Read => 0,
                Kind::Put => 0,
            },
            Ask::Create => 0,
            Ask::Clear => 0,
            Ask::Subscribe(_) => 0,
            Ask::Cancel(_) => 0,
        },
        Intent::OfCircuit => 0,
    }
}

// The number of the request or the subscription that was meant so.
fn number_in(meant: Intent) -> usize {
    match meant {
        Intent::On(_, ask) => match ask {
            Ask::Request(_, number) => number,
            Ask::Subscribe(number) => number,
            Ask::Create => 0,
            Ask::Clear => 0,
            Ask::Cancel(_) => 0,
        },
        Intent::OfCircuit => 0,
    }
}

/// `line_for`, which looks first at the name that the message was about.
pub fn line_about(names: &Names, about: Intent, notice: Notice) -> Line
    requires { IsMeant (names_of names.now) }
    ensures { line_of result
        ≡ world.line_of (intent_of about) (names_of names.now) (notice_of notice) }
{
    match notice {
        Notice::Completed(request, outcome) => {
            let meant = meant_near(&names.requests, number_in(about), request);
            Line::Noticed(meant, outcome)
        }
        Notice::Update(subscription, outcome) => {
            let meant = meant_near(&names.subscriptions, number_in(about), subscription);
            Line::Updated(meant, outcome)
        }
        other => line_for(names, about, other),
    }
}

/// The line for a notice, if the message that the client read was about one that was meant so.
pub fn line_for(names: &Names, about: Intent, notice: Notice) -> Line
    ensures { line_of result
        ≡ world.line_of (intent_of about) (names_of names.now) (notice_of notice) }
{
    match notice {
        Notice::Live(channel) => { Line::Noticed(created(names, channel), Outcome::Done) }
        Notice::Lost(channel) => { Line::Noticed(created(names, channel), Outcome::Disconnected) }
        Notice::Completed(request, outcome) => {
            Line::Noticed(meant_by(&names.requests, request), outcome)
        }
        Notice::Update(subscription, outcome) => {
            Line::Updated(meant_by(&names.subscriptions, subscription), outcome)
        }
        Notice::SubscriptionEnded(subscription, status) => {
            Line::Noticed(
                meant_by(&names.subscriptions, subscription),
                Outcome::Failed(status),
            )
        }
        Notice::WriteRefused(channel, status) => {
            let write = Ask::Request(Kind::Write, write_number(about));
            let meant = Intent::On(channel_number(names, channel), write);
            Line::Noticed(meant, Outcome::Failed(status))
        }
    }
}

// That a channel was to be created.
fn created(names: &Names, channel: Handle) -> Intent
    ensures { intent_of result ≡ created_as (world.channel_number (names_of names.now) channel) }
{
    Intent::On(channel_number(names, channel), Ask::Create)
}
