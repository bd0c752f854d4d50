//! What crosses of a client: plain structs of numbers.

ghost use Rattle.std.specs.Prelude.{◌≡◌};
ghost use Rattle.ca_dbr.specs.Elements.{elements};
ghost use Rattle.ca_client_tables.specs.Closings.{why_is};
ghost use Rattle.ca_c.specs.ClientTold.{became, c_channel, c_notice, outcome_notice, standing};
ghost use Rattle.ca_c.specs.ClientTold.{value_notice, why_number};

use crate::answers::number;
use ca_client_core::{Address, ChannelState, Notice, Why};
use ca_dbr::{Outcome, Value};

/// An IPv4 address, its first number in the highest byte, and a port.
#[repr(C)]
#[derive(Clone, Copy)]
pub struct CvzAddress {
    pub host: u32,
    pub port: u16,
}

/// A circuit that is to be connected.
#[repr(C)]
#[derive(Clone, Copy)]
pub struct CvzWanted {
    pub circuit: u64,
    pub host: u32,
    pub port: u16,
    pub priority: u16,
}

/// How far a channel is, and if it is live its native type, its greatest count and its rights.
#[repr(C)]
#[derive(Clone, Copy)]
pub struct CvzChannel {
    /// 0 searching, 1 connecting, 2 creating, 3 live, 4 its record was removed.
    pub state: u32,
    pub data_type: u32,
    pub greatest: u32,
    /// The bits 1 to read and 2 to write.
    pub rights: u32,
}

/// What was reported.
#[repr(C)]
#[derive(Clone, Copy)]
pub struct CvzNotice {
    /// The channel, the request or the subscription.
    pub of: u64,
    /// 1 a channel is live, 2 it was lost, 3 a request is complete, 4 an update, 5 a subscription
    /// is over, 6 a write was refused.
    pub kind: u32,
    /// Of 3 and 4: 0 a value, 1 done, 2 failed, 3 unreadable, 4 disconnected; else 0.
    pub outcome: u32,
    /// The server's status if it failed, or at 5 and 6; why it is unreadable, as a
    /// refusal above zero; else 0.
    pub status: u32,
    /// Of a value its type, 0 to 6, and its count.
    pub data_type: u32,
    pub count: u64,
}

pub(crate) fn address(given: CvzAddress) -> Address
    ensures { result ≡ record { host = given.host; port = given.port } }
{
    Address {
        host: given.host,
        port: given.port,
    }
}

pub(crate) fn c_channel(state: ChannelState) -> CvzChannel
    ensures { result ≡ c_channel state }
{
    match state {
        ChannelState::Searching => standing(0),
        ChannelState::Connecting => standing(1),
        ChannelState::Creating => standing(2),
        ChannelState::Live(data_type, greatest, rights) => CvzChannel {
            state: 3,
            data_type: data_type as u32,
            greatest,
            rights,
        },
        ChannelState::Leaving => standing(4),
    }
}

fn standing(state: u32) -> CvzChannel
    ensures { result ≡ standing state }
{
    CvzChannel {
        state,
        data_type: 0,
        greatest: 0,
        rights: 0,
    }
}

pub(crate) fn why_number(why: Why) -> u32
    ensures { result ≡ why_number (why_is why) }
{
    match why {
        Why::OutOfMemory => 1,
        Why::Misaligned => 2,
        Why::TooLarge => 3,
        Why::Cut => 4,
        Why::Silence => 5,
        Why::Asked => 6,
    }
}

pub(crate) fn c_notice(notice: &Notice) -> CvzNotice
    ensures { result ≡ c_notice notice.now }
{
    match notice {
        Notice::Live(channel) => became(number(*channel), 1, 0, 0),
        Notice::Lost(channel) => became(number(*channel), 2, 0, 0),
        Notice::Completed(request, outcome) => outcome_notice(number(*request), 3, outcome),
        Notice::Update(subscription, outcome) => outcome_notice(number(*subscription), 4, outcome),
        Notice::SubscriptionEnded(subscription, status) => {
            became(number(*subscription), 5, 0, status.number)
        }
        Notice::WriteRefused(channel, status) => became(number(*channel), 6, 0, status.number),
    }
}

fn outcome_notice(of: u64, kind: u32, outcome: &Outcome) -> CvzNotice
    ensures { result ≡ outcome_notice of kind outcome.now }
{
    match outcome {
        Outcome::Value(value, _) => value_notice(of, kind, value),
        Outcome::Displayed(value, _, _) => value_notice(of, kind, value),
        Outcome::Done => became(of, kind, 1, 0),
        Outcome::Failed(status) => became(of, kind, 2, status.number),
        Outcome::Unreadable(refusal) => became(of, kind, 3, refusal.number() as u32),
        Outcome::Disconnected => became(of, kind, 4, 0),
    }
}

fn value_notice(of: u64, kind: u32, value: &Value) -> CvzNotice
    ensures { result ≡ value_notice of kind (elements value.now) }
{
    CvzNotice {
        of,
        kind,
        outcome: 0,
        status: 0,
        data_type: value.base_type().number() as u32,
        count: value.count() as u64,
    }
}

fn became(of: u64, kind: u32, outcome: u32, status: u32) -> CvzNotice
    ensures { result ≡ became of kind outcome status }
{
    CvzNotice {
        of,
        kind,
        outcome,
        status,
        data_type: 0,
        count: 0,
    }
}
