//! The notices of one call, in order, without a list when there is one alone.
ghost use Rattle.std.specs.Prelude.{◌≡◌, [], None, Some};
ghost use Rattle.ca_client_core.specs.Notices.{Parts, TakesCompletion, TakesNotice, as_notices};
ghost use Rattle.ca_model.specs.Answers as notice;

use crate::notice::Notice;
use ca_arena::Handle;
use ca_dbr::Outcome;
use std::alloc::Global;
use std::marker::Model;

/// What a call reports, in order: first the requests that are complete without an answer, then the
/// channels that were lost, then anything else.
///
/// It is made without allocation, since its handles were listed before.
#[derive(Debug, Drop)]
pub struct Notices {
    disconnected: Vec<Handle>,
    // How many of these were taken.
    disconnected_told: usize,
    lost: Vec<Handle>,
    // How many of these were taken.
    lost_told: usize,
    last: Option<Notice>,
}

impl Model for Notices {
    ghost use Rattle.std.specs.Prelude.{List, drop};
    ghost use Rattle.ca_client_core.specs.Notices.{as_notices};
    ghost use Rattle.ca_model.specs.Answers as notice;

    ghost Value = { List notice.Notice };

    ghost view = { λ n.
        as_notices (drop n.disconnected_told n.disconnected.items)
        (drop n.lost_told n.lost.items) n.last };
}

impl Notices {
    /// No notices.
    pub(crate) fn none(alloc: Global) -> Notices
        ensures { result ≡ [] }
    {
        Notices::of(Vec::new(alloc), Vec::new(alloc), None)
    }

    /// This notice, if there is one.
    pub(crate) fn one(alloc: Global, last: Option<Notice>) -> Notices
        ensures { result ≡ as_notices [] [] last }
    {
        Notices::of(Vec::new(alloc), Vec::new(alloc), last)
    }

    /// These requests are complete with Disconnected, these channels are lost, and then this one.
    pub(crate) fn of(disconnected: Vec<Handle>, lost: Vec<Handle>, last: Option<Notice>) -> Notices
        ensures { result ≡ as_notices disconnected.items lost.items last }
    {
        Notices {
            disconnected,
            disconnected_told: 0,
            lost,
            lost_told: 0,
            last,
        }
    }

    /// Takes the first notice.
    pub fn next(&mut self) -> Option<Notice>
        ensures { TakesNotice self.old result self.new }
    {
        if self.disconnected_told < self.disconnected.len() {
            let request = self.disconnected[self.disconnected_told];
            self.disconnected_told += 1;
            return Some(Notice::Completed(request, Outcome::Disconnected));
        }
        if self.lost_told < self.lost.len() {
            let channel = self.lost[self.lost_told];
            self.lost_told += 1;
            return Some(Notice::Lost(channel));
        }
        self.last.take()
    }

    /// Takes the first request that is complete, with its outcome. The other notices stay.
    pub fn next_completed(&mut self) -> Option<(Handle, Outcome)>
        ensures { TakesCompletion self.old result self.new }
    {
        let told = self.disconnected_told;
        if told < self.disconnected.len() {
            self.disconnected_told = told + 1;
            return Some((self.disconnected[told], Outcome::Disconnected));
        }
        let Some(last) = self.last.take() else {
            return None;
        };
        match parts(last) {
            Ok(completion) => Some(completion),
            Err(other) => {
                self.last.insert(other);
                None
            }
        }
    }
}

// The request that a notice completes, with its outcome; or the notice.
fn parts(notice: Notice) -> Result<(Handle, Outcome), Notice>
    ensures { Parts notice result }
{
    match notice {
        Notice::Completed(request, outcome) => Ok((request, outcome)),
        Notice::Live(channel) => Err(Notice::Live(channel)),
        Notice::Lost(channel) => Err(Notice::Lost(channel)),
        Notice::Update(subscription, outcome) => Err(Notice::Update(subscription, outcome)),
        Notice::SubscriptionEnded(subscription, status) => {
            Err(Notice::SubscriptionEnded(subscription, status))
        }
        Notice::WriteRefused(channel, status) => Err(Notice::WriteRefused(channel, status)),
    }
}
