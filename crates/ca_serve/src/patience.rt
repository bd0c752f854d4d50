//! The limit, if there is one, on how long a client may take none of the bytes that wait for it:
//! then its circuit is cut.
use crate::circuit_socket::Written;
use crate::clock::moment_now;
use std::time::{Clock, Duration};

/// How long a circuit's socket may take nothing while bytes wait to be sent.
#[derive(Drop)]
pub(crate) struct Patience {
    // In milliseconds, if there is a limit.
    most: Option<u64>,
    // The moment since which it takes nothing.
    since: Option<u64>,
    pub(crate) is_over: bool,
}

impl Patience {
    pub(crate) fn new(most: Option<u64>) -> Patience {
        Patience {
            most,
            since: None,
            is_over: false,
        }
    }

    /// What a write left, and whether the socket took some: as one that failed, if it took nothing
    /// for too long.
    pub(crate) fn after<R: Clock>(&mut self, rt: &R, written: Written, took: bool) -> Written {
        let Some(most) = self.most else {
            return written;
        };
        if !matches!(written, Written::Some) {
            self.since = None;
            return written;
        }
        let now = moment_now(rt);
        match self.since {
            Some(since) if !took => {
                self.is_over = now.saturating_sub(since) >= most;
                if self.is_over {
                    return Written::Failed;
                }
            }
            _ => self.since = Some(now),
        }
        written
    }

    /// How long it may still take nothing.
    pub(crate) fn left<R: Clock>(&self, rt: &R) -> Option<Duration> {
        let most = self.most?;
        let gone = match self.since {
            Some(since) => moment_now(rt).saturating_sub(since),
            None => 0,
        };
        Some(Duration::from_millis(most.saturating_sub(gone).max(1)))
    }
}
