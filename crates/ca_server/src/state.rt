//! What is under the lock of a server: its core, and the counts of applied writes.
ghost use Rattle.std.specs.Prelude.{◌≡◌, ◌+◌, ◌≤◌, IfOk, replicate, sum};
ghost use Rattle.ca_model.specs.Server.{new_server};
ghost use Rattle.ca_model.specs.ServerCalls.{waiting};
ghost use Rattle.ca_records.specs.Records.{AreApart};
ghost use Rattle.ca_server.specs.Locked.{IsCounted};
ghost use Rattle.ca_text.specs.Limits.{applied_limit};

use ca_records::{Records, Rule};
use ca_server_core::ServerCore;
use ca_text::ARENA_SLOTS;
use std::alloc::{AllocError, Global};
use std::sync::ledger::{Book, Ledger, Share};

/// What a server's lock keeps.
#[derive(Drop)]
pub struct State<L: Ledger> {
    pub(crate) core: ServerCore,
    // How many applied writes the circuits' shares have together.
    pub(crate) count: u64,
    // For each index of a circuit's handle: how many of its puts that waited were applied
    // since its last step.
    pub(crate) credits: Vec<u64>,
    pub(crate) book: Book<L>,
    ghost counted: { IsCounted core count book.total credits.items },
}

impl<L: Ledger> State<L> {
    /// A server of this TCP port that begins at this moment with these records, under these rules.
    /// It has no circuit, and nothing is counted.
    pub fn new(
        book: Book<L>,
        port: u16,
        now: u64,
        records: &Records,
        rules: Vec<Rule>,
    ) -> Result<State<L>, AllocError>
        requires { book.total ≡ 0 }
        ensures { IfOk result (λ s.
            (s.core ≡ new_server port now rules.items records.now) × (s.count ≡ 0)
            × (sum s.credits.items ≡ 0)) }
    {
        know_apart(records);
        let credits = no_credits(*rules.allocator(), ARENA_SLOTS)?;
        Ok(State {
            core: ServerCore::new(port, now, records, rules)?,
            count: 0,
            credits,
            book,
        })
    }

    /// The count and all credits together are the writes that were applied, and with the puts that
    /// wait they are at most 2^63.
    pub fn know(&self)
        ensures applied { self.now.count + sum self.now.credits.items ≡ self.now.core.applied }
        ensures most { self.now.count + sum self.now.credits.items + waiting self.now.core
            ≤ applied_limit }
    {}

    /// The core, to be read.
    pub fn core(&self) -> &ServerCore
        ensures { result.now ≡ self.now.core }
    {
        &self.core
    }

    /// The count, for a caller that has all shares: it is their sum.
    pub fn audit(&mut self, all: &mut Share<L>) -> u64
        requires { all.old.parts ≡ L.parts }
        ensures sum { result ≡ all.old.amount }
        ensures count { result ≡ self.new.count }
        ensures state { (self.new.core ≡ self.old.core) × (self.new.count ≡ self.old.count)
            × (self.new.credits.items ≡ self.old.credits.items) }
        ensures share { (all.new.amount ≡ all.old.amount) × (all.new.parts ≡ all.old.parts) }
    {
        self.book.audit(all);
        self.count
    }
}

// No two of these records have one name.
fn know_apart(records: &Records)
    ensures { AreApart records.now }
{
    let _ = records.len();
}

// No credits, at n places.
fn no_credits(alloc: Global, places: usize) -> Result<Vec<u64>, AllocError>
    ensures { IfOk result (λ v. v.items ≡ replicate places 0) }
{
    let credits = vec![in alloc; 0; places]?;
    Ok(credits)
}
