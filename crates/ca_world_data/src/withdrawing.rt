//! The puts that wait on a circuit whose end at its server ends.
ghost use Rattle.std.specs.Prelude.{[], ◌≡◌, ◌≢◌, ◌++◌, ◌==◌, IfOk, OnErr, OnOk, filter, map, not};
ghost use Rattle.ca_model.specs.ServerEvents.{without_puts};
ghost use Rattle.ca_world_data.specs.Seen.{entry_of, record_of};
ghost use Rattle.ca_world_data.specs.Withdrawing.{all_withdrawn, withdrawn_of};

use crate::history::LogEntry;
use crate::server::{PutPlace, RecordSide};
use std::alloc::{AllocError, Global};

/// What the log tells of the withdrawal of all puts that wait on this circuit, record by record. It
/// takes memory only if one does.
pub fn withdrawals(
    alloc: Global,
    circuit: usize,
    records: &[RecordSide],
) -> Result<Vec<LogEntry>, AllocError>
    ensures told { IfOk result (λ all. map entry_of all.items
        ≡ all_withdrawn circuit records.now) }
    ensures lacks { OnErr result (all_withdrawn circuit records.now ≢ []) }
{
    let mut all = Vec::new(alloc);
    for record in records {
        tell_withdrawn(&mut all, circuit, &record.waiting)?;
    }
    Ok(all)
}

// Tells of those among these puts that came on the circuit.
fn tell_withdrawn(
    all: &mut Vec<LogEntry>,
    circuit: usize,
    waiting: &[PutPlace],
) -> Result<(), AllocError>
    ensures told { OnOk result (map entry_of all.new.items
        ≡ map entry_of all.old.items ++ withdrawn_of circuit waiting.now) }
    ensures lacks { OnErr result (withdrawn_of circuit waiting.now ≢ []) }
{
    for put in waiting {
        if put.circuit == circuit {
            all.push(LogEntry::Withdrawn(put.circuit, put.place))?;
        }
    }
    Ok(())
}

/// Withdraws the puts that wait on this circuit.
pub fn withdraw(circuit: usize, records: &mut [RecordSide])
    ensures { map record_of records.new
        ≡ map (without_puts (λ n. n == circuit)) (map record_of records.old) }
{
    for record in records.iter_mut() {
        withdraw_from(circuit, &mut record.waiting);
    }
}

// Takes the puts of the circuit out.
fn withdraw_from(circuit: usize, waiting: &mut Vec<PutPlace>)
    ensures { waiting.new.items ≡ filter (λ p. not (p.circuit == circuit)) waiting.old.items }
{
    waiting.retain(|put| put.circuit != circuit);
}
