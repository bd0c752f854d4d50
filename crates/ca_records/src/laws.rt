//! One law on withdrawn puts, for the crates whose proofs need it.
ghost use Rattle.std.specs.Prelude.{◌≡◌, Bool, List};
ghost use Rattle.ca_records.specs.Puts as puts;
ghost use Rattle.ca_records.specs.Puts.{withdrawn};
ghost use Rattle.ca_records.specs.Writes.{HaveNone};
ghost use Rattle.ca_records.specs.declared.puts.Put.{Put};

/// If no waiting put is one that a test names, nothing is withdrawn.
pub fn nothing_is_withdrawn()
    ensures { (which : Put → Bool) (records : List puts.Record) → HaveNone which records
        → withdrawn which records ≡ records }
{}
