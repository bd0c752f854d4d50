//! The server: its records, its circuits, and the calls that move bytes.
ghost use Rattle.std.specs.Prelude.{◌≡◌, ◌≢◌, ◌≤◌, IfErr, IfOk, OnErr, false, length};
ghost use Rattle.ca_text.specs.declared.refusal.Refusal.TheVariants.{OutOfMemory};
ghost use Rattle.ca_model.specs.Server.{new_server};
ghost use Rattle.ca_ids.specs.Table.{has_free, under};
ghost use Rattle.ca_model.specs.ServerCalls.{stamped, waiting};
ghost use Rattle.ca_model.specs.ServerSteps.{Accepts, Gives, Sends, output_of};
ghost use Rattle.ca_server_core.specs.Circuits.{AreLive, GivesIn, OpensIn, SendsIn};

use ca_arena::Handle;
use ca_beacon::BeaconClock;
use ca_ids::HeldTable;
use ca_link::Spares;
use ca_records::{Records, Rule, ServedRecords};
use ca_server_circuit::Circuit;
use ca_server_watchers::Watchers;
use ca_text::Refusal;
use std::alloc::{AllocError, Global};
use std::marker::Model;

/// A server: its records, and its ends of circuits. It does no input and no output: bytes that came
/// are given to it, and those that wait to be sent are asked of it.
#[derive(Drop)]
pub struct ServerCore {
    pub(crate) alloc: Global,
    pub(crate) port: u16,
    pub(crate) records: ServedRecords,
    // The moment that was given last.
    pub(crate) moment: u64,
    pub(crate) circuits: HeldTable<Circuit>,
    // Spare memory for bytes: a circuit with none to read and none to send keeps none.
    pub(crate) spares: Spares,
    // The circuits with subscriptions on each record.
    pub(crate) watchers: Watchers,
    // The circuits with channels to each record.
    pub(crate) leading: Watchers,
    pub(crate) beacons: BeaconClock,
    // How many writes were applied.
    pub(crate) applied: u64,
}

impl Model for ServerCore {
    ghost use Rattle.ca_model.specs.Server.{Server};

    ghost Value = { Server };

    ghost use Rattle.std.specs.Coded.{codes};
    ghost use Rattle.ca_dbr.specs.Codes.{elements_code};

    ghost coded = { Prim.hlevel (codes, elements_code) };

    ghost use Rattle.ca_records.specs.Store.{records_of};
    ghost use Rattle.ca_server_core.specs.Covering.{IsServer};

    ghost view = { λ s.
        record {
          port = s.port;
          rules = s.records.rules;
          records = records_of s.records;
          stamp = s.records.stamp;
          moment = s.moment;
          circuits = s.circuits;
          beacons = s.beacons;
          applied = s.applied;
        } };

    ghost invariant = { λ s. IsServer (records_of s.records) s.watchers s.leading s.circuits };
}

impl ServerCore {
    /// A server of this TCP port that begins at this moment with these records, under these rules.
    /// It has no circuit. It is refused only if there are records, since these are copied.
    pub fn new(
        port: u16,
        now: u64,
        records: &Records,
        rules: Vec<Rule>,
    ) -> Result<ServerCore, AllocError>
        ensures ok { IfOk result (λ core.
            core ≡ new_server port now rules.items records.now) }
        ensures some { OnErr result (length records.now ≢ 0) }
    {
        let alloc = *rules.allocator();
        let records = ServedRecords::of(records, rules)?;
        Ok(ServerCore {
            alloc,
            port,
            records,
            moment: now,
            circuits: HeldTable::new(alloc),
            spares: Spares::new(alloc),
            watchers: Watchers::new(alloc),
            leading: Watchers::new(alloc),
            beacons: BeaconClock::new(now),
            applied: 0,
        })
    }

    /// A circuit is accepted, and gets a handle. Refused as ArenaFull if none may be given, then as
    /// OutOfMemory. A refusal changes nothing.
    ///
    /// It allocates only if no freed index can be used again.
    pub fn accept(&mut self) -> Result<Handle, Refusal>
        ensures call { Accepts self.old result self.new }
        ensures memory { IfErr result (λ e. e ≡ OutOfMemory → has_free self.old.circuits ≡ false) }
    {
        if self.circuits.is_full() {
            return Err(Refusal::ArenaFull);
        }
        let circuit = Circuit::new(self.alloc, self.moment);
        open_on(&mut self.circuits, circuit)
    }

    /// Takes bytes that came on a circuit. Refused as CircuitClosed if its end is not open, then as
    /// OutOfMemory. A refusal changes nothing.
    pub fn give(&mut self, circuit: Handle, bytes: &[u8]) -> Result<(), Refusal>
        ensures { Gives self.old circuit bytes.now result self.new }
    {
        give_on(
            &mut self.circuits,
            &mut self.spares,
            circuit,
            self.moment,
            bytes,
        )
    }

    /// The bytes that wait to be sent on a circuit: none if its end is not open.
    pub fn out_bytes(&self, circuit: Handle) -> &[u8]
        ensures { result.now ≡ output_of (under self.now.circuits circuit) }
    {
        match self.circuits.by_handle(circuit) {
            Some(found) => found.out_bytes(),
            None => &[],
        }
    }

    /// The first n of the bytes that wait on a circuit were handed over.
    pub fn sent(&mut self, circuit: Handle, n: usize)
        requires { n ≤ length (output_of (under self.old.circuits circuit)) }
        ensures { Sends self.old circuit n self.new }
    {
        sent_on(&mut self.circuits, &mut self.spares, circuit, n);
    }

    /// Writes that are applied from now on have this time stamp: seconds since 1990-01-01 00:00:00
    /// UTC, and nanoseconds.
    pub fn stamp(&mut self, seconds: u32, nanos: u32)
        ensures { self.new ≡ stamped (record { seconds = seconds; nanos = nanos }) self.old }
    {
        self.records.stamp(seconds, nanos);
    }

    /// How many writes were applied. It stays at 2^63.
    pub fn applied(&self) -> u64
        ensures { result ≡ self.now.applied }
    {
        self.applied
    }

    /// How many puts wait.
    pub fn waiting(&self) -> u64
        ensures { result ≡ waiting self.now }
    {
        self.records.waiting() as u64
    }
}

// Holds a circuit that is new, under a handle.
fn open_on(circuits: &mut HeldTable<Circuit>, circuit: Circuit) -> Result<Handle, Refusal>
    ensures { OpensIn circuits.old circuit result circuits.new }
{
    match circuits.open(circuit) {
        Ok(handle) => Ok(handle),
        Err(refused) => Err(refusal_in(refused)),
    }
}

// Why a circuit was refused. The circuit is dropped.
fn refusal_in(refused: (Circuit, Refusal)) -> Refusal
    ensures { result ≡ refused.1 }
{
    let (_, refusal) = refused;
    refusal
}

// Takes bytes that came on a circuit at this moment.
fn give_on(
    circuits: &mut HeldTable<Circuit>,
    spares: &mut Spares,
    circuit: Handle,
    now: u64,
    bytes: &[u8],
) -> Result<(), Refusal>
    requires { AreLive circuits.old }
    ensures { GivesIn circuits.old circuit now bytes.now result circuits.new }
{
    let Some(found) = circuits.by_handle_mut(circuit) else {
        return Err(Refusal::CircuitClosed);
    };
    found.borrow_from(spares);
    found.give(now, bytes)
}

// The first n of the bytes that wait on a circuit were handed over.
fn sent_on(circuits: &mut HeldTable<Circuit>, spares: &mut Spares, circuit: Handle, n: usize)
    requires { n ≤ length (output_of (under circuits.old circuit)) }
    ensures { SendsIn circuits.old circuit n circuits.new }
{
    let Some(found) = circuits.by_handle_mut(circuit) else {
        return;
    };
    found.sent(n);
    found.give_back(spares);
}
