//! A circuit that is wanted is connected: what waits on it then.
ghost use Rattle.std.specs.Prelude.{◌≡◌, ◌≤◌, ◌∷◌, [], IfOk, OnOk, Some};
ghost use Rattle.ca_text.specs.Limits.{priority_limit};
ghost use Rattle.ca_arena.specs.Arena.{place_at};
ghost use Rattle.ca_ids.specs.Table.{held_at, with_changed};
ghost use Rattle.ca_link.specs.Calls.{IsOpen};
ghost use Rattle.ca_monitor.specs.ReadRun.{no_reads};
ghost use Rattle.ca_link.specs.Link.{new_link, with_sent};
ghost use Rattle.ca_model.specs.Client as client;
ghost use Rattle.ca_model.specs.ClientEnds.{is_connecting};
ghost use Rattle.ca_client_tables.specs.Forms.{phase_of};
ghost use Rattle.ca_client_tables.specs.Connecting.{creations_at, creations_in, greeting};

use crate::channel::{Channel, Phase, Standing, is_same};
use crate::channels::Channels;
use crate::circuit::{ClientCircuit, Connection};
use ca_arena::Handle;
use ca_ids::HeldTable;
use ca_link::Link;
use ca_monitor::ReadRun;
use ca_text::{Command, PAYLOAD_LIMIT};
use ca_wire::{Message, Priority, name_request, version_request};
use std::alloc::{AllocError, Global};

// Puts a message after what waits on an open link.
fn send(link: &mut Link, message: &Message) -> Result<(), AllocError>
    requires { IsOpen link.old }
    ensures { OnOk result (link.new ≡ with_sent (message.now ∷ []) link.old) }
{
    match link.queue_own(message) {
        Ok(()) => Ok(()),
        Err(_) => Err(AllocError),
    }
}

/// The end of a circuit that is connected at this moment, under this priority: its set-up waits on
/// it, by this user at this host, and then the CREATE_CHANs of the channels that wait for this
/// circuit, in order of index.
///
/// A name that has no room in a message counts as out of memory.
pub fn new_connection(
    alloc: Global,
    moment: u64,
    priority: u16,
    user: &[u8],
    host: &[u8],
    channels: &Channels,
    circuit: Handle,
) -> Result<Connection, AllocError>
    requires { priority ≤ priority_limit }
    ensures { IfOk result (λ e. e ≡ record {
      link = with_sent
          (creations_in circuit channels.now)
          (with_sent (greeting priority user.now host.now) (new_link moment));
      run = no_reads;
    }) }
{
    let mut link = Link::new(alloc, moment);
    set_up(alloc, &mut link, priority, user, host)?;
    create_all(alloc, &mut link, channels, circuit)?;
    Ok(Connection {
        link,
        run: ReadRun::new(),
    })
}

// VERSION, CLIENT_NAME and HOST_NAME wait on a link. A name that has no room in a message
// counts as out of memory.
fn set_up(
    alloc: Global,
    link: &mut Link,
    priority: u16,
    user: &[u8],
    host: &[u8],
) -> Result<(), AllocError>
    requires open { IsOpen link.old }
    requires within { priority ≤ priority_limit }
    ensures { OnOk result (link.new
        ≡ with_sent (greeting priority user.now host.now) link.old) }
{
    if user.len() >= PAYLOAD_LIMIT || host.len() >= PAYLOAD_LIMIT {
        return Err(AllocError);
    }
    let priority = match Priority::read(u64::from(priority)) {
        Ok(priority) => priority,
        Err(_) => unreachable!(),
    };
    send(link, &version_request(alloc, priority))?;
    send(link, &name_request(alloc, Command::ClientName, user)?)?;
    send(link, &name_request(alloc, Command::HostName, host)?)?;
    Ok(())
}

// The CREATE_CHAN of each channel that waits for this circuit waits on a link, in order of index.
fn create_all(
    alloc: Global,
    link: &mut Link,
    channels: &Channels,
    circuit: Handle,
) -> Result<(), AllocError>
    requires { IsOpen link.old }
    ensures { OnOk result (link.new ≡ with_sent (creations_in circuit channels.now) link.old) }
{
    let on = channels.on(circuit);
    for place in 0..on.len() {
        create_at(alloc, link, channels, circuit, on.at(place))?;
    }
    Ok(())
}

// The CREATE_CHAN of the channel at this index, if it waits for this circuit, waits on a link.
fn create_at(
    alloc: Global,
    link: &mut Link,
    channels: &Channels,
    circuit: Handle,
    index: usize,
) -> Result<(), AllocError>
    requires { IsOpen link.old }
    ensures { OnOk result (link.new
        ≡ with_sent
        (creations_at circuit (held_at index (place_at channels.now index)))
        link.old) }
{
    let Some((handle, channel)) = channels.at(index) else {
        return Ok(());
    };
    if !channel.is_connecting_on(circuit) {
        return Ok(());
    }
    let message = channel.create_message(alloc, handle)?;
    send(link, &message)?;
    Ok(())
}

/// A circuit has this end.
pub fn connect(circuits: &mut HeldTable<ClientCircuit>, circuit: Handle, connection: Connection)
    ensures { circuits.new
        ≡ with_changed
        (λ d. record d { connection = Some connection })
        circuit
        circuits.old }
{
    if let Some(found) = circuits.by_handle_mut(circuit) {
        found.connection = Some(connection);
    }
}

impl Channel {
    /// Whether it waits for this circuit to be connected.
    pub fn is_connecting_on(&self, circuit: Handle) -> bool
        ensures { result ≡ client.is_on_in is_connecting circuit self.now }
    {
        match self.standing() {
            Standing::Searching => false,
            Standing::On(on, phase) => is_same(on, circuit) && phase.is_connecting(),
        }
    }
}

impl Phase {
    // Whether the channel waits for its circuit to be connected.
    fn is_connecting(self) -> bool
        ensures { result ≡ is_connecting (phase_of self) }
    {
        matches!(self, Phase::Connecting)
    }
}
