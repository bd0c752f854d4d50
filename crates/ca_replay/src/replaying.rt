//! A replay from script to report. Begin at `replay`: it reads the script, draws events if there is
//! a seed, and runs all of them.
ghost use Rattle.std.specs.Prelude.{◌≡◌, IfErr, IfOk, map};
ghost use Rattle.ca_text.specs.declared.refusal.Refusal.TheVariants.{OutOfMemory};
ghost use Rattle.ca_events.specs.Events.{event_of};
ghost use Rattle.ca_world_script.specs.Scripts.{RefusesScript};
ghost use Rattle.ca_replay.specs.Drawing.{DrawsAlong};
ghost use Rattle.ca_replay.specs.Replayed.{AreRun, Reported, Reports};
ghost use Rattle.ca_replay.specs.Settings.{AreFresh};

use crate::again::{clients_again, servers_again};
use crate::config::config_of;
use crate::draw::draw_events;
use crate::telling::Telling;
use ca_events::Event;
use ca_text::Refusal;
use ca_world::{ClientSetting, Config, Progress, ServerSetting, run_telling};
use ca_world_script::{Script, read_script, write_report};
use std::alloc::Global;
use std::io::Write;

/// Runs the events of a script in its world, with those that a seed draws: the report, and why the
/// run stopped before the last event, if it did. A long run tells on `err` how far it is, if that
/// is a terminal. Refused as BadText if a line of the script is not understood, and as OutOfMemory.
pub fn replay<W: Write>(
    alloc: Global,
    script: &[u8],
    seed: Option<u64>,
    err: &mut W,
    is_terminal: bool,
) -> Result<(Vec<u8>, Option<Refusal>), Refusal>
    ensures ok { IfOk result (λ r. Reported script.now seed r.1 r.0.items) }
    ensures err { IfErr result (RefusesScript script.now) }
{
    let Script {
        clients,
        servers,
        events,
    } = read_script(alloc, script)?;
    let events = events_run(alloc, &clients, &servers, events, seed)?;
    let config = config_of(alloc, clients, servers)?;
    run_all(alloc, config, &events, &mut Telling { err, is_terminal })
}

// The events that are run: those of a script, with those that the seed draws if there is one.
fn events_run(
    alloc: Global,
    clients: &[ClientSetting],
    servers: &[ServerSetting],
    events: Vec<Event>,
    seed: Option<u64>,
) -> Result<Vec<Event>, Refusal>
    requires { AreFresh servers.now }
    ensures ok { IfOk result (λ all. AreRun
        (record { clients = clients.now; servers = servers.now })
        seed
        (map event_of events.items)
        (map event_of all.items)) }
    ensures err { IfErr result (λ e. e ≡ OutOfMemory) }
{
    match seed {
        None => Ok(events),
        Some(seed) => draw_in(alloc, clients, servers, events, seed),
    }
}

// The events of a script with those that a seed draws, in a world of these clients and servers.
fn draw_in(
    alloc: Global,
    clients: &[ClientSetting],
    servers: &[ServerSetting],
    events: Vec<Event>,
    seed: u64,
) -> Result<Vec<Event>, Refusal>
    requires { AreFresh servers.now }
    ensures ok { IfOk result (λ all. DrawsAlong
        (record { clients = clients.now; servers = servers.now })
        seed
        (map event_of events.items)
        (map event_of all.items)) }
    ensures err { IfErr result (λ e. e ≡ OutOfMemory) }
{
    let clients = clients_again(alloc, clients)?;
    let servers = servers_again(alloc, servers)?;
    let config = config_of(alloc, clients, servers)?;
    draw_events(alloc, config, events, seed)
}

// Runs events: the report, and why the run stopped, if it did.
fn run_all<P: Progress>(
    alloc: Global,
    config: Config,
    events: &[Event],
    progress: &mut P,
) -> Result<(Vec<u8>, Option<Refusal>), Refusal>
    ensures ok { IfOk result (λ r.
        Reports config (map event_of events.now) r.1 r.0.items) }
    ensures err { IfErr result (λ e. e ≡ OutOfMemory) }
{
    let ran = run_telling(config, events, progress)?;
    let mut text = Vec::new(alloc);
    write_report(
        ran.world.clients().len(),
        &events[..ran.done],
        ran.world.client_logs(),
        &mut text,
    )?;
    Ok((text, ran.refusal))
}
