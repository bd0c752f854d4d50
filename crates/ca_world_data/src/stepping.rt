//! A step of a client's end of a circuit, with what it leaves in the history and the log.
ghost use Rattle.ca_client_core.specs.ForHistories.{sending_of};
ghost use Rattle.std.specs.Prelude.{◌≡◌, ◌+◌, ◌<◌, ◌≤◌, IfOk, OnOk, length, map, vec_capacity};
ghost use Rattle.std.specs.Prelude.{vec_len};
ghost use Rattle.ca_model.specs.ClientEvents.{heard_in};
ghost use Rattle.ca_model.specs.World.{log_length};
ghost use Rattle.ca_world_data.specs.ClientSteps.{EndsOn, HasRoomHeard, HearsOn, IsAbout, IsHeard};
ghost use Rattle.ca_world_data.specs.ClientSteps.{IsReadyToStep, StepsOn, TellsFew};
ghost use Rattle.ca_world_data.specs.Found.{AreNumbered};
ghost use Rattle.ca_world_data.specs.Logs.{HasRoom, lines_in};
ghost use Rattle.ca_world_data.specs.Named.{IsMeant};
ghost use Rattle.ca_world_data.specs.Seen.{client_of, joined_of};
ghost use Rattle.ca_world_data.specs.Sends.{HasRoomForAll, KeepsRoom};

use crate::client::ClientSide;
use crate::closing::close_client;
use crate::history::{Intent, Line, Step};
use crate::joined::Joined;
use crate::logs::reserve_lines;
use crate::room::reserve_list;
use crate::sending::{push_sendings, reserve_sendings};
use crate::telling::{tell_about, tell_all};
use ca_client_core::for_histories::{Sending, sent_by_step};
use ca_client_core::{Closing, Notices, Stepped};
use ca_text::Refusal;
use std::alloc::AllocError;

// What the next message is about that comes to the client of a circuit.
fn about_next(joined: &Joined) -> Intent
    ensures { IsAbout (joined_of joined.now) result }
{
    let next = joined.lists.heard.len();
    if next >= joined.lists.down.len() {
        return Intent::OfCircuit;
    }
    let place = joined.lists.down[next].place;
    if place >= joined.lists.up.len() {
        return Intent::OfCircuit;
    }
    joined.lists.up[place].intent
}

/// The end of this circuit at this client takes a step: what it read is in the history, what it
/// told is in the log, and what it sent went up; or it has ended. It tells no more than its
/// requests and channels have names, or one thing more.
///
/// Refused as OutOfMemory.
pub fn step_client(
    client: usize,
    circuit: usize,
    side: &mut ClientSide,
    circuits: &mut Vec<Joined>,
    logs: &mut Vec<Vec<Line>>,
) -> Result<(), Refusal>
    requires there { circuit < length circuits.old.items }
    requires numbered { AreNumbered
        side.old.circuits.items
        (map joined_of circuits.old.items)
        client }
    requires lives { side.old.life < length logs.old.items }
    requires meant { IsMeant (client_of side.old).names }
    requires few { TellsFew
        (length side.old.names.requests.items + length side.old.names.channels.items + 1)
        circuit
        (client_of side.old)
        (map joined_of circuits.old.items) }
    ensures steps { StepsOn
        client
        circuit
        (client_of side.old)
        (lines_in logs.old.items)
        (map joined_of circuits.old.items)
        result
        (client_of side.new)
        (lines_in logs.new.items)
        (map joined_of circuits.new.items) }
    ensures kept { side.new.circuits.items ≡ side.old.circuits.items }
{
    let few = side.names.requests.len() + side.names.channels.len() + 1;
    let sent = prepare_step(client, circuit, side, circuits, logs, few)?;
    match side.core.step(circuits[circuit].at_client) {
        Stepped::NeedBytes => Ok(()),
        Stepped::Notices(notices) => {
            hear(client, circuit, side, circuits, logs, sent, notices);
            Ok(())
        }
        Stepped::Closed(closing) => {
            end(circuit, side, circuits, logs, closing);
            Ok(())
        }
    }
}

// The end of this circuit read a message, and told this.
fn hear(
    client: usize,
    circuit: usize,
    side: &ClientSide,
    circuits: &mut Vec<Joined>,
    logs: &mut Vec<Vec<Line>>,
    sent: Vec<Sending>,
    notices: Notices,
)
    requires there { circuit < length circuits.old.items }
    requires numbered { AreNumbered
        side.now.circuits.items
        (map joined_of circuits.old.items)
        client }
    requires lives { side.now.life < length logs.old.items }
    requires meant { IsMeant (client_of side.now).names }
    requires lines { HasRoom (length notices) side.now.life logs.old.items }
    requires messages { HasRoomForAll client sent.items circuits.old.items }
    requires heard { HasRoomHeard circuit circuits.old.items }
    ensures { HearsOn
        client
        circuit
        (client_of side.now)
        notices
        (map sending_of sent.items)
        (lines_in logs.old.items)
        (map joined_of circuits.old.items)
        (lines_in logs.new.items)
        (map joined_of circuits.new.items) }
{
    let about = about_next(&circuits[circuit]);
    let logged = lines_logged(logs, side.life);
    tell_about(logs, side.life, about, &side.names, notices);
    let after = lines_logged(logs, side.life);
    note_client_step(circuits, circuit, logged, after);
    push_sendings(client, &side.circuits, &side.names, circuits, sent);
}

// The end of this circuit has ended, and told this.
fn end(
    circuit: usize,
    side: &ClientSide,
    circuits: &mut Vec<Joined>,
    logs: &mut Vec<Vec<Line>>,
    closing: Closing,
)
    requires there { circuit < length circuits.old.items }
    requires lines { HasRoom (length closing.notices) side.now.life logs.old.items }
    ensures { EndsOn
        circuit
        (client_of side.now)
        closing
        (lines_in logs.old.items)
        (map joined_of circuits.old.items)
        (lines_in logs.new.items)
        (map joined_of circuits.new.items) }
{
    tell_all(logs, side.life, &side.names, closing.notices);
    close_client(&mut circuits[circuit], closing.left);
}

// What the next message of a circuit will make its client send, with room for that on all circuits,
// for the step in the history of this one, and for n lines in the log.
fn prepare_step(
    client: usize,
    circuit: usize,
    side: &ClientSide,
    circuits: &mut Vec<Joined>,
    logs: &mut Vec<Vec<Line>>,
    lines: usize,
) -> Result<Vec<Sending>, AllocError>
    requires there { circuit < length circuits.old.items }
    requires numbered { AreNumbered
        side.now.circuits.items
        (map joined_of circuits.old.items)
        client }
    ensures circuits { map joined_of circuits.new.items ≡ map joined_of circuits.old.items }
    ensures logs { lines_in logs.new.items ≡ lines_in logs.old.items }
    ensures ready { IfOk result (λ sent. IsReadyToStep
        client
        circuit
        side.now
        lines
        sent.items
        circuits.new.items
        logs.new.items) }
{
    let sent = sent_by_step(&side.core, circuits[circuit].at_client)?;
    reserve_lines(logs, side.life, lines)?;
    reserve_sendings(client, &side.circuits, circuits, &sent)?;
    reserve_client_step(circuits, circuit)?;
    Ok(sent)
}

// Makes room for one more step of the client's end of this circuit. The client has as much
// room for its messages.
fn reserve_client_step(circuits: &mut Vec<Joined>, circuit: usize) -> Result<(), AllocError>
    requires { circuit < length circuits.old.items }
    ensures same { map joined_of circuits.new.items ≡ map joined_of circuits.old.items }
    ensures room { OnOk result (HasRoomHeard circuit circuits.new.items) }
    ensures keeps { KeepsRoom circuits.old.items circuits.new.items }
{
    reserve_client_step_in(&mut circuits[circuit])
}

// Makes room for one more step of the client's end.
fn reserve_client_step_in(joined: &mut Joined) -> Result<(), AllocError>
    ensures same { joined_of joined.new ≡ joined_of joined.old }
    ensures room { OnOk result (vec_len joined.new.lists.heard + 1
        ≤ vec_capacity joined.new.lists.heard) }
    ensures up { joined.new.lists.up ≡ joined.old.lists.up }
{
    reserve_list(&mut joined.lists.heard, 1)
}

// The client's end of this circuit made this step. There is room for it; the client has as much
// room for its messages.
fn note_client_step(circuits: &mut Vec<Joined>, circuit: usize, logged: usize, after: usize)
    requires there { circuit < length circuits.old.items }
    requires room { HasRoomHeard circuit circuits.old.items }
    ensures heard { IsHeard
        circuit
        logged
        after
        (map joined_of circuits.old.items)
        (map joined_of circuits.new.items) }
    ensures keeps { KeepsRoom circuits.old.items circuits.new.items }
{
    note_client_step_in(&mut circuits[circuit], logged, after);
}

// The client's end made this step. There is room for it.
fn note_client_step_in(joined: &mut Joined, logged: usize, after: usize)
    requires { vec_len joined.old.lists.heard + 1 ≤ vec_capacity joined.old.lists.heard }
    ensures heard { joined_of joined.new
        ≡ heard_in
        (record {
          sent = length (joined_of joined.old).lists.up;
          logged = logged;
          after = after;
        })
        (joined_of joined.old) }
    ensures up { joined.new.lists.up ≡ joined.old.lists.up }
{
    let sent = joined.lists.up.len();
    joined.lists.heard.push_reserved(Step {
        sent,
        logged,
        after,
    });
}

// How long the log of a life is.
fn lines_logged(logs: &[Vec<Line>], life: usize) -> usize
    ensures { result ≡ log_length life (lines_in logs.now) }
{
    if life < logs.len() {
        return logs[life].len();
    }
    0
}
