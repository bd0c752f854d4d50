//! Which lives each client had. Lives are numbered for all clients together: the first of each,
//! then one for each restart, in order.
ghost use Rattle.std.specs.Prelude.{◌≡◌, ◌++◌, ◌==◌, if◌then◌else◌, [], ◌∷◌, IfOk, OnOk, map};
ghost use Rattle.ca_events.specs.Events.{event_of};
ghost use Rattle.ca_world_script.specs.Whole.{lives_of, restarted, restarts};

use ca_events::Event;
use std::alloc::{AllocError, Global};

// The lives of a client, one of n, once these clients were restarted.
pub(crate) fn lives_of(
    alloc: Global,
    clients: usize,
    client: usize,
    restarted: &[u64],
) -> Result<Vec<usize>, AllocError>
    ensures { IfOk result (λ lives. lives.items ≡ lives_of clients client restarted.now) }
{
    let mut lives = Vec::new(alloc);
    lives.push(client)?;
    for place in 0..restarted.len() {
        let Some(life) = clients.checked_add(place) else {
            return Err(AllocError);
        };
        push_life(&mut lives, client, life, restarted[place])?;
    }
    Ok(lives)
}

// The restart of this client begins this life: it is put at the end, if it is that of the
// one that is asked for.
fn push_life(
    lives: &mut Vec<usize>,
    client: usize,
    life: usize,
    restarted: u64,
) -> Result<(), AllocError>
    ensures { OnOk result (lives.new.items
        ≡ (if restarted == client then lives.old.items ++ life ∷ [] else lives.old.items)) }
{
    if restarted == client as u64 {
        lives.push(life)?;
    }
    Ok(())
}

// The clients that events restart, in order.
pub(crate) fn restarts(alloc: Global, events: &[Event]) -> Result<Vec<u64>, AllocError>
    ensures { IfOk result (λ all. all.items ≡ restarts (map event_of events.now)) }
{
    let mut all = Vec::new(alloc);
    for event in events {
        push_restarted(event, &mut all)?;
    }
    Ok(all)
}

// Puts the client at the end that an event restarts, if it restarts one.
fn push_restarted(event: &Event, all: &mut Vec<u64>) -> Result<(), AllocError>
    ensures { OnOk result (all.new.items ≡ all.old.items ++ restarted (event_of event.now)) }
{
    match event {
        Event::ClientRestart { client } => {
            all.push(*client)?;
            Ok(())
        }
        _ => Ok(()),
    }
}
