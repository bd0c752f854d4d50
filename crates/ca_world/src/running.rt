//! Runs of events in order, up to the last or to the first that cannot be done. The contract of
//! `run` says what is promised of any world where one ends.
ghost use Rattle.std.specs.Prelude.{◌≡◌, IfOk, map};
ghost use Rattle.ca_events.specs.Events.{event_of};
ghost use Rattle.ca_laws_parts.specs.Worlds.{AllStream};
ghost use Rattle.ca_model.specs.Worlds.{IsLegalWorld, IsSafeWorld};
ghost use Rattle.ca_world.specs.Running.{HasRun};

use crate::config::Config;
use crate::step::AfterEvent;
use crate::stopped::Stopped;
use crate::world::World;
use ca_events::Event;
use ca_text::Refusal;
use std::alloc::AllocError;

/// How far a run went.
#[derive(Drop)]
pub struct Ran {
    /// The world where it ended.
    pub world: Stopped,
    /// How many events were done.
    pub done: usize,
    /// Why the next one was not: BadEvent if it cannot be done, OutOfMemory if it can. None if
    /// there is no next one.
    pub refusal: Option<Refusal>,
}

/// Is told how far a run is.
pub trait Progress {
    /// The run has done n of all its events.
    fn has_done(&mut self, done: usize, all: usize);
}

// Tells nobody.
#[derive(Drop)]
struct Silence;

impl Progress for Silence {
    fn has_done(&mut self, _done: usize, _all: usize) {}
}

/// Runs events in order over the real cores, from the world before any event, as far as they can be
/// done and memory allows.
///
/// Whatever the events are, the world where the run ended is safe, and legal, and the bytes on its
/// circuits are those of the messages that were sent and not read. Refused if there was no memory
/// for the world before any event.
pub fn run(config: Config, events: &[Event]) -> Result<Ran, AllocError>
    ensures { IfOk result (λ r. HasRun
        config
        (map event_of events.now)
        r.done
        r.refusal
        r.world) }
{
    run_telling(config, events, &mut Silence)
}

/// `run`, which tells after each event how far it is.
pub fn run_telling<P: Progress>(
    config: Config,
    events: &[Event],
    progress: &mut P,
) -> Result<Ran, AllocError>
    ensures { IfOk result (λ r. HasRun
        config
        (map event_of events.now)
        r.done
        r.refusal
        r.world) }
{
    let many = events.len();
    let mut world = World::new(config)?;
    for place in 0..many {
        let event = &events[place];
        match event.moment() {
            None => match world.happen(event) {
                Ok(()) => {}
                Err(refusal) => {
                    let why = Some(refusal);
                    return Ok(ended(world.stop(), place, why));
                }
            },
            Some(_) => match world.step(event) {
                AfterEvent::Done(next) => world = next,
                AfterEvent::Refused(last, refusal) => {
                    let why = Some(refusal);
                    return Ok(ended(last.stop(), place, why));
                }
                AfterEvent::Stopped(last) => {
                    let why = Some(Refusal::OutOfMemory);
                    return Ok(ended(last, place, why));
                }
            },
        }
        progress.has_done(place + 1, many);
    }
    Ok(ended(world.stop(), many, None))
}

// How far a run went, and what is promised there.
fn ended(world: Stopped, done: usize, refusal: Option<Refusal>) -> Ran
    ensures world { result.world ≡ world }
    ensures done { result.done ≡ done }
    ensures refusal { result.refusal ≡ refusal }
    ensures safe { IsSafeWorld result.world }
    ensures legal { IsLegalWorld result.world }
    ensures bytes { AllStream result.world }
{
    world.know();
    Ran {
        world,
        done,
        refusal,
    }
}
