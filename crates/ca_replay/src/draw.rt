//! Adds events drawn from a seed to those of a script. A world is run along, so that each drawn
//! event is one that can be done there.
ghost use Rattle.std.specs.Prelude.{◌≡◌, IfErr, IfOk, map};
ghost use Rattle.ca_text.specs.declared.refusal.Refusal.TheVariants.{OutOfMemory};
ghost use Rattle.ca_world_script.specs.Drawn.{numbers};
ghost use Rattle.ca_events.specs.Events.{event_of};
ghost use Rattle.ca_replay.specs.Drawing.{DrawsAlong, DrawsAt, DrawsSome, GoesAlong, Takes, draws};
ghost use Rattle.ca_replay.specs.Steps.{along, drawn_so};

use ca_events::Event;
use ca_text::Refusal;
use ca_world::{AfterEvent, Config, Way, World};
use ca_world_script::{DRAWS, Drawing, circuit_drawn, event_drawn};
use std::alloc::Global;

/// The events of a script with those that a seed draws, in a world of this setting.
/// Refused as OutOfMemory.
pub fn draw_events(
    alloc: Global,
    config: Config,
    events: Vec<Event>,
    seed: u64,
) -> Result<Vec<Event>, Refusal>
    ensures ok { IfOk result (λ all.
        DrawsAlong config seed (map event_of events.items) (map event_of all.items)) }
    ensures err { IfErr result (λ e. e ≡ OutOfMemory) }
{
    let mut all = Vec::new(alloc);
    let mut drawing = Drawing::new(seed);
    let mut here = Some(World::new(config)?);
    for event in events {
        here = go_along(here, event, &mut drawing, &mut all)?;
    }
    Ok(all)
}

// The next event of the script, in the world that is here until one cannot be done.
fn go_along(
    here: Option<World>,
    event: Event,
    drawing: &mut Drawing,
    all: &mut Vec<Event>,
) -> Result<Option<World>, Refusal>
    ensures ok { IfOk result (λ next. GoesAlong
        (along here drawing.old.generator all.old.items)
        (event_of event)
        (along next drawing.new.generator all.new.items)) }
    ensures err { IfErr result (λ e. e ≡ OutOfMemory) }
{
    let Some(world) = here else {
        all.push(event)?;
        return Ok(None);
    };
    match world.step(&event) {
        AfterEvent::Done(next) => {
            all.push(event)?;
            let last = draw_some(next, drawing, all)?;
            Ok(Some(last))
        }
        AfterEvent::Refused(_, refusal) => match refusal {
            Refusal::BadEvent => {
                all.push(event)?;
                Ok(None)
            }
            _ => Err(Refusal::OutOfMemory),
        },
        AfterEvent::Stopped(_) => Err(Refusal::OutOfMemory),
    }
}

// The numbers after an event that was done are drawn.
fn draw_some(world: World, drawing: &mut Drawing, all: &mut Vec<Event>) -> Result<World, Refusal>
    ensures ok { IfOk result (λ last. DrawsSome
        (drawn_so world drawing.old.generator all.old.items)
        draws
        (drawn_so last drawing.new.generator all.new.items)) }
    ensures err { IfErr result (λ e. e ≡ OutOfMemory) }
{
    let mut here = world;
    for _ in 0..DRAWS {
        let drawn = drawing.draw();
        here = draw_one(here, drawn, all)?;
    }
    Ok(here)
}

// The event of a number that was drawn happens, if it acts on a circuit and can be done there.
fn draw_one(world: World, drawn: u32, all: &mut Vec<Event>) -> Result<World, Refusal>
    ensures ok { IfOk result (λ new. DrawsAt
        world
        drawn
        (map event_of all.old.items)
        (map event_of all.new.items)
        new) }
    ensures err { IfErr result (λ e. e ≡ OutOfMemory) }
{
    let Some(circuit) = circuit_drawn(drawn, world.circuits()) else {
        return Ok(world);
    };
    let up = world.waiting(circuit, Way::Up);
    let down = world.waiting(circuit, Way::Down);
    let event = event_drawn(drawn, circuit, up, down);
    take_drawn(world, event, all)
}

// An event that was drawn happens, or is left out if it cannot be done.
fn take_drawn(world: World, event: Event, all: &mut Vec<Event>) -> Result<World, Refusal>
    ensures ok { IfOk result (λ new. Takes
        world
        (event_of event)
        (map event_of all.old.items)
        (map event_of all.new.items)
        new) }
    ensures err { IfErr result (λ e. e ≡ OutOfMemory) }
{
    match world.step(&event) {
        AfterEvent::Done(next) => {
            all.push(event)?;
            Ok(next)
        }
        AfterEvent::Refused(same, refusal) => match refusal {
            Refusal::BadEvent => Ok(same),
            _ => Err(Refusal::OutOfMemory),
        },
        AfterEvent::Stopped(_) => Err(Refusal::OutOfMemory),
    }
}
