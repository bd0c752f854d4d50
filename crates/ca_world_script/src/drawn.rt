//! What a drawn number is: an event on a circuit. Half of the numbers move up to 64 bytes, most
//! others are steps and pumps, and one in 512 cuts the circuit at its client.
ghost use Rattle.std.specs.Prelude.{◌≡◌};
ghost use Rattle.ca_events.specs.Events.{event_of};
ghost use Rattle.ca_world_script.specs.Drawn.{bytes_drawn, circuit_drawn, event_drawn};

use ca_events::Event;

/// The circuit on which a number that was drawn acts, of n: none if there is none.
pub fn circuit_drawn(drawn: u32, circuits: u64) -> Option<u64>
    ensures { result ≡ circuit_drawn drawn circuits }
{
    if circuits == 0 {
        return None;
    }
    Some(u64::from(drawn / 8) % circuits)
}

/// The event that a number is on this circuit, if these numbers of bytes wait for the
/// server and for the client.
pub fn event_drawn(drawn: u32, circuit: u64, up: u64, down: u64) -> Event
    ensures { event_of result ≡ event_drawn drawn circuit up down }
{
    let way = drawn % 8;
    if way == 0 || way == 5 {
        return Event::Up {
            circuit,
            bytes: bytes_drawn(drawn, up),
        };
    }
    if way == 1 || way == 6 {
        return Event::Down {
            circuit,
            bytes: bytes_drawn(drawn, down),
        };
    }
    if way == 2 {
        return Event::ServerStep { circuit };
    }
    if way == 4 {
        return Event::Pump { circuit };
    }
    if way == 7 && drawn / 65536 % 64 == 0 {
        return Event::CutClient { circuit };
    }
    Event::ClientStep { circuit }
}

// How many bytes move, if n wait.
fn bytes_drawn(drawn: u32, waiting: u64) -> u64
    ensures { result ≡ bytes_drawn drawn waiting }
{
    let most = u64::from(1 + drawn / 256 % 64);
    if most < waiting { most } else { waiting }
}
