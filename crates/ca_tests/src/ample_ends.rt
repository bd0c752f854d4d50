//! Worlds after scripts, and after events that seeds draw: which ends are open, counted from the
//! events alone, and how many bytes an ended one left.
use ca_events::Event;
use ca_replay::{config_of, draw_events};
use ca_text::Refusal;
use ca_world::{Config, Stopped, Way, run};
use ca_world_script::{Script, read_script};
use std::alloc::Global;
use std::test::Fail;

/// A world of one client and one server, where a channel becomes live.
const LIVE: &str = "client anna hall
server 127.0.0.1:5064
record TEMP LONG 1 quick 21
open 0 TEMP 0
dgram client 0 127.0.0.1:5064 0006000813C80000FFFFFFFF00010000000D000000000000
accept 0
up 0 88
sstep 0
sstep 0
sstep 0
sstep 0
down 0 48
cstep 0
cstep 0
cstep 0
";

/// A read, a put that a restart of the server cuts off, and a second circuit.
const RESTART: &str = "read 0 0 5 1
up 0 16
sstep 0
down 0 24
cstep 0
write_notify 0 0 5 42
srestart 0
cut 0 client
dgram client 0 127.0.0.1:5064 0006000813C80000FFFFFFFF00010000000D000000000000
dgram client 0 127.0.0.1:5064 0006000813C80000FFFFFFFF00010000000D000000000000
dgram client 0 127.0.0.1:5064 0006000813C80000FFFFFFFF00010000000D000000000000
accept 0
up 1 88
sstep 1
sstep 1
sstep 1
sstep 1
down 1 48
cstep 1
cstep 1
cstep 1
dgram client 0 127.0.0.1:5064 0006000813C80000FFFFFFFF00010000000D000000000000
";

/// A put whose server ends before its reply is read.
const CUT: &str = "write_notify 0 0 5 42
up 0 24
sstep 0
cut 0 server
down 0 16
cstep 0
cut 0 client
";

/// A subscription, its first update and that of a post.
const UPDATES: &str = "subscribe 0 0 5 1 1
up 0 32
sstep 0
post 0 TEMP 1 22
pump 0
down 0 48
cstep 0
cstep 0
";

/// A subscription to what its own circuit writes.
const OWN: &str = "subscribe 0 0 5 1 1
up 0 32
sstep 0
write_notify 0 0 5 42
up 0 24
sstep 0
";

/// The script that goes on so from a live channel.
fn script_of(alloc: Global, rest: &str) -> Result<Script, Refusal> {
    let mut text = Vec::from_slice(alloc, LIVE.as_bytes())?;
    text.extend_from_slice(rest.as_bytes())?;
    read_script(alloc, &text)
}

fn world_of(alloc: Global, rest: &str) -> Result<(Config, Vec<Event>), Refusal> {
    let script = script_of(alloc, rest)?;
    Ok((
        config_of(alloc, script.clients, script.servers)?,
        script.events,
    ))
}

/// Where a run of these events ends, and how many were done.
fn ended(alloc: Global, rest: &str, events: &[Event]) -> Result<(Stopped, usize), Refusal> {
    let (config, _) = world_of(alloc, rest)?;
    let ran = run(config, events)?;
    Ok((ran.world, ran.done))
}

/// Which ends of circuits these events of one client and one server leave open, the server's first:
/// those that they neither cut nor restart.
fn open_after(alloc: Global, events: &[Event]) -> Result<Vec<[bool; 2]>, Refusal> {
    let mut open: Vec<[bool; 2]> = Vec::new(alloc);
    for event in events {
        match event {
            Event::Accept { .. } => open.push([true, true])?,
            Event::CutServer { circuit } => open[*circuit as usize][0] = false,
            Event::CutClient { circuit } => open[*circuit as usize][1] = false,
            Event::ServerRestart { .. } => close_all(&mut open, 0),
            Event::ClientRestart { .. } => close_all(&mut open, 1),
            _ => {}
        }
    }
    Ok(open)
}

fn close_all(open: &mut [[bool; 2]], end: usize) {
    for ends in open {
        ends[end] = false;
    }
}

/// Whether the ends that receive are those, and there is no circuit after them.
fn are_open(world: &Stopped, open: &[[bool; 2]]) -> bool {
    let none = open.len() as u64;
    world.circuits() == none
        && (0..none).all(|circuit| ends_of(world, circuit) == open[circuit as usize])
        && ends_of(world, none) == [false, false]
}

fn ends_of(world: &Stopped, circuit: u64) -> [bool; 2] {
    [
        world.receives(circuit, Way::Up),
        world.receives(circuit, Way::Down),
    ]
}

/// The bytes that wait on a circuit, for the server and for the client.
fn waiting_on(world: &Stopped, circuit: u64) -> [u64; 2] {
    [
        world.waiting(circuit, Way::Up),
        world.waiting(circuit, Way::Down),
    ]
}

/// Whether the script is done completely, and leaves just those ends closed that
/// it cuts or restarts.
fn leaves_ends(alloc: Global, rest: &str) -> Result<bool, Refusal> {
    let (_, events) = world_of(alloc, rest)?;
    let (world, done) = ended(alloc, rest, &events)?;
    Ok(done == events.len() && are_open(&world, &open_after(alloc, &events)?))
}

/// Whether the script and the events that a seed draws, as far as they can be done, leave just
/// those ends closed that they cut or restart.
fn leaves_ends_with(alloc: Global, rest: &str, seed: u64) -> Result<bool, Refusal> {
    let (config, events) = world_of(alloc, rest)?;
    let all = draw_events(alloc, config, events, seed)?;
    let (world, done) = ended(alloc, rest, &all)?;
    Ok(are_open(&world, &open_after(alloc, &all[..done])?))
}

#[test]
fn ample_ends(rt: HostRuntime) -> Result<(), Fail> {
    for rest in ["", RESTART, CUT, UPDATES, OWN] {
        assert!(rt; leaves_ends(rt.alloc(), rest)?);
    }
    for seed in 0..64 {
        assert!(rt; leaves_ends_with(rt.alloc(), RESTART, seed)?);
    }
    Ok(())
}

// The put that the cut end left is one message of 24 bytes; all else was read.
#[test]
fn bytes_wait_where_they_were_left(rt: HostRuntime) -> Result<(), Fail> {
    let (_, events) = world_of(rt.alloc(), RESTART)?;
    let (world, _) = ended(rt.alloc(), RESTART, &events)?;
    assert!(rt; waiting_on(&world, 0) == [24, 0]);
    assert!(rt; waiting_on(&world, 1) == [0, 0]);
    assert!(rt; waiting_on(&world, 2) == [0, 0]);
    Ok(())
}
