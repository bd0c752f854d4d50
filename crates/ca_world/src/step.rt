//! Each event by its method: one `match` in `happen`. A moment is apart, because it may stop
//! half-way, between two clients.
ghost use Rattle.std.specs.Prelude.{◌≡◌, None};
ghost use Rattle.ca_events.specs.Events.{event_of, moment_of};
ghost use Rattle.ca_world.specs.Stepping.{IsClientCall, Steps};
ghost use Rattle.ca_world_data.specs.Does.{Does};

use crate::stopped::Stopped;
use crate::world::World;
use ca_events::Event;
use ca_text::Refusal;

/// What became of a world in which an event was to happen.
#[derive(Drop)]
pub enum AfterEvent {
    /// It happened.
    Done(World),
    /// It cannot be done (BadEvent), or there was no memory for it (OutOfMemory). Nothing changed.
    Refused(World, Refusal),
    /// It is a moment, which a beginning of the clients had. The next one had no memory for it.
    Stopped(Stopped),
}

impl World {
    /// An event happens, if it can be done and memory allows.
    pub fn step(self, event: &Event) -> AfterEvent
        ensures { Steps self (event_of event.now) result }
    {
        match event.moment() {
            Some(moment) => self.tick(moment),
            None => self.step_on(event),
        }
    }

    // An event that is no moment happens.
    fn step_on(self, event: &Event) -> AfterEvent
        requires { moment_of (event_of event.now) ≡ None }
        ensures { Steps self (event_of event.now) result }
    {
        let mut world = self;
        match world.happen(event) {
            Ok(()) => AfterEvent::Done(world),
            Err(refusal) => AfterEvent::Refused(world, refusal),
        }
    }

    // An event that is no moment happens, in place. What is refused changes nothing.
    pub(crate) fn happen(&mut self, event: &Event) -> Result<(), Refusal>
        requires { moment_of (event_of event.now) ≡ None }
        ensures { Does self.old (event_of event.now) result self.new }
    {
        match event {
            Event::ClientDatagram {
                client,
                from,
                bytes,
            } => self.client_datagram(*client as usize, *from, bytes),
            Event::ServerDatagram {
                server,
                from,
                bytes,
            } => self.server_datagram(*server as usize, *from, bytes),
            Event::Accept { client } => self.accept(*client as usize),
            Event::Up { circuit, bytes } => self.up(*circuit as usize, *bytes as usize),
            Event::Down { circuit, bytes } => self.down(*circuit as usize, *bytes as usize),
            Event::ServerStep { circuit } => self.server_step(*circuit as usize),
            Event::ClientStep { circuit } => self.client_step(*circuit as usize),
            Event::Pump { circuit } => self.pump(*circuit as usize),
            Event::CutClient { circuit } => self.cut_client(*circuit as usize),
            Event::CutServer { circuit } => self.cut_server(*circuit as usize),
            Event::ClientRestart { client } => self.client_restart(*client as usize),
            Event::ServerRestart { server } => self.server_restart(*server as usize),
            Event::Post(posting) => self.post(posting),
            Event::Finish { server, name } => self.finish(*server as usize, name),
            Event::Remove { server, name } => self.remove(*server as usize, name),
            Event::Add(addition) => self.add(addition),
            Event::Tick { .. } => unreachable!(),
            _ => self.call(event),
        }
    }

    // A caller of a client makes this call, in place.
    fn call(&mut self, event: &Event) -> Result<(), Refusal>
        requires { IsClientCall (event_of event.now) }
        ensures { Does self.old (event_of event.now) result self.new }
    {
        match *event {
            Event::Open {
                client,
                ref name,
                priority,
            } => self.open(client as usize, name, priority),
            Event::Clear { client, channel } => self.clear(client as usize, channel as usize),
            Event::Read {
                client,
                channel,
                data_type,
                count,
            } => self.read(client as usize, channel as usize, data_type, count),
            Event::Write {
                client,
                channel,
                ref value,
            } => self.write(client as usize, channel as usize, value),
            Event::WriteNotify {
                client,
                channel,
                ref value,
            } => self.write_notify(client as usize, channel as usize, value),
            Event::Subscribe {
                client,
                channel,
                data_type,
                count,
                mask,
            } => self.subscribe(client as usize, channel as usize, data_type, count, mask),
            Event::Unsubscribe {
                client,
                subscription,
            } => self.unsubscribe(client as usize, subscription as usize),
            Event::Collect { client, request } => self.collect(client as usize, request as usize),
            Event::GiveUp { client, request } => self.give_up(client as usize, request as usize),
            _ => unreachable!(),
        }
    }
}
