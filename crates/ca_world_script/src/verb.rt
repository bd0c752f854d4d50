//! The words with which lines of events begin, but for `post` and `add`: these also need, or
//! change, what is known of the types of records.
ghost use Rattle.std.specs.Prelude.{◌≡◌, MatchOption};
ghost use Rattle.ca_world_script.specs.Events.{verb_word};
ghost use Rattle.ca_world_script.specs.declared.verb.Verb.{Verb};

/// The first word of the line of an event other than a post and the addition of a record.
#[derive(Clone, Copy, Debug, PartialEq, Eq)]
pub(crate) enum Verb {
    Open,
    Clear,
    Read,
    Write,
    WriteNotify,
    Subscribe,
    Unsubscribe,
    Collect,
    GiveUp,
    Datagram,
    Accept,
    Up,
    Down,
    ServerStep,
    ClientStep,
    Pump,
    Cut,
    ClientRestart,
    ServerRestart,
    Finish,
    Remove,
    Tick,
}

impl Verb {
    // The verb that this word is, if it is one.
    pub(crate) fn of(word: &[u8]) -> Option<Verb>
        ensures { MatchOption result ((v : Verb) → verb_word v ≡ word.now → ⊥)
            (λ v. verb_word v ≡ word.now) }
    {
        let Ok(text) = str::from_utf8(word) else {
            return None;
        };
        // Those that a script has most are first.
        match text {
            "up" => Some(Verb::Up),
            "sstep" => Some(Verb::ServerStep),
            "down" => Some(Verb::Down),
            "cstep" => Some(Verb::ClientStep),
            "pump" => Some(Verb::Pump),
            "read" => Some(Verb::Read),
            "open" => Some(Verb::Open),
            "clear" => Some(Verb::Clear),
            "write" => Some(Verb::Write),
            "write_notify" => Some(Verb::WriteNotify),
            "subscribe" => Some(Verb::Subscribe),
            "unsubscribe" => Some(Verb::Unsubscribe),
            "collect" => Some(Verb::Collect),
            "give_up" => Some(Verb::GiveUp),
            "dgram" => Some(Verb::Datagram),
            "accept" => Some(Verb::Accept),
            "cut" => Some(Verb::Cut),
            "crestart" => Some(Verb::ClientRestart),
            "srestart" => Some(Verb::ServerRestart),
            "finish" => Some(Verb::Finish),
            "remove" => Some(Verb::Remove),
            "tick" => Some(Verb::Tick),
            _ => None,
        }
    }
}
