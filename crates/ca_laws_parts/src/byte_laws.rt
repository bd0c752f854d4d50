//! The message that an end reads next is the next one that the other end sent. Also that everything
//! a client sends is a well-formed message; servers are in `sending.rt`.
ghost use Rattle.std.specs.Prelude.{◌≡◌, ◌+◌, ◌++◌, Bool, List, Ok, Option, Some, ℕ};
ghost use Rattle.ca_text.specs.Place.{At};
ghost use Rattle.ca_arena.specs.declared.handle.Handle.{Handle};
ghost use Rattle.ca_dbr.specs.Elements.{Elements};
ghost use Rattle.ca_ids.specs.Table.{under};
ghost use Rattle.ca_model.specs.Answers.{Closing, Notice, Sending};
ghost use Rattle.ca_model.specs.Client.{Client, ClientCircuit, Connection, ended};
ghost use Rattle.ca_model.specs.ClientCalls.{ClientClears, ClientOpens, ClientPuts, ClientReads};
ghost use Rattle.ca_model.specs.ClientCalls.{ClientSubscribes, ClientUnsubscribes, ClientWrites};
ghost use Rattle.ca_model.specs.ClientCalls.{Opening, Shape};
ghost use Rattle.ca_model.specs.ClientEnds.{ConnectsOn, GivesOn, circuits_ticked, searches_made};
ghost use Rattle.ca_model.specs.Hears.{Effect, Hears};
ghost use Rattle.ca_laws_parts.specs.Held.{AreFew};
ghost use Rattle.ca_wire.specs.Fields.{Fields};
ghost use Rattle.ca_wire.specs.Message.{IsMessage, Spells};
ghost use Rattle.ca_model.specs.Events.{Event};
ghost use Rattle.ca_model.specs.Runs.{Happens, Runs};
ghost use Rattle.ca_model.specs.World.{IsSetting, Setting, World, opening};
ghost use Rattle.ca_laws_parts.specs.Seats.{AllTakeSent, TakesSent};
ghost use Rattle.ca_laws_parts.specs.Runs.{HearsSent, Stands};
ghost use Rattle.ca_laws_parts.specs.Speaks.{ClientFits, SpeaksWell};
ghost use Rattle.ca_laws_parts.specs.Streams.{AreMessages, CircuitEnd, Streams};
ghost use Rattle.ca_laws_parts.specs.Worlds.{AllStream, ClientsSpeak, ServersSpeak};

/// The message that begins the bytes which came to an end is the next of those that the other end
/// sent, and after it so it is of the rest. What the other end sent are messages, and the bytes are
/// those of what it sent.
pub fn ends_take_what_was_sent()
    ensures first { (a b : CircuitEnd) (m : Fields) (front rest : List ℕ) → AreMessages a.sent
        → Streams a b → Spells front m → b.came ≡ front ++ rest
        → At a.sent b.read m × Streams a (record b { came = rest; read = b.read + 1 }) }
    // So it is of the message that an open end takes next: at a server, if all that clients sent
    // are messages; and at a client, if all that servers sent are.
    ensures server { (w : World) → AllStream w → ClientsSpeak w → TakesSent w }
    ensures client { (w : World) → AllStream w → ServersSpeak w → HearsSent w }
{}

/// Whatever event happens to a world, what its clients sent are messages, each field of its width,
/// the bytes on its circuits are those messages that were sent and not read, and its writes stay
/// sound. So it is after every run, and in each world on the way an end at a server takes next what
/// was sent to it next.
///
/// The setting is well-formed; nothing else is asked for.
pub fn bytes_are_messages_in_runs()
    ensures begins { (s : Setting) → IsSetting s → Stands s (opening s) }
    ensures event { (s : Setting) (w new : World) (e : Event) → IsSetting s → Happens w e new
        → Stands s w → Stands s new }
    ensures run { (s : Setting) (es : List Event) (stopped : Option Event) (w : World)
        → IsSetting s → Runs s es stopped w → Stands s w }
    ensures takes { (s : Setting) (es : List Event) → IsSetting s → AllTakeSent (opening s) es }
{}

/// All that a client's calls send are messages, each field of its width, and its core fits messages
/// after them; so it is as the client hears a message, whatever that is, as one of its ends ends or
/// is connected, and as bytes come or a moment is handed in.
///
/// Its core fits messages before. If a handle is looked up, its tables have no more
/// slots than an arena.
pub fn a_client_sends_messages()
    ensures opens { (x y : Client) (a : Opening) (q : Handle) (sent : List Sending) → ClientFits x
        → ClientOpens x a (Ok q) sent y → SpeaksWell y sent }
    ensures reads { (x y : Client) (h : Handle) (a : Shape) (q : Handle) (sent : List Sending)
        → ClientFits x → ClientReads x h a (Ok q) sent y → SpeaksWell y sent }
    ensures puts { (x y : Client) (h : Handle) (e : Elements) (q : Handle) (sent : List Sending)
        → ClientFits x → ClientPuts x h e (Ok q) sent y → SpeaksWell y sent }
    ensures writes { (x y : Client) (h : Handle) (e : Elements) (u : Unit {0})
        (sent : List Sending) → ClientFits x → ClientWrites x h e (Ok u) sent y
        → SpeaksWell y sent }
    ensures subscribes { (x y : Client) (h : Handle) (a : Shape) (mask : ℕ) (q : Handle)
        (sent : List Sending) → ClientFits x → ClientSubscribes x h a mask (Ok q) sent y
        → SpeaksWell y sent }
    ensures unsubscribes { (x y : Client) (s : Handle) (u : Unit {0}) (sent : List Sending)
        → AreFew x → ClientFits x → ClientUnsubscribes x s (Ok u) sent y → SpeaksWell y sent }
    ensures clears { (x y : Client) (h : Handle) (notices : List Notice) (sent : List Sending)
        → AreFew x → ClientFits x → ClientClears x h (Ok notices) sent y → SpeaksWell y sent }
    ensures hears { (x : Client) → AreFew x → ClientFits x → (c : Handle) (m : Fields)
        → IsMessage m → (e : Effect) → Hears x c m e → SpeaksWell e.core e.sent }
    ensures ends { (c : Handle) (x : Client) → ClientFits x → ClientFits (ended c x) }
    // Bytes come, a circuit is connected, or a moment is handed in.
    ensures gives { (x y : Client) (c : Handle) (bytes : List ℕ) (more : Bool)
        (o : Option Connection) (sent : List Sending) → ClientFits x
        → GivesOn x c bytes more o (Ok tt) sent y → SpeaksWell y sent }
    ensures connects { (x y : Client) (c : Handle) (d : ClientCircuit) (k : Option Closing)
        (sent : List Sending) → AreFew x → ClientFits x → under x.circuits c ≡ Some d
        → ConnectsOn x c (Some d) k sent y → SpeaksWell y sent }
    ensures ticks { (moment : ℕ) (x : Client) → ClientFits x
        → SpeaksWell (searches_made (circuits_ticked moment x)).core
        (searches_made (circuits_ticked moment x)).sent }
{}
