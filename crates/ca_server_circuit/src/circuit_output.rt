//! Bytes that leave a circuit: those that only it has, and images that several circuits share.
ghost use Rattle.std.specs.Prelude.{◌≡◌, ◌<◌, ◌++◌, [], IfSome, OnErr, OnOk, length, nat_le, true};
ghost use Rattle.std.specs.Arc.{arc_value};
ghost use Rattle.std.specs.List.{flat_map};
ghost use Rattle.ca_text.specs.Limits.{output_limit};
ghost use Rattle.ca_link.specs.Link.{with_handed};
ghost use Rattle.ca_wire.specs.Message.{spelling};
ghost use Rattle.ca_server_subscriptions.specs.Sharing.{IsUpdateOf};
ghost use Rattle.ca_server_circuit.specs.CircuitOutput.{addressed, bytes_of};

use ca_link::Link;
use ca_server_subscriptions::{SharedUpdate, Update};
use ca_text::OUTPUT_LIMIT;
use ca_wire::{Header, Ioid, Pipe, spell_header};
use std::alloc::{AllocError, Global};
use std::marker::Model;
use std::sync::Arc;

/// Whole messages, and an update whose image is shared.
#[derive(Drop)]
pub struct Piece {
    before: Pipe,
    header: Vec<u8>,
    shared: Arc<SharedUpdate>,
}

impl Model for Piece {
    ghost use Rattle.std.specs.Prelude.{ℕ, List};

    ghost Value = { List ℕ };

    ghost use Rattle.std.specs.Prelude.{◌++◌};
    ghost use Rattle.std.specs.Arc.{arc_value};

    ghost view = { λ p. (p.before ++ p.header.items) ++ (arc_value p.shared).update.payload };
}

impl Piece {
    /// The messages before the update, the header of the update, and its image with padding: all of
    /// the piece.
    pub fn parts(&self) -> (&[u8], &[u8], &[u8])
        ensures { self.now ≡ (result.0.now ++ result.1.now) ++ result.2.now }
    {
        (
            self.before.bytes(),
            self.header.as_slice(),
            self.shared.update().payload(),
        )
    }
}

/// All bytes that leave a circuit at once: pieces, and whole messages after the last of them.
#[derive(Drop)]
pub struct CircuitOutput {
    pieces: Vec<Piece>,
    // How many bytes the pieces have.
    size: usize,
    last: Pipe,
    // Whether images are shared.
    shares: bool,
}

impl Model for CircuitOutput {
    ghost use Rattle.ca_server_circuit.specs.CircuitOutput.{OutputState};

    ghost Value = { OutputState };

    ghost use Rattle.std.specs.Prelude.{◌≡◌, ◌<◌, length};
    ghost use Rattle.std.specs.List.{flat_map};

    ghost view = { λ o.
        record { before = flat_map (λ p. p) o.pieces.items; last = o.last; shares = o.shares } };

    // 262,144 bytes at most, and after them one more update.
    ghost invariant = { λ o. (o.size ≡ length (flat_map (λ p. p) o.pieces.items))
        × (o.size < 20000000) };
}

impl CircuitOutput {
    /// No bytes.
    pub fn new(alloc: Global) -> CircuitOutput
        ensures { result ≡ record { before = []; last = []; shares = true } }
    {
        CircuitOutput::sharing(alloc, true)
    }

    /// No bytes, and images are shared or not.
    pub(crate) fn sharing(alloc: Global, shares: bool) -> CircuitOutput
        ensures { result ≡ record { before = []; last = []; shares = shares } }
    {
        CircuitOutput {
            pieces: Vec::new(alloc),
            size: 0,
            last: Pipe::new(alloc),
            shares,
        }
    }

    /// The pieces, in their order.
    pub fn pieces(&self) -> &[Piece]
        ensures { self.now.before ≡ flat_map (λ p. p) result.now }
    {
        self.pieces.as_slice()
    }

    /// The bytes after them.
    pub fn last(&self) -> &[u8]
        ensures { result.now ≡ self.now.last }
    {
        self.last.bytes()
    }

    /// How many bytes there are.
    pub fn len(&self) -> usize
        ensures { result ≡ length (bytes_of self.now) }
    {
        self.size + self.last.bytes().len()
    }

    /// There are no bytes any more.
    pub fn clear(&mut self)
        ensures { self.new ≡ record self.old { before = []; last = [] } }
    {
        self.pieces.clear();
        self.size = 0;
        self.last.truncate(0);
    }

    /// All bytes of this pipe leave, and none of it are left there. It does not allocate.
    pub fn take(&mut self, from: &mut Pipe)
        ensures to { self.new ≡ record self.old { before = []; last = from.old } }
        ensures from { from.new ≡ [] }
    {
        self.clear();
        from.hand_over(&mut self.last);
    }

    /// Whether as many bytes have left, or wait on the link, as may.
    pub(crate) fn is_full(&self, link: &Link) -> bool
        ensures { result ≡ nat_le output_limit (length (self.now.before ++ link.now.output)) }
    {
        self.size + link.out_bytes().len() >= OUTPUT_LIMIT
    }

    /// What this update shares, if images are shared, and it is the update in this type, of so many
    /// elements.
    pub(crate) fn shared<'a>(
        &self,
        update: &'a Update,
        data_type: u16,
        count: u32,
    ) -> Option<&'a Arc<SharedUpdate>>
        ensures shares { IfSome result (λ a. self.now.shares ≡ true) }
        ensures shows { IfSome result (λ a. IsUpdateOf update.now (arc_value a.now).update) }
        ensures data_type { IfSome result (λ a.
            (arc_value a.now).update.data_type ≡ data_type) }
        ensures count { IfSome result (λ a. (arc_value a.now).update.count ≡ count) }
    {
        if !self.shares {
            return None;
        }
        update.shared(data_type, count)
    }

    /// Takes what waits on a link, and then what is shared as the update to the subscription of
    /// this id. Without memory all is as it was.
    pub(crate) fn share(
        &mut self,
        alloc: Global,
        link: &mut Link,
        id: Ioid,
        shared: &Arc<SharedUpdate>,
    ) -> Result<(), AllocError>
        requires room { length (self.old.before ++ link.old.output) < output_limit }
        ensures ok { OnOk result (self.new ≡ record self.old {
          before = self.old.before
              ++ (link.old.output ++ spelling (addressed id (arc_value shared.now).update));
        }) }
        ensures link { OnOk result (link.new
            ≡ with_handed (length link.old.output) link.old) }
        ensures err { OnErr result (self.new ≡ self.old) }
        ensures still { OnErr result (link.new ≡ link.old) }
    {
        let header = Header {
            p2: id.number(),
            ..shared.update().header()
        };
        let mut spelled = Vec::new(alloc);
        spell_header(&header, &mut spelled)?;
        self.pieces.reserve(1)?;
        let shared = Arc::try_clone(shared)?;
        let size = link.out_bytes().len() + spelled.len() + shared.update().payload().len();
        let mut before = Pipe::new(alloc);
        link.hand_over(&mut before);
        self.size += size;
        self.pieces.push_reserved(Piece {
            before,
            header: spelled,
            shared,
        });
        Ok(())
    }

    /// Takes what waits on a link, after the pieces. Up to this many bytes are copied: so memory
    /// for many stays with the circuits that send many. The others come with their memory.
    pub(crate) fn take_last(&mut self, copied: usize, link: &mut Link)
        requires { self.old.last ≡ [] }
        ensures to { self.new ≡ record self.old { last = link.old.output } }
        ensures link { link.new ≡ with_handed (length link.old.output) link.old }
    {
        let count = link.out_bytes().len();
        if count <= copied && self.last.push(link.out_bytes()).is_ok() {
            link.sent(count);
        } else {
            link.hand_over(&mut self.last);
        }
    }
}
