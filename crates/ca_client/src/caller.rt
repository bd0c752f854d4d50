//! A caller's seat at the board, from which it collects outcomes.
ghost use Rattle.std.specs.Prelude.{IsFalse, IsTrue};
ghost use Rattle.ca_board.specs.Views.{HasCollected, HasFoundEnded, HasFoundOpen, HasGivenUp};

use ca_board::{Board, CallerSeat, Ticket};
use ca_dbr::Outcome;
use std::marker::Model;
use std::sync::Arc;

/// A caller's seat, with the board that it is of. Contracts see it as the seat.
#[derive(Drop)]
pub struct Caller {
    pub(crate) board: Arc<Board>,
    pub(crate) seat: CallerSeat,
}

impl Model for Caller {
    ghost use Rattle.std.specs.Prelude.{◌≡◌};
    ghost use Rattle.std.specs.Arc.{arc_value};
    ghost use Rattle.ca_board.specs.Views.{CallerView};

    ghost Value = { CallerView };

    ghost view = { λ c. c.seat };

    ghost invariant = { λ c. c.seat.board ≡ arc_value c.board };
}

impl Caller {
    /// The outcome of a ticket, if it is there. It waits for nobody.
    pub fn collect(&mut self, ticket: Ticket) -> Option<Outcome>
        ensures { HasCollected self.old ticket result self.new }
    {
        self.board.collect(&mut self.seat, ticket)
    }

    /// Ends a ticket: its outcome, if that was there already. It waits for nobody.
    pub fn give_up(&mut self, ticket: Ticket) -> Option<Outcome>
        ensures { HasGivenUp self.old ticket result self.new }
    {
        self.board.give_up(&mut self.seat, ticket)
    }

    /// Whether a ticket has ended, so that no outcome comes of it. It waits for nobody,
    /// and changes nothing.
    pub fn has_ended(&mut self, ticket: Ticket) -> bool
        ensures ended { IsTrue result → HasFoundEnded self.old ticket self.new }
        ensures open { IsFalse result → HasFoundOpen self.old ticket self.new }
    {
        self.board.has_ended(&mut self.seat, ticket)
    }
}
