//! The two kinds of seat. A contract sees a seat as the board it is of, and what was done with it.
use crate::steps::BoardSeat;
use crate::ticket::Ticket;
use std::marker::Model;

/// The seat of a board's one core, with which it arms, fills and recycles.
#[derive(Drop)]
pub struct CoreSeat {
    pub(crate) seat: BoardSeat,
    // The next ticket of each cell that is free. The cell that was freed last is at the end.
    pub(crate) free: Vec<Ticket>,
}

impl Model for CoreSeat {
    ghost use Rattle.std.specs.Vec.{vec_capacity};
    ghost use Rattle.ca_board.specs.Views.{CoreView};

    ghost Value = { CoreView };

    ghost use Rattle.ca_board.specs.Seats.{seen_by_core, IsCoreSeat};

    ghost view = { λ s. seen_by_core s.seat };

    ghost invariant = { λ s. IsCoreSeat s.seat s.free.items (vec_capacity s.free) };
}

/// A caller's seat, with which it collects.
#[derive(Drop)]
pub struct CallerSeat {
    pub(crate) seat: BoardSeat,
}

impl Model for CallerSeat {
    ghost use Rattle.ca_board.specs.Views.{CallerView};

    ghost Value = { CallerView };

    ghost use Rattle.ca_board.specs.Seats.{seen_by_caller, IsCallerSeat};

    ghost view = { λ s. seen_by_caller s.seat };

    ghost invariant = { λ s. IsCallerSeat s.seat };
}
