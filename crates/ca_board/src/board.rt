//! The board and its calls. The core uses `arm`, `fill`, `recycle` and `take_back`; callers use
//! `collect`, `give_up` and `has_ended`. The atomic steps are in `steps.rt`.
ghost use Rattle.std.specs.Prelude.{◌≡◌, ◌≢◌, ◌≤◌, ◌+◌, ◌*◌, ◌⊎◌, ◌∷◌, ℕ, suc, None, [], IfOk};
ghost use Rattle.std.specs.Prelude.{IfErr, IsTrue, IsFalse};
ghost use Rattle.std.specs.Vec.{vec_capacity};
ghost use Rattle.ca_text.specs.Limits.{board_cells};
ghost use Rattle.ca_text.specs.declared.refusal.Refusal.TheVariants.{OutOfMemory};
ghost use Rattle.ca_board.specs.History.{Has, IsStock, holding, refused_too};
ghost use Rattle.ca_board.specs.Seats.{IsIdle, IsWaiting};
ghost use Rattle.ca_board.specs.Views.{core_start, caller_start, with_give_up, Found};
ghost use Rattle.ca_board.specs.Views.{HasFoundEnded, HasFoundOpen, IsDue, IsOutside, IsOwnOpen};
ghost use Rattle.ca_board.specs.Views.{HasArmed, HasCollected, HasFilled, HasGivenUp, HasRecycled};
ghost use Rattle.ca_board.specs.Views.{HasTakenBack};

use crate::seats::{CallerSeat, CoreSeat};
use crate::steps::{
    Arms, BoardSeat, Cells, FindsOut, GivesUp, Grabs, HandsBack, Looks, Meets, Newcomer, Puts,
    Recycles, Returns, Takes, TakesBack,
};
use crate::ticket::{Filled, Ticket};
use crate::word::{CellState, has_ended, is_past, is_waiting, word};
use ca_dbr::Outcome;
use ca_text::{BOARD_CELLS, LAST_GENERATION, Refusal};
use std::alloc::{AllocError, Global};
use std::marker::Model;

/// The cells in which outcomes are handed over. Contracts see it as which board it is.
#[derive(Drop)]
pub struct Board {
    pub(crate) cells: Cells,
}

impl Model for Board {
    ghost use Rattle.atomic_table.specs.Seated.{TableId, table_id_coded};
    ghost use Rattle.ca_board.specs.Seats.{IsBoard};

    ghost Value = { TableId };

    ghost coded = { table_id_coded };

    ghost view = { λ b. b.cells.shared.table_id };

    ghost invariant = { λ b. IsBoard b.cells.shared.table_id };
}

impl Board {
    /// A board with every cell free, and the seat of its core. Refused as OutOfMemory.
    pub fn new(alloc: Global) -> Result<(Board, CoreSeat), Refusal>
        ensures ok { IfOk result (λ r. r.1 ≡ core_start r.0) }
        ensures err { IfErr result (λ e. e ≡ OutOfMemory) }
    {
        let free = first_tickets(alloc)?;
        let (cells, seat) = Cells::vacant(alloc, &[0; BOARD_CELLS], BOARD_CELLS, &())?;
        Ok((Board { cells }, CoreSeat { seat, free }))
    }

    /// A new caller's seat, for any thread.
    pub fn caller(&self, core: &mut CoreSeat) -> CallerSeat
        requires { core.old.board ≡ self.now }
        ensures core { core.new ≡ core.old }
        ensures new { result ≡ caller_start self.now }
    {
        let seat = self.cells.shared.split_seat::<Newcomer>(&mut core.seat);
        CallerSeat { seat }
    }

    /// A ticket that was never armed, for a cell that is free. Refused as NoCell if every cell is
    /// in use: armed and not recycled since. A cell at its last generation is never recycled.
    pub fn arm(&self, core: &mut CoreSeat) -> Result<Ticket, Refusal>
        requires { core.old.board ≡ self.now }
        ensures { HasArmed core.old result core.new }
    {
        let Some(ticket) = core.free.pop() else {
            return Err(Refusal::NoCell);
        };
        let waiting = word(ticket, CellState::Waiting);
        self.cells
            .shared
            .store::<Arms>(&mut core.seat, ticket.cell, waiting);
        Ok(ticket)
    }

    // In line, since an outcome that is handed on through memory has the processor wait for
    // what was just written.
    /// Hands over the outcome of a ticket that was armed and not filled yet, or gives it back if
    /// the ticket was given up, also after its cell was recycled.
    #[inline(always)]
    pub fn fill(&self, core: &mut CoreSeat, ticket: Ticket, outcome: Outcome) -> Filled
        requires board { core.old.board ≡ self.now }
        requires due { IsDue core.old ticket }
        ensures { HasFilled core.old ticket outcome result core.new }
    {
        let words = &self.cells.shared;
        let cell = ticket.cell;
        let waiting = word(ticket, CellState::Waiting);
        let done = word(ticket, CellState::Done);
        if !self.grab(&mut core.seat, ticket) {
            return Filled::GivenUp(outcome);
        }
        match words.exchange(&mut core.seat, cell, Some(outcome)) {
            None => {}
            Some(_) => unreachable!(),
        }
        if words.compare_exchange::<Puts>(&mut core.seat, cell, waiting, done) == waiting {
            return Filled::Stored;
        }
        let outcome = words.exchange(&mut core.seat, cell, None);
        words.load::<Returns>(&mut core.seat, cell);
        Filled::GivenUp(outcome.unwrap())
    }

    // Takes the slot of a ticket's cell, or finds that the ticket was given up, and says which.
    //
    // The slot of any cell that waits may be taken. So a look at the word does, which costs less
    // than an exchange; and where the cell waits under a later ticket, the fill finds that.
    fn grab(&self, seat: &mut BoardSeat, ticket: Ticket) -> bool
        requires board { seat.old.table_id ≡ self.now }
        requires idle { IsIdle seat.old }
        requires due { IsWaiting seat.old ticket }
        ensures board { (seat.new.table_id ≡ seat.old.table_id) × (seat.new.id ≡ seat.old.id) }
        ensures taken { IsTrue result
            → seat.new.me ≡ (holding seat.old.me.0 (suc ticket.cell), (ticket.cell, None) ∷ []) }
        ensures gone { IsFalse result → seat.new.me ≡ (refused_too seat.old.me.0 ticket, []) }
    {
        let words = &self.cells.shared;
        if is_waiting(words.load::<Looks>(seat, ticket.cell)) {
            return true;
        }
        let waiting = word(ticket, CellState::Waiting);
        if words.compare_exchange::<Grabs>(seat, ticket.cell, waiting, waiting) != waiting {
            return false;
        }
        true
    }

    /// The outcome of a ticket, if it is there. One holder of a ticket gets it, once: a ticket that
    /// has ended never gives it again.
    pub fn collect(&self, caller: &mut CallerSeat, ticket: Ticket) -> Option<Outcome>
        requires { caller.old.board ≡ self.now }
        ensures { HasCollected caller.old ticket result caller.new }
    {
        let words = &self.cells.shared;
        let cell = ticket.cell;
        if cell >= BOARD_CELLS {
            return None;
        }
        let done = word(ticket, CellState::Done);
        let taken = word(ticket, CellState::Taken);
        let empty = word(ticket, CellState::Empty);
        if words.compare_exchange::<Takes>(&mut caller.seat, cell, done, taken) != done {
            return None;
        }
        let outcome = words.exchange(&mut caller.seat, cell, None);
        words.store::<HandsBack>(&mut caller.seat, cell, empty);
        Some(outcome.unwrap())
    }

    /// Ends a ticket: none, and a later fill of it is given back; or the outcome that
    /// was there already, which is then taken. It does nothing to a ticket that has
    /// ended, or was not armed yet.
    pub fn give_up(&self, caller: &mut CallerSeat, ticket: Ticket) -> Option<Outcome>
        requires { caller.old.board ≡ self.now }
        ensures { HasGivenUp caller.old ticket result caller.new }
    {
        if self.end_wait(caller, ticket) {
            return None;
        }
        self.collect(caller, ticket)
    }

    // Gives a ticket up if it still waits, and says whether it did.
    fn end_wait(&self, caller: &mut CallerSeat, ticket: Ticket) -> bool
        requires { caller.old.board ≡ self.now }
        ensures ended { IsTrue result
            → (caller.new ≡ with_give_up caller.old ticket) × IsOwnOpen caller.old ticket }
        ensures found { IsFalse result
            → IsOutside caller.old ticket caller.new
            ⊎ ((n : ℕ) × (n ≢ 8 * ticket.generation + 1) × Found caller.old ticket n caller.new) }
    {
        if ticket.cell >= BOARD_CELLS {
            return false;
        }
        let words = &self.cells.shared;
        let waiting = word(ticket, CellState::Waiting);
        let given_up = word(ticket, CellState::GivenUp);
        let seat = &mut caller.seat;
        if words.compare_exchange::<GivesUp>(seat, ticket.cell, waiting, given_up) != waiting {
            return false;
        }
        true
    }

    /// Whether a ticket has ended, so that no outcome comes of it: it was collected or given up, by
    /// whomever, or is for no cell. It is a look, which changes nothing.
    pub fn has_ended(&self, caller: &mut CallerSeat, ticket: Ticket) -> bool
        requires { caller.old.board ≡ self.now }
        ensures ended { IsTrue result → HasFoundEnded caller.old ticket caller.new }
        ensures open { IsFalse result → HasFoundOpen caller.old ticket caller.new }
    {
        if ticket.cell >= BOARD_CELLS {
            return true;
        }
        let words = &self.cells.shared;
        let found = words.load::<FindsOut>(&mut caller.seat, ticket.cell);
        is_past(found, ticket)
    }

    /// Frees a cell whose outcome was taken, or whose ticket was given up, and says whether it did.
    /// At its last generation a cell stays in use.
    pub fn recycle(&self, core: &mut CoreSeat, cell: usize) -> bool
        requires { core.old.board ≡ self.now }
        ensures freed { IsTrue result → HasRecycled core.old cell core.new }
        ensures kept { IsFalse result → core.new ≡ core.old }
    {
        let words = &self.cells.shared;
        if cell >= BOARD_CELLS {
            return false;
        }
        let ended = words.peek(cell);
        if !has_ended(ended) || ended / 8 >= u64::from(LAST_GENERATION) {
            return false;
        }
        let next = Ticket {
            cell,
            generation: (ended / 8) as u32 + 1,
        };
        let free = word(next, CellState::Free);
        if words.compare_exchange::<Recycles>(&mut core.seat, cell, ended, free) != ended {
            return false;
        }
        core.free.push_reserved(next);
        true
    }

    /// Takes back a ticket that was armed and not filled, whose cell was not freed since: it is
    /// never filled then, and its cell is free again, unless its generation was the last.
    pub fn take_back(&self, core: &mut CoreSeat, ticket: Ticket)
        requires board { core.old.board ≡ self.now }
        requires due { IsDue core.old ticket }
        requires kept { ¬ (Has core.old.recycles ticket) }
        ensures { HasTakenBack core.old ticket core.new }
    {
        let words = &self.cells.shared;
        let cell = ticket.cell;
        if ticket.generation >= LAST_GENERATION {
            let given_up = word(ticket, CellState::GivenUp);
            words.store::<TakesBack>(&mut core.seat, cell, given_up);
            words.split_seat::<Meets>(&mut core.seat);
            return;
        }
        let next = Ticket {
            cell,
            generation: ticket.generation + 1,
        };
        let freed = word(next, CellState::Free);
        words.store::<TakesBack>(&mut core.seat, cell, freed);
        words.split_seat::<Meets>(&mut core.seat);
        core.free.push_reserved(next);
    }
}

// The first ticket of each cell.
fn first_tickets(alloc: Global) -> Result<Vec<Ticket>, AllocError>
    ensures { IfOk result (λ v. IsStock [] [] v.items × (board_cells ≤ vec_capacity v)) }
{
    let mut free = Vec::with_capacity(alloc, BOARD_CELLS)?;
    for cell in 0..BOARD_CELLS {
        free.push_reserved(Ticket {
            cell,
            generation: 0,
        });
    }
    Ok(free)
}
