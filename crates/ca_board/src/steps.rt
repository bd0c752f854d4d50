//! What the words and the slots hold, what a seat knows, and the steps.
//!
//! A cell has one word, which holds its generation and its state, and one slot. The slot has the
//! outcome while the cell is done.
use crate::ticket::Ticket;
use atomic_table::{Join, Play, Seat, Split, Table, TableRule};
use ca_dbr::Outcome;
use std::alloc::Global;
use std::collections::LinkedList;

/// What the core did, in order. No value of it is made.
pub struct CoreLog {
    pub arms: LinkedList<Ticket>,
    pub fills: LinkedList<(Ticket, Outcome)>,
    /// Tickets that are not filled: the fill came after a give-up, or the core
    /// took the ticket back.
    pub refused: LinkedList<Ticket>,
    pub recycles: LinkedList<Ticket>,
    /// 0, or 1 more than the cell whose slot it holds.
    pub hand: u64,
}

/// What a caller did, in order.
pub struct CallerLog {
    pub takes: LinkedList<(Ticket, Outcome)>,
    pub gives: LinkedList<Ticket>,
    /// The words that it found when it did nothing, each with its cell.
    pub seen: LinkedList<(usize, u64)>,
    /// 0, or 1 more than the cell whose slot it holds.
    pub hand: u64,
    /// The generation of that cell.
    pub round: u64,
}

/// What a seat knows. A core's seat has a caller's part only while the two are compared, or until
/// the give-up of a ticket that it took back is split off. While two callers are compared the
/// caller's part is what both did, and `one` and `other` are what each did.
pub struct View {
    pub is_core: bool,
    pub core: CoreLog,
    pub caller: CallerLog,
    pub one: CallerLog,
    pub other: CallerLog,
}

/// The rule of a board's table.
pub struct Rules;

impl TableRule<Option<Outcome>, View, ()> for Rules {
    ghost use Rattle.ca_board.specs.History.{Kept, core_view, no_core, no_caller};

    ghost holds = { λ _. Kept };

    ghost first = { λ _. core_view no_core no_caller };
}

/// The words and the slots of a board.
pub type Cells = Table<Option<Outcome>, View, (), Rules, Global>;

/// A seat at a board's table: the core's or a caller's.
pub type BoardSeat = Seat<Option<Outcome>, View>;

/// The core arms a free cell.
pub(crate) struct Arms;

impl Play<Option<Outcome>, View> for Arms {
    ghost use Rattle.ca_board.specs.History.{armed};

    ghost then = { armed };
}

/// The core frees a cell whose outcome was taken, or whose ticket was given up.
pub(crate) struct Recycles;

impl Play<Option<Outcome>, View> for Recycles {
    ghost use Rattle.ca_board.specs.History.{recycled};

    ghost then = { recycled };
}

/// The core takes back a ticket that nobody has used.
pub(crate) struct TakesBack;

impl Play<Option<Outcome>, View> for TakesBack {
    ghost use Rattle.ca_board.specs.History.{taken_back};

    ghost then = { taken_back };
}

/// The core looks at a cell, and takes its slot if it waits, under whichever ticket.
pub(crate) struct Looks;

impl Play<Option<Outcome>, View> for Looks {
    ghost use Rattle.ca_board.specs.History.{looked_at};

    ghost then = { looked_at };
}

/// The core takes the slot of a cell if it waits under this ticket.
pub(crate) struct Grabs;

impl Play<Option<Outcome>, View> for Grabs {
    ghost use Rattle.ca_board.specs.History.{grabbed};

    ghost then = { grabbed };
}

/// The core gives the slot back with the outcome if the cell still waits, and then it is done.
pub(crate) struct Puts;

impl Play<Option<Outcome>, View> for Puts {
    ghost use Rattle.ca_board.specs.History.{filled};

    ghost then = { filled };
}

/// The core gives back the slot of a cell that was given up.
pub(crate) struct Returns;

impl Play<Option<Outcome>, View> for Returns {
    ghost use Rattle.ca_board.specs.History.{returned};

    ghost then = { returned };
}

/// A caller gives up a cell if it waits.
pub(crate) struct GivesUp;

impl Play<Option<Outcome>, View> for GivesUp {
    ghost use Rattle.ca_board.specs.History.{gave_up};

    ghost then = { gave_up };
}

/// A caller takes the slot of a cell if it is done.
pub(crate) struct Takes;

impl Play<Option<Outcome>, View> for Takes {
    ghost use Rattle.ca_board.specs.History.{took};

    ghost then = { took };
}

/// A caller looks at a cell, and changes nothing.
pub(crate) struct FindsOut;

impl Play<Option<Outcome>, View> for FindsOut {
    ghost use Rattle.ca_board.specs.History.{found_out};

    ghost then = { found_out };
}

/// A caller gives the slot back, and the cell is empty.
pub(crate) struct HandsBack;

impl Play<Option<Outcome>, View> for HandsBack {
    ghost use Rattle.ca_board.specs.History.{gave_back};

    ghost then = { gave_back };
}

/// A core's view and a caller's, in one seat, are compared with the board's rule.
pub(crate) struct Compares;

impl Play<Option<Outcome>, View> for Compares {
    ghost use Rattle.ca_board.specs.History.{compared};

    ghost then = { compared };
}

/// The core's seat keeps its view, and a new caller's is empty.
pub(crate) struct Newcomer;

impl Split<View> for Newcomer {
    ghost use Rattle.ca_board.specs.History.{nobody};

    ghost left = { λ v. v };

    ghost right = { λ _. nobody };
}

/// A core's seat takes in a caller's, and is split again.
pub(crate) struct Meets;

impl Join<View> for Meets {
    ghost use Rattle.ca_board.specs.History.{both_parts, nobody};

    ghost both = { both_parts };

    ghost spent = { nobody };
}

impl Split<View> for Meets {
    ghost use Rattle.ca_board.specs.History.{core_part, caller_part};

    ghost left = { core_part };

    ghost right = { caller_part };
}

/// A caller's seat takes in another caller's, and is split again.
pub(crate) struct Pairs;

impl Join<View> for Pairs {
    ghost use Rattle.ca_board.specs.History.{nobody, paired};

    ghost both = { paired };

    ghost spent = { nobody };
}

impl Split<View> for Pairs {
    ghost use Rattle.ca_board.specs.History.{one_part, other_part};

    ghost left = { one_part };

    ghost right = { other_part };
}

/// Two callers' views, in one seat, are compared with the board's rule.
pub(crate) struct Separates;

impl Play<Option<Outcome>, View> for Separates {
    ghost use Rattle.ca_board.specs.History.{held_apart};

    ghost then = { held_apart };
}
