//! A request is issued under the lock, with a ticket for its outcome.
ghost use Rattle.std.specs.Prelude.{◌≡◌, IfErr, IfOk};
ghost use Rattle.ca_board.specs.History.{Has};
ghost use Rattle.ca_board.specs.Views.{HasTakenBack, IsDue};
ghost use Rattle.ca_client.specs.Calls.{HasArmedOne, HasIssued, HasIssuedUnderLock, RecyclesEach};

use crate::ask::RequestCall;
use crate::state::ClientState;
use ca_arena::Handle;
use ca_board::{Board, CoreSeat, Ticket};
use ca_client_core::ClientCore;
use ca_text::{BOARD_CELLS, Refusal};

/// Arms a cell for a request, makes it, and keeps its ticket.
///
/// Refused as NoCell if every cell is in use, and then as the core refuses it; then the ticket is
/// taken back, and its cell is free again.
pub fn issue_under_lock(
    state: &mut ClientState,
    request: &RequestCall,
) -> Result<(Handle, Ticket), Refusal>
    ensures { HasIssuedUnderLock state.old request.now result state.new }
{
    let ticket = arm_one(&state.board, &mut state.seat)?;
    let handle = issue_or_take_back(
        &mut state.core,
        &state.board,
        &mut state.seat,
        ticket,
        request,
    )?;
    state.tickets[usize::from(handle.index)] = ticket;
    Ok((handle, ticket))
}

// Arms a cell. If none is free, each whose ticket has ended is recycled first.
fn arm_one(board: &Board, seat: &mut CoreSeat) -> Result<Ticket, Refusal>
    requires { seat.old.board ≡ board.now }
    ensures { HasArmedOne seat.old result seat.new }
{
    match board.arm(seat) {
        Ok(ticket) => Ok(ticket),
        Err(_) => {
            recycle_all(board, seat);
            board.arm(seat)
        }
    }
}

// Makes the core's call. If it refuses, the ticket is taken back.
fn issue_or_take_back(
    core: &mut ClientCore,
    board: &Board,
    seat: &mut CoreSeat,
    ticket: Ticket,
    request: &RequestCall,
) -> Result<Handle, Refusal>
    requires board { seat.old.board ≡ board.now }
    requires due { IsDue seat.old ticket }
    requires kept { ¬ (Has seat.old.recycles ticket) }
    ensures issued { HasIssued core.old request.now result core.new }
    ensures ok { IfOk result (λ h. seat.new ≡ seat.old) }
    ensures err { IfErr result (λ e. HasTakenBack seat.old ticket seat.new) }
{
    match issue(core, request) {
        Ok(handle) => Ok(handle),
        Err(refusal) => {
            board.take_back(seat, ticket);
            Err(refusal)
        }
    }
}

// Makes the core's call.
fn issue(core: &mut ClientCore, request: &RequestCall) -> Result<Handle, Refusal>
    ensures { HasIssued core.old request.now result core.new }
{
    match request {
        RequestCall::Read(channel, data_type, count) => core.read(*channel, *data_type, *count),
        RequestCall::ReadDisplay(channel, data_type, count) => {
            core.read_display(*channel, *data_type, *count)
        }
        RequestCall::Put(channel, value) => core.write_notify(*channel, value),
    }
}

// Recycles every cell that it can.
fn recycle_all(board: &Board, seat: &mut CoreSeat)
    requires { seat.old.board ≡ board.now }
    ensures { RecyclesEach seat.old seat.new }
{
    for cell in 0..BOARD_CELLS {
        board.recycle(seat, cell);
    }
}
