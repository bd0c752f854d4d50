//! The requests of each circuit, or of each channel, by its index.
ghost use Rattle.std.specs.Prelude.{◌≡◌, ◌<◌, ◌++◌, ◌∷◌, [], ℕ, OnOk, length};
ghost use Rattle.ca_requests.specs.Lines.{Hands, HasRoom, MayBeOf, Notes, ReadyAll, line_at};
ghost use Rattle.ca_requests.specs.Lines.{told_of};

use crate::request::Request;
use crate::request_list::RequestList;
use ca_arena::Handle;
use ca_ids::HeldTable;
use std::alloc::{AllocError, Global};

/// Makes room for one more request of this owner.
#[inline(always)]
pub(crate) fn prepare(
    alloc: Global,
    lines: &mut Vec<RequestList>,
    table: &HeldTable<Request>,
    owner: Handle,
) -> Result<(), AllocError>
    requires { MayBeOf table.now owner (line_at lines.old.items owner.index) }
    ensures readies { ReadyAll table.now lines.old.items lines.new.items }
    ensures room { OnOk result (HasRoom owner lines.new.items) }
{
    let index = usize::from(owner.index);
    extend(alloc, lines, owner.index)?;
    lines[index].prepare(table, owner)?;
    Ok(())
}

// Has a line at this index.
fn extend(alloc: Global, lines: &mut Vec<RequestList>, index: u16) -> Result<(), AllocError>
    ensures same { (i : ℕ) → line_at lines.new.items i ≡ line_at lines.old.items i }
    ensures within { OnOk result (index < length lines.new.items) }
{
    for _ in lines.len()..usize::from(index) + 1 {
        lines.push(RequestList::new(alloc))?;
    }
    Ok(())
}

/// The request is the last of its owner. There is room for it.
pub(crate) fn note(lines: &mut Vec<RequestList>, owner: Handle, handle: Handle)
    requires { HasRoom owner lines.old.items }
    ensures { Notes owner handle lines.old.items lines.new.items }
{
    lines[usize::from(owner.index)].push(handle);
}

/// Hands out what is listed for this owner. It does not allocate.
pub(crate) fn hand_out(alloc: Global, lines: &mut Vec<RequestList>, owner: Handle) -> Vec<Handle>
    ensures told { result.items ≡ told_of owner (line_at lines.old.items owner.index) }
    ensures hands { Hands owner lines.old.items lines.new.items }
{
    let index = usize::from(owner.index);
    if index >= lines.len() {
        return Vec::new(alloc);
    }
    lines[index].take(alloc, owner)
}
