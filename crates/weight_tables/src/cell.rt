ghost use Rattle.std.specs.Prelude.{◌≡◌, ◌<◌, length, IfSome, IfNone, set, slice_get, slice_index_or, false, true, []};
ghost use Rattle.std.specs.VecDeque.{deque_len, deque_capacity};
ghost use Rattle.weight_tables.specs.private.Cells.{cleared, written, waits_in};
ghost use Rattle.weight_tables.specs.private.Marks.{AreMarked};

use std::collections::VecDeque;

/// A weight, and whether it waits.
#[derive(Drop)]
pub(crate) struct Cell<W: Drop> {
    pub(crate) weight: W,
    pub(crate) waits: bool,
}

// Writes a weight, which waits, and says whether the one before it did.
fn set_cell<W: Drop>(cells: &mut [Cell<W>], t: u32, weight: W) -> bool
    requires { t < length cells.old }
    ensures waited { result ≡ slice_index_or (waits_in cells.old) t false }
    ensures cells { cells.new ≡ written t weight cells.old }
{
    let waited = cells[t as usize].waits;
    cells[t as usize] = Cell {
        weight,
        waits: true,
    };
    waited
}

/// Writes a weight, which waits. There is room for one number more that waits.
pub(crate) fn write_cell<W: Drop>(
    cells: &mut Vec<Cell<W>>,
    waiting: &mut VecDeque<u32>,
    t: u32,
    weight: W,
)
    requires number { t < length cells.old.items }
    requires room { deque_len waiting.old < deque_capacity waiting.old }
    requires marked { AreMarked waiting.old.items (waits_in cells.old.items) }
    ensures cells { cells.new.items ≡ written t weight cells.old.items }
    ensures marked { AreMarked waiting.new.items (waits_in cells.new.items) }
{
    if set_cell(cells, t, weight) {
        return;
    }
    waiting.push_back_reserved(t);
}

// Takes the mark of a weight.
fn clear_cell<W: Drop>(cells: &mut [Cell<W>], t: u32)
    requires { t < length cells.old }
    ensures { cells.new ≡ cleared t cells.old }
{
    cells[t as usize].waits = false;
}

/// Takes the number that waits longest, which waits no more.
pub(crate) fn take_cell<W: Drop>(
    cells: &mut Vec<Cell<W>>,
    waiting: &mut VecDeque<u32>,
) -> Option<u32>
    requires { AreMarked waiting.old.items (waits_in cells.old.items) }
    ensures none { IfNone result (waiting.old.items ≡ []) }
    ensures stays { IfNone result (cells.new.items ≡ cells.old.items) }
    ensures waited { IfSome result (λ t. slice_get (waits_in cells.old.items) t ≡ Some true) }
    ensures cells { IfSome result (λ t. cells.new.items ≡ cleared t cells.old.items) }
    ensures marked { AreMarked waiting.new.items (waits_in cells.new.items) }
{
    let t = waiting.pop_front()?;
    clear_cell(cells, t);
    Some(t)
}
