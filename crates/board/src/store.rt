//! The store: one slice of messages of any kind, for the tasks' registers and for what the ports hold.
//! Cells after the store are never written.
ghost use Rattle.std.specs.Prelude.{◌≡◌, ◌+◌, ◌<◌, ◌≤◌, ◌≢◌, [], length, take, drop, slice_index_or, slice_set};
ghost use Rattle.rules.specs.Limits.{most_ports, most_held};
ghost use Rattle.rules.specs.declared.kind.BaseKind.{BaseKind};
ghost use Rattle.kinds.specs.Stores.{Committed};
ghost use Rattle.rules.specs.Kinds.{committed, hands_over};
ghost use Rattle.board.specs.Cells.{port_start, port_cells, store_size, over};

use crate::board::Board;
use kinds::kind::{MOST_HELD, MOST_PORTS};
use rules::kind::BaseKind;
use rules::offer::Offer;

// Tasks that may live at once.
pub const MOST_TASKS: usize = 64;

// All cells of the store.
pub const STORE_SIZE: usize = MOST_TASKS + MOST_HELD * MOST_PORTS;

// The register in a cell.
pub fn register<M: Copy>(cells: &[M], cell: usize) -> M
    requires { cell < length cells.now }
    ensures { (d : M) → result ≡ slice_index_or cells.now cell d }
{
    cells[cell]
}

// Sets the register in a cell.
pub fn set_register<M: Copy>(cells: &mut [M], cell: usize, message: M)
    requires { cell < length cells.old }
    ensures { cells.new ≡ slice_set cells.old cell message }
{
    cells[cell] = message;
}

// Commits an offer in the cells of its port.
pub fn commit<M: Copy, B: Board>(
    board: &mut B,
    kind: BaseKind,
    o: Offer,
    message: M,
    cells: &mut [M],
) -> Option<M>
    requires port { o.port < most_ports }
    requires cells { store_size ≤ length cells.old }
    ensures here { Committed (B.Board.rules kind) o message (B.Board.meaning board.old kind) (port_cells cells.old o.port) (B.Board.meaning board.new kind) (port_cells cells.new o.port) result }
    ensures others { (c : BaseKind) → c ≢ kind → B.Board.meaning board.new c ≡ B.Board.meaning board.old c }
    ensures before { take (port_start o.port) cells.new ≡ take (port_start o.port) cells.old }
    ensures behind { drop (port_start o.port + most_held) cells.new ≡ drop (port_start o.port + most_held) cells.old }
    // Read as messages, it is the rules' own commit, and no other kind's messages change if none of
    // them holds something at this port.
    ensures means { (d : M) → over d cells.new (B.Board.meaning board.new kind) ≡ committed (B.Board.rules kind) o message (over d cells.old (B.Board.meaning board.old kind)) }
    ensures hands { (d : M) → result ≡ hands_over (B.Board.rules kind) o (over d cells.old (B.Board.meaning board.old kind)) }
    ensures others_mean { (d : M) (c : BaseKind) → c ≢ kind → (B.Board.meaning board.old c).held o.port ≡ [] → over d cells.new (B.Board.meaning board.new c) ≡ over d cells.old (B.Board.meaning board.old c) }
{
    let start = MOST_TASKS + MOST_HELD * usize::from(o.port);
    // Not as an array: of what `as_mut_array` lends of this part, only the end's length is known.
    board.commit(kind, o, message, &mut cells[start..start + MOST_HELD])
}
