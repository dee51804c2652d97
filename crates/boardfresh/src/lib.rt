// The arrays of a fresh board, from an accepted grid: those of the bare one (crate boardbare), on which every edge at a
// hole has been put to a decision as none, holes in index order, each left, right, up, down, even once the flag is set. The log begins
// anew after that, so nothing can be undone behind it. That they show the model's fresh board is proved in specs/FreshView.antt.
#![tactic(auto)]

ghost use Rattle.std.specs.Prelude.{◌≡◌, ℕ, ◌+◌, ◌*◌, ◌-◌, ◌≤◌, ◌<◌, length};
ghost use Rattle.rules.specs.Grid.{pads};
ghost use Rattle.grid.specs.AsGrid.{as_grid};
ghost use Rattle.model.specs.PadTests.{is_hole};
ghost use Rattle.model.specs.Board.{shut_at, prepared};
ghost use Rattle.boardview.specs.View.{grid_in, Ready, view};
ghost use Rattle.boardfresh.specs.Shutting.{Shown, shut_slot};
ghost use Rattle.boardfresh.specs.FreshView.{FreshBoard};

use boardview::{Arrays, CLUE, Kinds, TAKEN};
use grid::{Edge, Grid};

// The byte of an edge that is none, as the edge type names it.
const NONE: u8 = Edge::NONE.0;

// Whether a pad is a hole: taken, and no clue.
fn is_hole(kinds: &Kinds, v: usize) -> bool
    requires { v < 256 }
    ensures { result ≡ is_hole ((grid_in kinds.now).cell v) }
{
    !kinds.has(v, CLUE) && kinds.has(v, TAKEN)
}

// Puts the edge at a slot to a decision as none. An edge that is none already stays so, and off the board stands none for ever.
fn shut_edge(board: &mut Arrays, kinds: &Kinds, slot: usize)
    requires { (slot < 1024) × Ready (grid_in kinds.now) board.old }
    ensures { Shown (grid_in kinds.now) board.new
        (shut_slot (grid_in kinds.now) slot (view board.old)) }
{
    if board.edges[slot] == NONE {
        return;
    }
    decision::decide_none(board, kinds, slot);
}

// Puts the edges at a pad to a decision as none, if it is a hole: left, right, up, down.
fn shut_pad(board: &mut Arrays, kinds: &Kinds, v: usize)
    requires { (v < pads (grid_in kinds.now)) × Ready (grid_in kinds.now) board.old }
    ensures { Shown (grid_in kinds.now) board.new
        (shut_at (grid_in kinds.now) v (view board.old)) }
{
    if !is_hole(kinds, v) {
        return;
    }
    let width = kinds.width;
    shut_edge(board, kinds, 30 + 2 * v);
    shut_edge(board, kinds, 32 + 2 * v);
    shut_edge(board, kinds, 33 + 2 * v - 2 * width);
    shut_edge(board, kinds, 33 + 2 * v);
}

// Shuts all holes, in index order.
fn shut_holes(board: &mut Arrays, kinds: &Kinds)
    requires { Ready (grid_in kinds.now) board.old }
    ensures { Shown (grid_in kinds.now) board.new
        (prepared (grid_in kinds.now) (pads (grid_in kinds.now)) 0 (view board.old)) }
{
    for v in 0..kinds.height * kinds.width {
        shut_pad(board, kinds, v);
    }
}

// The arrays of a fresh board, whose log is empty and whose flag may be set, and what is told of its grid.
#[derive(Clone, Copy)]
pub struct Fresh {
    pub board: Arrays,
    pub kinds: Kinds,
}

// Lays the arrays of the fresh board of an accepted grid into lent ones, whatever they hold, and hands back what is told of the grid. In place,
// since the log is large: a search makes one board, and it is not to lie on the stack twice.
pub fn lay_board(board: &mut Arrays, grid: &Grid) -> Kinds
    ensures { FreshBoard (as_grid grid.now) board.new.edges board.new.ends result board.new.count × (length board.new.log ≡ 1440) }
{
    let bare = boardbare::bare_board(grid);
    let edges = bare.edges;
    let ends = bare.ends;
    let kinds = bare.kinds;
    board.edges = edges;
    board.ends = ends;
    board.count = 0;
    shut_holes(board, &kinds);
    board.restart();
    kinds
}

// The arrays of the fresh board of an accepted grid.
pub fn fresh_board(grid: &Grid) -> Fresh
    ensures { FreshBoard (as_grid grid.now) result.board.edges result.board.ends result.kinds result.board.count × (length result.board.log ≡ 1440) }
{
    let mut board = Arrays {
        edges: [0; 1024],
        ends: [0; 512],
        log: [0; 1440],
        count: 0,
    };
    let kinds = lay_board(&mut board, grid);
    Fresh { board, kinds }
}
