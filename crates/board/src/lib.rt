// The port of board.rs: the board by value, with a method for each call. Its parts are hidden, and its type says that they hold a board of
// the crate `model` (specs/Holds.antt), so that no call asks anything of it. What each call does is said there, specs/Calls.antt.
#![tactic(auto)]

ghost use Rattle.std.specs.Prelude.{◌≡◌, true, false, ℕ, ◌≤◌, get_or, take};
ghost use Rattle.rules.specs.Grid.{OnBoard, places};
ghost use Rattle.model.specs.Board.{line_or_none};
ghost use Rattle.model.specs.Calls as model;
ghost use Rattle.grid.specs.AsGrid.{as_grid};
ghost use Rattle.grid.specs.PadsAt.{pads_of, edge_of};
ghost use Rattle.boardview.specs.View.{grid_in};
ghost use Rattle.boardview.specs.ShownRecord.{record_shown};
ghost use Rattle.board.specs.Held.{Held, number_said, answer_said, Says, Shows, declined_with};
ghost use Rattle.board.specs.ShowLaws.{Laid, end_at_index};

use boardview::Kinds;
use grid::{Edge, Grid, Pads, Refusal};
use marks::Marks;

mod marks;
mod parts;
mod shown;

pub use parts::Board;
pub use shown::Shown;

// Why a call is declined: the grid of a new board is, there is no edge at the place, the state is neither a line nor none, or as many
// checkpoints stand as may.
#[derive(Clone, Copy, PartialEq, Eq)]
pub enum Declined {
    Grid(Refusal),
    NoEdge,
    NoState,
    NoCheckpoint,
}

// What a call hands back: its answer, or why it is declined; and the board.
#[derive(Clone, Copy)]
pub struct Answer {
    pub said: Result<usize, Declined>,
    pub board: Board,
}

impl Answer {
    // Document 01's number, 0 if accepted.
    pub fn number(&self) -> u8
        ensures { result ≡ number_said self.now.said }
    {
        match self.said {
            Ok(_) => 0,
            Err(Declined::Grid(refusal)) => refusal.number(),
            Err(Declined::NoEdge) => 10,
            Err(Declined::NoState) => 11,
            Err(Declined::NoCheckpoint) => 12,
        }
    }

    // The answer; beside a number it is the index of the first bad cell of a grid, or 0.
    pub fn answer(&self) -> usize
        ensures { result ≡ answer_said self.now.said }
    {
        match self.said {
            Ok(answer) => answer,
            Err(Declined::Grid(refusal)) => refusal.index(),
            Err(_) => 0,
        }
    }
}

// The pads that a place joins, any numbers; outside the field there are none.
fn pads_at(kinds: &Kinds, y: usize, x: usize) -> Option<Pads>
    ensures { result ≡ pads_of (grid_in kinds.now).width (model.edge_at (grid_in kinds.now) y x) }
{
    if y >= 2 * kinds.height - 1 {
        return None;
    }
    if x >= 2 * kinds.width - 1 {
        return None;
    }
    grid::pads_at(kinds.width, y, x)
}

// A declined call: why, and the board as it was.
fn decline(board: Board, why: Declined) -> Answer
    ensures { result ≡ declined_with why board }
{
    Answer {
        said: Err(why),
        board,
    }
}

// The fresh board of an accepted grid.
fn fresh(grid: &Grid) -> Board
    ensures { Held result (model.fresh_board (as_grid grid.now)) }
{
    let fresh = boardfresh::fresh_board(grid);
    Board {
        arrays: fresh.board,
        kinds: fresh.kinds,
        fresh: fresh.board.count,
        marks: Marks::none(),
    }
}

// The fresh 2 by 2 blank board.
fn blank() -> Board
    ensures { Held result model.blank_board }
{
    fresh(&Grid {
        height: 2,
        width: 2,
        cells: &[-1, -1, -1, -1],
    })
}

// The board and the flag after the edge between two pads is decided.
fn decided(board: Board, pads: Pads, line: bool) -> Answer
    requires { OnBoard (grid_in board.kinds) (edge_of pads) }
    ensures { (B : model.Board) → Held board B → Says result (model.decided B (edge_of pads) (line_or_none line)) }
{
    let mut arrays = board.arrays;
    decision::decide(&mut arrays, &board.kinds, pads.direction, pads.first, line);
    let answer = usize::from(arrays.is_flagged());
    Answer {
        said: Ok(answer),
        board: Board {
            arrays,
            kinds: board.kinds,
            fresh: board.fresh,
            marks: board.marks,
        },
    }
}

// The record of the edges; past it the bytes are of no account.
fn record_of(edges: &[u8; 1024], kinds: &Kinds) -> [u8; 961]
    requires { (n : ℕ) → get_or edges.now n 2 ≤ 2 }
    ensures { take (places kinds.now.height kinds.now.width) result ≡ record_shown (grid_in kinds.now) edges.now }
{
    let mut bytes = [0; 961];
    boardrecord::put_record(edges, kinds, &mut bytes, 0);
    bytes
}

// The ends of the first 256 pads.
fn shown_ends(ends: &[i64; 512]) -> [i64; 256]
    ensures { Laid (end_at_index ends.now) 256 result 256 }
{
    let mut shown = [0; 256];
    shown.copy_from_slice(&ends[..256]);
    shown
}

impl Board {
    // The fresh board of a grid; 7, 8 or 9 with the index of the first bad cell, and the fresh 2 by 2 blank board.
    pub fn new(height: usize, width: usize, cells: &[i64]) -> Answer
        ensures { Says result (model.new height width cells.now) }
    {
        match grid::accept(height, width, cells) {
            Ok(grid) => Answer {
                said: Ok(0),
                board: fresh(&grid),
            },
            Err(refusal) => decline(blank(), Declined::Grid(refusal)),
        }
    }

    // Decides the edge at a place, any numbers; 10 no such edge place, then 11 a state neither 1 nor 2; accepted, the answer is the flag.
    pub fn decide_edge(self, y: usize, x: usize, state: Edge) -> Answer
        ensures { (B : model.Board) → Held self B → Says result (model.decide_edge B y x state.0) }
    {
        let Some(pads) = pads_at(&self.kinds, y, x) else {
            return decline(self, Declined::NoEdge);
        };
        if state == Edge::LINE {
            return decided(self, pads, true);
        }
        if state == Edge::NONE {
            return decided(self, pads, false);
        }
        decline(self, Declined::NoState)
    }

    // Reads the edge at a place, any numbers; 10 no such edge place; accepted, the answer is the edge's byte.
    pub fn get_edge(self, y: usize, x: usize) -> Answer
        ensures { (B : model.Board) → Held self B → Says result (model.read_edge B y x) }
    {
        let Some(pads) = pads_at(&self.kinds, y, x) else {
            return decline(self, Declined::NoEdge);
        };
        let byte = self.arrays.edges[boardparts::slot_from(pads.direction, pads.first)];
        Answer {
            said: Ok(usize::from(byte)),
            board: self,
        }
    }

    // A checkpoint; 12 with 256 standing.
    pub fn add_checkpoint(self) -> Answer
        ensures { (B : model.Board) → Held self B → Says result (model.add_checkpoint B) }
    {
        if self.marks.is_full() {
            return decline(self, Declined::NoCheckpoint);
        }
        let mut marks = self.marks;
        marks.push(self.arrays.count);
        Answer {
            said: Ok(0),
            board: Board {
                arrays: self.arrays,
                kinds: self.kinds,
                fresh: self.fresh,
                marks,
            },
        }
    }

    // Back to the last checkpoint not yet undone, or to the fresh board.
    pub fn undo(self) -> Board
        ensures { (B : model.Board) → Held self B → Held result (model.undo B) }
    {
        let mut marks = self.marks;
        let mark = marks.pop().unwrap_or(self.fresh);
        let mut arrays = self.arrays;
        boardundo::undo(&mut arrays, &self.kinds, mark);
        Board {
            arrays,
            kinds: self.kinds,
            fresh: self.fresh,
            marks,
        }
    }

    // Edges, ends and flag.
    pub fn shown(self) -> Shown
        ensures { (B : model.Board) → Held self B → Shows result B }
    {
        Shown {
            height: self.kinds.height,
            width: self.kinds.width,
            flag: self.arrays.is_flagged(),
            edges: record_of(&self.arrays.edges, &self.kinds),
            ends: shown_ends(&self.arrays.ends),
        }
    }
}
