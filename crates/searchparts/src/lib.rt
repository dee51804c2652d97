// The leaves of the search: what only reads the board's lent arrays and chooses, and what adds one layout. Each equals a definition of
// searchview's Shown.antt, and the last one of runs' Layouts.antt. Nothing here decides an edge.
#![tactic(auto)]

ghost use Rattle.std.specs.Prelude.{◌≡◌, [], ◌∷◌, ◌+◌, ◌*◌, ◌-◌, ◌≤◌, ◌<◌, length};
ghost use Rattle.rules.specs.Grid.{places};
ghost use Rattle.model.specs.Runs.{layout};
ghost use Rattle.boardview.specs.View.{grid_in};
ghost use Rattle.boardview.specs.ShownRecord.{edges_only, record_shown};
ghost use Rattle.tally.specs.Counts.{AddedTo};
ghost use Rattle.searchview.specs.Shown.{EdgesReady, is_tried, last_row, NextPad};

use boardview::{CLUE, Kinds};
use grid::Edge;
use tally::{Stop, Tally};

// The bytes of an edge's states, as the edge type names them.
const UNDECIDED: u8 = Edge::UNDECIDED.0;

const LINE: u8 = Edge::LINE.0;

// The first pad of the last row.
pub fn first_of_last_row(kinds: &Kinds) -> usize
    ensures { result ≡ last_row (grid_in kinds.now) }
{
    (kinds.height - 1) * kinds.width
}

// Whether right and down are tried at a pad: where clue + lines is 0 or 2.
pub fn tried(edges: &[u8; 1024], kinds: &Kinds, v: usize, right: bool, down: bool) -> bool
    requires { (v < 256) × EdgesReady (grid_in kinds.now) edges.now }
    ensures { result ≡ is_tried (grid_in kinds.now) v (edges_only edges.now) right down }
{
    let left = edges[30 + 2 * v] == LINE;
    let up = edges[33 + 2 * v - 2 * kinds.width] == LINE;
    let degree = u8::from(kinds.has(v, CLUE))
        + u8::from(left)
        + u8::from(up)
        + u8::from(right)
        + u8::from(down);
    degree == 0 || degree == 2
}

// From a pad on, the first one above the last row with its right edge undecided, else the first of the last row.
pub fn next_pad(edges: &[u8; 1024], last: usize, from: usize) -> usize
    requires { (from ≤ last) × (last ≤ 256) }
    ensures { NextPad edges.now last from result }
{
    for v in from..last {
        if edges[32 + 2 * v] == UNDECIDED {
            return v;
        }
    }
    last
}

// A layout is complete: its record is put into the buffer and counted, or the buffer is full.
pub fn add_layout(
    edges: &[u8; 1024],
    kinds: &Kinds,
    buffer: &mut [u8],
    tally: &mut Tally,
) -> Result<(), Stop>
    requires { EdgesReady (grid_in kinds.now) edges.now
        × (tally.old.layouts * places (grid_in kinds.now).height (grid_in kinds.now).width ≤ length buffer.old) }
    ensures { AddedTo (places (grid_in kinds.now).height (grid_in kinds.now).width) (layout (record_shown (grid_in kinds.now) edges.now) ∷ [])
        tally.old buffer.old result tally.new buffer.new }
{
    let at = tally.place(grid::places(kinds.height, kinds.width), buffer.len())?;
    let lines = boardrecord::put_record(edges, kinds, buffer, at);
    tally.add(lines);
    Ok(())
}
