// The port of solver.rs: the search over the board's arrays, which are lent to it and which it leaves as they were, and which calls itself
// at a later pad; the tally that is lent down it (crate tally); and `solve`. The result and every byte of the lent buffer equal the model's
// run (crate model, specs/Search.antt), and demands 2 and 3 stand in the contract of `solve` (specs/Answers.antt, Solves; promises'
// Contract.antt).
#![tactic(auto)]

ghost use Rattle.std.specs.Prelude.{◌≡◌, ◌*◌, ◌≤◌, length, Ok};
ghost use Rattle.rules.specs.Grid.{places};
ghost use Rattle.boardview.specs.View.{grid_in};
ghost use Rattle.searchview.specs.Searched.{Begun, Above, Entered, Attempted, Backtracked};
ghost use Rattle.solver.specs.Answers.{so_far};
ghost use Rattle.solver.specs.Answers as answers;

use boardview::{Arrays, Kinds};
use grid::{Direction, Grid, Refusal};
use tally::{Solved, Stop, Tally};

// One m at a pad: tried where clue + lines is 0 or 2; decide right, decide down, go on if the flag is clear, undo.
#[cycle(attempt_backtrack)]
fn attempt(
    board: &mut Arrays,
    kinds: &Kinds,
    limit: u64,
    buffer: &mut [u8],
    tally: &mut Tally,
    v: usize,
    right: bool,
    down: bool,
) -> Result<(), Stop>
    requires { Begun (grid_in kinds.now) board.old (so_far (grid_in kinds.now) (Ok tt) tally.old buffer.old) × Above (grid_in kinds.now) v }
    ensures { Attempted (grid_in kinds.now) limit v right down
        board.old (so_far (grid_in kinds.now) (Ok tt) tally.old buffer.old)
        board.new (so_far (grid_in kinds.now) result tally.new buffer.new) × (board.new.count ≡ board.old.count) }
{
    if !searchparts::tried(&board.edges, kinds, v, right, down) {
        return Ok(());
    }
    let before = board.count;
    decision::decide(board, kinds, Direction::Right, v, right);
    decision::decide(board, kinds, Direction::Down, v, down);
    if !board.is_flagged() {
        let last = searchparts::first_of_last_row(kinds);
        let next = searchparts::next_pad(&board.edges, last, v + 1);
        let outcome = backtrack(board, kinds, limit, buffer, tally, next);
        boardundo::undo(board, kinds, before);
        return outcome;
    }
    boardundo::undo(board, kinds, before);
    Ok(())
}

// The search from a pad on: spent where the next entry would pass the limit; a layout in the last row; else m = 0 to 3.
#[cycle(attempt_backtrack)]
fn backtrack(
    board: &mut Arrays,
    kinds: &Kinds,
    limit: u64,
    buffer: &mut [u8],
    tally: &mut Tally,
    v: usize,
) -> Result<(), Stop>
    requires { Begun (grid_in kinds.now) board.old (so_far (grid_in kinds.now) (Ok tt) tally.old buffer.old) × Entered (grid_in kinds.now) v }
    ensures { Backtracked (grid_in kinds.now) limit v
        board.old (so_far (grid_in kinds.now) (Ok tt) tally.old buffer.old)
        board.new (so_far (grid_in kinds.now) result tally.new buffer.new) × (board.new.count ≡ board.old.count) }
{
    if tally.visited >= limit {
        return Err(Stop::Spent);
    }
    tally.visited += 1;
    if v >= searchparts::first_of_last_row(kinds) {
        return searchparts::add_layout(&board.edges, kinds, buffer, tally);
    }
    for m in 0..4usize {
        attempt(
            board,
            kinds,
            limit,
            buffer,
            tally,
            v,
            m % 2 == 1,
            m / 2 == 1,
        )?;
    }
    Ok(())
}

// Searches a whole grid and counts on in the tally: nothing where the fresh board has its flag set, else from the first pad with its right
// edge undecided, or in the last row.
fn search_from(tally: &mut Tally, grid: &Grid, limit: u64, buffer: &mut [u8]) -> Result<(), Stop>
    requires { tally.old.layouts * places grid.now.height grid.now.width ≤ length buffer.old }
    ensures { answers.Counted grid.now.height grid.now.width grid.now.cells.now limit tally.old buffer.old (record { outcome = result; tally = tally.new }) buffer.new }
{
    let mut board = Arrays {
        edges: [0; 1024],
        ends: [0; 512],
        log: [0; 1440],
        count: 0,
    };
    let kinds = boardfresh::lay_board(&mut board, grid);
    if board.is_flagged() {
        return Ok(());
    }
    let last = searchparts::first_of_last_row(&kinds);
    let first = searchparts::next_pad(&board.edges, last, 0);
    backtrack(&mut board, &kinds, limit, buffer, tally, first)
}

// Lists the wirings of an accepted grid into the lent buffer, with a tally of its own, which is lent down the search and handed back.
pub fn search(grid: &Grid, limit: u64, buffer: &mut [u8]) -> Solved
    ensures { answers.Solves grid.now.height grid.now.width grid.now.cells.now limit buffer.old (Ok result) buffer.new }
{
    let engine = |tally: &mut Tally, buffer: &mut [u8]| search_from(tally, grid, limit, buffer);
    tally::lent(engine, buffer)
}

// Lists the wirings of a grid into the lent buffer.
pub fn solve(
    height: usize,
    width: usize,
    cells: &[i64],
    limit: u64,
    buffer: &mut [u8],
) -> Result<Solved, Refusal>
    ensures { answers.Solves height width cells.now limit buffer.old result buffer.new }
{
    let grid = grid::accept(height, width, cells)?;
    Ok(search(&grid, limit, buffer))
}
