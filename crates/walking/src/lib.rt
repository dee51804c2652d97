// The slow walk: a second engine, which shares none of the pruning. It gives each pad every code in index order, with the edges of the pad
// written into a record as they are given, and judges the record when every pad has its code. Nothing is decided by propagation, and no board
// is made. The tally of tried codes is lent down the walk (crate tally). The result and every byte of the lent buffer equal the model's
// (crate model, specs/Walk.antt), and demands 2 and 3 stand in the contract of `walk` as in that of `solve` (specs/Answers.antt, Walks).
#![tactic(auto)]

ghost use Rattle.std.specs.Prelude.{◌≡◌, [], ◌∷◌, ◌*◌, ◌≤◌, ◌<◌, length, Ok};
ghost use Rattle.rules.specs.Grid.{places};
ghost use Rattle.rules.specs.Record.{record_lines};
ghost use Rattle.model.specs.Runs.{layout};
ghost use Rattle.model.specs.Walk.{may_give};
ghost use Rattle.runs.specs.Layouts.{Added};
ghost use Rattle.tally.specs.Outcomes.{outcome_number};
ghost use Rattle.tally.specs.Counts.{progress_of};
ghost use Rattle.tally.specs.Empty.{empty};
ghost use Rattle.grid.specs.AsGrid.{as_grid};
ghost use Rattle.grid.specs.Directions.{edge_to};
ghost use Rattle.walking.specs.Given.{put_edge, tested_record};
ghost use Rattle.walking.specs.Walked.{Begun, Gave, WalkedOn};
ghost use Rattle.walking.specs.Answers as answers;

use grid::{Direction, Edge, Grid, Refusal};
use judging::Verdict;
use tally::{Solved, Stop, Tally};

// Whether a pad may be given a code: one with a line off the board is not tried.
#[tactic(auto, using(grid::specs::AsGrid::right_on_board), unfolding(model::specs::Walk::may_give))]
fn may_be_given(grid: &Grid, v: usize, right: bool, down: bool) -> bool
    requires { v < grid.now.height * grid.now.width }
    ensures { result ≡ may_give (as_grid grid.now) v right down }
{
    (!right || Direction::Right.has_edge(grid.height, grid.width, v))
        && (!down || Direction::Down.has_edge(grid.height, grid.width, v))
}

// Puts the edge in a direction from a pad into the record, where it is on the board.
fn set_edge(bytes: &mut [u8], grid: &Grid, v: usize, direction: Direction, line: bool)
    requires { (v < grid.now.height * grid.now.width) × (length bytes.old ≡ places grid.now.height grid.now.width) }
    ensures { bytes.new ≡ put_edge (as_grid grid.now) (edge_to direction v) line bytes.old }
{
    if direction.has_edge(grid.height, grid.width, v) {
        let place = direction.place(grid.width, v / grid.width, v % grid.width);
        bytes[place] = Edge::from(line).0;
    }
}

// A layout is due: its record is put into the buffer and counted, or the buffer is full.
fn add_record(bytes: &[u8], lines: usize, buffer: &mut [u8], tally: &mut Tally) -> Result<(), Stop>
    requires { (1 ≤ length bytes.now) × (lines ≡ record_lines bytes.now) × (tally.old.layouts * length bytes.now ≤ length buffer.old) }
    ensures { Added (length bytes.now) (layout bytes.now ∷ [])
        tally.old.layouts tally.old.fewest buffer.old
        (outcome_number result) tally.new.layouts tally.new.fewest buffer.new × (tally.new.visited ≡ tally.old.visited) }
{
    let at = tally.place(bytes.len(), buffer.len())?;
    text::put_word(buffer, at, bytes);
    tally.add(lines);
    Ok(())
}

// Every pad has its code: the drawing is a layout where the test of the rules finds it listed.
fn test_drawing(grid: &Grid, bytes: &[u8], buffer: &mut [u8], tally: &mut Tally) -> Result<(), Stop>
    requires { Begun grid.now.height grid.now.width bytes.now tally.old.layouts buffer.old }
    ensures { Added (places grid.now.height grid.now.width) (tested_record (as_grid grid.now) bytes.now)
        tally.old.layouts tally.old.fewest buffer.old
        (outcome_number result) tally.new.layouts tally.new.fewest buffer.new × (tally.new.visited ≡ tally.old.visited) }
{
    let judged = judging::judge_record(grid, bytes);
    match judged.verdict {
        Verdict::NoLayout | Verdict::Ordinary => Ok(()),
        Verdict::Listed => add_record(bytes, judged.lines, buffer, tally),
    }
}

// One code at a pad: not tried with a line off the board; spent where it would pass the limit; else it is counted, and the walk goes on with it.
#[cycle(give_walk_on)]
fn give(
    grid: &Grid,
    bytes: &mut [u8],
    limit: u64,
    buffer: &mut [u8],
    tally: &mut Tally,
    v: usize,
    right: bool,
    down: bool,
) -> Result<(), Stop>
    requires { Begun grid.now.height grid.now.width bytes.old tally.old.layouts buffer.old × (v < grid.now.height * grid.now.width) }
    ensures { Gave (as_grid grid.now) limit v right down
        bytes.old (progress_of (places grid.now.height grid.now.width) (Ok tt) tally.old buffer.old)
        bytes.new (progress_of (places grid.now.height grid.now.width) result tally.new buffer.new) }
{
    if !may_be_given(grid, v, right, down) {
        return Ok(());
    }
    if tally.visited >= limit {
        return Err(Stop::Spent);
    }
    tally.visited += 1;
    set_edge(bytes, grid, v, Direction::Right, right);
    set_edge(bytes, grid, v, Direction::Down, down);
    walk_on(grid, bytes, limit, buffer, tally, v + 1)
}

// The walk from a pad on: behind the last one the drawing is full and is tested; else the codes m = 0 to 3.
#[cycle(give_walk_on)]
fn walk_on(
    grid: &Grid,
    bytes: &mut [u8],
    limit: u64,
    buffer: &mut [u8],
    tally: &mut Tally,
    v: usize,
) -> Result<(), Stop>
    requires { Begun grid.now.height grid.now.width bytes.old tally.old.layouts buffer.old × (v ≤ grid.now.height * grid.now.width) }
    ensures { WalkedOn (as_grid grid.now) limit v
        bytes.old (progress_of (places grid.now.height grid.now.width) (Ok tt) tally.old buffer.old)
        bytes.new (progress_of (places grid.now.height grid.now.width) result tally.new buffer.new) }
{
    if v >= grid.pads() {
        return test_drawing(grid, bytes, buffer, tally);
    }
    for m in 0..4u8 {
        give(grid, bytes, limit, buffer, tally, v, m % 2 == 1, m / 2 == 1)?;
    }
    Ok(())
}

// Walks a whole grid and counts on in the tally. No pad has a code yet, so any bytes of edges will do.
fn walk_from(tally: &mut Tally, grid: &Grid, limit: u64, buffer: &mut [u8]) -> Result<(), Stop>
    requires { tally.old.layouts * places grid.now.height grid.now.width ≤ length buffer.old }
    ensures { answers.Counted grid.now.height grid.now.width grid.now.cells.now limit tally.old buffer.old (record { outcome = result; tally = tally.new }) buffer.new }
{
    let mut bytes = [0u8; 961];
    let size = grid.places();
    walk_on(grid, &mut bytes[..size], limit, buffer, tally, 0)
}

// Walks a whole grid with a tally of its own, which is lent down the walk and handed back.
fn walk_grid(grid: &Grid, limit: u64, buffer: &mut [u8]) -> Solved
    ensures { answers.Counted grid.now.height grid.now.width grid.now.cells.now limit empty buffer.old result buffer.new }
{
    let engine = |tally: &mut Tally, buffer: &mut [u8]| walk_from(tally, grid, limit, buffer);
    tally::lent(engine, buffer)
}

// Lists the wirings of a grid into the lent buffer, by trying every code at every pad.
pub fn walk(
    height: usize,
    width: usize,
    cells: &[i64],
    limit: u64,
    buffer: &mut [u8],
) -> Result<Solved, Refusal>
    ensures { answers.Walks height width cells.now limit buffer.old result buffer.new }
{
    let grid = grid::accept(height, width, cells)?;
    Ok(walk_grid(&grid, limit, buffer))
}
