// The judge of a drawing: whether a record of edge bytes is that of an ordinary or of a listed drawing of a grid, with its lines. What it
// answers is the definition of the same name in the crate `model`, specs/Judge.antt there; the crate `ruletest` proves that it says what the
// rules say. The ends of the pads are joined line by line, by the functions that step c of a decision calls. The places are gone through
// once, and then the pads: whether each is finished, and whether each keeps the rules of a listed drawing.
#![tactic(auto)]

ghost use Rattle.std.specs.Prelude.{◌≡◌, ◌+◌, ◌*◌, ◌≤◌, ◌<◌, eqb, length, get_or, Ok};
ghost use Rattle.rules.specs.Grid.{pad_index, place_at, field_side, places};
ghost use Rattle.rules.specs.Drawing.{drawn};
ghost use Rattle.rules.specs.Record.{line_byte, undecided_byte, drawing_of, record_lines};
ghost use Rattle.rules.specs.Tests.{all_below};
ghost use Rattle.rules.specs.CheckedListed.{has_corner};
ghost use Rattle.model.specs.Judge as model;
ghost use Rattle.grid.specs.AsGrid.{as_grid};
ghost use Rattle.grid.specs.Directions.{edge_to};
ghost use Rattle.judging.specs.Judging.{judged_says, verdict_number, mark, answer};
ghost use Rattle.judging.specs.Following.{InUse, Stepped, lines_in, FollowedOn, finished_at};
ghost use Rattle.boardparts.specs.Sides.{side_of};
ghost use Rattle.judging.specs.Shape.{InColumn, line_beside, taken_at, lines_around, square_keeps, corner_keeps, pad_keeps};

use boardparts::Side;
use grid::{BLANK, Direction, Edge, Grid, HOLE, Refusal};

// The bytes of an edge's states, as the edge type names them.
const UNDECIDED: u8 = Edge::UNDECIDED.0;

const LINE: u8 = Edge::LINE.0;

const NONE: u8 = Edge::NONE.0;

// The verdict on a drawing: it is no layout, an ordinary one, or a listed one.
#[derive(Clone, Copy, PartialEq, Eq, PartialOrd, Ord)]
pub enum Verdict {
    NoLayout,
    Ordinary,
    Listed,
}

// The number by which a verdict is told: 0, 1 or 2.
impl From<Verdict> for u8 {
    ghost from_gives = { λ verdict number. number ≡ verdict_number verdict };

    fn from(verdict: Verdict) -> u8 {
        match verdict {
            Verdict::NoLayout => 0,
            Verdict::Ordinary => 1,
            Verdict::Listed => 2,
        }
    }
}

// The verdict on a drawing and its lines, 0 beside no layout.
#[derive(Clone, Copy, PartialEq, Eq)]
pub struct Judged {
    pub verdict: Verdict,
    pub lines: usize,
}

// Joins the ends of the two pads of a line, if the line can be.
fn follow_line(ends: &mut [i64; 512], first: usize, second: usize) -> bool
    requires { (first < 512) × (second < 512) × InUse ends.old }
    ensures { Stepped (model.after_line first second) ends.old result ends.new }
{
    if boardparts::cannot_join(ends, first, second) {
        return false;
    }
    boardparts::join_ends(ends, first, second);
    true
}

// Follows the byte of an edge: 1 for a line, 2 for none, and no other.
fn follow_edge(ends: &mut [i64; 512], first: usize, second: usize, byte: u8) -> bool
    requires { (first < 512) × (second < 512) × InUse ends.old }
    ensures { Stepped (model.after_edge first second byte) ends.old result ends.new }
{
    if byte == LINE {
        return follow_line(ends, first, second);
    }
    byte == NONE
}

// Follows the byte of a place; between the edges it is 0.
fn follow_place(ends: &mut [i64; 512], width: usize, row: usize, column: usize, byte: u8) -> bool
    requires { (width ≤ 16) × (row < 31) × (column < 31) × InUse ends.old }
    ensures { Stepped (model.after_place width (place_at width row column) byte) ends.old result ends.new }
{
    match grid::pads_at(width, row, column) {
        Some(pads) => follow_edge(ends, pads.first, pads.second, byte),
        None => byte == UNDECIDED,
    }
}

// Follows a row of the field, and counts its lines with those before it; none where a byte or a line is wrong.
fn follow_row(
    ends: &mut [i64; 512],
    width: usize,
    row: usize,
    bytes: &[u8],
    lines: usize,
) -> Option<usize>
    requires { (2 ≤ width) × (width ≤ 16) × (row < 31) × (row * field_side width + field_side width ≤ length bytes.now) × InUse ends.old × (lines ≡ lines_in bytes.now (row * field_side width)) }
    ensures { FollowedOn width bytes.now (row * field_side width) (row * field_side width + field_side width) ends.old result ends.new }
{
    let side = 2 * width - 1;
    let mut found = lines;
    for column in 0..side {
        let held = bytes[row * side + column];
        if !follow_place(ends, width, row, column, held) {
            return None;
        }
        found += usize::from(held == LINE);
    }
    Some(found)
}

// Follows the whole field, row by row.
fn follow_record(ends: &mut [i64; 512], grid: &Grid, bytes: &[u8]) -> Option<usize>
    requires { (length bytes.now ≡ places grid.now.height grid.now.width) × InUse ends.old }
    ensures { FollowedOn grid.now.width bytes.now 0 (places grid.now.height grid.now.width) ends.old result ends.new }
{
    let rows = 2 * grid.height - 1;
    let mut lines: usize = 0;
    for row in 0..rows {
        lines = follow_row(ends, grid.width, row, bytes, lines)?;
    }
    Some(lines)
}

// Whether a pad is finished: a clue has its line, a blank pad two or none, a hole none.
fn is_finished(cells: &[i64], ends: &[i64; 512], v: usize) -> bool
    requires { (v < length cells.now) × (v < 512) }
    ensures { result ≡ finished_at cells.now ends.now v }
{
    let cell = cells[v];
    let end = ends[v];
    if end == -1 {
        return HOLE < cell;
    }
    if 0 <= cell {
        return false;
    }
    end == v as i64
}

// Whether the place of that number holds a line; past the record's end there is none.
fn line_at(bytes: &[u8], place: usize) -> bool
    ensures { result ≡ eqb (get_or bytes.now place undecided_byte) line_byte }
{
    place < bytes.len() && bytes[place] == LINE
}

// Whether a line leads in the direction from pad (y, x); the last column has no edge to the right.
fn leads(direction: Direction, bytes: &[u8], width: usize, y: usize, x: usize) -> bool
    requires { InColumn width y x }
    ensures { result ≡ drawn (drawing_of width bytes.now) (edge_to direction (pad_index width y x)) }
{
    if direction == Direction::Right && width <= x + 1 {
        return false;
    }
    line_at(bytes, direction.place(width, y, x))
}

// Whether a pad is a clue or a hole.
fn is_taken(cells: &[i64], v: usize) -> bool
    ensures { result ≡ taken_at cells.now v }
{
    v < cells.len() && cells[v] != BLANK
}

// Whether pad (y, x) has a line to that side; to the left of the first column there is none.
fn line_beside(side: Side, bytes: &[u8], width: usize, y: usize, x: usize) -> bool
    requires { InColumn width y x }
    ensures { result ≡ line_beside (side_of side) (drawing_of width bytes.now) (pad_index width y x) }
{
    match side {
        Side::Left => 0 < x && leads(Direction::Right, bytes, width, y, x - 1),
        Side::Right => leads(Direction::Right, bytes, width, y, x),
    }
}

// Whether it has the corner on that side: the line beside and the one downward.
fn has_corner(side: Side, bytes: &[u8], width: usize, y: usize, x: usize) -> bool
    requires { InColumn width y x }
    ensures { result ≡ has_corner (side_of side) (drawing_of width bytes.now) (pad_index width y x) }
{
    line_beside(side, bytes, width, y, x) && leads(Direction::Down, bytes, width, y, x)
}

// The corner rule at pad (y, x), on that side: diagonally below stands a clue or a hole, or the same corner.
fn corner_keeps(side: Side, grid: &Grid, bytes: &[u8], y: usize, x: usize) -> bool
    requires { (y < grid.now.height) × (x < grid.now.width) }
    ensures { result ≡ corner_keeps (side_of side) grid.now.width grid.now.cells.now (drawing_of grid.now.width bytes.now) (pad_index grid.now.width y x) }
{
    if !has_corner(side, bytes, grid.width, y, x) {
        return true;
    }
    let below = match side {
        Side::Left => x - 1,
        Side::Right => x + 1,
    };
    is_taken(grid.cells, (y + 1) * grid.width + below)
        || has_corner(side, bytes, grid.width, y + 1, below)
}

// The number of lines in the unit square of pad (y, x): above, on the left, on the right, below.
fn square_lines(bytes: &[u8], width: usize, y: usize, x: usize) -> usize
    requires { InColumn width y x × (y < 16) × (x + 1 < width) }
    ensures { result ≡ lines_around width (drawing_of width bytes.now) (pad_index width y x) }
{
    let above = usize::from(leads(Direction::Right, bytes, width, y, x));
    let left = usize::from(leads(Direction::Down, bytes, width, y, x));
    let right = usize::from(leads(Direction::Down, bytes, width, y, x + 1));
    let below = usize::from(leads(Direction::Right, bytes, width, y + 1, x));
    above + left + right + below
}

// At most two lines in the unit square of pad (y, x), if it has one.
fn square_keeps(grid: &Grid, bytes: &[u8], y: usize, x: usize) -> bool
    requires { (y < grid.now.height) × (x < grid.now.width) }
    ensures { result ≡ square_keeps grid.now.height grid.now.width (drawing_of grid.now.width bytes.now) (pad_index grid.now.width y x) }
{
    if x + 1 < grid.width {
        if y + 1 < grid.height {
            return square_lines(bytes, grid.width, y, x) <= 2;
        }
    }
    true
}

// The rules of a listed drawing at pad (y, x).
#[tactic(auto, unfolding(crate::specs::Shape::pad_keeps))]
fn pad_keeps(grid: &Grid, bytes: &[u8], y: usize, x: usize) -> bool
    requires { (y < grid.now.height) × (x < grid.now.width) }
    ensures { result ≡ pad_keeps grid.now.height grid.now.width grid.now.cells.now (drawing_of grid.now.width bytes.now) (pad_index grid.now.width y x) }
{
    square_keeps(grid, bytes, y, x)
        && (corner_keeps(Side::Left, grid, bytes, y, x)
            && corner_keeps(Side::Right, grid, bytes, y, x))
}

// Whether every pad is finished.
fn all_finished(grid: &Grid, ends: &[i64; 512]) -> bool
    ensures { result ≡ all_below (finished_at grid.now.cells.now ends.now) (grid.now.height * grid.now.width) }
{
    (0..grid.pads()).all(|v| is_finished(grid.cells, ends, v))
}

// Whether every pad of a row keeps the rules of a listed drawing.
fn row_keeps(grid: &Grid, bytes: &[u8], y: usize) -> bool
    requires { y < grid.now.height }
    ensures { result ≡ all_below (λ x. pad_keeps grid.now.height grid.now.width grid.now.cells.now (drawing_of grid.now.width bytes.now) (pad_index grid.now.width y x)) grid.now.width }
{
    (0..grid.width).all(|x| pad_keeps(grid, bytes, y, x))
}

// Whether every pad does.
fn all_keep(grid: &Grid, bytes: &[u8]) -> bool
    ensures { result ≡ model.has_listed_shape (as_grid grid.now) bytes.now }
{
    (0..grid.height).all(|y| row_keeps(grid, bytes, y))
}

// The verdict by all pads.
fn pads_verdict(grid: &Grid, bytes: &[u8], ends: &[i64; 512]) -> Verdict
    ensures { verdict_number result ≡ mark (all_below (finished_at grid.now.cells.now ends.now) (grid.now.height * grid.now.width)) (model.has_listed_shape (as_grid grid.now) bytes.now) }
{
    if !all_finished(grid, ends) {
        return Verdict::NoLayout;
    }
    if all_keep(grid, bytes) {
        Verdict::Listed
    } else {
        Verdict::Ordinary
    }
}

// The answer for an accepted grid: a verdict with the lines, 0 beside no layout.
fn answered(verdict: Verdict, lines: usize) -> Judged
    ensures { judged_says (Ok result) ≡ answer (verdict_number verdict) lines }
{
    Judged {
        verdict,
        lines: if verdict == Verdict::NoLayout {
            0
        } else {
            lines
        },
    }
}

// Judges a record of an accepted grid: its length, its places, the pads.
pub fn judge_record(grid: &Grid, bytes: &[u8]) -> Judged
    ensures { judged_says (Ok result) ≡ answer (model.verdict (as_grid grid.now) bytes.now) (record_lines bytes.now) }
{
    if bytes.len() != grid.places() {
        return answered(Verdict::NoLayout, 0);
    }
    let mut ends = boardbare::bare_ends(grid.cells);
    match follow_record(&mut ends, grid, bytes) {
        None => answered(Verdict::NoLayout, 0),
        Some(lines) => answered(pads_verdict(grid, bytes, &ends), lines),
    }
}

// Judges a record: the grid's refusals, or the verdict with the lines.
pub fn judge(height: usize, width: usize, cells: &[i64], bytes: &[u8]) -> Result<Judged, Refusal>
    ensures { judged_says result ≡ model.judge height width cells.now bytes.now }
{
    let grid = grid::accept(height, width, cells)?;
    Ok(judge_record(&grid, bytes))
}
