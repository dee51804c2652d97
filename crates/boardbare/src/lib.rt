// The arrays of a bare board, from an accepted grid: a byte for each edge, an end number for each pad, and what is told of the grid. What they hold is said in specs/BareArrays.antt; that they show the model's bare board is proved in proofs/BareView.antt.
#![tactic(auto)]

ghost use Rattle.std.specs.Prelude.{◌≡◌, ◌*◌, ◌≤◌, ◌<◌, length};
ghost use Rattle.grid.specs.AsGrid.{as_grid};
ghost use Rattle.boardview.specs.Told.{bytes_equal, undecided_side, action_code, action_entry};
ghost use Rattle.boardview.specs.SameKinds.{Shows};
ghost use Rattle.boardbare.specs.BareArrays.{edge_byte, EdgesFrom, end_number_at, EndsFrom, CellsInRange, is_right, byte_of_facts, is_clue_at, is_taken, corner_test, barred_in, barred_below, bar_test, kind_from, Table, BitsFrom};
ghost use Rattle.boardbare.specs.BareView.{BareBoard};

use boardparts::Side;
use boardview::{BAR_LEFT, BAR_RIGHT, CORNER_LEFT, CORNER_RIGHT, Kinds, TAKEN};
use grid::{BLANK, Direction, Edge, Grid};
use std::array;

// The bytes of an edge's states, as the edge type names them.
const UNDECIDED: u8 = Edge::UNDECIDED.0;

const LINE: u8 = Edge::LINE.0;

const NONE: u8 = Edge::NONE.0;

// The byte of a slot: undecided where the board has the edge, and none elsewhere; 32 slots before the first edge hold none.
fn edge_byte(grid: &Grid, slot: usize) -> u8
    requires { slot < 1024 }
    ensures { result ≡ edge_byte grid.now.width (grid.now.height * grid.now.width) slot }
{
    if slot < 32 {
        return NONE;
    }
    let direction = boardparts::direction_at(slot);
    if direction.has_edge(grid.height, grid.width, boardparts::first_pad(slot)) {
        UNDECIDED
    } else {
        NONE
    }
}

// The bytes of all edges; slots that are no edge of the board hold none.
fn bare_edges(grid: &Grid) -> [u8; 1024]
    ensures { EdgesFrom grid.now.width (grid.now.height * grid.now.width) 0 result }
{
    let mut edges = [NONE; 1024];
    for slot in (0..32 + 2 * grid.pads()).rev() {
        edges[slot] = edge_byte(grid, slot);
    }
    edges
}

// The end number of a pad: -v - 2 for a clue of value v, its own index for a blank pad and for a hole.
fn bare_end(cells: &[i64], v: usize) -> i64
    requires { (v < 512) × CellsInRange cells.now }
    ensures { result ≡ end_number_at cells.now v }
{
    match cells.get(v) {
        Some(&code) if 0 <= code => -code - 2,
        _ => v as i64,
    }
}

// The ends of all pads. Most ends are a pad's own index, so all are filled with it first, without a look at the cells.
pub fn bare_ends(cells: &[i64]) -> [i64; 512]
    requires { CellsInRange cells.now }
    ensures { EndsFrom cells.now 0 result }
{
    let mut ends = array::from_fn(|v| v as i64);
    for v in (0..cells.len().min(512)).rev() {
        ends[v] = bare_end(cells, v);
    }
    ends
}

// Whether a pad is a clue: a blank pad and a hole are below 0.
fn is_clue(grid: &Grid, v: usize) -> bool
    requires { v < length grid.now.cells.now }
    ensures { result ≡ is_clue_at grid.now.cells.now v }
{
    0 <= grid.cells[v]
}

// Whether a pad is taken: a clue or a hole.
fn is_taken(grid: &Grid, v: usize) -> bool
    requires { v < length grid.now.cells.now }
    ensures { result ≡ is_taken grid.now.cells.now v }
{
    grid.cells[v] != BLANK
}

// Whether a pad has an edge downward and one to that side.
fn has_corner(grid: &Grid, side: Side, v: usize) -> bool
    requires { v < 256 }
    ensures { result ≡ corner_test grid.now.width (grid.now.height * grid.now.width) (is_right side) v }
{
    let beside = match side {
        Side::Left => 0 < v % grid.width,
        Side::Right => v % grid.width + 1 < grid.width,
    };
    Direction::Down.has_edge(grid.height, grid.width, v) && beside
}

// Whether a pad is barred, by its byte.
fn is_barred(bits: &[u8; 512], v: usize, corner: u8, bar: u8) -> bool
    requires { v < 512 }
    ensures { result ≡ barred_in bits.now v corner bar }
{
    if boardview::has(bits, v, corner) {
        boardview::has(bits, v, bar)
    } else {
        !boardview::has(bits, v, TAKEN)
    }
}

// Whether the pad diagonally below on that side is barred.
fn is_barred_below(bits: &[u8; 512], width: usize, side: Side, v: usize) -> bool
    requires { (0 < width) × (width ≤ 16) × (v < 256) }
    ensures { result ≡ barred_below bits.now width (is_right side) v }
{
    match side {
        Side::Left => is_barred(bits, v + width - 1, CORNER_LEFT, BAR_LEFT),
        Side::Right => is_barred(bits, v + width + 1, CORNER_RIGHT, BAR_RIGHT),
    }
}

// Whether a pad with a corner on that side is barred there.
fn has_bar(bits: &[u8; 512], grid: &Grid, side: Side, v: usize) -> bool
    requires { (v < 256) × (v < length grid.now.cells.now) }
    ensures { result ≡ bar_test bits.now grid.now.width (grid.now.height * grid.now.width) (is_taken grid.now.cells.now v) (is_right side) v }
{
    has_corner(grid, side, v) && !is_taken(grid, v) && is_barred_below(bits, grid.width, side, v)
}

// What the byte of a pad tells.
#[derive(Clone, Copy)]
struct Facts {
    clue: bool,
    bar_right: bool,
    bar_left: bool,
    corner_right: bool,
    corner_left: bool,
    taken: bool,
}

impl From<Facts> for u8 {
    ghost from_gives = { λ facts byte. byte ≡ byte_of_facts facts };

    fn from(facts: Facts) -> u8 {
        u8::from(facts.clue)
            + BAR_RIGHT * u8::from(facts.bar_right)
            + BAR_LEFT * u8::from(facts.bar_left)
            + CORNER_RIGHT * u8::from(facts.corner_right)
            + CORNER_LEFT * u8::from(facts.corner_left)
            + TAKEN * u8::from(facts.taken)
    }
}

// The byte of a pad, from the bytes of the pads below it.
fn pad_byte(bits: &[u8; 512], grid: &Grid, v: usize) -> u8
    requires { (v < 256) × (v < length grid.now.cells.now) }
    ensures { result ≡ kind_from bits.now grid.now.width (grid.now.height * grid.now.width) grid.now.cells.now v }
{
    u8::from(Facts {
        clue: is_clue(grid, v),
        bar_right: has_bar(bits, grid, Side::Right, v),
        bar_left: has_bar(bits, grid, Side::Left, v),
        corner_right: has_corner(grid, Side::Right, v),
        corner_left: has_corner(grid, Side::Left, v),
        taken: is_taken(grid, v),
    })
}

// How many of four bytes are this one.
fn bytes_equal(left: u8, right: u8, up: u8, down: u8, byte: u8) -> u8
    ensures { (result ≡ bytes_equal left right up down byte) × (result ≤ 4) }
{
    u8::from(left == byte) + u8::from(right == byte) + u8::from(up == byte) + u8::from(down == byte)
}

// The side of a pad's first undecided edge: 0 left, 1 right, 2 up, 3 down. A number and no enum: it is added into a byte of the pad check's
// table, as `action_code` of boardview's Told.antt has it.
fn undecided_side(left: u8, right: u8, up: u8) -> u8
    ensures { (result ≡ undecided_side left right up) × (result ≤ 3) }
{
    if left == UNDECIDED {
        return 0;
    }
    if right == UNDECIDED {
        return 1;
    }
    if up == UNDECIDED {
        return 2;
    }
    3
}

// What the pad check does last at a pad (`clue` is 1 for a clue, else 0) with these edges: 0 nothing, 1 the flag, 2 + a side a line there,
// 6 + a side none there. A number, as the table holds it.
fn action_code(clue: u8, left: u8, right: u8, up: u8, down: u8) -> u8
    requires { clue ≤ 1 }
    ensures { result ≡ action_code clue left right up down }
{
    let degree = clue + bytes_equal(left, right, up, down, LINE);
    let undecided = bytes_equal(left, right, up, down, UNDECIDED);
    let side = undecided_side(left, right, up);
    if 2 < degree {
        return 1;
    }
    if undecided == 0 {
        if degree == 1 {
            return 1;
        }
        return 0;
    }
    if degree == 2 {
        return 6 + side;
    }
    if undecided == 1 {
        if degree == 1 {
            return 2 + side;
        }
        return 6 + side;
    }
    0
}

// An entry of the pad check's table: the digits of the index are the bytes of the four edges and the clue.
fn action_entry(i: usize) -> u8
    requires { i < 512 }
    ensures { result ≡ action_entry i }
{
    action_code(
        (i / 256) as u8,
        (i % 4) as u8,
        (i / 4 % 4) as u8,
        (i / 16 % 4) as u8,
        (i / 64 % 4) as u8,
    )
}

// The pad check's table.
fn action_table() -> [u8; 512]
    ensures { Table result }
{
    array::from_fn(|i| action_entry(i))
}

// The bytes of all pads, from the last one up.
fn all_bits(grid: &Grid) -> [u8; 512]
    ensures { BitsFrom (as_grid grid.now) 0 result }
{
    let mut bits = [0; 512];
    for v in (0..grid.pads()).rev() {
        bits[v] = pad_byte(&bits, grid, v);
    }
    bits
}

// What is told of a grid: its sizes, the bytes of its pads, and the pad check's table.
fn all_kinds(grid: &Grid) -> Kinds
    ensures { Shows (as_grid grid.now) result }
{
    let bits = all_bits(grid);
    let actions = action_table();
    Kinds {
        height: grid.height,
        width: grid.width,
        bits,
        actions,
    }
}

// The arrays of a bare board.
#[derive(Clone, Copy)]
pub struct Bare {
    pub edges: [u8; 1024],
    pub ends: [i64; 512],
    pub kinds: Kinds,
}

// The arrays of the bare board of an accepted grid.
pub fn bare_board(grid: &Grid) -> Bare
    ensures { BareBoard (as_grid grid.now) result.edges result.ends result.kinds }
{
    Bare {
        edges: bare_edges(grid),
        ends: bare_ends(grid.cells),
        kinds: all_kinds(grid),
    }
}
