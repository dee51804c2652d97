// The port of grid.rs: the edge type with its three named states, the two pads of an edge, and when a grid is declined. An accepted grid
// is a lent list of cells with its sizes. Which pads a place joins is said in the crate `rules`, specs/Grid.antt there; what the calls answer in the
// crate `model`, specs/Refusals.antt there.
#![tactic(auto)]

ghost use Rattle.std.specs.Prelude.{◌≡◌, List, ◌*◌, ◌≤◌, ◌<◌, not, position, Some, IfOk, ℤ};
ghost use Rattle.rules.specs.Grid.{second, edge, pad_index, place_at, places, Size, grid_of};
ghost use Rattle.rules.specs.Record.{byte_of, place_number};
ghost use Rattle.model.specs.Bounds.{is_size};
ghost use Rattle.model.specs.PadTests.{on_board};
ghost use Rattle.model.specs.Refusals.{is_cell, grid_refusal};
ghost use Rattle.grid.specs.Answers.{number_of, index_of, refusal_says};
ghost use Rattle.grid.specs.Directions.{edge_to};
ghost use Rattle.grid.specs.PadsAt.{pads_of};

mod accepted;

pub use accepted::Grid;

// An edge of a board, as the byte that a record holds for it.
#[derive(Clone, Copy, PartialEq, Eq)]
pub struct Edge(pub u8);

impl Edge {
    pub const UNDECIDED: Edge = Edge(0);

    pub const LINE: Edge = Edge(1);

    pub const NONE: Edge = Edge(2);
}

impl From<bool> for Edge {
    ghost from_gives = { λ is_line edge. edge.0 ≡ byte_of is_line };

    // A decided edge: a line, or none.
    fn from(is_line: bool) -> Edge {
        if is_line { Edge::LINE } else { Edge::NONE }
    }
}

// The two directions in which an edge leads from its first pad to its second.
#[derive(Clone, Copy, PartialEq, Eq)]
pub enum Direction {
    Right,
    Down,
}

impl Direction {
    // The second pad of the edge from a pad.
    pub fn second(self, v: usize, width: usize) -> usize
        requires { (v < 512) × (width ≤ 16) }
        ensures { result ≡ second width (edge_to self v) }
    {
        match self {
            Direction::Right => v + 1,
            Direction::Down => v + width,
        }
    }

    // Whether the board has an edge in the direction from a pad.
    pub fn has_edge(self, height: usize, width: usize, v: usize) -> bool
        requires { (height ≤ 16) × (1 ≤ width) × (width ≤ 16) × (v < 512) }
        ensures { (cells : List ℤ) → result ≡ on_board (grid_of height width cells) (edge_to self v) }
    {
        match self {
            Direction::Right => v % width + 1 < width && v < height * width,
            Direction::Down => v + width < height * width,
        }
    }

    // The number of the place of the edge from pad (y, x): place (2y, 2x+1) to the right, place (2y+1, 2x) downward.
    pub fn place(self, width: usize, y: usize, x: usize) -> usize
        requires { (y ≤ 16) × (x < width) × (width ≤ 16) }
        ensures { result ≡ place_number width (edge_to self (pad_index width y x)) }
    {
        let side = 2 * width - 1;
        match self {
            Direction::Right => 2 * y * side + 2 * x + 1,
            Direction::Down => (2 * y + 1) * side + 2 * x,
        }
    }
}

// The two pads of an edge, the first and the second, and the direction from one to the other.
#[derive(Clone, Copy, PartialEq, Eq)]
pub struct Pads {
    pub direction: Direction,
    pub first: usize,
    pub second: usize,
}

// The index of pad (y, x).
fn pad(width: usize, y: usize, x: usize) -> usize
    requires { (width ≤ 16) × (y ≤ 15) × (x ≤ 15) }
    ensures { (result ≡ pad_index width y x) × (result < 256) }
{
    y * width + x
}

// The pads of the edge in a direction from pad (y, x).
fn pads_from(direction: Direction, width: usize, y: usize, x: usize) -> Pads
    requires { (width ≤ 16) × (y ≤ 15) × (x ≤ 15) }
    ensures { Some result ≡ pads_of width (edge (edge_to direction (pad_index width y x))) }
{
    let first = pad(width, y, x);
    Pads {
        direction,
        first,
        second: direction.second(first, width),
    }
}

// The pads that a place of the field joins, by two cases. In an even row 2y they stand beside each other: place (2y, 2x+1) joins pad (y, x)
// to the right. In an odd row 2y+1 they stand one above the other: place (2y+1, 2x) joins pad (y, x) downward. Other places join none.
// specs/PadsLaws.antt says both ways that these are the pads.
pub fn pads_at(width: usize, row: usize, column: usize) -> Option<Pads>
    requires { (width ≤ 16) × (row < 31) × (column < 31) }
    ensures { result ≡ pads_of width (place_at width row column) }
{
    let y = row / 2;
    let x = column / 2;
    if row == 2 * y {
        if column == 2 * x + 1 {
            return Some(pads_from(Direction::Right, width, y, x));
        }
        return None;
    }
    if column == 2 * x {
        return Some(pads_from(Direction::Down, width, y, x));
    }
    None
}

// The number of places of the field, which is the length of a record.
pub fn places(height: usize, width: usize) -> usize
    requires { Size height × Size width }
    ensures { result ≡ places height width }
{
    (2 * height - 1) * (2 * width - 1)
}

// The largest and the least number of rows and of columns.
pub const LEAST_SIZE: usize = 2;

pub const LARGEST_SIZE: usize = 16;

// A cell is blank, a hole, or a floor code from 0 to the largest.
pub const BLANK: i64 = -1;

pub const HOLE: i64 = -2;

pub const LARGEST_CODE: i64 = 4294967295;

// Why a grid is declined: its number of rows or of columns is no size, it has another number of cells than pads, or the cell at this index is
// the first that is neither blank nor a hole nor a code.
#[derive(Clone, Copy, PartialEq, Eq)]
pub enum Refusal {
    Size,
    CellCount,
    Cell(usize),
}

impl Refusal {
    // Document 01's number.
    pub fn number(self) -> u8
        ensures { result ≡ number_of self }
    {
        match self {
            Refusal::Size => 7,
            Refusal::CellCount => 8,
            Refusal::Cell(_) => 9,
        }
    }

    // The index of the first bad cell, 0 beside the other numbers.
    pub fn index(self) -> usize
        ensures { result ≡ index_of self }
    {
        match self {
            Refusal::Size => 0,
            Refusal::CellCount => 0,
            Refusal::Cell(index) => index,
        }
    }
}

// Whether a grid may have this many rows, or columns.
pub fn is_size(n: usize) -> bool
    ensures { result ≡ is_size n }
{
    LEAST_SIZE <= n && n <= LARGEST_SIZE
}

// Whether a cell is blank, a hole or a code.
fn is_cell(cell: i64) -> bool
    ensures { result ≡ is_cell cell }
{
    HOLE <= cell && cell <= LARGEST_CODE
}

// The index of the first cell that is neither blank nor a hole nor a code.
fn first_bad_cell(cells: &[i64]) -> Option<usize>
    ensures { result ≡ position (λ cell. not (is_cell cell)) cells.now }
{
    cells.iter().position(|&cell| !is_cell(cell))
}

// The refusals 7, 8 and 9, in this order, or the grid, accepted.
pub fn accept<'a>(height: usize, width: usize, cells: &'a [i64]) -> Result<Grid<'a>, Refusal>
    ensures says { refusal_says result ≡ grid_refusal height width cells.now }
    ensures same { IfOk result (λ grid. (grid.height ≡ height) × (grid.width ≡ width) × (grid.cells.now ≡ cells.now)) }
{
    if !is_size(height) || !is_size(width) {
        return Err(Refusal::Size);
    }
    if cells.len() != height * width {
        return Err(Refusal::CellCount);
    }
    match first_bad_cell(cells) {
        Some(index) => Err(Refusal::Cell(index)),
        None => Ok(Grid {
            height,
            width,
            cells,
        }),
    }
}
