// What `common` prints for a file, in parts that a program writes one after the other: the head, whose line (`first_line`) is that of a
// refused file or the summary line (crate `listing`, `head_line`), and the line of each row of the table. specs/Tabling.antt says each part, and proofs/Whole.antt that together they are the text
// of the crate `model`. The answer buffer and the table are lent: `head` leaves the table of a complete list in it, and `row` reads it there.
#![tactic(auto)]

ghost use Rattle.std.specs.Prelude.{◌≡◌, map, ◌++◌, ◌+◌, ◌≤◌, length};
ghost use Rattle.tabling.specs.Tabling.{has_row, table_digit, row_text, text_of, found_in, rows_in, Headed};

use copper::NoTable;
use gridfile::Declined;
use printed::HeadLine;
use tally::{Solved, Tally};
use text::Line;

// The limit of visited boards, as `routes` has it.
const LIMIT: u64 = 1000000;

const ZERO: u8 = 48;

const LINE_END: u8 = 10;

// What is told of an accepted file: what the search of its grid has found, W, and how many rows are printed: 2H-1 for a complete list, none for
// any other.
#[derive(Clone, Copy, PartialEq, Eq)]
pub struct Heading {
    pub found: Solved,
    pub width: usize,
    pub rows: usize,
}

// A row of at most 31 digits and the byte after it.
pub type RowLine = Line<32>;

// What was found, with a table and without one; nothing where nothing was searched.
fn found_in(common: Result<Tally, NoTable>) -> Solved
    ensures { result ≡ found_in common }
{
    match common {
        Ok(tally) => Solved {
            outcome: Ok(()),
            tally,
        },
        Err(NoTable::Incomplete(found)) => found,
        Err(_) => Solved {
            outcome: Ok(()),
            tally: Tally::EMPTY,
        },
    }
}

// How many rows are printed: those of the field where there is a table.
fn rows_in(common: Result<Tally, NoTable>, height: usize) -> usize
    requires { (2 ≤ height) × (height ≤ 16) }
    ensures { result ≡ rows_in common height }
{
    if common.is_err() {
        return 0;
    }
    2 * height - 1
}

// Reads the file, searches its grid into the buffer, and fills the table from a complete list; a refused file is told by why and where.
pub fn head(file: &[u8], buffer: &mut [u8], table: &mut [u8]) -> Result<Heading, Declined>
    ensures { Headed file.now buffer.old table.old result buffer.new table.new }
{
    let grid = gridfile::read(file)?;
    let cells = grid.accepted().cells;
    let common = copper::common(grid.height, grid.width, cells, LIMIT, buffer, table);
    Ok(Heading {
        found: found_in(common),
        width: grid.width,
        rows: rows_in(common, grid.height),
    })
}

// The first line of the text, for what `head` has answered.
pub fn first_line(head: Result<Heading, Declined>) -> HeadLine
    ensures { result ≡ text_of head }
{
    match head {
        Ok(heading) => listing::head_line(Ok(heading.found)),
        Err(declined) => listing::head_line(Err(declined)),
    }
}

// Whether a table of so many bytes has a row k: W is a size, k is below the rows, and the row ends in time.
fn has_row(width: usize, rows: usize, k: usize, room: usize) -> bool
    ensures { result ≡ has_row width rows k room }
{
    if !grid::is_size(width) {
        return false;
    }
    if rows <= k {
        return false;
    }
    k < room / (2 * width - 1)
}

// A digit more for each byte of a row. The bytes of a table are at most 3, so that each is its own last digit.
fn push_digits(line: &mut RowLine, row: &[u8])
    requires { length line.old + length row.now ≤ 32 }
    ensures { line.new ≡ line.old ++ map table_digit row.now }
{
    for byte in row {
        line.push_byte(ZERO + *byte % 10);
    }
}

// The line of row k of the table, from 0; nothing where there is no row k.
pub fn row(table: &[u8], width: usize, rows: usize, k: usize) -> RowLine
    ensures { result ≡ row_text width rows k table.now }
{
    let mut line = Line::new();
    if !has_row(width, rows, k, table.len()) {
        return line;
    }
    let side = 2 * width - 1;
    let start = k * side;
    let end = start + side;
    push_digits(&mut line, &table[start..end]);
    line.push_byte(LINE_END);
    line
}
