// Runs what document 01 leaves to a run of the search: limits 0, 1, visited - 1 and visited, buffers of a record less a byte, exactly full
// and a byte short of two records, sizes 1, 2, 16 and 17, a wrong number of cells and bad cells; codes on both sides of what 31 and 32 bits
// hold, alike and two by two; and nothing but holes, and clues that holes shut in. Prints number, index, outcome, layouts, visited, fewest
// and the sum of the buffer's bytes.
#![tactic(auto)]

ghost use Rattle.std.specs.Prelude.{◌≤◌, length};

use grid::Refusal;
use tally::{Solved, Tally, outcome_number};

fn sum(bytes: &[u8]) -> u64
    requires { length bytes.now ≤ 40 }
{
    bytes.iter().map(|byte| u64::from(*byte)).sum()
}

// A line: the refusal's number and index, 0 for an accepted grid, and what was found, nothing in a declined one. What cannot be written is
// passed over.
fn show(rt: &impl Print, answer: Result<Solved, Refusal>, total: u64) {
    let (number, index) = match answer {
        Ok(_) => (0, 0),
        Err(refusal) => (refusal.number(), refusal.index()),
    };
    let Solved { outcome, tally } = answer.unwrap_or(Solved {
        outcome: Ok(()),
        tally: Tally::EMPTY,
    });
    let outcome = outcome_number(outcome);
    let Tally {
        visited,
        layouts,
        fewest,
    } = tally;
    let _ = println!(rt; "{number},{index},{outcome},{layouts},{visited},{fewest},{total}");
}

// A grid of 2 rows and 2 columns with one cell everywhere, into the first bytes of a buffer of sevens.
fn square(rt: &impl Print, cell: i64, limit: u64, room: usize)
    requires { room ≤ 40 }
{
    let cells = [cell; 4];
    let mut buffer = [7u8; 40];
    let r = solver::solve(2, 2, &cells, limit, &mut buffer[..room]);
    show(rt, r, sum(&buffer));
}

// A blank grid of any sizes, with so many cells.
fn blank(rt: &impl Print, height: usize, width: usize, count: usize, limit: u64)
    requires { count ≤ 300 }
{
    let cells = [-1i64; 300];
    let mut buffer = [7u8; 40];
    let r = solver::solve(height, width, &cells[..count], limit, &mut buffer);
    show(rt, r, sum(&buffer));
}

// Two pairs of cells in opposite corners: two codes would cross, unless they are one, and two holes shut a code in.
fn crossed(rt: &impl Print, first: i64, second: i64, limit: u64) {
    let cells = [first, second, second, first];
    let mut buffer = [7u8; 40];
    let r = solver::solve(2, 2, &cells, limit, &mut buffer);
    show(rt, r, sum(&buffer));
}

fn limits(rt: &impl Print) {
    square(rt, 5, 0, 40);
    square(rt, 5, 1, 40);
    square(rt, 5, 2, 40);
    square(rt, 5, 3, 40);
}

fn rooms(rt: &impl Print) {
    square(rt, 5, 1000, 8);
    square(rt, 5, 1000, 9);
    square(rt, 5, 1000, 17);
    square(rt, 5, 1000, 18);
}

fn blank_rooms(rt: &impl Print) {
    square(rt, -1, 1, 40);
    square(rt, -1, 1000, 8);
    square(rt, -1, 1000, 0);
    square(rt, -1, 1000, 9);
}

fn refusals(rt: &impl Print) {
    square(rt, -3, 1000, 40);
    square(rt, 4294967296, 1000, 40);
    blank(rt, 2, 2, 5, 1000);
    blank(rt, 1, 2, 2, 1000);
}

fn bad_cells(rt: &impl Print) {
    square(rt, 9999999999, 1000, 40);
    square(rt, 4294967297, 1000, 40);
    square(rt, -4294967297, 1000, 40);
    square(rt, 9223372036854775807, 1000, 40);
    square(rt, -9223372036854775808, 1000, 40);
}

fn codes(rt: &impl Print) {
    square(rt, 2147483646, 1000, 40);
    square(rt, 2147483647, 1000, 40);
    square(rt, 2147483648, 1000, 40);
    square(rt, 4294967294, 1000, 40);
    square(rt, 4294967295, 1000, 40);
}

fn code_pairs(rt: &impl Print) {
    crossed(rt, 3100000012, 3100000012, 1000);
    crossed(rt, 0, 2147483648, 1000);
    crossed(rt, 4294967295, 2147483647, 1000);
    crossed(rt, 4294967294, 4294967295, 1000);
    crossed(rt, 4294967295, -1, 1000);
    crossed(rt, 4294967294, -2, 1000);
}

fn sizes(rt: &impl Print) {
    blank(rt, 2, 1, 2, 1000);
    blank(rt, 17, 2, 34, 1000);
    blank(rt, 2, 17, 34, 1000);
    blank(rt, 16, 16, 256, 3);
}

fn holes(rt: &impl Print) {
    square(rt, -2, 0, 40);
    square(rt, -2, 1, 40);
    square(rt, -2, 1, 8);
    crossed(rt, 5, -2, 0);
    crossed(rt, 5, -2, 1000);
}

fn main(rt: HostRuntime) {
    limits(&rt);
    rooms(&rt);
    blank_rooms(&rt);
    refusals(&rt);
    bad_cells(&rt);
    codes(&rt);
    code_pairs(&rt);
    sizes(&rt);
    holes(&rt);
}
