// Runs the cases of a reader, that of grid files or that of packed decimal: takes the slices of an input, each behind its length in
// two bytes, and prints the answer of each: the line of a refused slice, or the grid as it is written back. It is safe for either reader,
// since a grid that was read is accepted, and lends the cells of its pads.
#![tactic(auto)]

ghost use Rattle.std.specs.Prelude.{IfSome, ◌<◌, length};

use gridfile::{Declined, Grid};

// The number of standard output. It is written by the kit's io, so that no function here asks for a handle.
const STDOUT_FILENO: i32 = 1;

// Which reader is asked: that of grid files, or that of packed decimal.
#[derive(Clone, Copy)]
pub enum Reader {
    File,
    Packed,
}

// The line of a refused slice. What cannot be written is passed over, here as below.
fn print_refusal(declined: Declined) {
    let number = declined.fault.number();
    let line = printed::refusal_line(number, declined.line as u64, declined.field as u64);
    io::write_all(STDOUT_FILENO, line.as_bytes());
}

// The grid of an accepted slice, as it is written back; nothing where it cannot be.
fn print_grid(grid: &grid::Grid<'_>) {
    let mut text = [0; gridfile::LONGEST_TEXT];
    if let Ok(length) = gridfile::write(grid.height, grid.width, grid.cells, &mut text) {
        io::write_all(STDOUT_FILENO, &text[..length]);
    }
}

// A line for each cell past the pads that is not blank.
fn print_past(cells: &[i64], pads: usize) {
    for cell in cells.iter().skip(pads) {
        if *cell != grid::BLANK {
            io::write_all(STDOUT_FILENO, b"past\n");
        }
    }
}

// What the reader that is asked gives for a slice.
fn ask(bytes: &[u8], reader: Reader) -> Result<Grid, Declined> {
    match reader {
        Reader::File => gridfile::read(bytes),
        Reader::Packed => packed::read_packed(bytes),
    }
}

fn print_answer(answer: Result<Grid, Declined>) {
    match answer {
        Ok(read) => {
            let grid = read.accepted();
            print_grid(&grid);
            print_past(&read.cells, grid.cells.len());
        }
        Err(declined) => print_refusal(declined),
    }
}

// The first case of an input and what comes after it; none where the input stops short.
fn split_case(input: &[u8]) -> Option<(&[u8], &[u8])>
    ensures { IfSome result (λ (case, rest). length rest.now < length input.now) }
{
    let (long, rest) = input.split_first_chunk::<2>()?;
    rest.split_at_checked(usize::from(u16::from_be_bytes(*long)))
}

// Every case of the input, in order, by the reader that is asked.
pub fn run_all(input: &[u8], reader: Reader) {
    let mut rest = input;
    while let Some((case, after)) = split_case(rest) {
        print_answer(ask(case, reader));
        rest = after;
    }
}
