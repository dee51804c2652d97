// Runs the search on the fixed grids of the file `stdin` and prints a line for each run; `stdout` has the lines that the Rust gave.
// oracle/README.md describes the stream and the lines, and how both were made. What the search gives is proved in its own crate: here
// only that this program is safe and ends.
#![tactic(auto)]

use std::os::fd::AsRawFd;
use stream::{Sent, byte_at, grid_at, later, number_at, replay_all, taken_bytes};
use tally::{Solved, Tally, outcome_number};

// No room is larger.
const LARGEST_ROOM: usize = 61504;

// The byte that fills the room before a run.
const FILL: u8 = 7;

// What is found in a declined grid.
const NOTHING: Solved = Solved {
    outcome: Ok(()),
    tally: Tally::EMPTY,
};

// One run: the grid's number, outcome, layouts, visited, fewest, and the checksum of the whole room.
fn print_run(rt: &impl Print, number: u64, grid: &Sent, limit: u64, room: &mut [u8]) {
    room.fill(FILL);
    let found = solver::solve(grid.height, grid.width, grid.cells(), limit, room).unwrap_or(
        NOTHING,
    );
    let outcome = outcome_number(found.outcome);
    let Tally {
        visited,
        layouts,
        fewest,
    } = found.tally;
    let sum = taken_bytes(1, room);
    let _ = println!(rt; "{number},{outcome},{layouts},{visited},{fewest},{sum}");
}

// One run of the stream: the limit in eight bytes, the room in four.
fn run_at(rt: &impl Print, stream: &[u8], place: usize, number: u64, grid: &Sent) {
    let limit = number_at(stream, place, 8);
    let bytes = number_at(stream, later(place, 8), 4) as usize;
    let mut buffer = io::large_buffer();
    if bytes <= LARGEST_ROOM {
        print_run(rt, number, grid, limit, &mut buffer[..bytes]);
    }
}

// All runs of one grid; the place after them, or none where the stream has no grid there.
fn runs_at(rt: &impl Print, stream: &[u8], place: usize, number: u64) -> Option<usize> {
    let grid = grid_at(stream, place)?;
    let total = usize::from(byte_at(stream, grid.after));
    for run in 0..total {
        run_at(rt, stream, later(grid.after, 1 + 12 * run), number, &grid);
    }
    Some(later(grid.after, 1 + 12 * total))
}

fn main(rt: HostRuntime) {
    let mut buffer = io::large_buffer();
    // By the kit's io: std fills an array only by read_exact, which fails where the input ends before it.
    let length = io::read_full(rt.stdin().as_raw_fd(), &mut buffer);
    let stream = &buffer[..length];
    replay_all(length, |place, number| runs_at(&rt, stream, place, number));
}
