// Makes the fixed sequences of board calls of the file `stdin` and prints a line for each; `stdout` has the lines that the Rust gave:
// the number of the sequence, its calls, and a checksum of answer, flag, edges and ends after every call. oracle/README.md describes the
// stream and the checksum, and how both were made. What the calls do is proved in their own crate: here only that this program is safe
// and ends.
#![tactic(auto)]

ghost use Rattle.std.specs.Prelude.{◌≡◌, ◌≤◌, length};

use board::{Answer, Board};
use grid::Edge;
use std::os::fd::AsRawFd;
use stream::{byte_at, grid_at, later, number_at, replay_all, taken, taken_bytes, taken_ends};

// One call: 32 times the kind, plus the row; and the column. The kinds are 0 checkpoint, 1 undo, 2 read, 3 decide a line, 4 decide none.
fn called(board: Board, first: u8, column: u8) -> Answer {
    let y = usize::from(first % 32);
    let x = usize::from(column);
    match first / 32 {
        0 => board.add_checkpoint(),
        1 => Answer {
            said: Ok(0),
            board: board.undo(),
        },
        2 => board.get_edge(y, x),
        3 => board.decide_edge(y, x, Edge::LINE),
        _ => board.decide_edge(y, x, Edge::NONE),
    }
}

// The checksum with what a board shows after a call.
fn taken_board(sum: u64, answer: usize, board: Board) -> u64 {
    let shown = board.shown();
    let head = taken(taken(sum, answer as u64), u64::from(shown.flag));
    taken_ends(taken_bytes(head, shown.edges()), shown.ends())
}

// The calls of one sequence, from a place on; its checksum.
fn sum_of_calls(stream: &[u8], place: usize, calls: usize, fresh: Board) -> u64
    requires { calls ≤ 65535 }
{
    let mut board = fresh;
    let mut sum: u64 = 1;
    for call in 0..calls {
        let at = later(place, 2 * call);
        let answer = called(board, byte_at(stream, at), byte_at(stream, later(at, 1)));
        board = answer.board;
        sum = taken_board(sum, answer.answer(), board);
    }
    sum
}

// One sequence; the place after it, or none where the stream has no sequence there.
fn sequence_at(rt: &impl Print, stream: &[u8], place: usize, number: u64) -> Option<usize> {
    let grid = grid_at(stream, place)?;
    let fresh = Board::new(grid.height, grid.width, grid.cells());
    let calls = number_at(stream, grid.after, 2);
    if calls > 65535 {
        return None;
    }
    let first = later(grid.after, 2);
    let sum = sum_of_calls(stream, first, calls as usize, fresh.board);
    let _ = println!(rt; "{number},{calls},{sum}");
    Some(later(first, 2 * calls as usize))
}

// Room for the whole stream.
fn room() -> [u8; 400000]
    ensures { 400000 ≡ length result }
{
    [0; 400000]
}

fn main(rt: HostRuntime) {
    let mut buffer = room();
    // By the kit's io: std fills an array only by read_exact, which fails where the input ends before it.
    let length = io::read_full(rt.stdin().as_raw_fd(), &mut buffer);
    let stream = &buffer[..length];
    replay_all(
        length,
        |place, number| sequence_at(&rt, stream, place, number),
    );
}
