// Undoing entries of the board's log: the edges they decided are undecided again, and the ends that they joined are as before.
// The result equals boardview's unwinding of the log (Unwind.antt, back_to); with SINCE this is the state before the entries were made.
#![tactic(auto)]

ghost use Rattle.std.specs.Prelude.{◌≡◌, ℕ, ◌+◌, ◌*◌, ◌-◌, ◌%◌, ◌≤◌, ◌<◌, get_or, pos};
ghost use Rattle.boardview.specs.View.{grid_in, logged, Entry, slot_logged, unjoined, undone_one};
ghost use Rattle.boardview.specs.Unwind.{with_shown, back_to};

use boardparts::End;
use boardview::{Arrays, Kinds};
use grid::Edge;

// The byte of an undecided edge, as the edge type names it.
const UNDECIDED: u8 = Edge::UNDECIDED.0;

// Gives back the ends of an entry: those of its pads v and q, and at the pads that these ends name, v and q. An entry that joined none
// has -1, the number of a pad that a line passes through.
fn unjoin(ends: &mut [i64; 512], log: &[i64; 1440], k: usize, v: usize, q: usize)
    requires { (k < 480) × (v < 512) × (q < 512) }
    ensures { ends.new ≡ unjoined v q (get_or log.now (3 * k + 1) (pos 0)) (get_or log.now (3 * k + 2) (pos 0)) ends.old }
{
    let a = log[3 * k + 1];
    let b = log[3 * k + 2];
    let first_end = End::from(a);
    if let End::Through = first_end {
        return;
    }
    ends[v] = a;
    ends[q] = b;
    boardparts::put_number(ends, first_end, v as i64);
    boardparts::put_number(ends, End::from(b), q as i64);
}

// The slot of an entry.
fn logged_slot(log: &[i64; 1440], k: usize) -> usize
    requires { (k < 480) × (get_or log.now (3 * k) (pos 0) ≡ pos (slot_logged log.now k)) }
    ensures { result ≡ slot_logged log.now k }
{
    log[3 * k] as usize
}

// Undoes entry k, which stays in the log.
fn undo_one(board: &mut Arrays, kinds: &Kinds, k: usize)
    requires { (k < 480) × Entry (grid_in kinds.now) board.old.log k }
    ensures { board.new ≡ with_shown board.old (undone_one (grid_in kinds.now).width board.old.log k (board.old.edges, board.old.ends)) }
{
    let slot = logged_slot(&board.log, k);
    let v = boardparts::first_pad(slot);
    let q = boardparts::second_pad(slot, kinds.width);
    board.edges[slot] = UNDECIDED;
    unjoin(&mut board.ends, &board.log, k, v, q);
}

// Undoes the entries made since a mark, which is the count that stood then, and stands again.
pub fn undo(board: &mut Arrays, kinds: &Kinds, mark: usize)
    requires { (mark % 1024 ≤ logged board.old) × (logged board.old ≤ 480) × ((k : ℕ) → k < logged board.old → Entry (grid_in kinds.now) board.old.log k) }
    ensures { board.new ≡ back_to (grid_in kinds.now).width board.old mark }
{
    let entries = board.logged();
    for k in (boardview::length_in(mark)..entries).rev() {
        undo_one(board, kinds, k);
    }
    board.count = mark;
}
