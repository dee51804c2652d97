// The leaves of a decision: what only reads the board's lent arrays and chooses, and what stores one entry. Each equals a definition of
// boardview's View.antt. Nothing here calls a decision.
#![tactic(auto)]

ghost use Rattle.std.specs.Prelude.{◌≡◌, true, ℕ, suc, ◌+◌, ◌*◌, ◌-◌, ◌/◌, ◌≤◌, ◌<◌, get_or};
ghost use Rattle.rules.specs.Grid.{right};
ghost use Rattle.rules.specs.Drawing.{num, on_left};
ghost use Rattle.model.specs.JoinedEnds.{unjoinable};
ghost use Rattle.grid.specs.Directions.{edge_to};
ghost use Rattle.boardview.specs.Told.{corner_bit};
ghost use Rattle.boardview.specs.View.{logged, slot, edge_of, beside, end_of, end_at, second_pad, put_number, joined, keeps_apart, clue_apart, slot_around, action_around};
ghost use Rattle.boardview.specs.Actions.{action_index};
ghost use Rattle.boardview.specs.Unwind.{stored, log_joined, LineBegun};
ghost use Rattle.boardparts.specs.Sides.{side_of};
ghost use Rattle.boardparts.specs.Ends.{end_told};
ghost use Rattle.boardparts.specs.Actions.{action_number, Undecided};

use boardview::{Arrays, CLUE, CORNER_LEFT, CORNER_RIGHT, Kinds};
use grid::{Direction, Edge};

// The bytes of an edge's states, as the edge type names them.
const UNDECIDED: u8 = Edge::UNDECIDED.0;

const LINE: u8 = Edge::LINE.0;

// The two sides of a pad in its row.
#[derive(Clone, Copy)]
pub enum Side {
    Right,
    Left,
}

impl Side {
    // The bit of a pad's kind that says that it has an edge downward and one to the side.
    pub fn corner(self) -> u8
        ensures { result ≡ corner_bit (side_of self) }
    {
        match self {
            Side::Right => CORNER_RIGHT,
            Side::Left => CORNER_LEFT,
        }
    }

    // The first pad of the edge beside a pad on the side.
    pub fn first_beside(self, v: usize) -> usize
        requires { side_of self ≡ on_left → 1 ≤ v }
        ensures { (right result ≡ beside (side_of self) v) × (result ≤ v) }
    {
        match self {
            Side::Right => v,
            Side::Left => v - 1,
        }
    }
}

// The slot of the edge in a direction from a pad.
pub fn slot_from(direction: Direction, v: usize) -> usize
    requires { v < 256 }
    ensures { result ≡ slot (edge_to direction v) }
{
    match direction {
        Direction::Right => 32 + 2 * v,
        Direction::Down => 33 + 2 * v,
    }
}

// The direction in which the edge at a slot leads.
pub fn direction_at(slot: usize) -> Direction
    ensures { edge_to result (slot / 2 - 16) ≡ edge_of slot }
{
    if slot % 2 == 0 {
        Direction::Right
    } else {
        Direction::Down
    }
}

// What an end number says: a line passes through the pad, or its chain ends at this pad, or at a clue of this code.
#[derive(Clone, Copy, PartialEq, Eq)]
pub enum End {
    Through,
    Pad(usize),
    Clue(usize),
}

impl From<i64> for End {
    ghost from_gives = { λ number end. end_told end ≡ end_of number };

    fn from(number: i64) -> End {
        if number == -1 {
            return End::Through;
        }
        if number < 0 {
            return End::Clue((-2 - number) as usize);
        }
        End::Pad(number as usize)
    }
}

// What the pad check does last, a line or none at a slot.
#[derive(Clone, Copy)]
pub enum Action {
    Nothing,
    Flag,
    Line(usize),
    NoLine(usize),
}

// The first pad of the edge at a slot.
pub fn first_pad(slot: usize) -> usize
    requires { 32 ≤ slot }
    ensures { result ≡ slot / 2 - 16 }
{
    slot / 2 - 16
}

// Its second pad, to the right or below.
pub fn second_pad(slot: usize, width: usize) -> usize
    requires { (32 ≤ slot) × (slot < 1024) × (width ≤ 16) }
    ensures { result ≡ second_pad width slot }
{
    direction_at(slot).second(first_pad(slot), width)
}

// The end of a pad.
pub fn end_at(ends: &[i64; 512], v: usize) -> End
    requires { v < 512 }
    ensures { end_told result ≡ end_at ends.now v }
{
    End::from(ends[v])
}

// Step c: the line cannot be, by the ends of its pads.
pub fn cannot_join(ends: &[i64; 512], v: usize, q: usize) -> bool
    requires { (v < 512) × (q < 512) }
    ensures { result ≡ unjoinable (end_at ends.now v) (end_at ends.now q) q }
{
    let second_end = end_at(ends, q);
    match end_at(ends, v) {
        End::Through => true,
        End::Pad(a) => match second_end {
            End::Through => true,
            _ => a == q,
        },
        End::Clue(a) => match second_end {
            End::Through => true,
            End::Pad(_) => false,
            End::Clue(b) => a != b,
        },
    }
}

// Stores the state of an edge, and an entry of the log for it.
pub fn store(board: &mut Arrays, slot: usize, state: u8)
    requires { (slot < 1024) × (logged board.old < 480) }
    ensures { board.new ≡ stored board.old slot state }
{
    let k = 3 * board.logged();
    board.edges[slot] = state;
    board.log[k] = slot as i64;
    board.log[k + 1] = -1;
}

// Stores an entry of the log for a line that joined the chains of two pads, with the ends that they had.
fn log_line(board: &mut Arrays, slot: usize, first_end: i64, second_end: i64)
    requires { (slot < 1024) × (logged board.old < 480) }
    ensures { board.new ≡ record { edges = board.old.edges; ends = board.old.ends; log = log_joined board.old.log (logged board.old) slot first_end second_end; count = board.old.count } }
{
    let k = 3 * board.logged();
    board.log[k] = slot as i64;
    board.log[k + 1] = first_end;
    board.log[k + 2] = second_end;
}

// The number of the pad that an end names, if it names one, is changed.
pub fn put_number(ends: &mut [i64; 512], end: End, number: i64)
    ensures { ends.new ≡ put_number (end_told end) number ends.old }
{
    if let End::Pad(a) = end {
        if a < 512 {
            ends[a] = number;
        }
    }
}

// Step c: both pads get -1, then pad A (if there is one) gets B and pad B gets A.
pub fn join_ends(ends: &mut [i64; 512], v: usize, q: usize)
    requires { (v < 512) × (q < 512) }
    ensures { ends.new ≡ joined v q ends.old }
{
    let first_end = end_at(ends, v);
    let second_end = end_at(ends, q);
    let a = ends[v];
    let b = ends[q];
    ends[v] = -1;
    ends[q] = -1;
    put_number(ends, first_end, b);
    put_number(ends, second_end, a);
}

// Steps b and c of a line between pads v and q: its byte and an entry of the log are stored; the ends of its pads are joined, or, where they
// cannot be, the flag is set and the decision has ended.
#[inline]
pub fn begin_line(board: &mut Arrays, slot: usize, v: usize, q: usize)
    requires { (slot < 1024) × (v < 512) × (q < 512) × (board.old.count < 3072) × (logged board.old < 480) }
    ensures { LineBegun board.old slot v q board.new }
{
    let first_end = board.ends[v];
    let second_end = board.ends[q];
    if cannot_join(&board.ends, v, q) {
        store(board, slot, LINE);
        board.stop();
        board.count += 1;
        return;
    }
    join_ends(&mut board.ends, v, q);
    log_line(board, slot, first_end, second_end);
    board.edges[slot] = LINE;
    board.go_on();
    board.count += 1;
}

// The edge at a slot is to be none, since it leads to a pad whose end is of another clue than `code`. `past` is 16 more than that pad.
pub fn keeps_apart(board: &Arrays, code: usize, slot: usize, past: usize) -> bool
    requires { (slot < 1024) × (past < 528) × (get_or board.now.edges slot 0 ≡ 0 → 16 ≤ past) }
    ensures { result ≡ keeps_apart board.now.edges board.now.ends (suc code) slot (past - 16) }
{
    if board.edges[slot] != UNDECIDED {
        return false;
    }
    match end_at(&board.ends, past - 16) {
        End::Clue(other) => code != other,
        _ => false,
    }
}

// One of the four edges at a pad is to be none.
pub fn some_apart(board: &Arrays, width: usize, v: usize) -> bool
    requires { (v < 256) × (2 ≤ width) × (width ≤ 16) × (get_or board.now.edges (30 + 2 * v) 0 ≡ 0 → 1 ≤ v) × (get_or board.now.edges (33 + 2 * v - 2 * width) 0 ≡ 0 → width ≤ v) }
    ensures { result ≡ clue_apart board.now.edges board.now.ends width v }
{
    let End::Clue(code) = end_at(&board.ends, v) else {
        return false;
    };
    keeps_apart(board, code, 30 + 2 * v, 15 + v)
        || keeps_apart(board, code, 32 + 2 * v, 17 + v)
        || keeps_apart(board, code, 33 + 2 * v - 2 * width, 16 + v - width)
        || keeps_apart(board, code, 33 + 2 * v, 16 + v + width)
}

// The slot of the edge on a side of a pad: 0 left, 1 right, 2 up, 3 down, a number as the codes of the pad check's table hold it.
fn slot_around(width: usize, v: usize, side: usize) -> usize
    requires { (v < 256) × (width ≤ 16) }
    ensures { (result ≡ slot_around width v side) × (result < 1024) }
{
    if side == 0 {
        return 30 + 2 * v;
    }
    if side == 1 {
        return 32 + 2 * v;
    }
    if side == 2 {
        return 33 + 2 * v - 2 * width;
    }
    33 + 2 * v
}

// The index of a pad's code in the table of the pad check: the bytes of its four edges and the clue are the digits.
fn action_index(edges: &[u8; 1024], kinds: &Kinds, v: usize) -> usize
    requires { (v < 256) × ((n : ℕ) → get_or edges.now n 2 ≤ 2) }
    ensures { (result ≡ action_index kinds.now.bits edges.now kinds.now.width v) × (result < 512) }
{
    let left = usize::from(edges[30 + 2 * v]);
    let right = usize::from(edges[32 + 2 * v]);
    let up = usize::from(edges[33 + 2 * v - 2 * kinds.width]);
    let down = usize::from(edges[33 + 2 * v]);
    let clue = usize::from(kinds.has(v, CLUE));
    left + 4 * right + 16 * up + 64 * down + 256 * clue
}

// What the pad check does last at a pad, from the code that its table has for it. A line or none is at the slot of an undecided edge.
pub fn last_action(edges: &[u8; 1024], kinds: &Kinds, v: usize) -> Action
    requires { (v < 256) × ((n : ℕ) → get_or edges.now n 2 ≤ 2) }
    ensures acts { action_number result ≡ action_around kinds.now.bits edges.now kinds.now.width v }
    ensures at_slot { Undecided edges.now result }
{
    let code = usize::from(kinds.actions[action_index(edges, kinds, v)]);
    if code == 0 {
        return Action::Nothing;
    }
    if code == 1 {
        return Action::Flag;
    }
    if code < 6 {
        return Action::Line(slot_around(kinds.width, v, code - 2));
    }
    Action::NoLine(slot_around(kinds.width, v, code - 6))
}
