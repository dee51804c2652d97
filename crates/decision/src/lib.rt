// A decision and the pad check, which call each other over the board's arrays, which are lent to them. A measure falls: six times the
// undecided edges, plus up to five in the parts that lead on to decisions and checks. Each function equals the model's decision, check or
// item (boardview's Decided, Done and NoneAt), on flagged boards too, keeps what is true of the arrays of every board, and logs what it
// stores, so that undoing the log's entries gives back the arrays.
// The board's count is the log's length, plus 1024 if the flag is set, plus 2048 if it is set and the decision has ended; an ended
// decision goes through every part unchanged.
#![tactic(auto)]

ghost use Rattle.std.specs.Prelude.{◌≡◌, true, ℕ, ◌+◌, ◌*◌, ◌-◌, ◌≤◌, ◌<◌};
ghost use Rattle.rules.specs.Grid.{right, down, pads};
ghost use Rattle.model.specs.JoinedEnds.{at_pad};
ghost use Rattle.model.specs.PadTests.{on_board};
ghost use Rattle.model.specs.Board.{line, line_or_none, shape_items};
ghost use Rattle.boardview.specs.Told.{pick, has_bit};
ghost use Rattle.boardview.specs.View.{grid_in, slot_on, end_at, pad_number, Ready, Decided, Done, NoneAt, detour_at, corner_at, bar_at, check_at, keep_at};
ghost use Rattle.boardview.specs.Check.{first_items};
ghost use Rattle.grid.specs.Directions.{edge_to};
ghost use Rattle.boardparts.specs.Sides.{side_of};
ghost use Rattle.boardparts.specs.Ends.{end_told};

use boardparts::{Action, End, Side};
use boardview::{Arrays, BAR_LEFT, BAR_RIGHT, CORNER_LEFT, CORNER_RIGHT, Kinds, TAKEN};
use grid::{Direction, Edge};

// The bytes of an edge's states, as the edge type names them.
const UNDECIDED: u8 = Edge::UNDECIDED.0;

const LINE: u8 = Edge::LINE.0;

const NONE: u8 = Edge::NONE.0;

// Steps a, b and f: an edge is to have no line. At a slot off the board nothing changes.
#[cycle(deciding)]
#[inline]
pub fn decide_none(board: &mut Arrays, kinds: &Kinds, slot: usize)
    requires { (slot < 1024) × Ready (grid_in kinds.now) board.old }
    ensures { NoneAt (grid_in kinds.now) board.old slot board.new }
{
    let state = board.edges[slot];
    if state == UNDECIDED {
        boardparts::store(board, slot, NONE);
        board.go_on();
        board.count += 1;
        let v = boardparts::first_pad(slot);
        let q = boardparts::second_pad(slot, kinds.width);
        check(board, kinds, v);
        check(board, kinds, q);
        board.end();
        return;
    }
    if state == LINE {
        board.stop();
        return;
    }
    board.end();
}

// Steps a to f: the edge in a direction from pad v is to be a line.
#[cycle(deciding)]
pub fn decide_line(board: &mut Arrays, kinds: &Kinds, direction: Direction, v: usize)
    requires { (on_board (grid_in kinds.now) (edge_to direction v) ≡ true) × (v < 256) × Ready (grid_in kinds.now) board.old }
    ensures { Decided (grid_in kinds.now) board.old (edge_to direction v) line board.new }
{
    let slot = boardparts::slot_from(direction, v);
    let old = board.edges[slot];
    if old == UNDECIDED {
        let q = direction.second(v, kinds.width);
        let a = boardparts::end_at(&board.ends, v);
        let b = boardparts::end_at(&board.ends, q);
        boardparts::begin_line(board, slot, v, q);
        if board.has_ended() {
            return;
        }
        shape(board, kinds, direction, v);
        check(board, kinds, v);
        check(board, kinds, q);
        check_end(board, kinds, a);
        check_end(board, kinds, b);
        board.end();
        return;
    }
    if old == LINE {
        board.end();
        return;
    }
    board.stop();
}

// Steps d and e of a line from pad v: the unit squares on both sides of it, the corners that it may complete, and the barred pads.
#[cycle(deciding)]
#[inline]
fn shape(board: &mut Arrays, kinds: &Kinds, direction: Direction, v: usize)
    requires { (on_board (grid_in kinds.now) (edge_to direction v) ≡ true) × (v < 256) × Ready (grid_in kinds.now) board.old }
    ensures { Done (grid_in kinds.now) 1 board.old (shape_items (grid_in kinds.now) (edge_to direction v)) board.new }
{
    match direction {
        Direction::Right => shape_right(board, kinds, v),
        Direction::Down => shape_down(board, kinds, v),
    }
}

// Steps d and e of a line to the right. Each direction has a function of its own, since slots, corners and bars are others in each.
#[cycle(deciding)]
#[inline]
fn shape_right(board: &mut Arrays, kinds: &Kinds, v: usize)
    requires { (on_board (grid_in kinds.now) (right v) ≡ true) × (v < 256) × Ready (grid_in kinds.now) board.old }
    ensures { Done (grid_in kinds.now) 1 board.old (shape_items (grid_in kinds.now) (right v)) board.new }
{
    let w = kinds.width;
    let up_left = 33 + 2 * v - 2 * w;
    let up_right = 35 + 2 * v - 2 * w;
    let up = 32 + 2 * v - 2 * w;
    let left = 33 + 2 * v;
    let right = 35 + 2 * v;
    let below = 32 + 2 * v + 2 * w;
    detour(board, kinds, up_left, up_right, up);
    detour(board, kinds, up_right, up_left, up);
    detour(board, kinds, up, up_left, up_right);
    detour(board, kinds, left, right, below);
    detour(board, kinds, right, left, below);
    detour(board, kinds, below, left, right);
    corner(board, kinds, Side::Right, v + w + 1, left);
    corner(board, kinds, Side::Left, v + w, right);
    bar(board, kinds, v, BAR_RIGHT, left);
    bar(board, kinds, v + 1, BAR_LEFT, right);
}

// Steps d and e of a line downward.
#[cycle(deciding)]
#[inline]
fn shape_down(board: &mut Arrays, kinds: &Kinds, v: usize)
    requires { (on_board (grid_in kinds.now) (down v) ≡ true) × (v < 256) × Ready (grid_in kinds.now) board.old }
    ensures { Done (grid_in kinds.now) 1 board.old (shape_items (grid_in kinds.now) (down v)) board.new }
{
    let w = kinds.width;
    let left = 30 + 2 * v;
    let left_below = 30 + 2 * v + 2 * w;
    let far_left = 31 + 2 * v;
    let right = 32 + 2 * v;
    let right_below = 32 + 2 * v + 2 * w;
    let far_right = 35 + 2 * v;
    detour(board, kinds, left, left_below, far_left);
    detour(board, kinds, left_below, left, far_left);
    far_detour(board, kinds, v, CORNER_LEFT, far_left, left, left_below);
    detour(board, kinds, right, right_below, far_right);
    detour(board, kinds, right_below, right, far_right);
    far_detour(board, kinds, v, CORNER_RIGHT, far_right, right, right_below);
    corner(board, kinds, Side::Left, v + w - 1, left);
    corner(board, kinds, Side::Right, v + w + 1, right);
    bar(board, kinds, v, BAR_LEFT, left);
    bar(board, kinds, v, BAR_RIGHT, right);
}

// Step d, the third of a unit square beside a line downward that asks for its far side: it is on the board where pad v has this corner.
#[cycle(deciding)]
#[inline]
fn far_detour(
    board: &mut Arrays,
    kinds: &Kinds,
    v: usize,
    corner: u8,
    far: usize,
    beside: usize,
    below: usize,
)
    requires { (v < 512) × (far < 1024) × (beside < 1024) × (below < 1024) × (has_bit kinds.now.bits v corner ≡ true → (slot_on (grid_in kinds.now) beside ≡ true) × (slot_on (grid_in kinds.now) below ≡ true)) × Ready (grid_in kinds.now) board.old }
    ensures { Done (grid_in kinds.now) 1 board.old (detour_at (grid_in kinds.now) (pick (has_bit kinds.now.bits v corner) far 0) beside below) board.new }
{
    if kinds.has(v, corner) {
        detour(board, kinds, far, beside, below);
    }
}

// Step d, one third of a unit square: if the edge at slot a is a line, those at b and c become none.
#[cycle(deciding)]
pub fn detour(board: &mut Arrays, kinds: &Kinds, a: usize, b: usize, c: usize)
    requires { (a < 1024) × (b < 1024) × (c < 1024) × (slot_on (grid_in kinds.now) a ≡ true → (slot_on (grid_in kinds.now) b ≡ true) × (slot_on (grid_in kinds.now) c ≡ true)) × Ready (grid_in kinds.now) board.old }
    ensures { Done (grid_in kinds.now) 1 board.old (detour_at (grid_in kinds.now) a b c) board.new }
{
    if board.has_ended() {
        return;
    }
    if board.edges[a] != LINE {
        return;
    }
    decide_none(board, kinds, b);
    if board.has_ended() {
        return;
    }
    decide_none(board, kinds, c);
}

// Step e: the corner downward and to a side above pad q, if the edge at slot a completes it and q is blank.
#[cycle(deciding)]
pub fn corner(board: &mut Arrays, kinds: &Kinds, side: Side, q: usize, a: usize)
    requires { (a < 1024) × (q < 512) × (slot_on (grid_in kinds.now) a ≡ true → q < pads (grid_in kinds.now)) × Ready (grid_in kinds.now) board.old }
    ensures { Done (grid_in kinds.now) 1 board.old (corner_at (grid_in kinds.now) (side_of side) q a) board.new }
{
    if board.has_ended() {
        return;
    }
    if board.edges[a] != LINE {
        return;
    }
    if kinds.has(q, TAKEN) {
        return;
    }
    if kinds.has(q, side.corner()) {
        decide_line(board, kinds, Direction::Right, side.first_beside(q));
        board.go_on();
        decide_line(board, kinds, Direction::Down, q);
        board.go_on();
        return;
    }
    board.stop();
}

// Step e: if pad v is barred, by this bit of its kind, the edge at the slot becomes none.
#[cycle(deciding)]
pub fn bar(board: &mut Arrays, kinds: &Kinds, v: usize, bit: u8, slot: usize)
    requires { (v < 512) × (slot < 1024) × (has_bit kinds.now.bits v bit ≡ true → slot_on (grid_in kinds.now) slot ≡ true) × Ready (grid_in kinds.now) board.old }
    ensures { Done (grid_in kinds.now) 1 board.old (bar_at (grid_in kinds.now) (has_bit kinds.now.bits v bit) slot) board.new }
{
    if board.has_ended() {
        return;
    }
    if kinds.has(v, bit) {
        decide_none(board, kinds, slot);
    }
}

// The pad check of the pad that an end names, if it names one.
#[cycle(deciding)]
#[inline]
pub fn check_end(board: &mut Arrays, kinds: &Kinds, end: End)
    requires { ((v : ℕ) → end_told end ≡ at_pad v → v < pads (grid_in kinds.now)) × Ready (grid_in kinds.now) board.old }
    ensures { Done (grid_in kinds.now) 1 board.old (check_at (pad_number (end_told end))) board.new }
{
    if let End::Pad(v) = end {
        check(board, kinds, v);
    }
}

// The pad check.
#[cycle(deciding)]
#[inline]
fn check(board: &mut Arrays, kinds: &Kinds, v: usize)
    requires { (v < pads (grid_in kinds.now)) × Ready (grid_in kinds.now) board.old }
    ensures { Done (grid_in kinds.now) 1 board.old (check_at v) board.new }
{
    if board.has_ended() {
        return;
    }
    check_pad(board, kinds, v);
}

// The pad check of a pad, where the decision goes on: its edges to pads whose ends are of another clue become none, and then the pad's own
// edges may tell what the last of them is.
#[cycle(deciding)]
fn check_pad(board: &mut Arrays, kinds: &Kinds, v: usize)
    requires { (v < pads (grid_in kinds.now)) × (board.old.count < 2048) × Ready (grid_in kinds.now) board.old }
    ensures { Done (grid_in kinds.now) 1 board.old (check_at v) board.new }
{
    keep_clues_apart(board, kinds, v);
    if board.has_ended() {
        return;
    }
    match boardparts::last_action(&board.edges, kinds, v) {
        Action::Nothing => board.end(),
        Action::Flag => board.stop(),
        Action::NoLine(slot) => decide_none(board, kinds, slot),
        Action::Line(slot) => decide_line(
            board,
            kinds,
            boardparts::direction_at(slot),
            boardparts::first_pad(slot),
        ),
    }
}

// The first part of the pad check: where the pad's end is of a clue, its edges to pads whose ends are of another clue become none. The test
// comes first, since it mostly finds no such edge.
#[cycle(deciding)]
#[inline]
fn keep_clues_apart(board: &mut Arrays, kinds: &Kinds, v: usize)
    requires { (v < pads (grid_in kinds.now)) × (board.old.count < 2048) × Ready (grid_in kinds.now) board.old }
    ensures { Done (grid_in kinds.now) 0 board.old (first_items (grid_in kinds.now) v (end_at board.old.ends v)) board.new }
{
    let w = kinds.width;
    if !boardparts::some_apart(board, w, v) {
        return;
    }
    if let End::Clue(code) = boardparts::end_at(&board.ends, v) {
        keep_apart(board, kinds, code, 30 + 2 * v, 15 + v);
        keep_apart(board, kinds, code, 32 + 2 * v, 17 + v);
        keep_apart(board, kinds, code, 33 + 2 * v - 2 * w, 16 + v - w);
        keep_apart(board, kinds, code, 33 + 2 * v, 16 + v + w);
    }
}

// One of the four edges at a pad whose end is of a clue: it becomes none if it leads to a pad whose end is of another clue than `code`.
// `past` is 16 more than that pad.
#[cycle(deciding)]
fn keep_apart(board: &mut Arrays, kinds: &Kinds, code: usize, slot: usize, past: usize)
    requires { (slot < 1024) × (past < 528) × (slot_on (grid_in kinds.now) slot ≡ true → 16 ≤ past) × Ready (grid_in kinds.now) board.old }
    ensures { Done (grid_in kinds.now) 0 board.old (keep_at (grid_in kinds.now) code slot (past - 16)) board.new }
{
    if board.has_ended() {
        return;
    }
    if boardparts::keeps_apart(board, code, slot, past) {
        decide_none(board, kinds, slot);
    }
}

// The edge in a direction from a pad becomes a line or none.
pub fn decide(board: &mut Arrays, kinds: &Kinds, direction: Direction, v: usize, line: bool)
    requires { (v < 256) × Ready (grid_in kinds.now) board.old × (on_board (grid_in kinds.now) (edge_to direction v) ≡ true) }
    ensures { Decided (grid_in kinds.now) board.old (edge_to direction v) (line_or_none line) board.new }
{
    if line {
        decide_line(board, kinds, direction, v);
        return;
    }
    decide_none(board, kinds, boardparts::slot_from(direction, v));
}
