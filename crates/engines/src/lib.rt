// The two engines side by side: the search (crate solver) and the slow walk through every code (crate walking), run on one grid and compared.
// `compare` says whether both ended complete with the same number, index, layouts, fewest lines and records, and hands on what they counted.
// By `compared_equal` (specs/BothCalls.antt) it can say false only where an engine did not end complete. Also here: small grids one after the other,
// each up to a renaming of its codes exactly once, as one kind for each pad (specs/Kinds.antt).
#![tactic(auto)]

ghost use Rattle.std.specs.Prelude.{◌≡◌, true, ◌↔◌, ◌*◌, ◌≤◌, ◌<◌, List, ℕ, length};
ghost use Rattle.rules.specs.Grid.{places, Size};
ghost use Rattle.tally.specs.Answers.{answer_says};
ghost use Rattle.engines.specs.Equal.{SameBytes, Equal, Compares};
ghost use Rattle.engines.specs.Kinds.{codes_before, Kinds, Next, cell_of_kind, cells_of};
ghost use Rattle.engines.specs.Sums.{with_grid};

use grid::{BLANK, HOLE, Refusal};
use tally::{Solved, Tally};

// Where the count of visited boards, or of tried codes, stops an engine: never.
const LIMIT: u64 = u64::MAX;

// What an engine has counted: nothing where it declined the grid.
fn tally_of(answer: Result<Solved, Refusal>) -> Tally
    ensures { (buffer : List ℕ) → (result.layouts ≡ (answer_says answer buffer).layouts) × (result.visited ≡ (answer_says answer buffer).visited) }
{
    answer.map_or(Tally::EMPTY, |solved| solved.tally)
}

// Whether two buffers have so many bytes, and these are the same.
fn same_bytes(first: &[u8], second: &[u8], count: usize) -> bool
    ensures { (result ≡ true) ↔ SameBytes count first.now second.now }
{
    if first.len() < count || second.len() < count {
        return false;
    }
    for i in 0..count {
        if first[i] != second[i] {
            return false;
        }
    }
    true
}

// Whether so many records lie in two buffers, and are the same bytes.
fn same_records(height: usize, width: usize, layouts: usize, first: &[u8], second: &[u8]) -> bool
    requires { 0 < layouts → Size height × Size width }
    ensures { (result ≡ true) ↔ SameBytes (layouts * places height width) first.now second.now }
{
    if layouts == 0 {
        return true;
    }
    let size = grid::places(height, width);
    layouts <= first.len() / size && same_bytes(first, second, layouts * size)
}

// Whether two answers and the records in their buffers are the same: both complete, with layouts and fewest lines alike, or one refusal.
fn same_answers(
    height: usize,
    width: usize,
    walked: Result<Solved, Refusal>,
    solved: Result<Solved, Refusal>,
    first: &[u8],
    second: &[u8],
) -> bool
    requires { 0 < (answer_says walked first.now).layouts → Size height × Size width }
    ensures { (result ≡ true) ↔ Equal height width walked first.now solved second.now }
{
    match (walked, solved) {
        (Ok(walked), Ok(solved)) => {
            walked.outcome.is_ok()
                && solved.outcome.is_ok()
                && walked.tally.layouts == solved.tally.layouts
                && walked.tally.fewest == solved.tally.fewest
                && same_records(height, width, walked.tally.layouts, first, second)
        }
        (Err(walked), Err(solved)) => walked == solved,
        _ => false,
    }
}

// What is told of a grid: whether the engines are equal on it, and what they counted.
#[derive(Clone, Copy)]
pub struct Compared {
    pub equal: bool,
    pub layouts: usize,
    pub visited: u64,
    pub tried: u64,
}

// Runs both engines on a grid and compares them. The buffers have room for 64 records of a 3 by 3 grid, which has at most 5 layouts, and no byte of
// the one is like one of the other before.
#[tactic(auto, using(crate::specs::CallLaws::layout_sizes))]
pub fn compare(height: usize, width: usize, cells: &[i64]) -> Compared
    ensures { Compares height width cells.now result }
{
    let mut first = [7u8; 1600];
    let mut second = [9u8; 1600];
    let walked = walking::walk(height, width, cells, LIMIT, &mut first);
    let solved = solver::solve(height, width, cells, LIMIT, &mut second);
    let equal = same_answers(height, width, walked, solved, &first, &second);
    let searched = tally_of(solved);
    Compared {
        equal,
        layouts: searched.layouts,
        visited: searched.visited,
        tried: tally_of(walked).visited,
    }
}

// How many codes stand at the pads before this one: kind 2 + c is code c, and codes are numbered by their first pad.
fn codes_before(kinds: &[u8], pad: usize) -> u8
    requires { pad ≤ length kinds.now }
    ensures { result ≡ codes_before kinds.now pad }
{
    kinds[..pad]
        .iter()
        .fold(0, |codes, kind| codes.max(kind.saturating_sub(1)))
}

// Steps to the next grid in the order of the kinds, the last pad changing fastest; false where it was the last, and then the first stands again.
#[tactic(auto, using(crate::specs::KindLaws::none_carried, crate::specs::KindLaws::few_codes))]
pub fn next_grid(kinds: &mut [u8]) -> bool
    requires { Kinds kinds.old × (length kinds.old ≤ 9) }
    ensures { Next kinds.old result kinds.new }
{
    for pad in (0..kinds.len()).rev() {
        if kinds[pad] < 2 + codes_before(kinds, pad) {
            kinds[pad] += 1;
            return true;
        }
        kinds[pad] = 0;
    }
    false
}

// The cell of a kind: 0 is blank, 1 is a hole, 2 + c is code c.
// Kinds stay numbers, since `next_grid` counts in them as in digits, and `Kinds`, `Before` and `Next` are said of numbers.
pub fn cell_of_kind(kind: u8) -> i64
    ensures { result ≡ cell_of_kind kind }
{
    match kind {
        0 => BLANK,
        1 => HOLE,
        _ => i64::from(kind - 2),
    }
}

// Compares the engines on the grid of these kinds, one for each pad.
#[tactic(auto, using(crate::specs::KindLaws::cells_put))]
pub fn compare_kinds(height: usize, width: usize, kinds: &[u8]) -> Compared
    requires { length kinds.now ≤ 9 }
    ensures { Compares height width (cells_of kinds.now) result }
{
    let mut cells = [BLANK; 9];
    for (pad, kind) in kinds.iter().enumerate() {
        cells[pad] = cell_of_kind(*kind);
    }
    compare(height, width, &cells[..kinds.len()])
}

// What is counted over many grids.
#[derive(Clone, Copy)]
pub struct Sums {
    pub grids: u64,
    pub equal: u64,
    pub layouts: u64,
    pub visited: u64,
    pub tried: u64,
}

impl Sums {
    // No grid yet.
    pub const NONE: Sums = Sums {
        grids: 0,
        equal: 0,
        layouts: 0,
        visited: 0,
        tried: 0,
    };
}

// The sums with one grid more; a sum stops at the largest number.
pub fn counted(sums: Sums, compared: Compared) -> Sums
    ensures { result ≡ with_grid sums compared }
{
    Sums {
        grids: sums.grids.saturating_add(1),
        equal: sums.equal.saturating_add(u64::from(compared.equal)),
        layouts: sums.layouts.saturating_add(compared.layouts as u64),
        visited: sums.visited.saturating_add(compared.visited),
        tried: sums.tried.saturating_add(compared.tried),
    }
}
