// The router for other languages: reading and writing a grid file, reading packed decimal, the search, the slow walk, the copper common to all
// layouts, a record's place, a drawing judged, and board calls replayed.
// hunekowha.h beside this folder explains each function, argument and number. Each result, and every lent number and byte after the call, is
// what specs/Lent.antt says. No function asks anything of its caller beyond what the types say.
#![tactic(auto)]

ghost use Rattle.std.specs.Prelude.{◌≡◌, ◌≤◌, length, []};
ghost use Rattle.model.specs.Calls as model;
ghost use Rattle.model.specs.GridFile.{read};
ghost use Rattle.model.specs.Packed.{read_packed};
ghost use Rattle.model.specs.Search.{solve};
ghost use Rattle.model.specs.Walk.{walk};
ghost use Rattle.gridfile.specs.Answers.{reading_says, writing_says};
ghost use Rattle.judging.specs.Judging.{judged_says};
ghost use Rattle.board.specs.Held.{Held, Says};
ghost use Rattle.hunekowha.specs.Replay.{state_asked, called, block, block_size, all_blocks, Writable, Replayable};
ghost use Rattle.std.proofs.Math.Seq.{paste};
ghost use Rattle.hunekowha.specs.Lent.{written, read_numbers, reading_gives, write_numbers, write_gives, record_gives, judge_numbers, judge_gives, counted_numbers, declined_numbers, search_numbers, listing_gives, table_numbers, common_gives};
ghost use Rattle.hunekowha.specs.Replay.{replay_gives};

use board::{Answer, Board};
use copper::NoTable;
use grid::{Edge, Refusal};
use gridfile::{Declined, Grid, Unwritten};
use judging::Judged;
use records::Layouts;
use tally::{Solved, Tally};

// The five numbers of a reading: 0 beside the sizes of the grid, or the fault with its line and field.
fn reading_numbers(reading: &Result<Grid, Declined>) -> [u64; 5]
    ensures { result ≡ read_numbers (reading_says reading.now) }
{
    match reading {
        Ok(grid) => [0, 0, 0, grid.height as u64, grid.width as u64],
        Err(declined) => [
            u64::from(declined.fault.number()),
            declined.line as u64,
            declined.field as u64,
            0,
            0,
        ],
    }
}

// Writes the cells of a reading: those of the grid, and blank ones where there is none.
fn put_cells(reading: &Result<Grid, Declined>, cells: &mut [i64])
    requires { 256 ≤ length cells.old }
    ensures { cells.new ≡ written (reading_says reading.now).cells cells.old }
{
    match reading {
        Ok(grid) => lend::put(cells, 0, &grid.cells),
        Err(_) => lend::put(cells, 0, &gridfile::no_cells()),
    }
}

// Writes what a reading gives: five numbers and 256 cells.
fn put_reading(reading: Result<Grid, Declined>, answer: &mut [u64], cells: &mut [i64]) -> usize
    ensures { reading_gives (reading_says reading) answer.old cells.old ≡ record { returned = result; answer = answer.new; cells = cells.new } }
{
    if answer.len() < 5 {
        return 0;
    }
    if cells.len() < 256 {
        return 0;
    }
    lend::put(answer, 0, &reading_numbers(&reading));
    put_cells(&reading, cells);
    5
}

// Reads a grid file into five numbers and 256 cells.
#[unsafe(no_mangle)]
pub extern "C" fn hunekowha_read(file: &[u8], answer: &mut [u64], cells: &mut [i64]) -> usize
    ensures { reading_gives (read file.now) answer.old cells.old ≡ record { returned = result; answer = answer.new; cells = cells.new } }
{
    put_reading(gridfile::read(file), answer, cells)
}

// Reads packed decimal into the same numbers and cells.
#[unsafe(no_mangle)]
pub extern "C" fn hunekowha_read_packed(
    bytes: &[u8],
    answer: &mut [u64],
    cells: &mut [i64],
) -> usize
    ensures { reading_gives (read_packed bytes.now) answer.old cells.old ≡ record { returned = result; answer = answer.new; cells = cells.new } }
{
    put_reading(packed::read_packed(bytes), answer, cells)
}

// The three numbers of a writing: 0 beside the length of the text, or why nothing was written, with the index of the first bad cell.
fn writing_numbers(writing: Result<usize, Unwritten>) -> [u64; 3]
    ensures { result ≡ write_numbers (writing_says writing []) }
{
    match writing {
        Ok(length) => [0, 0, length as u64],
        Err(unwritten) => [u64::from(unwritten.number()), unwritten.index() as u64, 0],
    }
}

// Writes a grid as a grid file into the lent text, and three numbers.
#[unsafe(no_mangle)]
pub extern "C" fn hunekowha_write(
    height: usize,
    width: usize,
    cells: &[i64],
    text: &mut [u8],
    answer: &mut [u64],
) -> usize
    ensures { write_gives height width cells.now text.old answer.old ≡ record { returned = result; text = text.new; answer = answer.new } }
{
    if answer.len() < 3 {
        return 0;
    }
    let numbers = writing_numbers(gridfile::write(height, width, cells, text));
    lend::put(answer, 0, &numbers);
    3
}

// Where record k of a filled buffer begins, and how many bytes it has.
#[unsafe(no_mangle)]
pub extern "C" fn hunekowha_record(
    height: usize,
    width: usize,
    count: usize,
    k: usize,
    buffer: &[u8],
    answer: &mut [u64],
) -> usize
    ensures { record_gives height width count k buffer.now answer.old ≡ record { returned = result; answer = answer.new } }
{
    if answer.len() < 2 {
        return 0;
    }
    let layouts = Layouts {
        height,
        width,
        count,
        buffer,
    };
    let length = layouts.at(k).len();
    let numbers = [(k * length) as u64, length as u64];
    lend::put(answer, 0, &numbers);
    2
}

// The four numbers of a judge: 0 beside the verdict and the lines of the drawing, or the refusal of the grid.
fn judged_numbers(answer: Result<Judged, Refusal>) -> [u64; 4]
    ensures { result ≡ judge_numbers (judged_says answer) }
{
    match answer {
        Ok(judged) => [
            0,
            0,
            u64::from(u8::from(judged.verdict)),
            judged.lines as u64,
        ],
        Err(refusal) => [u64::from(refusal.number()), refusal.index() as u64, 0, 0],
    }
}

// Judges a drawing of a grid, held as a record, and writes four numbers.
#[unsafe(no_mangle)]
pub extern "C" fn hunekowha_judge(
    height: usize,
    width: usize,
    cells: &[i64],
    bytes: &[u8],
    answer: &mut [u64],
) -> usize
    ensures { judge_gives height width cells.now bytes.now answer.old ≡ record { returned = result; answer = answer.new } }
{
    if answer.len() < 4 {
        return 0;
    }
    let numbers = judged_numbers(judging::judge(height, width, cells, bytes));
    lend::put(answer, 0, &numbers);
    4
}

// A state as an edge: a byte as it is, and any larger number, which is no state, as undecided.
fn edge_of(state: u64) -> Edge
    ensures { result.0 ≡ state_asked state }
{
    if state < 256 {
        return Edge(state as u8);
    }
    Edge::UNDECIDED
}

// One call of a list, on a board of the given grid.
fn called(
    board: Board,
    height: usize,
    width: usize,
    cells: &[i64],
    kind: u64,
    row: usize,
    column: usize,
    state: u64,
) -> Answer
    ensures { (B : model.Board) → Held board B → Says result (called (record { height = height; width = width; cells = cells.now }) B kind row column state) }
{
    match kind {
        1 => board.decide_edge(row, column, edge_of(state)),
        2 => board.get_edge(row, column),
        3 => board.add_checkpoint(),
        4 => Answer {
            said: Ok(0),
            board: board.undo(),
        },
        _ => Board::new(height, width, cells),
    }
}

// The numbers of a block of a board.
fn size_of_block(board: Board) -> usize
    ensures { (B : model.Board) → Held board B → result ≡ block_size B }
{
    let shown = board.shown();
    3 + shown.edges().len() + shown.ends().len()
}

// Writes the block of an answer at a place.
fn put_block(answer: &mut [i64], place: usize, made: Answer)
    requires { Writable made place (length answer.old) }
    ensures { (A : model.Answer) → Says made A → answer.new ≡ paste answer.old place (block A) (length (block A)) }
{
    let board = made.board;
    let shown = board.shown();
    let edges = shown.edges();
    let head = [made.number(), made.answer() as u8, u8::from(shown.flag)];
    lend::put_bytes(answer, place, &head);
    lend::put_bytes(answer, place + 3, edges);
    lend::put(answer, place + 3 + edges.len(), shown.ends());
}

// Makes the calls of a list on a fresh board, and writes their blocks one behind the other.
fn put_blocks(
    answer: &mut [i64],
    fresh: Board,
    height: usize,
    width: usize,
    cells: &[i64],
    calls: &[u64],
    size: usize,
    count: usize,
)
    requires { Replayable (record { height = height; width = width; cells = cells.now }) calls.now fresh size count (length answer.old) }
    ensures { answer.new ≡ paste answer.old 0 (all_blocks (record { height = height; width = width; cells = cells.now }) calls.now) (length (all_blocks (record { height = height; width = width; cells = cells.now }) calls.now)) }
{
    let mut board = fresh;
    for i in 0..count {
        let at = 4 * i;
        let made = called(
            board,
            height,
            width,
            cells,
            calls[at],
            calls[at + 1] as usize,
            calls[at + 2] as usize,
            calls[at + 3],
        );
        put_block(answer, i * size, made);
        board = made.board;
    }
}

// Makes board calls one after another, and writes what the board shows after each.
#[unsafe(no_mangle)]
pub extern "C" fn hunekowha_replay(
    height: usize,
    width: usize,
    cells: &[i64],
    calls: &[u64],
    answer: &mut [i64],
) -> usize
    ensures { replay_gives (record { height = height; width = width; cells = cells.now }) calls.now answer.old ≡ record { returned = result; answer = answer.new } }
{
    let first = Board::new(height, width, cells);
    let fresh = first.board;
    let size = size_of_block(fresh);
    let count = calls.len() / 4;
    if answer.len() / size < count {
        return 0;
    }
    put_blocks(answer, fresh, height, width, cells, calls, size, count);
    count * size
}

// The six numbers of a grid that was searched, or walked, to an outcome, behind a number.
fn counted_numbers(number: u64, solved: Solved) -> [u64; 6]
    ensures { result ≡ counted_numbers number solved }
{
    let counted = solved.tally;
    [
        number,
        0,
        u64::from(tally::outcome_number(solved.outcome)),
        counted.layouts as u64,
        counted.visited,
        counted.fewest as u64,
    ]
}

// The six numbers where nothing was searched: why, with the index of the first bad cell, beside an empty tally.
fn declined_numbers(number: u64, index: usize) -> [u64; 6]
    ensures { result ≡ declined_numbers number index }
{
    [number, index as u64, 0, 0, 0, Tally::EMPTY.fewest as u64]
}

// The six numbers of a search or a walk.
fn search_numbers(answer: Result<Solved, Refusal>) -> [u64; 6]
    ensures { result ≡ search_numbers answer }
{
    match answer {
        Ok(solved) => counted_numbers(0, solved),
        Err(refusal) => declined_numbers(u64::from(refusal.number()), refusal.index()),
    }
}

// The six numbers of a search for the copper common to all layouts: 14 where the lent table is too short, 16 where the list isn't complete.
fn table_numbers(answer: Result<Tally, NoTable>) -> [u64; 6]
    ensures { result ≡ table_numbers answer }
{
    match answer {
        Ok(tally) => counted_numbers(
            0,
            Solved {
                outcome: Ok(()),
                tally,
            },
        ),
        Err(NoTable::Grid(refusal)) => search_numbers(Err(refusal)),
        Err(NoTable::Short) => declined_numbers(14, 0),
        Err(NoTable::Incomplete(found)) => counted_numbers(16, found),
    }
}

// Lists the layouts of a grid into the buffer, and writes six numbers.
#[unsafe(no_mangle)]
pub extern "C" fn hunekowha_solve(
    height: usize,
    width: usize,
    cells: &[i64],
    limit: u64,
    buffer: &mut [u8],
    answer: &mut [u64],
) -> usize
    ensures { listing_gives (solve height width cells.now limit buffer.old) buffer.old answer.old ≡ record { returned = result; buffer = buffer.new; answer = answer.new } }
{
    if answer.len() < 6 {
        return 0;
    }
    let numbers = search_numbers(solver::solve(height, width, cells, limit, buffer));
    lend::put(answer, 0, &numbers);
    6
}

// The same by the slow walk: the tried codes stand where the visited boards stand.
#[unsafe(no_mangle)]
pub extern "C" fn hunekowha_walk(
    height: usize,
    width: usize,
    cells: &[i64],
    limit: u64,
    buffer: &mut [u8],
    answer: &mut [u64],
) -> usize
    ensures { listing_gives (walk height width cells.now limit buffer.old) buffer.old answer.old ≡ record { returned = result; buffer = buffer.new; answer = answer.new } }
{
    if answer.len() < 6 {
        return 0;
    }
    let numbers = search_numbers(walking::walk(height, width, cells, limit, buffer));
    lend::put(answer, 0, &numbers);
    6
}

// Lists the layouts as `hunekowha_solve` does, and from a complete list fills the table of the copper common to all of them.
#[unsafe(no_mangle)]
pub extern "C" fn hunekowha_common(
    height: usize,
    width: usize,
    cells: &[i64],
    limit: u64,
    buffer: &mut [u8],
    table: &mut [u8],
    answer: &mut [u64],
) -> usize
    ensures { common_gives height width cells.now limit buffer.old table.old answer.old ≡ record { returned = result; buffer = buffer.new; table = table.new; answer = answer.new } }
{
    if answer.len() < 6 {
        return 0;
    }
    let numbers = table_numbers(copper::common(height, width, cells, limit, buffer, table));
    lend::put(answer, 0, &numbers);
    6
}
