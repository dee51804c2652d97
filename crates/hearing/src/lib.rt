// What `judge` prints for a grid file and the codes of a drawing: the line of a refused file, or the verdict with the lines. The codes are
// laid out as a record of edge bytes, which the crate `judging` judges. What the record is and what is printed stands in the crate `model`,
// specs/JudgeText.antt there; specs/Whole.antt here says it of the bytes of standard input.
#![tactic(auto)]

ghost use Rattle.std.specs.Prelude.{◌≡◌, not, ◌||◌, ◌*◌, ◌<◌, Ok};
ghost use Rattle.model.specs.GridFile.{read};
ghost use Rattle.model.specs.JudgeText.{digit_at, code_at, coded, digit_fits, record_of_codes, judged_line, judged_text, codes_fit, coded_bytes, usage_line};
ghost use Rattle.model.specs.PadTests.{on_board};
ghost use Rattle.grid.specs.AsGrid.{as_grid};
ghost use Rattle.grid.specs.Directions.{edge_to};
ghost use Rattle.grid.specs.PadsAt.{edge_of};
ghost use Rattle.judging.specs.Judging.{judged_says};

use grid::{Direction, Edge, Grid, Pads};
use judging::Judged;
use printed::HeadLine;

const ZERO: u8 = 48;

const THREE: u8 = 51;

const COMMA: u8 = 44;

const LINE_END: u8 = 10;

// The digit of a pad; past the digits it is 0.
fn digit_at(digits: &[u8], v: usize) -> u8
    ensures { result ≡ digit_at digits.now v }
{
    match digits.get(v) {
        Some(digit) => *digit,
        None => ZERO,
    }
}

// The code of a pad, right + 2 * down.
fn code_at(digits: &[u8], v: usize) -> u8
    ensures { result ≡ code_at digits.now v }
{
    digit_at(digits, v).saturating_sub(ZERO)
}

// Whether the code of a pad has the line in a direction.
fn leads(digits: &[u8], direction: Direction, v: usize) -> bool
    ensures { result ≡ coded digits.now (edge_to direction v) }
{
    let code = code_at(digits, v);
    match direction {
        Direction::Right => code % 2 == 1,
        Direction::Down => 2 <= code,
    }
}

// Whether the code of a pad has no line off the board in a direction.
fn line_fits(direction: Direction, grid: &Grid, digits: &[u8], v: usize) -> bool
    requires { v < grid.now.height * grid.now.width }
    ensures { result ≡ not (coded digits.now (edge_to direction v)) || on_board (as_grid grid.now) (edge_to direction v) }
{
    !leads(digits, direction, v) || direction.has_edge(grid.height, grid.width, v)
}

// Whether the digit of a pad fits: 0 to 3, with no line off the board.
#[tactic(auto, unfolding(model::specs::JudgeText::digit_fits))]
fn digit_fits(grid: &Grid, digits: &[u8], v: usize) -> bool
    requires { v < grid.now.height * grid.now.width }
    ensures { result ≡ digit_fits grid.now.height grid.now.width digits.now v }
{
    let digit = digit_at(digits, v);
    if digit < ZERO || THREE < digit {
        return false;
    }
    line_fits(Direction::Right, grid, digits, v) && line_fits(Direction::Down, grid, digits, v)
}

// Whether there is one digit for each pad, and each fits.
fn codes_fit(grid: &Grid, digits: &[u8]) -> bool
    ensures { result ≡ codes_fit grid.now.height grid.now.width digits.now }
{
    digits.len() == grid.pads() && (0..grid.pads()).all(|v| digit_fits(grid, digits, v))
}

// The byte of the edge between two pads.
#[tactic(auto, unfolding(grid::specs::PadsAt::edge_of))]
fn byte_between(digits: &[u8], pads: Pads) -> u8
    ensures { result ≡ coded_bytes digits.now (edge_of pads) }
{
    Edge::from(leads(digits, pads.direction, pads.first)).0
}

// The record of codes, laid out in the lent bytes, which are as many as the field of the largest grid has places; it is empty where the codes
// do not fit.
fn record_of_codes<'a>(out: &'a mut [u8; 961], grid: &Grid, digits: &[u8]) -> &'a [u8]
    ensures { result.now ≡ record_of_codes grid.now.height grid.now.width digits.now }
{
    if !codes_fit(grid, digits) {
        return &out[..0];
    }
    records::put_field(grid.height, grid.width, out, 0, |pads| {
        byte_between(digits, pads)
    });
    &out[..grid.places()]
}

// The verdict and the lines.
fn judged_line(said: Judged) -> HeadLine
    ensures { result ≡ judged_line (judged_says (Ok said)) }
{
    let mut line = HeadLine::new();
    line.push_field(u64::from(u8::from(said.verdict)), COMMA);
    line.push_field(said.lines as u64, LINE_END);
    line
}

// Reads the file, lays the codes out as a record of its grid, and gives the text: the line of a refused file, or the verdict and the lines.
pub fn judged(file: &[u8], digits: &[u8]) -> HeadLine
    ensures { result ≡ judged_text digits.now (read file.now) }
{
    match gridfile::read(file) {
        Ok(found) => {
            let grid = found.accepted();
            let mut room = [0; 961];
            let record = record_of_codes(&mut room, &grid, digits);
            judged_line(judging::judge_record(&grid, record))
        }
        Err(declined) => printed::refusal_line(
            declined.fault.number(),
            declined.line as u64,
            declined.field as u64,
        ),
    }
}

// The line that says how the program is called.
pub fn usage() -> [u8; 81]
    ensures { result ≡ usage_line }
{
    *b"judge CODES < GRID-FILE: CODES are the digits of the pads, as routes prints them\n"
}
