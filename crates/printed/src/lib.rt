// Writing what `routes` prints: the line that begins it, which is the summary line or the line of a refused file, and a layout's line; and what
// `routes_to` says of a run; each as a line of an array that the longest such line fits. What the lines say is in the crate `model`,
// specs/Printed.antt and specs/RoutesTo.antt there.
#![tactic(auto)]

ghost use Rattle.std.specs.Prelude.{◌≡◌, true, ◌++◌, ◌+◌, ◌*◌, ◌-◌, ◌/◌, ◌≤◌, ◌<◌, length};
ghost use Rattle.rules.specs.Grid.{edge, field_side, Size};
ghost use Rattle.model.specs.Printed.{code_digits, summary_line, refusal_line};
ghost use Rattle.model.specs.RoutesTo.{progress_line};
ghost use Rattle.grid.specs.PadsAt.{pads_of, edge_of};
ghost use Rattle.printed.specs.Coded.{line_place, line_added, Codes, CodesOf};
ghost use Rattle.printed.specs.Written.{layout_text};

use grid::{Direction, Edge, Pads};
use text::Line;

const ZERO: u8 = 48;

const COMMA: u8 = 44;

const LINE_END: u8 = 10;

// The line that begins a printed text, or is all of it. The summary line is the longest: three numbers of up to 20 digits and one of up to 3,
// each with the byte after it.
pub type HeadLine = Line<67>;

// Two numbers of up to 20 digits, 256 codes, and the bytes after them.
pub type LayoutLine = Line<299>;

// The pads of the line at a place of a layout, by the place's number; none where there is no line.
#[tactic(auto, using(crate::proofs::CodedLaws::coded_laws))]
fn line_at(layout: &[u8], width: usize, i: usize) -> Option<Pads>
    requires { Size width × (i / field_side width < 31) }
    ensures { result ≡ pads_of width (line_place width layout.now i) }
{
    if layout.len() <= i {
        return None;
    }
    if Edge(layout[i]) == Edge::LINE {
        let side = 2 * width - 1;
        return grid::pads_at(width, i / side, i % side);
    }
    None
}

// Adds a line to the code of its first pad: 1 for a line to the right, 2 for one downward.
#[tactic(auto, using(crate::proofs::CodedLaws::coded_laws))]
fn add_line(codes: &mut [u8; 256], pads: Pads)
    requires { (pads.first < 256) × Codes codes.old }
    ensures { codes.new ≡ line_added (edge (edge_of pads)) codes.old }
{
    codes[pads.first] += match pads.direction {
        Direction::Right => 1,
        Direction::Down => 2,
    };
}

// The codes of the pads by their indexes, right + 2 * down: each line of the layout is added to the code of its first pad.
#[tactic(auto, using(crate::proofs::CodedLaws::coded_laws))]
fn codes_of(height: usize, width: usize, layout: &[u8]) -> [u8; 256]
    requires { Size height × Size width }
    ensures { CodesOf height width layout.now result }
{
    let mut codes = [0; 256];
    for i in 0..grid::places(height, width) {
        if let Some(pads) = line_at(layout, width, i) {
            add_line(&mut codes, pads);
        }
    }
    codes
}

// The codes of the pads in index order, one digit each, behind what the line holds.
#[tactic(auto, using(crate::proofs::CodeLaws::code_laws), unfolding(model::specs::Printed::code_digits_from))]
fn push_codes(line: &mut LayoutLine, height: usize, width: usize, layout: &[u8])
    requires { Size height × Size width × (length line.old + height * width ≤ 299) }
    ensures { line.new ≡ line.old ++ code_digits height width layout.now }
{
    let codes = codes_of(height, width, layout);
    for &code in &codes[..height * width] {
        line.push_byte(ZERO + code);
    }
}

// Layouts, visited, fewest, outcome.
#[tactic(auto, using(crate::proofs::LineLaws::line_laws))]
pub fn summary_line(layouts: u64, visited: u64, fewest: u64, outcome: u8) -> HeadLine
    ensures { result ≡ summary_line layouts visited fewest outcome }
{
    let mut line = Line::new();
    line.push_field(layouts, COMMA);
    line.push_field(visited, COMMA);
    line.push_field(fewest, COMMA);
    line.push_field(u64::from(outcome), LINE_END);
    line
}

// The word, number, line, field.
#[tactic(auto, using(crate::proofs::LineLaws::line_laws), unfolding(model::specs::Text::bytes))]
pub fn refusal_line(number: u8, line: u64, field: u64) -> HeadLine
    ensures { result ≡ refusal_line number line field }
{
    let mut head = Line::new();
    head.push_word(b"refused,");
    head.push_field(u64::from(number), COMMA);
    head.push_field(line, COMMA);
    head.push_field(field, LINE_END);
    head
}

// What is said of a run: the boards that it has visited, and the layouts found.
#[tactic(auto, using(crate::proofs::LineLaws::line_laws), unfolding(model::specs::Text::bytes))]
pub fn progress_line(visited: u64, layouts: u64) -> HeadLine
    ensures { result ≡ progress_line visited layouts }
{
    let mut line = Line::new();
    line.push_word(b"visited ");
    line.push_decimal(visited);
    line.push_word(b" boards, layouts ");
    line.push_field(layouts, LINE_END);
    line
}

// A layout's number from 1, its lines, its codes; nothing where H or W is out of bounds.
#[tactic(auto, using(crate::proofs::LineLaws::line_laws))]
pub fn layout_line(height: usize, width: usize, number: u64, layout: &[u8]) -> LayoutLine
    ensures { result ≡ layout_text height width number layout.now }
{
    let mut line = Line::new();
    if !grid::is_size(height) || !grid::is_size(width) {
        return line;
    }
    line.push_field(number, COMMA);
    line.push_field(records::lines(layout) as u64, COMMA);
    push_codes(&mut line, height, width, layout);
    line.push_byte(LINE_END);
    line
}
