// Reading a grid file: the answer is H, W and 256 cells, or why the file is declined with a line and a field. The whole answer
// is said by `read` of the crate `model`, specs/GridFile.antt there; specs/Fields.antt says what one field gives.
// Writing one: the text of a grid goes to a lent buffer, in shortest digits; the answer and every byte of the buffer are said by
// `write` of the crate `model`, specs/Writing.antt there.
#![tactic(auto)]

ghost use Rattle.std.specs.Prelude.{◌≡◌, ℕ, true, MatchResult, ◌++◌, ◌+◌, ◌-◌, ◌*◌, ◌≤◌, ◌<◌, length, get_or, drop, set};
ghost use Rattle.rules.specs.Grid.{largest_code};
ghost use Rattle.model.specs.Bounds.{is_size};
ghost use Rattle.model.specs.GridFile.{Reading, is_digit, is_hole_sign, is_zero_alone, no_cells, read_from, read};
ghost use Rattle.model.specs.Writing.{cell_text, rows_text, grid_text, write};
ghost use Rattle.reading.specs.FieldSteps.{field_start, cell_of};
ghost use Rattle.gridfile.specs.Fields.{fault_number, disallowed, field_at, row_field_at, ended_field, located, part_of};
ghost use Rattle.gridfile.specs.Answers.{unwritten_number, unwritten_index, reading_says, writing_says};
ghost use Rattle.gridfile.specs.Rows.{Reached};
ghost use Rattle.gridfile.specs.declared.Unwritten.TheVariants.{BadGrid};

use grid::Refusal;
use text::Line;

mod sized;

pub use sized::Grid;

// The bytes that part fields and end lines, the sign of a hole, and the most digits of a field.
const COMMA: u8 = 44;

const LINE_END: u8 = 10;

const HOLE_SIGN: u8 = 35;

const ZERO: u8 = 48;

const NINE: u8 = 57;

const MOST_DIGITS: usize = 10;

// No text of a grid is longer: the header, and 16 rows of 16 codes of ten digits, each with the byte after it.
pub const LONGEST_TEXT: usize = 2822;

type Text = Line<LONGEST_TEXT>;

// Why a file, or a slice of packed decimal, is declined.
#[derive(Clone, Copy, PartialEq, Eq)]
pub enum Fault {
    // A disallowed byte where a field begins.
    StrayByte,
    // A field has more digits than the largest code.
    EleventhDigit,
    // A code is larger than the largest.
    LargeCode,
    // A line has too few fields, or too many.
    FieldCount,
    // H or W is out of bounds.
    BadSize,
    // The file ends too early, or goes on after its last row.
    FileEnd,
    // A disallowed byte after a digit of its field.
    ByteAfterDigit,
    // A digit after a field's leading 0.
    LeadingZero,
    // A half byte of packed decimal that is no digit.
    HalfByte,
}

impl Fault {
    // The number by which a caller is told of it.
    pub fn number(self) -> u8
        ensures { result ≡ fault_number self }
    {
        match self {
            Fault::StrayByte => 1,
            Fault::EleventhDigit => 2,
            Fault::LargeCode => 3,
            Fault::FieldCount => 4,
            Fault::BadSize => 5,
            Fault::FileEnd => 6,
            Fault::ByteAfterDigit => 13,
            Fault::LeadingZero => 15,
            Fault::HalfByte => 17,
        }
    }

    // A file that is declined for it at a line and a field.
    pub fn at(self, line: usize, field: usize) -> Declined
        ensures { result ≡ record { fault = self; line = line; field = field } }
    {
        Declined {
            fault: self,
            line,
            field,
        }
    }
}

// Why a file is declined, and the line and the field, both from 1, where it is.
#[derive(Clone, Copy, PartialEq, Eq)]
pub struct Declined {
    pub fault: Fault,
    pub line: usize,
    pub field: usize,
}

// Why nothing was written.
#[derive(Clone, Copy, PartialEq, Eq)]
pub enum Unwritten {
    // It is no grid.
    BadGrid(Refusal),
    // The buffer is shorter than the text.
    NoRoom,
}

impl Unwritten {
    // The number by which a caller is told of it.
    pub fn number(self) -> u8
        ensures { result ≡ unwritten_number self }
    {
        match self {
            Unwritten::BadGrid(refusal) => refusal.number(),
            Unwritten::NoRoom => 14,
        }
    }

    // The index of the first bad cell, 0 beside the other numbers.
    pub fn index(self) -> usize
        ensures { result ≡ unwritten_index self }
    {
        match self {
            Unwritten::BadGrid(refusal) => refusal.index(),
            Unwritten::NoRoom => 0,
        }
    }
}

impl From<Refusal> for Unwritten {
    ghost from_gives = { λ refusal unwritten. unwritten ≡ BadGrid refusal };

    fn from(refusal: Refusal) -> Unwritten {
        Unwritten::BadGrid(refusal)
    }
}

// A field that was read: its value, and the place of the byte that ended it.
#[derive(Clone, Copy)]
struct Field {
    value: usize,
    end: usize,
}

#[tactic(auto, unfolding(model::specs::GridFile::is_digit))]
pub fn is_digit(byte: u8) -> bool
    ensures { result ≡ is_digit byte }
{
    ZERO <= byte && byte <= NINE
}

// What a disallowed byte is in a field that has so many digits before it.
#[tactic(auto, unfolding(crate::specs::Fields::disallowed))]
fn disallowed(digits: usize) -> Fault
    ensures { result ≡ disallowed digits }
{
    if digits == 0 {
        return Fault::StrayByte;
    }
    Fault::ByteAfterDigit
}

// Whether a field of so many digits with this value is `0` alone, after which no digit may come.
#[tactic(auto, unfolding(model::specs::GridFile::is_zero_alone))]
fn is_zero_alone(digits: usize, value: usize) -> bool
    ensures { result ≡ is_zero_alone digits value }
{
    digits == 1 && value == 0
}

// Whether a hole's sign stands at a place.
#[tactic(auto, using(crate::proofs::FieldLaws::field_laws), unfolding(model::specs::GridFile::is_hole_sign))]
fn is_hole(bytes: &[u8], at: usize) -> bool
    ensures { result ≡ is_hole_sign (get_or bytes.now at 0) }
{
    at < bytes.len() && bytes[at] == HOLE_SIGN
}

// A field that ends, or should end, at a byte, after some digits with a value.
#[tactic(auto, using(crate::proofs::FieldLaws::field_laws))]
fn ended_field(byte: u8, digits: usize, value: usize, at: usize) -> Result<Field, Fault>
    ensures { result ≡ ended_field byte digits value at }
{
    if byte != COMMA && byte != LINE_END {
        return Err(disallowed(digits));
    }
    if value > grid::LARGEST_CODE as usize {
        return Err(Fault::LargeCode);
    }
    Ok(Field { value, end: at })
}

// The field of digits that begins at a place. In line, since a Result goes through memory at a call.
#[inline(always)]
#[tactic(auto, using(crate::proofs::FieldLaws::field_laws))]
fn field_at(bytes: &[u8], from: usize) -> Result<Field, Fault>
    ensures { result ≡ field_at bytes.now from }
{
    let mut value: usize = 0;
    for at in from..bytes.len() {
        let byte = bytes[at];
        if !is_digit(byte) {
            return ended_field(byte, at - from, value, at);
        }
        if is_zero_alone(at - from, value) {
            return Err(Fault::LeadingZero);
        }
        if at - from == MOST_DIGITS {
            return Err(Fault::EleventhDigit);
        }
        value = value * 10 + usize::from(byte - ZERO);
    }
    Err(Fault::FileEnd)
}

// The field of a row that begins at a place: a hole's sign alone, which has the value 0, or digits.
#[inline(always)]
#[tactic(auto, using(crate::proofs::FieldLaws::field_laws))]
fn row_field_at(bytes: &[u8], from: usize) -> Result<Field, Fault>
    ensures { result ≡ row_field_at bytes.now from }
{
    if !is_hole(bytes, from) {
        return field_at(bytes, from);
    }
    let at = from + 1;
    if at == bytes.len() {
        return Err(Fault::FileEnd);
    }
    ended_field(bytes[at], 0, 0, at)
}

// A field with the place of its refusal: the line and the field at which the file is declined.
fn located(found: Result<Field, Fault>, line: usize, field: usize) -> Result<Field, Declined>
    ensures { result ≡ located found line field }
{
    found.map_err(|fault| fault.at(line, field))
}

// 256 blank cells.
#[tactic(auto, unfolding(model::specs::GridFile::blank, model::specs::GridFile::no_cells))]
pub fn no_cells() -> [i64; 256]
    ensures { result ≡ no_cells }
{
    [grid::BLANK; 256]
}

// A cell gets what its field says: a hole, blank if the field had no digits, else the value.
#[tactic(auto, unfolding(model::specs::GridFile::blank, model::specs::GridFile::hole, reading::specs::FieldSteps::cell_of))]
fn store_cell(cells: &mut [i64; 256], index: usize, hole: bool, digits: usize, value: usize)
    requires { (index < 256) × (value ≤ largest_code) }
    ensures { cells.new ≡ set cells.old index (cell_of (part_of hole digits value)) }
{
    if hole {
        cells[index] = grid::HOLE;
    } else if digits == 0 {
        cells[index] = grid::BLANK;
    } else {
        cells[index] = value as i64;
    }
}

// One row of a file from a place on, W fields of it: their cells are stored; the place behind the row.
#[tactic(auto, using(crate::proofs::RowLaws::row_laws))]
fn read_row(
    bytes: &[u8],
    from: usize,
    width: usize,
    row: usize,
    cells: &mut [i64; 256],
) -> Result<usize, Declined>
    requires { (is_size width ≡ true) × (row < 16) }
    ensures { (height : ℕ) (answer : Reading) → row < height → Reached bytes.now height width row 0 cells.old from answer → MatchResult result (λ next. Reached bytes.now height width (row + 1) 0 cells.new next answer) (λ declined. reading_says (Err declined) ≡ answer) }
{
    let mut at = from;
    for column in 0..width {
        let Field { value, end } = located(row_field_at(bytes, at), row + 2, column + 1)?;
        let index = row * width + column;
        store_cell(cells, index, is_hole(bytes, at), end - at, value);
        let ends = bytes[end] == LINE_END;
        let is_last = column + 1 == width;
        if ends != is_last {
            return Err(Fault::FieldCount.at(row + 2, column + 1));
        }
        at = end + 1;
    }
    Ok(at)
}

// The rows of a file whose header has been read: from a place on, H rows of W fields each, and nothing after them.
#[tactic(auto, using(crate::proofs::RowLaws::row_laws))]
fn read_rows(bytes: &[u8], from: usize, height: usize, width: usize) -> Result<Grid, Declined>
    requires { (is_size height ≡ true) × (is_size width ≡ true) × (from ≤ length bytes.now) }
    ensures { reading_says result ≡ read_from (field_start 2 1 height width no_cells) (drop from bytes.now) }
{
    let mut cells = no_cells();
    let mut at = from;
    for row in 0..height {
        at = read_row(bytes, at, width, row, &mut cells)?;
    }
    if at < bytes.len() {
        return Err(Fault::FileEnd.at(height + 2, 1));
    }
    Ok(Grid {
        height,
        width,
        cells,
    })
}

// The whole file.
#[tactic(auto, using(crate::proofs::HeaderLaws::header_laws))]
pub fn read(bytes: &[u8]) -> Result<Grid, Declined>
    ensures { reading_says result ≡ read bytes.now }
{
    let first = located(field_at(bytes, 0), 1, 1)?;
    let height = first.value;
    if bytes[first.end] == LINE_END {
        return Err(Fault::FieldCount.at(1, 1));
    }
    let second = located(field_at(bytes, first.end + 1), 1, 2)?;
    let width = second.value;
    if bytes[second.end] != LINE_END {
        return Err(Fault::FieldCount.at(1, 2));
    }
    if !grid::is_size(height) {
        return Err(Fault::BadSize.at(1, 1));
    }
    if !grid::is_size(width) {
        return Err(Fault::BadSize.at(1, 2));
    }
    read_rows(bytes, second.end + 1, height, width)
}

// The field of a pad behind what the text holds: nothing for a blank one, the sign of a hole, or the code.
#[tactic(auto, using(crate::proofs::WriteLaws::write_laws))]
fn push_cell(text: &mut Text, cell: i64)
    requires { length text.old + length (cell_text cell) ≤ 2822 }
    ensures { text.new ≡ text.old ++ cell_text cell }
{
    if cell == grid::BLANK {
        return;
    }
    if cell < 0 {
        return text.push_byte(HOLE_SIGN);
    }
    text.push_decimal(cell as u64);
}

// The fields of the pads in index order behind what the text holds, after each a comma or, at a row's end, a line end.
#[tactic(auto, using(crate::proofs::WriteLaws::write_laws))]
fn push_rows(text: &mut Text, grid: &grid::Grid<'_>)
    requires { length text.old + length (rows_text grid.now.width 1 grid.now.cells.now) ≤ 2822 }
    ensures { text.new ≡ text.old ++ rows_text grid.now.width 1 grid.now.cells.now }
{
    let mut field = 1;
    for &cell in grid.cells {
        push_cell(text, cell);
        if field == grid.width {
            text.push_byte(LINE_END);
            field = 1;
        } else {
            text.push_byte(COMMA);
            field += 1;
        }
    }
}

// The text of a grid.
#[tactic(auto, using(crate::proofs::WriteLaws::write_laws))]
fn text_of(grid: &grid::Grid<'_>) -> Text
    ensures { result ≡ grid_text grid.now.height grid.now.width grid.now.cells.now }
{
    let mut text = Text::new();
    text.push_field(grid.height as u64, COMMA);
    text.push_field(grid.width as u64, LINE_END);
    push_rows(&mut text, grid);
    text
}

// A grid into a lent buffer, and its text's length: the grid's refusals come first, then no room where the buffer is shorter than the text.
// The text is made in an array that the longest one fits, so that nothing is written where there is no room.
#[tactic(auto, using(crate::proofs::WriteLaws::write_laws))]
pub fn write(
    height: usize,
    width: usize,
    cells: &[i64],
    buffer: &mut [u8],
) -> Result<usize, Unwritten>
    ensures { writing_says result buffer.new ≡ write height width cells.now buffer.old }
{
    let grid = grid::accept(height, width, cells)?;
    let text = text_of(&grid);
    let whole = text.as_bytes();
    if buffer.len() < whole.len() {
        return Err(Unwritten::NoRoom);
    }
    buffer[..whole.len()].copy_from_slice(whole);
    Ok(whole.len())
}
