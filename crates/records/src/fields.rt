// A record laid out in a buffer, the field row by row, once for whoever knows the byte of an edge. Which pads a place joins is told by
// grid::pads_at. What is asked of the function that answers the bytes, and what is promised for its answers, stands in specs/Laid.antt.
ghost use Rattle.std.specs.Prelude.{◌≡◌, ℕ, ◌+◌, ◌≤◌, ◌<◌, length};
ghost use Rattle.rules.specs.Grid.{Size, field_side, places, place_at};
ghost use Rattle.rules.specs.Record.{byte_at_place, field, record_lines};
ghost use Rattle.rules.specs.RecordLaws.{field_row};
ghost use Rattle.model.specs.PutBytes.{put_bytes};
ghost use Rattle.records.specs.Laid.{IfPads, EachInRow, EachInField, AnswersByte, Laid};

use grid::{Edge, Pads};

// The byte at a place: that of its edge, and undecided where there is none.
#[inline]
#[tactic(auto, using(crate::proofs::LaidLaws::byte_there, crate::proofs::LaidLaws::byte_nowhere))]
fn byte_at<F: Fn(Pads) -> u8>(width: usize, row: usize, column: usize, byte_of: &F) -> u8
    requires { (width ≤ 16) × (row < 31) × (column < 31) × IfPads width (place_at width row column) (F.pre byte_of.now) }
    ensures { (bytes : _) → IfPads width (place_at width row column) (AnswersByte (F.post byte_of.now) bytes)
        → result ≡ byte_at_place bytes (place_at width row column) }
{
    match grid::pads_at(width, row, column) {
        Some(pads) => byte_of(pads),
        None => Edge::UNDECIDED.0,
    }
}

// Puts one row of the field into the buffer from an index on, and counts its lines.
#[inline]
fn put_row<F: Fn(Pads) -> u8>(
    width: usize,
    row: usize,
    buffer: &mut [u8],
    at: usize,
    byte_of: &F,
) -> usize
    requires { Size width × (row < 31) × (at + field_side width ≤ length buffer.old) × EachInRow width row (F.pre byte_of.now) }
    ensures { Laid (λ bytes. EachInRow width row (AnswersByte (F.post byte_of.now) bytes)) (λ bytes. field_row width bytes row) (field_side width)
        at buffer.old result buffer.new }
{
    let side = 2 * width - 1;
    let mut lines: usize = 0;
    for column in 0..side {
        let byte = byte_at(width, row, column, byte_of);
        buffer[at + column] = byte;
        lines += usize::from(byte == Edge::LINE.0);
    }
    lines
}

// Puts the record of a field into the buffer from an index on, row by row: at each place the byte that the function answers for the pads of
// its edge, and undecided where there is none. Counts its lines.
#[inline]
pub fn put_field<F: Fn(Pads) -> u8>(
    height: usize,
    width: usize,
    buffer: &mut [u8],
    at: usize,
    byte_of: F,
) -> usize
    requires { Size height × Size width × (at + places height width ≤ length buffer.old) × EachInField height width (F.pre byte_of) }
    ensures { (bytes : _) → EachInField height width (AnswersByte (F.post byte_of) bytes)
        → (buffer.new ≡ put_bytes at (field height width bytes) buffer.old) × (result ≡ record_lines (field height width bytes)) }
{
    let rows = 2 * height - 1;
    let side = 2 * width - 1;
    let mut lines: usize = 0;
    for row in 0..rows {
        lines += put_row(width, row, buffer, at + row * side, &byte_of);
    }
    lines
}
