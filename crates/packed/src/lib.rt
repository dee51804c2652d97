// Reading packed decimal, as controller memories hold it: one byte H, one byte W, then five bytes for each pad, two digits to a byte. The
// answer is that of a grid file: H, W and 256 cells, or why the slice is declined with a line and a field. The whole answer is said by
// `read_packed` of the crate `model`, specs/Packed.antt there.
#![tactic(auto)]

ghost use Rattle.std.specs.Prelude.{◌≡◌, ◌==◌, true, [], ◌+◌, ◌*◌, ◌≤◌, length, drop};
ghost use Rattle.std.specs.List.{list_all};
ghost use Rattle.model.specs.Bounds.{is_size};
ghost use Rattle.model.specs.Packed.{packed_pad, declined_pad, read_pads, read_packed};
ghost use Rattle.gridfile.specs.Fields.{fault_number};
ghost use Rattle.gridfile.specs.Answers.{reading_says};
ghost use Rattle.packed.specs.Pads.{pad_says};

use gridfile::{Declined, Fault, Grid};

// A pad has ten digits, two to a byte; a blank one has this byte five times.
const PAD_BYTES: usize = 5;

const BLANK_BYTE: u8 = 255;

// Whether every byte is that of a blank pad.
fn all_blank(five: &[u8]) -> bool
    ensures { result ≡ list_all (λ byte. byte == 255) five.now }
{
    five.iter().all(|byte| *byte == BLANK_BYTE)
}

// What the five bytes of a pad give: of each byte the high half is the first digit. In line, since a Result goes through
// memory at a call.
#[inline(always)]
#[tactic(auto, using(crate::proofs::PadLaws::pad_laws))]
fn pad_of(five: &[u8]) -> Result<i64, Fault>
    requires { length five.now ≤ 5 }
    ensures { pad_says result ≡ packed_pad five.now }
{
    if all_blank(five) {
        return Ok(grid::BLANK);
    }
    let mut value: usize = 0;
    for &byte in five {
        let byte = usize::from(byte);
        let high = byte / 16;
        let low = byte % 16;
        if high > 9 {
            return Err(Fault::HalfByte);
        }
        if low > 9 {
            return Err(Fault::HalfByte);
        }
        value = (value * 10 + high) * 10 + low;
    }
    if value > grid::LARGEST_CODE as usize {
        return Err(Fault::LargeCode);
    }
    Ok(value as i64)
}

// A refusal at a pad: the rows begin with line 2, and fields are counted from 1.
#[tactic(auto, using(crate::proofs::SliceLaws::slice_laws), unfolding(model::specs::Packed::declined_pad))]
fn declined_pad(fault: Fault, width: usize, index: usize) -> Declined
    requires { (is_size width ≡ true) × (index ≤ 256) }
    ensures { reading_says (Err result) ≡ declined_pad (fault_number fault) width index }
{
    fault.at(2 + index / width, 1 + index % width)
}

// The pads of a slice whose length is that of its sizes, in index order.
#[tactic(auto, using(crate::proofs::SliceLaws::slice_laws))]
fn read_pads(bytes: &[u8], height: usize, width: usize) -> Result<Grid, Declined>
    requires { (is_size height ≡ true) × (is_size width ≡ true) × (length bytes.now ≡ 2 + height * width * 5) }
    ensures { reading_says result ≡ read_pads height width (height * width) [] (drop 2 bytes.now) }
{
    let mut cells = gridfile::no_cells();
    for index in 0..height * width {
        let from = 2 + index * PAD_BYTES;
        match pad_of(&bytes[from..from + PAD_BYTES]) {
            Ok(cell) => cells[index] = cell,
            Err(fault) => return Err(declined_pad(fault, width, index)),
        }
    }
    Ok(Grid {
        height,
        width,
        cells,
    })
}

// The whole slice: two bytes at least, then the sizes, then the whole length, then the pads.
#[tactic(auto, using(crate::proofs::SliceLaws::slice_laws))]
pub fn read_packed(bytes: &[u8]) -> Result<Grid, Declined>
    ensures { reading_says result ≡ read_packed bytes.now }
{
    if bytes.len() < 2 {
        return Err(Fault::FileEnd.at(1, 1));
    }
    let height = usize::from(bytes[0]);
    let width = usize::from(bytes[1]);
    if !grid::is_size(height) {
        return Err(Fault::BadSize.at(1, 1));
    }
    if !grid::is_size(width) {
        return Err(Fault::BadSize.at(1, 2));
    }
    let pads = height * width;
    let whole = (bytes.len() - 2) / PAD_BYTES;
    if whole < pads {
        return Err(declined_pad(Fault::FileEnd, width, whole));
    }
    if bytes.len() - 2 > pads * PAD_BYTES {
        return Err(Fault::FileEnd.at(height + 2, 1));
    }
    read_pads(bytes, height, width)
}
