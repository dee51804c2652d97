// The streams of board calls and of grids that were written down once with the Rust's answers; oracle/README.md describes both and the
// checksum. These functions read them, and go through one from its start to its end. They are total: past the end of a stream every byte is 0.
#![tactic(auto)]

ghost use Rattle.std.specs.Prelude.{IfSome, ◌≡◌, ◌+◌, ◌*◌, ◌-◌, ◌^◌, min, get_or};

use std::array;

// `later` doesn't tell places further on than this apart; no stream is that long.
const FAR: usize = 1000000000;

// The place so many bytes further on.
pub fn later(place: usize, bytes: usize) -> usize {
    if place > FAR || bytes > FAR {
        return FAR;
    }
    place + bytes
}

// The byte at a place, 0 past the end.
pub fn byte_at(stream: &[u8], place: usize) -> u8
    ensures { result ≡ get_or stream.now place 0 }
{
    stream.get(place).copied().unwrap_or(0)
}

// A number of so many bytes, at most eight, the highest first.
pub fn number_at(stream: &[u8], place: usize, bytes: usize) -> u64 {
    let mut value: u64 = 0;
    for i in 0..bytes {
        value = value % 72057594037927936 * 256 + u64::from(byte_at(stream, later(place, i)));
    }
    value
}

// The cell that a byte stands for: 0 blank, 1 to 250 the codes from 0 on, 251 to 255 the largest that the Rust can be asked about.
pub fn cell_of(byte: u8) -> i64 {
    match byte {
        0 => -1,
        1..=250 => i64::from(byte - 1),
        251..=255 => 2147483391 + i64::from(byte),
    }
}

// So many cells from a place on, and blank ones after them.
pub fn cells_at(stream: &[u8], place: usize, count: usize) -> [i64; 256] {
    array::from_fn(|i| {
        if i < count {
            cell_of(byte_at(stream, later(place, i)))
        } else {
            -1
        }
    })
}

// A grid of a stream: its sizes and cells, and the place after it.
#[derive(Clone, Copy)]
pub struct Sent {
    pub height: usize,
    pub width: usize,
    count: usize,
    cells: [i64; 256],
    pub after: usize,
}

impl Sent {
    // The cells of its pads.
    pub fn cells(&self) -> &[i64] {
        self.cells.get(..self.count).unwrap_or(&[])
    }
}

// The grid at a place, however far on: height and width in a byte each, and a byte for each cell. None where there are more than 256.
pub fn grid_at(stream: &[u8], place: usize) -> Option<Sent>
    ensures { IfSome result (λ sent. (sent.height ≡ get_or stream.now place 0) × (sent.width ≡ get_or stream.now (place + 1) 0) × (sent.after ≡ min (place + (2 + sent.height * sent.width)) (2 ^ 64 - 1))) }
{
    let rest = stream.get(place..).unwrap_or(&[]);
    let height = usize::from(byte_at(rest, 0));
    let width = usize::from(byte_at(rest, 1));
    let count = height * width;
    if count > 256 {
        return None;
    }
    Some(Sent {
        height,
        width,
        count,
        cells: cells_at(rest, 2, count),
        after: place.saturating_add(2 + count),
    })
}

// A stream has fewer sequences or grids than this.
const MOST: u64 = 100000;

// Goes through a stream of so many bytes, from one sequence or grid to the next: `replay` is asked for the one at a place, with its number from 1
// on, and answers the place after it, or none where the stream tells no more.
pub fn replay_all<F: Fn(usize, u64) -> Option<usize>>(length: usize, replay: F)
    requires { F.IsAlwaysCallable replay }
{
    let mut place = 0;
    for number in 1..MOST {
        if place >= length {
            return;
        }
        let Some(next) = replay(place, number) else {
            return;
        };
        place = next;
    }
}

// The checksum is below this prime, which is above every end as a number without a sign.
const MODULUS: u64 = 17179869143;

// The checksum after one number more.
pub fn taken(sum: u64, number: u64) -> u64 {
    (sum % MODULUS * 31 + number % MODULUS) % MODULUS
}

// The checksum after so many bytes more.
pub fn taken_bytes(sum: u64, bytes: &[u8]) -> u64 {
    bytes
        .iter()
        .fold(sum, |sum, byte| taken(sum, u64::from(*byte)))
}

// The number that stands for an end: 2e for an end e that is not negative, 2(-1 - e) + 1 for a negative one.
fn unsigned(end: i64) -> u64 {
    if end < 0 {
        return (-1 - end) as u64 * 2 + 1;
    }
    end as u64 * 2
}

// The checksum after so many ends more, each as a number without a sign.
pub fn taken_ends(sum: u64, ends: &[i64]) -> u64 {
    ends.iter().fold(sum, |sum, end| taken(sum, unsigned(*end)))
}

#[cfg(test)]
mod tests {
    use super::*;
    use std::test::Fail;

    // The one byte of a stream, and 0 behind it.
    #[test]
    fn one_byte(rt: HostRuntime) {
        assert_eq!(rt; byte_at(&[5], 0), 5);
        assert_eq!(rt; byte_at(&[5], 1), 0);
    }

    // A grid of one row and two columns, behind a byte that is not its own.
    #[test]
    fn one_row(rt: HostRuntime) -> Result<(), Fail> {
        let sent = grid_at(&[9, 1, 2, 0, 5, 7], 1).ok_or("no grid")?;
        assert_eq!(rt; sent.height, 1);
        assert_eq!(rt; sent.width, 2);
        assert_eq!(rt; sent.cells(), [-1, 4].as_slice());
        assert_eq!(rt; sent.after, 5);
        Ok(())
    }

    // Seventeen rows of sixteen are more than 256 cells.
    #[test]
    fn too_many_cells(rt: HostRuntime) {
        assert!(rt; grid_at(&[17, 16], 0).is_none());
    }

    // Past the end every byte is 0, however far on: no rows and no columns, and two bytes.
    #[test]
    fn far_on(rt: HostRuntime) -> Result<(), Fail> {
        let sent = grid_at(&[], 2000000000).ok_or("no grid")?;
        assert_eq!(rt; sent.cells().len(), 0);
        assert_eq!(rt; sent.after, 2000000002);
        Ok(())
    }
}
