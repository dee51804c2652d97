// What is told of a grid.
ghost use Rattle.std.specs.Prelude.{◌≡◌, ◌<◌};
ghost use Rattle.boardview.specs.Told.{has_bit, Told};

// What is told of a pad by the bits of its byte: it is a clue; it is barred on a side; it has an edge downward and one to a side; it is
// taken, that is not blank but a clue or a hole.
pub const CLUE: u8 = 1;

pub const BAR_RIGHT: u8 = 2;

pub const BAR_LEFT: u8 = 4;

pub const CORNER_RIGHT: u8 = 8;

pub const CORNER_LEFT: u8 = 16;

pub const TAKEN: u8 = 32;

// What is told of a grid for its boards: its sizes; a byte for each pad, with a bit for each of six facts; and the table of the pad check.
#[derive(Clone, Copy)]
pub struct Kinds {
    pub height: usize,
    pub width: usize,
    pub bits: [u8; 512],
    pub actions: [u8; 512],
    pub ghost told: { Told height width bits actions },
}

impl Kinds {
    // A fact of a pad, by its bit.
    pub fn has(&self, v: usize, bit: u8) -> bool
        requires { v < 512 }
        ensures { result ≡ has_bit self.now.bits v bit }
    {
        has(&self.bits, v, bit)
    }
}

// A fact of a pad, by its bit, in the bytes of the pads.
pub fn has(bits: &[u8; 512], v: usize, bit: u8) -> bool
    requires { v < 512 }
    ensures { result ≡ has_bit bits.now v bit }
{
    bits[v] & bit != 0
}
