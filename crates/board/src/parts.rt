// The parts of a board, of which it is known that they hold a board of the model.
ghost use Rattle.board.specs.Holds.{IsHeld};

use crate::marks::Marks;
use boardview::{Arrays, Kinds};

// The arrays; what is told of the grid; the count of the fresh board, to which undo with no checkpoint standing goes back, flag and all;
// and the marks of the standing checkpoints: the count that stood then.
#[derive(Clone, Copy)]
pub struct Board {
    pub(crate) arrays: Arrays,
    pub(crate) kinds: Kinds,
    pub(crate) fresh: usize,
    pub(crate) marks: Marks,
    pub ghost held: { ∥ IsHeld arrays kinds fresh marks ∥₁ },
}
