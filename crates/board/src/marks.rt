// The marks of the standing checkpoints: a stack with room for so many.
ghost use Rattle.std.specs.Prelude.{◌≤◌};

// The most checkpoints that may stand.
const MOST_CHECKPOINTS: usize = 256;

// The marks, the last one on top; of the array the first ones stand, and the others are of no account.
#[derive(Clone, Copy)]
pub struct Marks {
    marks: [usize; 256],
    standing: usize,
    ghost few: { standing ≤ 256 },
}

impl Marks {
    ghost use Rattle.std.specs.Prelude.{◌≡◌, ◌∷◌, [], leb, length, ◌<◌};
    ghost use Rattle.board.specs.Standing.{marks_in, Popped};

    // No mark.
    pub fn none() -> Marks
        ensures { marks_in result ≡ [] }
    {
        Marks {
            marks: [0; 256],
            standing: 0,
        }
    }

    // As many marks stand as may.
    pub fn is_full(&self) -> bool
        ensures { result ≡ leb 256 (length (marks_in self.now)) }
    {
        self.standing >= MOST_CHECKPOINTS
    }

    // One more mark, on top.
    pub fn push(&mut self, mark: usize)
        requires { length (marks_in self.old) < 256 }
        ensures { marks_in self.new ≡ mark ∷ marks_in self.old }
    {
        self.marks[self.standing] = mark;
        self.standing += 1;
    }

    // Takes the mark on top away, if one stands.
    pub fn pop(&mut self) -> Option<usize>
        ensures { Popped (marks_in self.old) result (marks_in self.new) }
    {
        if self.standing == 0 {
            return None;
        }
        self.standing -= 1;
        Some(self.marks[self.standing])
    }
}
