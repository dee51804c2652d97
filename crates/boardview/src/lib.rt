// What is told of a grid, and the arrays of a board; the rest is theory: what they show, and what each step of a decision does to them.
#![tactic(auto)]

ghost use Rattle.std.specs.Prelude.{◌≡◌, ◌%◌};
ghost use Rattle.boardview.specs.View.{logged, flag_in, ended_in, stopped, ended, going, restarted, with_count};

mod kinds;

pub use kinds::{BAR_LEFT, BAR_RIGHT, CLUE, CORNER_LEFT, CORNER_RIGHT, Kinds, TAKEN, has};

// The count of a board is the length of its log, plus this if the flag is set, and plus this again once the decision has ended.
const FLAGGED: usize = 1024;

const ENDED: usize = 2048;

// THE ARRAYS of a board: a byte for each edge, an end number for each pad, the log of decided edges, and a count that holds the log's
// length and the flag. What they show of the model's state is said in specs/View.antt.
#[derive(Clone, Copy)]
pub struct Arrays {
    pub edges: [u8; 1024],
    pub ends: [i64; 512],
    pub log: [i64; 1440],
    pub count: usize,
}

impl Arrays {
    // The length of the log.
    pub fn logged(&self) -> usize
        ensures { result ≡ logged self.now }
    {
        length_in(self.count)
    }

    // The flag is set.
    pub fn is_flagged(&self) -> bool
        ensures { result ≡ flag_in self.now.count }
    {
        FLAGGED <= self.count
    }

    // The decision has ended.
    pub fn has_ended(&self) -> bool
        ensures { result ≡ ended_in self.now.count }
    {
        ENDED <= self.count
    }

    // The flag is set, and the decision has ended.
    pub fn stop(&mut self)
        ensures { self.new ≡ with_count self.old (stopped self.old.count) }
    {
        self.count = self.logged() + ENDED;
    }

    // The decision has ended if the flag is set.
    pub fn end(&mut self)
        ensures { self.new ≡ with_count self.old (ended self.old.count) }
    {
        if self.is_flagged() {
            self.stop();
        }
    }

    // The decision goes on.
    pub fn go_on(&mut self)
        ensures { self.new ≡ with_count self.old (going self.old.count) }
    {
        if self.has_ended() {
            self.count -= FLAGGED;
        }
    }

    // The log begins anew, with the flag as it is.
    pub fn restart(&mut self)
        ensures { self.new ≡ with_count self.old (restarted self.old.count) }
    {
        self.count = if self.is_flagged() { ENDED } else { 0 };
    }
}

// The length of the log that a count holds.
pub fn length_in(count: usize) -> usize
    ensures { result ≡ count % 1024 }
{
    count % FLAGGED
}
