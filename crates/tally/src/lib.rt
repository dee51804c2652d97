// The tally of an engine, the search or the slow walk: what it counts while it runs, which is lent down it; and what an engine answers.
// specs/Counts.antt says what an engine counts into a tally.
#![tactic(auto)]

ghost use Rattle.std.specs.Prelude.{◌≡◌, ◌+◌, ◌*◌, ◌-◌, ◌≤◌, ◌<◌, MatchResult};
ghost use Rattle.model.specs.Runs.{least};
ghost use Rattle.tally.specs.declared.Stop.TheVariants.{Full};
ghost use Rattle.tally.specs.Outcomes.{outcome_number};
ghost use Rattle.tally.specs.Empty.{empty};
ghost use Rattle.tally.specs.Lent.{Asks, Says};

// Why an engine stops before it has gone through everything: it came to its limit, or the buffer had no room for a layout.
#[derive(Clone, Copy, PartialEq, Eq)]
pub enum Stop {
    Spent,
    Full,
}

// Document 01's number of an outcome: 0 complete, 1 spent, 2 full.
pub fn outcome_number(outcome: Result<(), Stop>) -> u8
    ensures { result ≡ outcome_number outcome }
{
    match outcome {
        Ok(()) => 0,
        Err(Stop::Spent) => 1,
        Err(Stop::Full) => 2,
    }
}

// Visited boards (or tried codes), layouts, and the fewest lines of a layout, 481 for none.
#[derive(Clone, Copy, PartialEq, Eq)]
pub struct Tally {
    pub visited: u64,
    pub layouts: usize,
    pub fewest: usize,
}

impl Tally {
    // Nothing counted yet.
    pub const EMPTY: Tally = Tally {
        visited: 0,
        layouts: 0,
        fewest: 481,
    };

    // The place of one more record of so many bytes in a buffer of so many; none where there is no room for it.
    pub fn place(&self, size: usize, room: usize) -> Result<usize, Stop>
        requires { self.now.layouts * size ≤ room }
        ensures { MatchResult result (λ at. (at ≡ self.now.layouts * size) × (size ≤ room - at)) (λ stop. (stop ≡ Full) × (room - self.now.layouts * size < size)) }
    {
        let at = self.layouts * size;
        if room - at < size {
            return Err(Stop::Full);
        }
        Ok(at)
    }

    // One layout more, with so many lines.
    pub fn add(&mut self, lines: usize)
        requires { self.old.layouts < usize.MAX }
        ensures { self.new ≡ record { visited = self.old.visited; layouts = self.old.layouts + 1; fewest = least self.old.fewest lines } }
    {
        self.layouts += 1;
        self.fewest = self.fewest.min(lines);
    }
}

// What an engine answers: how its run ended, and what it has counted.
#[derive(Clone, Copy, PartialEq, Eq)]
pub struct Solved {
    pub outcome: Result<(), Stop>,
    pub tally: Tally,
}

// Runs an engine, any one: a tally with nothing counted is lent to it, and is handed back beside how its run ended.
pub fn lent<F: FnOnce(&mut Tally, &mut [u8]) -> Result<(), Stop>>(
    engine: F,
    buffer: &mut [u8],
) -> Solved
    requires { Asks F.FnOnce engine empty buffer.old }
    ensures { Says F.FnOnce engine empty buffer.old result.outcome result.tally buffer.new }
{
    let mut tally = Tally::EMPTY;
    let outcome = engine(&mut tally, buffer);
    Solved { outcome, tally }
}
