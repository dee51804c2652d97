// The list of a file's wirings by a search that is run again and again, with limits that grow up to the one that is asked for, so that a long search
// shows that it is alive: after each run `head` says on standard error how many boards it has visited and how many layouts it has found. Its
// contract is that of `listing::head` with the last limit: the runs before that one cannot be seen (specs/Limits.antt; crate `listing`,
// specs/HeadAgain.antt). And how the limit is read from an argument. specs/Whole.antt says what a program prints with these.
#![tactic(auto)]

ghost use Rattle.std.specs.Prelude.{◌≡◌, ◌↔◌, IsTrue};
ghost use Rattle.model.specs.RoutesTo.{limit_of, limit_line};
ghost use Rattle.listing.specs.Listing.{outcome_of, Headed};
ghost use Rattle.growing.specs.Limits.{says, first_limit, next_limit};

use gridfile::Declined;
use listing::Heading;
use tally::Stop;

// The number of standard error. It is written by the kit's io, so that `head` asks for no handle.
const STDERR_FILENO: i32 = 2;

const ZERO: u8 = 48;

// The digits of the largest limit.
const MOST_DIGITS: usize = 20;

// The limit of the first run, which is that of `routes`, and how many times as large each next one is.
const FIRST_LIMIT: u64 = 1000000;

const TIMES: u64 = 4;

// The limit of visited boards that a text says, in 1 to 20 digits.
#[tactic(auto, using(crate::proofs::ReadLaws::read_laws))]
pub fn limit_of(text: &[u8]) -> Option<u64>
    ensures { says result ≡ limit_of text.now }
{
    if text.is_empty() || text.len() > MOST_DIGITS {
        return None;
    }
    let mut value: u64 = 0;
    for byte in text {
        if !gridfile::is_digit(*byte) {
            return None;
        }
        let digit = u64::from(*byte - ZERO);
        value = value.checked_mul(10)?.checked_add(digit)?;
    }
    Some(value)
}

// The line for an argument that is no limit.
#[tactic(auto, unfolding(model::specs::RoutesTo::limit_line, model::specs::Text::bytes))]
pub fn limit_line() -> [u8; 97]
    ensures { result ≡ limit_line }
{
    *b"refused: the limit must be a number from 0 to 18446744073709551615 (routes_to LIMIT < GRID-FILE)\n"
}

// The limit of the first run.
fn first_limit(limit: u64) -> u64
    ensures { result ≡ first_limit limit }
{
    FIRST_LIMIT.min(limit)
}

// The limit of the run after one that was spent.
fn next_limit(reached: u64, limit: u64) -> u64
    ensures { result ≡ next_limit reached limit }
{
    reached.saturating_mul(TIMES).min(limit)
}

// Says how far a run has come. What cannot be written is passed over.
fn print_progress(visited: u64, layouts: u64) {
    io::write_all(
        STDERR_FILENO,
        printed::progress_line(visited, layouts).as_bytes(),
    );
}

// One run, of which it is said how far it has come; nothing is said of a refused file.
fn run(file: &[u8], limit: u64, buffer: &mut [u8]) -> Result<Heading, Declined>
    ensures { Headed limit file.now buffer.old result buffer.new }
{
    let head = listing::head(file, limit, buffer);
    if let Ok(heading) = head {
        let tally = heading.found.tally;
        print_progress(tally.visited, tally.layouts as u64);
    }
    head
}

// Whether a run stopped at its limit.
fn is_spent(head: Result<Heading, Declined>) -> bool
    ensures { IsTrue result ↔ (outcome_of head ≡ 1) }
{
    match head {
        Ok(heading) => heading.found.outcome == Err(Stop::Spent),
        Err(_) => false,
    }
}

// Reads the file, searches its grid into the buffer with growing limits, and gives the head of the text. It ends with a run that is not spent, since
// a higher limit changes nothing then, or with the limit that is asked for.
pub fn head(file: &[u8], limit: u64, buffer: &mut [u8]) -> Result<Heading, Declined>
    ensures { Headed limit file.now buffer.old result buffer.new }
{
    let mut reached = first_limit(limit);
    let mut head = run(file, reached, buffer);
    while is_spent(head) && reached < limit {
        reached = next_limit(reached, limit);
        head = run(file, reached, buffer);
    }
    head
}
