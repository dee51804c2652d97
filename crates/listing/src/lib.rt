// The list of a file's wirings as `routes` prints it, in parts that a program writes one after the other: the head, which is the line of a refused
// file or the summary line, and the line of each layout. specs/Listing.antt says each part, specs/Whole.antt that together they are the text of
// the crate `model`, and specs/HeadAgain.antt what a search that is run again leaves. The answer buffer is lent: `head` leaves the records in
// it, and `line` reads them there; `print_list` writes the line of the head and those of the layouts.
#![tactic(auto)]

ghost use Rattle.std.specs.Prelude.{◌≡◌};
ghost use Rattle.listing.specs.Listing.{head_text, text_of, Headed, line_text};

use gridfile::Declined;
use printed::{HeadLine, LayoutLine};
use records::Layouts;
use tally::Solved;
use text::Line;

// The number of standard output. It is written by the kit's io, so that no function here asks for a handle.
const STDOUT_FILENO: i32 = 1;

// What a list tells of an accepted file: H and W, and what the search of its grid has found.
#[derive(Clone, Copy, PartialEq, Eq)]
pub struct Heading {
    pub height: usize,
    pub width: usize,
    pub found: Solved,
}

impl Heading {
    // The layouts that the search has left in the buffer.
    fn layouts<'a>(&self, buffer: &'a [u8]) -> Layouts<'a>
        ensures { (result.height ≡ self.now.height) × (result.width ≡ self.now.width) × (result.count ≡ self.now.found.tally.layouts) × (result.buffer.now ≡ buffer.now) }
    {
        Layouts {
            height: self.height,
            width: self.width,
            count: self.found.tally.layouts,
            buffer,
        }
    }
}

// Reads the file and searches its grid into the buffer with this limit of visited boards; a refused file is told by why and where.
pub fn head(file: &[u8], limit: u64, buffer: &mut [u8]) -> Result<Heading, Declined>
    ensures { Headed limit file.now buffer.old result buffer.new }
{
    let grid = gridfile::read(file)?;
    let found = solver::search(&grid.accepted(), limit, buffer);
    Ok(Heading {
        height: grid.height,
        width: grid.width,
        found,
    })
}

// The line of the head: the summary line of what was found, or that of a refused file.
pub fn head_line(found: Result<Solved, Declined>) -> HeadLine
    ensures { result ≡ head_text found }
{
    match found {
        Ok(found) => printed::summary_line(
            found.tally.layouts as u64,
            found.tally.visited,
            found.tally.fewest as u64,
            tally::outcome_number(found.outcome),
        ),
        Err(declined) => printed::refusal_line(
            declined.fault.number(),
            declined.line as u64,
            declined.field as u64,
        ),
    }
}

// The first line of the list that `head` has answered.
pub fn first_line(head: Result<Heading, Declined>) -> HeadLine
    ensures { result ≡ text_of head }
{
    match head {
        Ok(heading) => head_line(Ok(heading.found)),
        Err(declined) => head_line(Err(declined)),
    }
}

// The line of layout k, from 0; nothing where there is no record k.
#[tactic(auto, using(crate::specs::BufferRecords::line_laws))]
pub fn line(layouts: &Layouts, k: usize) -> LayoutLine
    ensures { result ≡ line_text layouts.now.height layouts.now.width layouts.now.count k layouts.now.buffer.now }
{
    let layout = layouts.at(k);
    if layout.is_empty() {
        return Line::new();
    }
    printed::layout_line(layouts.height, layouts.width, k as u64 + 1, layout)
}

// Writes the lines of the layouts, in order. What cannot be written is passed over, here as below.
fn print_layouts(layouts: &Layouts) {
    for k in 0..layouts.count {
        io::write_all(STDOUT_FILENO, line(layouts, k).as_bytes());
    }
}

// The same of so many layouts of a grid of these sizes.
pub fn print_lines(buffer: &[u8], height: usize, width: usize, layouts: usize) {
    let list = Layouts {
        height,
        width,
        count: layouts,
        buffer,
    };
    print_layouts(&list);
}

// Writes the whole text: the line of the head, and those of the layouts that the search left in the buffer.
pub fn print_list(head: Result<Heading, Declined>, buffer: &[u8]) {
    io::write_all(STDOUT_FILENO, first_line(head).as_bytes());
    if let Ok(heading) = head {
        print_layouts(&heading.layouts(buffer));
    }
}
