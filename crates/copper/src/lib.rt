// The copper common to all wirings: runs the search and, from a complete list, fills a lent table. The answer, every byte of the lent answer
// buffer and every byte of the table equal `common` of the crate `model` (specs/Common.antt there), for every input. In a record a line is
// 1 and none is 2; so the table is all records laid over each other, bit by bit: 1 where every one has a line, 2 where none has, 3 where some
// have and others not, and 0 where no record has a bit.
#![tactic(auto)]

ghost use Rattle.std.specs.Prelude.{◌≡◌, ◌++◌, ◌≤◌, length, replicate, drop};
ghost use Rattle.rules.specs.Grid.{places};
ghost use Rattle.model.specs.Common.{common};
ghost use Rattle.copper.specs.Overlay.{overlaid, records_overlaid};
ghost use Rattle.copper.specs.Answers.{common_says};
ghost use Rattle.copper.specs.declared.NoTable.TheVariants.{Grid};

use grid::Refusal;
use records::Layouts;
use tally::{Solved, Tally};

// Nothing is said of the first places yet.
fn clear(table: &mut [u8], places: usize)
    requires { places ≤ length table.old }
    ensures { table.new ≡ replicate places 0 ++ drop places table.old }
{
    table[..places].fill(0);
}

// Lays one record over the table.
fn overlay(table: &mut [u8], layout: &[u8])
    requires { length layout.now ≤ length table.old }
    ensures { table.new ≡ overlaid table.old layout.now }
{
    for (i, byte) in layout.iter().enumerate() {
        table[i] |= *byte;
    }
}

// Lays the records of the buffer over the table, one after the other.
#[tactic(auto, using(crate::proofs::TableLaws::record_by_record))]
fn overlay_records(table: &mut [u8], layouts: &Layouts)
    requires { places layouts.now.height layouts.now.width ≤ length table.old }
    ensures { table.new ≡ records_overlaid layouts.now.height layouts.now.width layouts.now.count layouts.now.buffer.now layouts.now.count 0 table.old }
{
    for k in 0..layouts.count {
        let layout = layouts.at(k);
        overlay(table, layout);
    }
}

// Why there is no table: the grid is declined, the lent table is shorter than the places, or the list did not end complete, told with it.
#[derive(Clone, Copy, PartialEq, Eq)]
pub enum NoTable {
    Grid(Refusal),
    Short,
    Incomplete(Solved),
}

impl From<Refusal> for NoTable {
    ghost from_gives = { λ refusal r. r ≡ Grid refusal };

    fn from(refusal: Refusal) -> NoTable {
        NoTable::Grid(refusal)
    }
}

// Searches a grid into the lent buffer and, from a complete list, fills the lent table: for each edge of the board, at its place, 1 for a line
// in every layout, 2 in none, 3 in some and missing in others; hands on what the search has counted.
pub fn common(
    height: usize,
    width: usize,
    cells: &[i64],
    limit: u64,
    buffer: &mut [u8],
    table: &mut [u8],
) -> Result<Tally, NoTable>
    ensures { common_says result buffer.new table.new ≡ common height width cells.now limit buffer.old table.old }
{
    let grid = grid::accept(height, width, cells)?;
    let places = grid.places();
    if table.len() < places {
        return Err(NoTable::Short);
    }
    let found = solver::search(&grid, limit, buffer);
    if found.outcome.is_err() {
        return Err(NoTable::Incomplete(found));
    }
    clear(table, places);
    let layouts = Layouts {
        height,
        width,
        count: found.tally.layouts,
        buffer,
    };
    overlay_records(table, &layouts);
    Ok(found.tally)
}
