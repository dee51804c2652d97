// The record of a board's edges, for the search and for what a board shows: the crate `records` lays it out, and the byte of an edge stands
// at the slot of its pads. What the record is stands in boardview's ShownRecord.antt.
#![tactic(auto)]

ghost use Rattle.std.specs.Prelude.{◌≡◌, ℕ, ◌+◌, ◌≤◌, ◌<◌, length, get_or};
ghost use Rattle.rules.specs.Grid.{places};
ghost use Rattle.rules.specs.Record.{record_lines};
ghost use Rattle.grid.specs.PadsAt.{edge_of};
ghost use Rattle.boardview.specs.View.{grid_in};
ghost use Rattle.model.specs.PutBytes.{put_bytes};
ghost use Rattle.boardview.specs.ShownRecord.{bytes_shown, record_shown};

use boardview::Kinds;
use grid::Pads;

// The byte of the edge between two pads.
#[inline]
#[tactic(auto, using(crate::proofs::SlotLaws::byte_at_slot))]
fn byte_between(edges: &[u8; 1024], pads: Pads) -> u8
    requires { (pads.first < 256) × ((n : ℕ) → get_or edges.now n 2 ≤ 2) }
    ensures { result ≡ bytes_shown edges.now (edge_of pads) }
{
    edges[boardparts::slot_from(pads.direction, pads.first)]
}

// Puts the record into the buffer from an index on, row by row, and counts its lines.
#[tactic(auto, using(crate::proofs::SlotLaws::small_pad), unfolding(boardview::specs::ShownRecord::record_shown))]
pub fn put_record(edges: &[u8; 1024], kinds: &Kinds, buffer: &mut [u8], at: usize) -> usize
    requires { ((n : ℕ) → get_or edges.now n 2 ≤ 2)
        × (at + places (grid_in kinds.now).height (grid_in kinds.now).width ≤ length buffer.old) }
    ensures { (buffer.new ≡ put_bytes at (record_shown (grid_in kinds.now) edges.now) buffer.old)
        × (result ≡ record_lines (record_shown (grid_in kinds.now) edges.now)) }
{
    records::put_field(kinds.height, kinds.width, buffer, at, |pads| {
        byte_between(edges, pads)
    })
}
