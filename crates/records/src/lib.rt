// The record calls: layout k as a part of the lent answer buffer, the lines of a record, and the shorter of two lent records.
// Each result equals its definition (`record_at`, `record_lines`, `shorter`: crate `model`, specs/Records.antt there), for every input. And a record laid out in
// a buffer, for whoever knows the byte of an edge.
#![tactic(auto)]

ghost use Rattle.std.specs.Prelude.{◌≡◌, length};
ghost use Rattle.model.specs.Bounds.{is_size};
ghost use Rattle.model.specs.Records.{has_record, record_at, shorter};
ghost use Rattle.rules.specs.Record.{record_lines};

mod fields;

pub use fields::put_field;
use grid::Edge;

// The layouts that an engine leaves in a lent buffer, record behind record: the sizes of their grid, and how many they are. Any numbers may
// stand here.
#[derive(Clone, Copy)]
pub struct Layouts<'a> {
    pub height: usize,
    pub width: usize,
    pub count: usize,
    pub buffer: &'a [u8],
}

impl<'a> Layouts<'a> {
    // Whether the buffer has a record k: H and W are sizes, k is below the count, and the record ends in time.
    #[tactic(auto, using(crate::proofs::RecordLaws::record_laws))]
    fn has(&self, k: usize) -> bool
        ensures { result ≡ has_record self.now.height self.now.width self.now.count k (length self.now.buffer.now) }
    {
        if !grid::is_size(self.height) {
            return false;
        }
        if !grid::is_size(self.width) {
            return false;
        }
        if self.count <= k {
            return false;
        }
        k < self.buffer.len() / grid::places(self.height, self.width)
    }

    // Record k of the buffer, as that part of it; an empty part where there is no record k.
    #[tactic(auto, using(crate::proofs::RecordLaws::record_laws))]
    pub fn at(&self, k: usize) -> &'a [u8]
        ensures { result.now ≡ record_at self.now.height self.now.width self.now.count k self.now.buffer.now }
    {
        if !self.has(k) {
            return &self.buffer[0..0];
        }
        let length = grid::places(self.height, self.width);
        let start = k * length;
        let end = start + length;
        &self.buffer[start..end]
    }
}

// The number of lines of a record: its bytes 1.
#[tactic(auto, using(crate::proofs::RecordLaws::record_laws))]
pub fn lines(layout: &[u8]) -> usize
    ensures { result ≡ record_lines layout.now }
{
    layout
        .iter()
        .filter(|byte| Edge(**byte) == Edge::LINE)
        .count()
}

// The one of two records with fewer lines, on a tie the first; an empty part if the lengths differ or are 0.
#[tactic(auto, using(crate::proofs::RecordLaws::record_laws))]
pub fn shorter<'a>(first: &'a [u8], second: &'a [u8]) -> &'a [u8]
    ensures { result.now ≡ shorter first.now second.now }
{
    if first.len() != second.len() {
        return &first[0..0];
    }
    if lines(second) < lines(first) {
        return second;
    }
    first
}
