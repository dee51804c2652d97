// What a board shows.
ghost use Rattle.rules.specs.Grid.{Size};
ghost use Rattle.std.specs.Prelude.{◌*◌};

// What a board shows: its sizes, its flag, the record of its edges and its end numbers. The two arrays hold more than any board needs; the
// methods give what is of account.
#[derive(Clone, Copy)]
pub struct Shown {
    pub height: usize,
    pub width: usize,
    pub flag: bool,
    pub(crate) edges: [u8; 961],
    pub(crate) ends: [i64; 256],
    pub ghost sizes: { Size height × Size width },
}

impl Shown {
    ghost use Rattle.std.specs.Prelude.{◌≡◌};
    ghost use Rattle.board.specs.Held.{edges_of, ends_of};

    // The record of the edges.
    pub fn edges(&self) -> &[u8]
        ensures { result.now ≡ edges_of self.now }
    {
        &self.edges[..grid::places(self.height, self.width)]
    }

    // The end number of each pad.
    pub fn ends(&self) -> &[i64]
        ensures { result.now ≡ ends_of self.now }
    {
        &self.ends[..self.height * self.width]
    }
}
