// An accepted grid: a lent list of cells with its sizes, of which it is known that they are a grid.
ghost use Rattle.std.specs.Prelude.{◌≡◌, ◌*◌};
ghost use Rattle.rules.specs.Grid.{places, Accepted};
ghost use Rattle.grid.specs.AcceptedOneWay.{accepted_one_way};

// A grid that is accepted: sizes in range, a cell for each pad, and each cell blank, a hole or a code.
#[derive(Clone, Copy)]
pub struct Grid<'a> {
    pub height: usize,
    pub width: usize,
    pub cells: &'a [i64],
    pub ghost accepted: { Accepted height width cells.now } by { accepted_one_way },
}

impl<'a> Grid<'a> {
    // The number of pads.
    pub fn pads(&self) -> usize
        ensures { result ≡ self.now.height * self.now.width }
    {
        self.height * self.width
    }

    // The number of places, which is the length of a record.
    pub fn places(&self) -> usize
        ensures { result ≡ places self.now.height self.now.width }
    {
        crate::places(self.height, self.width)
    }
}
