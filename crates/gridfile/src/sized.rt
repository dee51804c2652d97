// A grid that was read: of its pads' cells it is known that they are a grid.
ghost use Rattle.std.specs.Prelude.{◌≡◌, ◌*◌, take};
ghost use Rattle.rules.specs.Grid.{Accepted};
ghost use Rattle.grid.specs.AcceptedOneWay.{accepted_one_way};

// H, W and 256 cells, blank ones behind the last pad's.
#[derive(Clone, Copy)]
pub struct Grid {
    pub height: usize,
    pub width: usize,
    pub cells: [i64; 256],
    pub ghost accepted: { Accepted height width (take (height * width) cells) } by { accepted_one_way },
}

impl Grid {
    // The grid, which lends the cells of its pads.
    pub fn accepted(&self) -> grid::Grid<'_>
        ensures height { result.height ≡ self.now.height }
        ensures width { result.width ≡ self.now.width }
        ensures cells { result.cells.now ≡ take (self.now.height * self.now.width) self.now.cells }
    {
        grid::Grid {
            height: self.height,
            width: self.width,
            cells: &self.cells[..self.height * self.width],
        }
    }
}
