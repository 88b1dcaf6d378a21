// The two ways that lines run over a grid.
ghost use Rattle.std.specs.Prelude.{◌≡◌, ◌*◌, ◌<◌, ◌≤◌};
ghost use Rattle.packed.specs.Ways.{start_of, step_of, pattern_of};

#[derive(Clone, Copy)]
pub enum Way {
    Rows,
    Columns,
}

impl Way {
    // Where line k begins.
    pub fn start(self, side: usize, k: usize) -> usize
        requires { (k < side) × (side ≤ 177) }
        ensures { result ≡ start_of self side k }
    {
        match self {
            Way::Rows => k * side,
            Way::Columns => k,
        }
    }

    // How far a module is from the next of its line.
    pub fn step(self, side: usize) -> usize
        ensures { result ≡ step_of self side }
    {
        match self {
            Way::Rows => 1,
            Way::Columns => side,
        }
    }

    // Which of the sixteen patterns has the lines of a mask.
    pub fn pattern(self, msk: usize) -> usize
        requires { msk < 8 }
        ensures { (result ≡ pattern_of self msk) × (result < 16) }
    {
        match self {
            Way::Rows => msk,
            Way::Columns => 8 + msk,
        }
    }
}
