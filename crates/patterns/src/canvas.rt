// A work grid with its side, and single modules of it.
ghost use Rattle.std.specs.Prelude.{◌≡◌, ℕ, Bool, ◌+◌, ◌<◌, ◌≤◌};
ghost use Rattle.standard.specs.Numbers.{one};
ghost use Rattle.standard.specs.Sizes.{side};
ghost use Rattle.laws.specs.Grid.{Square};
ghost use Rattle.laws.specs.Dots.{dot};
ghost use Rattle.laws.specs.Marks.{twin};
ghost use Rattle.patterns.specs.Shapes.{square, Rules};

use types::Version;

// A work grid and its width and height.
#[derive(Drop)]
pub(crate) struct Canvas<'a> {
    pub grid: &'a mut [u8],
    pub size: usize,
    pub ghost square: { Square grid.now size },
}

impl<'a> Canvas<'a> {
    ghost use Rattle.patterns.specs.Painted.{Paints};

    // The canvas of a version's grid.
    pub fn new(grid: &'a mut [u8], ver: Version) -> Canvas<'a>
        requires { Square grid.old (side ver.value) }
        ensures same { result.grid.ghost_name ≡ grid.entry.ghost_name }
        ensures size { result.size ≡ side ver.value }
        ensures cells { result.grid.now ≡ grid.old }
    {
        let size = super::size_of(ver);
        Canvas { grid, size }
    }

    // Sets the color of a module and marks it as a function module.
    // Coordinates must be in bounds.
    pub fn set_function_module(&mut self, x: usize, y: usize, isdark: bool)
        requires { (x < self.old.size) × (y < self.old.size) }
        ensures { Paints self.old self.new (dot x y (2 + one isdark)) }
    {
        self.grid[super::place(self.size, x, y)] = 2 + u8::from(isdark);
    }

    // Sets the modules (a, b) and (b, a).
    pub fn set_twin_modules(&mut self, a: usize, b: usize, isdark: bool)
        requires { (a < self.old.size) × (b < self.old.size) }
        ensures { Paints self.old self.new (twin a b (2 + one isdark)) }
    {
        self.set_function_module(a, b, isdark);
        self.set_function_module(b, a, isdark);
    }

    // Draws the modules at most r away from the center (x, y), dark where the distance says so. Modules can be out of bounds.
    pub fn draw_square<F: Fn(usize) -> bool>(&mut self, x: usize, y: usize, r: usize, isdark: F)
        requires inside { (x < self.old.size) × (y < self.old.size) × (r ≤ 4) }
        requires callable { F.IsAlwaysCallable isdark }
        ensures { (rule : ℕ → Bool) → Rules (F.post isdark) r rule → Paints self.old self.new (square r rule x y) }
    {
        for yy in y.saturating_sub(r)..self.size.min(y + r + 1) {
            for xx in x.saturating_sub(r)..self.size.min(x + r + 1) {
                let dist = xx.abs_diff(x).max(yy.abs_diff(y));
                self.set_function_module(xx, yy, isdark(dist));
            }
        }
    }
}
