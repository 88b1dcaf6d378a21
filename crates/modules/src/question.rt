// One module of a grid, asked for by signed coordinates.
ghost use Rattle.std.specs.Prelude.{◌≡◌, pos};
ghost use Rattle.standard.specs.Module.{valid_side, dark};

// Returns the color of the module (pixel) at the given coordinates, which is false for light or true for dark.
// The top left corner has the coordinates (x=0, y=0). If the given coordinates are out of bounds, if the size is that
// of no version, or if the grid is too short, then false (light) is returned.
// Kept: two tests and casts (speed: by `usize::try_from` a call takes 1.3 times as long).
pub fn get_module(grid: &[u8], size: usize, x: i32, y: i32) -> bool
    ensures { result ≡ dark size grid.now x y }
{
    if x < 0 {
        return false;
    }
    if y < 0 {
        return false;
    }
    dark_at(grid, size, x as usize, y as usize)
}

// Whether the size is that of a version.
#[tactic(auto, unfolding(standard::specs::Module::valid_side))]
fn valid_size(size: usize) -> bool
    ensures { result ≡ valid_side size }
{
    21 <= size && size <= 177 && size % 4 == 1
}

// The same at coordinates that are not negative.
#[tactic(auto, unfolding(standard::specs::Module::dark))]
fn dark_at(grid: &[u8], size: usize, x: usize, y: usize) -> bool
    ensures { result ≡ dark size grid.now (pos x) (pos y) }
{
    valid_size(size) && size * size <= grid.len() && x < size && y < size && grid[y * size + x] == 1
}
