// Alignment patterns.
ghost use Rattle.std.specs.Prelude.{◌≡◌, ◌+◌, ◌<◌, ◌≤◌};
ghost use Rattle.standard.specs.Sizes.{side};
ghost use Rattle.patterns.specs.Layers.{alignments};
ghost use Rattle.patterns.specs.Shapes.{alignment_square};
ghost use Rattle.patterns.specs.Centres.{corner};
ghost use Rattle.patterns.specs.Painted.{Paints};

use super::Canvas;
use types::Version;

// Whether the pattern (i, j) would fall on one of the three finder corners.
#[tactic(auto, unfolding(crate::specs::Centres::corner))]
fn on_corner(numalign: usize, i: usize, j: usize) -> bool
    requires { (i < numalign) × (j < numalign) × (numalign < 10) }
    ensures { result ≡ corner numalign i j }
{
    (i == 0 && (j == 0 || j + 1 == numalign)) || (i + 1 == numalign && j == 0)
}

impl Canvas<'_> {
    // Draws a 5*5 alignment pattern, with the center module
    // at (x, y). All modules must be in bounds.
    // Kept: two loops of five turns (speed: in `draw_square` the compiler does not see how many turns there are).
    fn draw_alignment_pattern(&mut self, x: usize, y: usize)
        requires { (2 ≤ x) × (2 ≤ y) × (x + 2 < self.old.size) × (y + 2 < self.old.size) }
        ensures { Paints self.old self.new (alignment_square x y) }
    {
        for dy in 0..5usize {
            for dx in 0..5usize {
                let dist = dx.abs_diff(2).max(dy.abs_diff(2));
                self.set_function_module(x + dx - 2, y + dy - 2, dist != 1);
            }
        }
    }

    // Draws numerous alignment patterns, at the positions of the given version.
    pub fn draw_alignment_patterns(&mut self, ver: Version)
        requires { self.old.size ≡ side ver.value }
        ensures { Paints self.old self.new (alignments ver.value) }
    {
        let alignpatpos = capacity::get_alignment_pattern_positions(ver);
        for i in 0..alignpatpos.count {
            for j in 0..alignpatpos.count {
                // Don't draw on the three finder corners
                if !on_corner(alignpatpos.count, i, j) {
                    self.draw_alignment_pattern(alignpatpos.at[i], alignpatpos.at[j]);
                }
            }
        }
    }
}
