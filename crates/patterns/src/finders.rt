// Timing and finders.
ghost use Rattle.std.specs.Prelude.{◌<◌, ◌≤◌};
ghost use Rattle.patterns.specs.Layers.{timings};
ghost use Rattle.patterns.specs.Shapes.{finder};
ghost use Rattle.patterns.specs.FinderLayer.{finders};
ghost use Rattle.patterns.specs.Painted.{Paints};

use super::Canvas;

impl Canvas<'_> {
    // Draws the horizontal and vertical timing patterns.
    pub fn draw_timing(&mut self)
        requires { 21 ≤ self.old.size }
        ensures { Paints self.old self.new timings }
    {
        for i in 0..self.size {
            self.set_twin_modules(6, i, i % 2 == 0);
        }
    }

    // Draws a 9*9 finder pattern including the border separator,
    // with the center module at (x, y). Modules can be out of bounds.
    fn draw_finder_pattern(&mut self, x: usize, y: usize)
        requires { (x < self.old.size) × (y < self.old.size) }
        ensures { Paints self.old self.new (finder x y) }
    {
        self.draw_square(x, y, 4, |dist| dist != 2 && dist != 4);
    }

    // Draws 3 finder patterns (all corners except bottom right; overwrites some timing modules).
    pub fn draw_finders(&mut self)
        requires { 21 ≤ self.old.size }
        ensures { Paints self.old self.new (finders self.old.size) }
    {
        let far = self.size - 4;
        self.draw_finder_pattern(3, 3);
        self.draw_finder_pattern(far, 3);
        self.draw_finder_pattern(3, far);
    }
}
