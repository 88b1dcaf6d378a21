// The penalty of a grid: runs, finder-like patterns, squares and balance.
#![tactic(auto)]

ghost use Rattle.std.specs.Prelude.{◌≡◌, ℕ, ◌+◌, ◌-◌, ◌*◌, ◌<◌, ◌≤◌, cond, eqb, length, get_or};
ghost use Rattle.standard.specs.Numbers.{sum, tabulate};
ghost use Rattle.standard.specs.Penalty.{run_cost, line_cost, balance, penalty};
ghost use Rattle.penalty.specs.History.{fresh, pushed, patterns, ended};
ghost use Rattle.penalty.specs.Lines.{colours, along};

mod squares; // squares.rt: 2*2 blocks of modules having same color

// For use in get_penalty_score, when evaluating which mask is best.
const PENALTY_N1: u32 = 3;

const PENALTY_N2: u32 = 3;

const PENALTY_N3: u32 = 40;

const PENALTY_N4: u32 = 10;

// Calculates and returns the penalty score of a grid, row by row, whose colours are the lowest bits of its bytes.
pub fn get_penalty_score(grid: &[u8], side: usize) -> u32
    requires { (1 ≤ side) × (side ≤ 177) × (length grid.now ≡ side * side) }
    ensures { result ≡ penalty side (colours grid.now) }
{
    let rows = lines_penalty(grid, side, side, 1);
    let columns = lines_penalty(grid, side, 1, side);
    let same = PENALTY_N2 * squares::all_squares(grid, side);
    let total = (side * side) as u32;
    rows + columns + same + PENALTY_N4 * balance_of(dark_modules(grid), total)
}

// Adjacent modules in line having same color, and finder-like patterns, of the lines that begin at 0, stride, twice the stride and so on.
fn lines_penalty(grid: &[u8], side: usize, stride: usize, step: usize) -> u32
    requires { (side ≤ 177) × ((k i : ℕ) → k < side → i < side → k * stride + i * step < length grid.now) }
    ensures { (result ≡ sum (tabulate side (λ k. line_cost side (tabulate side (along grid.now (k * stride) step))))) × (result ≤ 6960 * side) }
{
    let mut result: u32 = 0;
    for k in 0..side {
        result += line_penalty(grid, k * stride, step, side);
    }
    result
}

// What the line costs whose modules stand at start, start + step and so on.
// By index, since the contract allows a step of 0, which `step_by` refuses.
pub fn line_penalty(grid: &[u8], start: usize, step: usize, side: usize) -> u32
    requires { (0 < side) × (side ≤ 177) × ((i : ℕ) → i < side → start + i * step < length grid.now) }
    ensures { (result ≡ line_cost side (tabulate side (along grid.now start step))) × (result ≤ 6960) }
{
    let mut result: u32 = 0;
    let mut runcolor: u8 = 0;
    let mut run: u32 = 0;
    let mut runhistory = FinderPenalty::new(side as u32);
    for i in 0..side {
        let color = grid[start + i * step] % 2;
        if color == runcolor {
            run += 1;
            result += growth(run);
        } else {
            runhistory.add_history(run);
            result += PENALTY_N3 * light_patterns(&runhistory, runcolor);
            runcolor = color;
            run = 1;
        }
    }
    result + PENALTY_N3 * runhistory.terminate_and_count(runcolor == 1, run)
}

// What a run costs more where it has grown to the given length.
#[tactic(auto, using(crate::specs::Scanned::grown_five, crate::specs::Scanned::grown_more, crate::specs::Scanned::grown_few))]
fn growth(run: u32) -> u32
    ensures { (run_cost run ≡ run_cost (run - 1) + result) × (result ≤ 3) }
{
    match run {
        5 => PENALTY_N1,
        6.. => 1,
        _ => 0,
    }
}

// The finder-like patterns that the run pushed last ends, if it was light.
fn light_patterns(runhistory: &FinderPenalty, runcolor: u8) -> u32
    requires { get_or runhistory.now.run_history 1 0 < 65536 }
    ensures { (result ≡ cond (eqb runcolor 0) (patterns runhistory.now.run_history) 0) × (result ≤ 2) }
{
    if runcolor == 0 {
        runhistory.count_patterns()
    } else {
        0
    }
}

// The number of dark modules.
fn dark_modules(grid: &[u8]) -> u32
    requires { length grid.now ≤ 31329 }
    ensures { (result ≡ sum (colours grid.now)) × (result ≤ length grid.now) }
{
    let mut dark: u32 = 0;
    for byte in grid {
        dark += (*byte % 2) as u32;
    }
    dark
}

// Balance of dark and light modules: the smallest integer k >= 0 such that (45-5k)% <= dark/total <= (55+5k)%.
pub fn balance_of(dark: u32, total: u32) -> u32
    requires { (dark ≤ 31329) × (total ≤ 31329) }
    ensures { (result ≡ balance dark total) × (result ≤ 10) }
{
    let off = (20 * dark).abs_diff(10 * total);
    for k in 0..10 {
        if off <= (k + 1) * total {
            return k;
        }
    }
    10
}

// The newest seven runs of a line, newest first.
#[derive(Clone, Copy)]
struct FinderPenalty {
    qr_size: u32,
    run_history: [u32; 7],
}

impl FinderPenalty {
    // No run yet.
    fn new(size: u32) -> Self
        ensures { result ≡ fresh size }
    {
        Self {
            qr_size: size,
            run_history: [0u32; 7],
        }
    }

    // Pushes the given value to the front and drops the last value; the first one has the light border added.
    fn add_history(&mut self, mut currentrunlength: u32)
        requires { currentrunlength + self.old.qr_size < 65536 }
        ensures { self.new ≡ pushed self.old currentrunlength }
    {
        let [newest, second, third, fourth, fifth, sixth, _] = self.run_history;
        if newest == 0 {
            currentrunlength += self.qr_size;
        }
        self.run_history = [
            currentrunlength,
            newest,
            second,
            third,
            fourth,
            fifth,
            sixth,
        ];
    }

    // Can only be called immediately after a light run is added, and returns either 0, 1, or 2.
    #[tactic(auto, unfolding(crate::specs::History::patterns))]
    fn count_patterns(&self) -> u32
        requires { get_or self.now.run_history 1 0 < 65536 }
        ensures { (result ≡ patterns self.now.run_history) × (result ≤ 2) }
    {
        let rh = self.run_history;
        let n = rh[1];
        // Tested first, since it tells most runs apart: in one expression with the others it is slower.
        if rh[3] != 3 * n {
            return 0;
        }
        let core = n > 0 && rh[2] == n && rh[4] == n && rh[5] == n;
        (core && rh[0] >= 4 * n && rh[6] >= n) as u32
            + (core && rh[6] >= 4 * n && rh[0] >= n) as u32
    }

    // Must be called at the end of a line (row or column) of modules.
    fn terminate_and_count(mut self, currentruncolor: bool, mut currentrunlength: u32) -> u32
        requires { (currentrunlength + self.qr_size + self.qr_size < 65536) × (get_or self.run_history 0 0 < 65536) }
        ensures { (result ≡ ended self.qr_size currentruncolor currentrunlength self.run_history) × (result ≤ 2) }
    {
        if currentruncolor {
            self.add_history(currentrunlength);
            currentrunlength = 0;
        }
        currentrunlength += self.qr_size;
        self.add_history(currentrunlength);
        self.count_patterns()
    }
}
