// What a line costs by shifts and population counts: runs, cores, squares.
ghost use Rattle.std.specs.Prelude.{◌≡◌, ◌+◌, ◌-◌, ◌<◌, ◌≤◌, true, [], ◌∷◌, length};
ghost use Rattle.standard.specs.Penalty.{line_cost};
ghost use Rattle.packed.specs.Digits.{low};
ghost use Rattle.packed.specs.Cost.{fives, word_cost};
ghost use Rattle.packed.specs.Marks.{marks, hits};
ghost use Rattle.packed.specs.Cores.{before, behind, pairs, triples, larger};
ghost use Rattle.packed.specs.Frame.{digits, line_of, Framed};
ghost use Rattle.packed.specs.Squares.{squares_of};
ghost use Rattle.packed.specs.Whole.{zone};

use super::strip::Strip;

// For use in get_penalty_score, when evaluating which mask is best.
const PENALTY_N3: u32 = 40;

/*---- Runs ----*/

// What the runs of a line cost: 1 at each place where five equal modules begin, 2 more at the last of a run; m is the mask of all places but the last four.
fn run_cost<L: Strip>(x: L, m: L) -> u32
    ensures { (result ≡ word_cost (fives (L.number m) (L.number x))) × (result ≤ 576) }
{
    let w = m.without(x.steps().four());
    w.count() + 2 * w.without(w.after(1)).count()
}

/*---- Finder-like patterns ----*/

// The cores whose unit is one module: x has the dark modules of the framed line, y the light ones.
fn unit_cores<L: Strip>(x: L, y: L, side: usize) -> u32
    requires { (Framed side (L.number x)) × (L.number y ≡ marks (0 ∷ []) (zone side (L.number x))) }
    ensures { (result ≡ hits before (zone side (L.number x)) + hits behind (zone side (L.number x))) × (result ≤ 384) }
{
    let l2 = y.join(y, 1);
    let l4 = l2.join(l2, 2);
    let d2 = x.join(x, 1);
    let d3 = d2.join(x, 2);
    let p2 = y.join(x, 1);
    let p5 = d3.join(p2, 3);
    let p6 = y.join(p5, 1);
    let core = x.join(p6, 1);
    let p8 = core.join(y, 7);
    let a = l4.join(p8, 4);
    let p11 = core.join(l4, 7);
    let b = y.join(p11, 1);
    a.count() + b.count()
}

// Whether no core can have a larger unit: none of two modules, none of three, and nowhere four light and twelve dark.
fn none_larger<L: Strip>(x: L, y: L, side: usize) -> bool
    requires { (Framed side (L.number x)) × (L.number y ≡ marks (0 ∷ []) (zone side (L.number x))) }
    ensures { result ≡ true → (hits pairs (zone side (L.number x)) ≡ 0) × (hits triples (zone side (L.number x)) ≡ 0) × (hits larger (zone side (L.number x)) ≡ 0) }
{
    let l2 = y.join(y, 1);
    let l3 = l2.join(y, 2);
    let l4 = l2.join(l2, 2);
    let d2 = x.join(x, 1);
    let d3 = d2.join(x, 2);
    let d6 = d3.join(d3, 3);
    let d9 = d6.join(d3, 6);
    let d12 = d6.join(d6, 6);
    let p4 = d2.join(l2, 2);
    let p6 = l2.join(p4, 2);
    let p12 = d6.join(p6, 6);
    let p18 = p6.join(p12, 6);
    let t6 = d3.join(l3, 3);
    let t9 = l3.join(t6, 3);
    let t18 = d9.join(t9, 9);
    let t27 = t9.join(t18, 9);
    let q16 = l4.join(d12, 4);
    p18.or(t27.or(q16)).is_light()
}

/*---- Lines ----*/

// Writes the modules of a line, one a byte.
fn unpack<L: Strip>(x: L, out: &mut [u8])
    requires { length out.old ≤ 177 }
    ensures { out.new ≡ digits (length out.old) (L.number x) }
{
    let mut rest = x;
    for module in out {
        *module = rest.first();
        rest = rest.after(1);
    }
}

// What a framed line costs, module by module, which are written to bytes.
fn scan_line<L: Strip>(x: L, side: usize) -> u32
    requires { (0 < side) × (side ≤ 177) }
    ensures { (result ≡ line_cost side (line_of side (L.number x))) × (result ≤ 6960) }
{
    let mut bytes = [0u8; 177];
    let line = &mut bytes[0..side];
    unpack(x.after(4), line);
    penalty::line_penalty(line, 0, 1, side)
}

// What a framed line costs; full is the mask of the frame's places, most that of the line's places but the last four.
// Only a line that may hold a core with a unit of more than one module is gone through module by module.
pub fn line_cost<L: Strip>(x: L, full: L, most: L, side: usize) -> u32
    requires { (Framed side (L.number x)) × (L.number full ≡ low (side + 8)) × (L.number most ≡ low (side - 4)) × (4 ≤ side) × (side ≤ 177) }
    ensures { (result ≡ line_cost side (line_of side (L.number x))) × (result ≤ 6960) }
{
    let y = full.without(x);
    if none_larger(x, y, side) {
        run_cost(x.after(4), most) + PENALTY_N3 * unit_cores(x, y, side)
    } else {
        scan_line(x, side)
    }
}

// How many squares of one colour stand between two framed rows; m is the mask of a row's places but the last.
pub fn square_count<L: Strip>(x: L, y: L, m: L, side: usize) -> u32
    requires { (Framed side (L.number x)) × (Framed side (L.number y)) × (L.number m ≡ low (side - 1)) }
    ensures { (result ≡ squares_of (line_of side (L.number x)) (line_of side (L.number y))) × (result ≤ 192) }
{
    let a = x.after(4);
    let b = y.after(4);
    let uneven = a.steps().or(a.xor(b).or(b.steps()));
    m.without(uneven).count()
}
