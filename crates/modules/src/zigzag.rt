// The zigzag: pairs of columns from right to left, upwards and downwards in turn, along which codewords are drawn and read.
ghost use Rattle.std.specs.Prelude.{◌≡◌, ℕ, ◌+◌, ◌-◌, ◌*◌, ◌/◌, ◌<◌, ◌≤◌, List, length};
ghost use Rattle.std.specs.Borrow.{MutBor};
ghost use Rattle.standard.specs.Path.{right, height};
ghost use Rattle.modules.specs.Zigzag.{Laid, Laid.laid, walk, list_of, path_length, Steps};

// The index of the right column in column pair p; column 6 is in none.
#[tactic(auto, unfolding(standard::specs::Path::right))]
fn right_column(size: usize, p: usize) -> usize
    requires { (size ≤ 177) × (p < (size - 1) / 2) }
    ensures { (result ≡ right size p) × (0 < result) × (result < size) }
{
    let r = size - 1 - 2 * p;
    if r <= 6 { r - 1 } else { r }
}

// The actual y coordinate: pairs are gone through upwards and downwards in turn.
#[tactic(auto, unfolding(standard::specs::Path::height))]
fn row_of(size: usize, p: usize, vert: usize) -> usize
    requires { vert < size }
    ensures { (result ≡ height size p vert) × (result < size) }
{
    if p % 2 == 0 { size - 1 - vert } else { vert }
}

// Does the funny zigzag scan: visits each module, by its place in the grid and the number of bits so far, which the visit counts on.
pub(crate) fn zigzag<F: Fn(&mut [u8], usize, usize) -> usize>(
    size: usize,
    bytes: &mut [u8],
    visit: F,
)
    requires size_nonzero { (0 < size) × (size ≤ 177) }
    requires callable { (b : MutBor (List ℕ)) (at i : ℕ) → length b.now ≡ length bytes.old → at < size * size → F.pre visit b at i }
    ensures { (f : ℕ → Laid → Laid) → Steps (λ b at i r c. F.post visit b at i r c) f → bytes.new ≡ list_of (walk size f 0 (path_length size) (laid bytes.old 0)) }
{
    let mut i = 0;
    for p in 0..(size - 1) / 2 {
        let x = right_column(size, p);
        for vert in 0..size {
            let at = patterns::place(size, x, row_of(size, p, vert));
            for j in 0..2 {
                i = visit(bytes, at - j, i);
            }
        }
    }
}
