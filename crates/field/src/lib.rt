// The field of 256 elements, bytes modulo 11D (hex), and Reed-Solomon check bytes over it.
#![tactic(auto)]

ghost use Rattle.std.specs.Prelude.{ℕ, ◌≡◌, ◌+◌, ◌*◌, ◌<◌, ◌≤◌, length, get_or, take, drop};
ghost use Rattle.standard.specs.Field.{double as double_of, times, scale, remainder, divisor as divisor_of};
ghost use Rattle.field.specs.Generator.{times_root};
ghost use Rattle.field.specs.Multiples.{multiples_of, Tables, step_in};

// Puts into `out` the Reed-Solomon generator polynomial whose degree is the length of `out`,
// the coefficients from highest to lowest power, without the leading one, which is always 1.
pub fn reed_solomon_compute_divisor(out: &mut [u8])
    requires { length out.old ≤ 32 }
    ensures { out.new ≡ divisor_of (length out.old) }
{
    let degree = out.len();
    let mut wide: [u8; 33] = [0; 33];
    wide[31] = 1;
    let mut root: u8 = 1;
    for _ in 0..degree {
        times_root(&mut wide, root);
        root = reed_solomon_multiply(root, 0x02);
    }
    out.copy_from_slice(&wide[32 - degree..32]);
}

// Multiplies 32 coefficients, after which a zero stands, by (x - root), and drops the highest one.
fn times_root(wide: &mut [u8; 33], root: u8)
    requires { get_or wide.old 32 0 ≡ 0 }
    ensures { wide.new ≡ times_root root wide.old }
{
    // By index: each coefficient takes in the one behind it.
    for j in 0usize..32 {
        wide[j] = reed_solomon_multiply(wide[j], root) ^ wide[j + 1];
    }
}

// A divisor polynomial without its leading one, and its multiples: `low` has those by 0 to 15, and `high` those by 16 times that.
#[derive(Drop)]
pub struct Divisor<'a> {
    coefficients: &'a [u8],
    low: [u8; 512],
    high: [u8; 512],
    pub ghost degree: { (0 < length coefficients.now) × (length coefficients.now ≤ 32) },
    pub ghost bytes: { (i : ℕ) → get_or coefficients.now i 0 < 256 },
    pub ghost tables: { Tables coefficients.now low high },
}

impl<'a> Divisor<'a> {
    // Makes the multiples.
    pub fn new(coefficients: &'a [u8]) -> Divisor<'a>
        requires { (0 < length coefficients.now) × (length coefficients.now ≤ 32) }
        ensures { result.coefficients.now ≡ coefficients.now }
    {
        Divisor {
            coefficients,
            low: multiples(coefficients, 1),
            high: multiples(coefficients, 16),
        }
    }

    // One step of polynomial division: takes in the coefficient b. The product of the divisor by a factor
    // is the sum of its products by the factor's two halves.
    fn divide_step(&self, rest: &mut [u8; 33], b: u8)
        ensures { rest.new ≡ step_in self.now.low self.now.high rest.old b }
    {
        let factor = (b ^ rest[0]) as usize;
        let l = factor % 16 * 32;
        let h = factor / 16 * 32;
        rest.copy_within(1..33, 0);
        // By index: of what a `zip` over `iter_mut` writes, the proof would know nothing.
        for j in 0usize..32 {
            rest[j] ^= self.low[l + j] ^ self.high[h + j];
        }
    }
}

// The multiples by 0 to 15 of c times the divisor, one after the other, each in a row of 32 coefficients.
pub fn multiples(divisor: &[u8], c: u8) -> [u8; 512]
    requires { length divisor.now ≤ 32 }
    ensures { result ≡ multiples_of (scale c divisor.now) }
{
    let mut base: [u8; 32] = [0; 32];
    base[..divisor.len()].copy_from_slice(divisor);
    for x in base.iter_mut() {
        *x = reed_solomon_multiply(*x, c);
    }
    let mut rows: [u8; 512] = [0; 512];
    for n in 1usize..16 {
        next_row(&mut rows, &base, n);
    }
    rows
}

// Makes row n of a copy of row n / 2: twice that, and the polynomial once more where n is odd.
// Of a copy, many coefficients of another row can be made at a time.
fn next_row(rows: &mut [u8; 512], base: &[u8; 32], n: usize)
    requires number { (0 < n) × (n < 16) }
    requires rows { take (n * 32) rows.old ≡ take (n * 32) (multiples_of base.now) }
    ensures { take ((n + 1) * 32) rows.new ≡ take ((n + 1) * 32) (multiples_of base.now) }
{
    let at = n / 2 * 32;
    let mut half: [u8; 32] = [0; 32];
    half.copy_from_slice(&rows[at..at + 32]);
    let odd = (n % 2) as u8;
    // By index: of what a `zip` over `iter_mut` writes, the proof would know nothing.
    for j in 0usize..32 {
        rows[n * 32 + j] = double(half[j]) ^ odd * base[j];
    }
}

// Puts into `out` the Reed-Solomon error correction codewords of the given data and divisor polynomials.
pub fn reed_solomon_compute_remainder(data: &[u8], divisor: &Divisor, out: &mut [u8])
    requires { length out.old ≡ length divisor.now.coefficients.now }
    ensures { out.new ≡ remainder divisor.now.coefficients.now «data».now }
{
    let degree = divisor.coefficients.len();
    let mut rest: [u8; 33] = [0; 33];
    for b in data {
        divisor.divide_step(&mut rest, *b);
    }
    out.copy_from_slice(&rest[..degree]);
}

// Returns the product of the two given field elements modulo GF(2^8/0x11D), by shifts and sums.
fn reed_solomon_multiply(x: u8, y: u8) -> u8
    ensures { result ≡ times x y }
{
    let mut z: u8 = 0;
    for i in (0u8..8).rev() {
        z = double(z);
        z ^= ((y >> i) & 1) * x;
    }
    z
}

// Returns twice the given field element.
fn double(z: u8) -> u8
    ensures { result ≡ double_of z }
{
    (z << 1) ^ ((z >> 7) * 0x1D)
}
