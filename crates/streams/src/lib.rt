// Standard input and output as the programs here use them: bytes in lent memory, words and numbers.
// A read that fails counts as the end of the input. A write that fails is let go: what reads the output is gone then.
#![tactic(auto)]

ghost use Rattle.std.specs.Prelude.{ℕ, ◌≤◌, ◌<◌, ◌≢◌, [], ◌∷◌, length, take, slice_index, IfSome};
ghost use Rattle.std.specs.Io.KnownBytes.{Consumes};
ghost use Rattle.streams.specs.Lines.{line_of};

use std::io::Read;

// Reads until lent memory is full, the input ends or a read fails, and returns how many bytes stand at its start:
// the input's next, in their order. Kept: a turn goes on by as many bytes as a read gave, and std's `read_exact` tells no count at the end.
pub fn read_full<R: Read>(input: &mut R, buf: &mut [u8]) -> usize
    ensures bound { result ≤ length buf.new }
    ensures bytes { Consumes (R.remaining input.old) (R.remaining input.new) (take result buf.new) }
{
    let mut done: usize = 0;
    while done < buf.len() {
        match input.read(&mut buf[done..]) {
            Ok(0) => return done,
            Ok(n) => done += n,
            Err(_) => return done,
        }
    }
    done
}

// Reads a byte; there is none at the end of the input, nor where a read fails.
pub fn read_byte<R: Read>(input: &mut R) -> Option<u8>
    ensures { IfSome result (λ c. Consumes (R.remaining input.old) (R.remaining input.new) (c ∷ [])) }
{
    let mut one = [0u8; 1];
    if read_full(input, &mut one) == 0 {
        return None;
    }
    Some(one[0])
}

// Reads a line into lent memory without its end, and returns its length. A line that is longer than the memory is read as several.
// There is none at the end of the input, even after characters, nor where a byte is 0.
pub fn read_line<R: Read>(input: &mut R, line: &mut [u8]) -> Option<usize>
    ensures bound { IfSome result (λ n. n ≤ length line.new) }
    ensures bytes { IfSome result (λ n. Consumes (R.remaining input.old) (R.remaining input.new) (line_of n line.new)) }
    ensures inside { IfSome result (λ n. (k : ℕ) → k < n → (slice_index line.new k ≢ 10) × (slice_index line.new k ≢ 0)) }
{
    for (n, place) in line.iter_mut().enumerate() {
        match read_byte(input) {
            None | Some(0) => return None,
            Some(b'\n') => return Some(n),
            Some(c) => *place = c,
        }
    }
    Some(line.len())
}

// Writes pieces, each by itself: one whose write fails is let go, and the next is tried.
#[macro_export]
macro_rules! say {
    ($rt:expr; $($piece:expr),+ $(,)?) => {{
        $( let _ = $rt.print($piece); )+
    }};
}

// Writes words.
pub fn say(rt: &impl Print, words: &[u8]) {
    let _ = rt.write_all(words);
}

// Writes a number in decimal.
pub fn number(rt: &impl Print, n: u64) {
    let _ = rt.print(n);
}
