// How bytes are shared out among blocks that stand one after the other, and the bytes of the blocks in turn.
ghost use Rattle.std.specs.Prelude.{◌≡◌, ◌<◌, ◌≤◌, length, get_or};
ghost use Rattle.laws.specs.Each.{each};
ghost use Rattle.blocks.specs.Shape.{Shape, data_in, start_in, source_in};
ghost use Rattle.blocks.specs.Checks.{length_in};
ghost use Rattle.blocks.specs.Undo.{place_in, position_in};
ghost use Rattle.blocks.specs.Running.{first_in};

// The first `numshortblocks` of `numblocks` blocks have `shortdatlen` bytes, the others one more.
// Each block has `blockecclen` check bytes.
#[derive(Clone, Copy)]
pub struct Shares {
    pub numblocks: usize,
    pub blockecclen: usize,
    pub numshortblocks: usize,
    pub shortdatlen: usize,
    pub ghost shape: { Shape numblocks shortdatlen numshortblocks },
    pub ghost checks: { (0 < blockecclen) × (blockecclen ≤ 30) },
}

impl Shares {
    // The check bytes as bytes of blocks: each block has equally many.
    pub fn of_checks(self) -> Shares
        ensures { (result.numblocks ≡ self.numblocks) × (result.shortdatlen ≡ self.blockecclen) × (result.numshortblocks ≡ self.numblocks) }
    {
        Shares {
            numblocks: self.numblocks,
            blockecclen: self.blockecclen,
            numshortblocks: self.numblocks,
            shortdatlen: self.blockecclen,
        }
    }

    // How many bytes block i has.
    #[tactic(auto, using(crate::specs::Checks::length_long, crate::specs::Checks::length_short))]
    pub fn block_length(self, i: usize) -> usize
        ensures { result ≡ length_in self.shortdatlen self.numshortblocks i }
    {
        if i >= self.numshortblocks {
            self.shortdatlen + 1
        } else {
            self.shortdatlen
        }
    }

    // Where block i starts.
    pub fn block_start(self, i: usize) -> usize
        requires { i < self.numblocks }
        ensures { result ≡ start_in self.shortdatlen self.numshortblocks i }
    {
        if i < self.numshortblocks {
            i * self.shortdatlen
        } else {
            i * self.shortdatlen + (i - self.numshortblocks)
        }
    }

    // The first block that has a byte c: in the last column the short blocks are skipped.
    #[tactic(auto, using(crate::specs::Running::first_early, crate::specs::Running::first_late))]
    fn first_block(self, c: usize) -> usize
        ensures { result ≡ first_in self.shortdatlen self.numshortblocks c }
    {
        if c < self.shortdatlen {
            0
        } else {
            self.numshortblocks
        }
    }

    // Where byte c of block i stands in the interleaved bytes.
    fn place(self, i: usize, c: usize) -> usize
        requires within { (i < self.numblocks) × (c ≤ self.shortdatlen) }
        requires long { c ≡ self.shortdatlen → self.numshortblocks ≤ i }
        ensures { result ≡ place_in self.numblocks self.shortdatlen self.numshortblocks i c }
    {
        if c < self.shortdatlen {
            c * self.numblocks + i
        } else {
            self.shortdatlen * self.numblocks + (i - self.numshortblocks)
        }
    }

    // Puts the bytes of the blocks into `out` in turn: byte c of each block that has one, and then the next c.
    pub fn interleave(self, data: &[u8], out: &mut [u8])
        requires { (length out.old ≡ data_in self.numblocks self.shortdatlen self.numshortblocks) × (length «data».now ≡ data_in self.numblocks self.shortdatlen self.numshortblocks) }
        ensures { out.new ≡ each (λ p _. get_or «data».now (source_in self.numblocks self.shortdatlen self.numshortblocks p) 0) out.old }
    {
        for c in 0..self.shortdatlen + 1 {
            for i in self.first_block(c)..self.numblocks {
                out[self.place(i, c)] = data[self.block_start(i) + c];
            }
        }
    }

    // Takes the bytes of the blocks out of the interleaved bytes, which stand at the start of `all`.
    pub fn take_data(self, all: &[u8], out: &mut [u8])
        requires { (length out.old ≡ data_in self.numblocks self.shortdatlen self.numshortblocks) × (data_in self.numblocks self.shortdatlen self.numshortblocks ≤ length all.now) }
        ensures { out.new ≡ each (λ d _. get_or all.now (position_in self.numblocks self.shortdatlen self.numshortblocks d) 0) out.old }
    {
        for i in 0..self.numblocks {
            let start = self.block_start(i);
            for c in 0..self.block_length(i) {
                out[start + c] = all[self.place(i, c)];
            }
        }
    }
}
