// A line of three words.
ghost use Rattle.packed.specs.Words.{whole};

use super::packing::pack_word;
use super::strip::Strip;

// 192 modules: module i is bit i % 64 of word i / 64.
#[derive(Clone, Copy)]
pub struct Line {
    pub a: u64,
    pub b: u64,
    pub c: u64,
}

impl Strip for Line {
    ghost number = { whole };

    ghost room = { 192 };

    #[tactic(auto, using(crate::specs::Packs::mask_line))]
    fn mask(k: usize) -> Line {
        Line {
            a: u64::mask(k.min(64)),
            b: u64::mask(k.saturating_sub(64).min(64)),
            c: u64::mask(k.saturating_sub(128)),
        }
    }

    // Cases, since one expression with `min` for all of them is slower: here most loops have a constant length.
    #[tactic(auto, using(crate::specs::Packs::packed_one))]
    fn pack(grid: &[u8], start: usize, step: usize, side: usize, free: bool) -> Line {
        if side <= 60 {
            let a = u64::pack(grid, start, step, side, free);
            return Line { a, b: 0, c: 0 };
        }
        let a = u64::pack(grid, start, step, 60, free);
        if side <= 124 {
            let b = pack_word(grid, start, step, 60, side - 60, free);
            return Line { a, b, c: 0 };
        }
        let b = pack_word(grid, start, step, 60, 64, free);
        let c = pack_word(grid, start, step, 124, side - 124, free);
        Line { a, b, c }
    }

    #[tactic(auto, unfolding(crate::specs::Stored::line_at))]
    fn load(words: &[u64], p: usize) -> Line {
        Line {
            a: words[p],
            b: words[p + 1],
            c: words[p + 2],
        }
    }

    #[tactic(auto, using(crate::specs::Masks::spread_all))]
    fn spread(twelve: u64) -> Line {
        let next = twelve / 16 + twelve % 16 * 256;
        Line {
            a: u64::spread(twelve),
            b: twelve * 0x0001_0010_0100_1001 + twelve % 16 * 0x1000_0000_0000_0000,
            c: next * 0x0001_0010_0100_1001 + next % 16 * 0x1000_0000_0000_0000,
        }
    }

    #[tactic(auto, using(crate::specs::Words::xor3))]
    fn xor(self, other: Line) -> Line {
        Line {
            a: self.a ^ other.a,
            b: self.b ^ other.b,
            c: self.c ^ other.c,
        }
    }

    #[tactic(auto, using(crate::specs::Words::and3))]
    fn and(self, other: Line) -> Line {
        Line {
            a: self.a & other.a,
            b: self.b & other.b,
            c: self.c & other.c,
        }
    }

    #[tactic(auto, using(crate::specs::Words::or3))]
    fn or(self, other: Line) -> Line {
        Line {
            a: self.a | other.a,
            b: self.b | other.b,
            c: self.c | other.c,
        }
    }

    #[tactic(auto, using(crate::specs::Words::after3))]
    fn after(self, k: u32) -> Line {
        let j = 64 - k;
        Line {
            a: (self.a >> k) | (self.b << j),
            b: (self.b >> k) | (self.c << j),
            c: self.c >> k,
        }
    }

    #[tactic(auto, using(crate::specs::Words::ones3))]
    fn count(self) -> u32 {
        self.a.count() + self.b.count() + self.c.count()
    }

    #[tactic(auto, using(crate::specs::Marks::or_light))]
    fn is_light(self) -> bool {
        (self.a | self.b | self.c) == 0
    }

    #[tactic(auto, using(crate::specs::Frame::odd3))]
    fn first(self) -> u8 {
        self.a.first()
    }

    #[tactic(auto, using(crate::specs::Stored::words_patched, crate::specs::Words::join_lt), unfolding(crate::specs::Words::join3))]
    fn patch(self, digit: u64) -> Line {
        Line {
            a: self.a.patch(digit),
            ..self
        }
    }
}
