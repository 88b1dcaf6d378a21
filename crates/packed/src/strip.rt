// A line of modules in whole words: what one word and three words have in common.
// A framed line has four light modules before it: module i is bit i + 4.
ghost use Rattle.std.specs.Prelude.{◌≡◌, ℕ, ◌+◌, ◌*◌, ◌/◌, ◌%◌, ◌^◌, ◌<◌, ◌≤◌, ◌↔◌, IsTrue, length};
ghost use Rattle.std.specs.Int.Bits.{bit_xor, bit_and, bit_or};
ghost use Rattle.std.specs.Int.Count.{ones};
ghost use Rattle.standard.specs.Numbers.{tabulate};
ghost use Rattle.packed.specs.Digits.{low, value};
ghost use Rattle.packed.specs.Cost.{steps, four, without};
ghost use Rattle.packed.specs.Frame.{frame};
ghost use Rattle.packed.specs.Packs.{digit_at};
ghost use Rattle.packed.specs.Masks.{spread};
ghost use Rattle.packed.specs.Stored.{line_at, patched};

use super::packing::pack_word;

pub trait Strip: Copy {
    // The number that the line makes, and how many digits there is room for.
    ghost number: { Self → ℕ };

    ghost room: { ℕ };

    // The first k places.
    fn mask(k: usize) -> Self
        requires { k ≤ room }
        ensures { number result ≡ low k };

    // A line of a grid, framed: its modules stand at start, start + step and so on.
    fn pack(grid: &[u8], start: usize, step: usize, side: usize, free: bool) -> Self
        requires { (side + 4 ≤ room) × ((i : ℕ) → i < side → start + i * step < length grid.now) }
        ensures { number result ≡ value (frame (tabulate side (digit_at free grid.now start step))) };

    // The line that is kept at place p of the words.
    fn load(words: &[u64], p: usize) -> Self
        requires { (p + 2 < length words.now) × (line_at words.now p < 2 ^ room) }
        ensures { number result ≡ line_at words.now p };

    // Twelve modules again and again, with four places before them.
    fn spread(twelve: u64) -> Self
        requires { twelve < 4096 }
        ensures { number result ≡ spread twelve % 2 ^ room };

    // Where two lines differ.
    fn xor(self, other: Self) -> Self
        ensures { number result ≡ bit_xor (number self) (number other) };

    // Where both lines are dark.
    fn and(self, other: Self) -> Self
        ensures { number result ≡ bit_and (number self) (number other) };

    // Where one of two lines is dark.
    fn or(self, other: Self) -> Self
        ensures { number result ≡ bit_or (number self) (number other) };

    // The modules from module k on.
    fn after(self, k: u32) -> Self
        requires { (0 < k) × (k < 64) }
        ensures { number result ≡ number self / 2 ^ k };

    // How many modules are dark.
    fn count(self) -> u32
        ensures { (result ≡ ones (number self)) × (result ≤ 192) };

    // Whether every module is light.
    fn is_light(self) -> bool
        ensures { IsTrue result ↔ (number self ≡ 0) };

    // The first module.
    fn first(self) -> u8
        ensures { result ≡ number self % 2 };

    // A framed line with another module 8.
    fn patch(self, digit: u64) -> Self
        requires { digit ≤ 1 }
        ensures { (number result ≡ patched (number self) digit) × (number result < 2 ^ room) };

    // The modules that another line has not.
    #[tactic(auto, unfolding(crate::specs::Cost::without))]
    fn without(self, other: Self) -> Self
        ensures { number result ≡ without (number self) (number other) }
    {
        self.xor(self.and(other))
    }

    // Where a module differs from the next.
    #[tactic(auto, unfolding(crate::specs::Cost::steps))]
    fn steps(self) -> Self
        ensures { number result ≡ steps (number self) }
    {
        self.xor(self.after(1))
    }

    // Where one of four modules from here on is dark.
    fn four(self) -> Self
        ensures { number result ≡ four (number self) }
    {
        let two = self.or(self.after(1));
        two.or(two.after(2))
    }

    // Where one pattern stands, k modules long, and then another.
    fn join(self, next: Self, k: u32) -> Self
        requires { (0 < k) × (k < 64) }
        ensures { number result ≡ bit_and (number self) (number next / 2 ^ k) }
    {
        self.and(next.after(k))
    }
}

// A line of at most 56 modules.
impl Strip for u64 {
    ghost number = { λ x. x };

    ghost room = { 64 };

    fn mask(k: usize) -> u64 {
        if k < 64 {
            (1 << (k as u32)) - 1
        } else {
            u64::MAX
        }
    }

    fn pack(grid: &[u8], start: usize, step: usize, side: usize, free: bool) -> u64 {
        pack_word(grid, start, step, 0, side, free) * 16
    }

    #[tactic(auto, using(crate::specs::OneWord::first_word), unfolding(crate::specs::Stored::line_at))]
    fn load(words: &[u64], p: usize) -> u64 {
        words[p]
    }

    #[tactic(auto, using(crate::specs::Masks::spread_first))]
    fn spread(twelve: u64) -> u64 {
        twelve * 0x0010_0100_1001_0010
    }

    fn xor(self, other: u64) -> u64 {
        self ^ other
    }

    fn and(self, other: u64) -> u64 {
        self & other
    }

    fn or(self, other: u64) -> u64 {
        self | other
    }

    fn after(self, k: u32) -> u64 {
        self >> k
    }

    fn count(self) -> u32
        ensures { (result ≡ ones self) × (result ≤ 64) }
    {
        self.count_ones()
    }

    fn is_light(self) -> bool {
        self == 0
    }

    fn first(self) -> u8 {
        (self % 2) as u8
    }

    #[tactic(auto, unfolding(crate::specs::Stored::patched))]
    fn patch(self, digit: u64) -> u64 {
        let old = self / 4096 % 2;
        self - old * 4096 + digit * 4096
    }
}
