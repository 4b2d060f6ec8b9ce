// Mark words as sets of stages, and positions around the circle of stages.
//
// Inner crate: callers show the bounds that each `requires` names.
#![tactic(auto)]

ghost use Rattle.std.specs.Prelude.{true, ◌≡◌, ◌+◌, ◌-◌, ◌≤◌, ◌<◌, ◌^◌};
ghost use Rattle.std.specs.Int.Bits.{bit_or};
ghost use Rattle.marks.specs.Stages.{width, has};
ghost use Rattle.marks.specs.Circle.{stage, position, firsts, turned};
ghost use Rattle.marks.specs.Counting.{last};

// The bits of a mark word, and the word with all of them.
const WIDTH: usize = 32;

const ONES: u32 = 4294967295;

// Whether stage `k` is in the set `word`.
pub fn contains(word: u32, k: usize) -> bool
    requires { k < width }
    ensures { result ≡ has word k }
{
    (word >> k) % 2 == 1
}

// The set `word` with stage `k`.
pub fn including(word: u32, k: usize) -> u32
    requires { k < width }
    ensures { result ≡ bit_or word (2 ^ k) }
{
    word | (1 << k)
}

// The set `word`, which has stage `k`, without it.
pub fn excluding(word: u32, k: usize) -> u32
    requires { (k < width) × (has word k ≡ true) }
    ensures { result ≡ word - 2 ^ k }
{
    word - (1 << k)
}

// The highest stage in the set `word`, which is not empty.
pub fn highest(word: u32) -> usize
    requires { 0 < word }
    ensures { result ≡ last (has word) width }
{
    WIDTH - 1 - u32::leading_zeros(word) as usize
}

// The circle of `stages` stages of a window, whose positions count from stage `oldest` on.
#[derive(Clone, Copy)]
pub struct Circle {
    pub oldest: usize,
    pub stages: usize,
    pub ghost starts: { oldest < stages },
    pub ghost narrow: { stages ≤ width },
}

impl Circle {
    // The stage at position `p`.
    pub fn stage_at(self, p: usize) -> usize
        requires { p ≤ self.stages }
        ensures { result ≡ stage self.oldest self.stages p }
    {
        let sum = self.oldest + p;
        if sum < self.stages {
            sum
        } else {
            sum - self.stages
        }
    }

    // The position of stage `s`.
    pub fn position_of(self, s: usize) -> usize
        requires { s < self.stages }
        ensures { result ≡ position self.oldest self.stages s }
    {
        if self.oldest <= s {
            s - self.oldest
        } else {
            s + self.stages - self.oldest
        }
    }

    // The set of the stages at the first `count` positions: as many ones from bit `oldest` on, turned in `stages` bits. What
    // passes bit `stages` comes back at bit 0. The empty set stands apart, and the way back takes two shifts, so that no shift
    // is by WIDTH where `stages` is WIDTH.
    pub fn first_stages(self, count: usize) -> u32
        requires { count ≤ self.stages }
        ensures { result ≡ firsts self.oldest self.stages count }
    {
        if count == 0 {
            return 0;
        }
        let all = ONES >> (WIDTH - self.stages);
        let run = all >> (self.stages - count);
        ((run << self.oldest) & all) | ((run >> (self.stages - 1 - self.oldest)) >> 1)
    }

    // The set `word` as a set of positions, of the first `count` alone: its first `stages` bits, turned in as many bits so that
    // bit 0 is that of stage `oldest`. What stands below that bit comes after the last stage's, by two shifts, so that here too
    // no shift is by WIDTH.
    pub fn turned(self, count: usize, word: u32) -> u32
        requires { count ≤ self.stages }
        ensures { result ≡ turned self.oldest self.stages word count }
    {
        if count == 0 {
            return 0;
        }
        let all = ONES >> (WIDTH - self.stages);
        let set = word & all;
        ((set >> self.oldest) | ((set << (self.stages - 1 - self.oldest)) << 1))
            & (all >> (self.stages - count))
    }
}
