// Numbers that look random, the same ones at every run: Marsaglia's shifts of 13, 7 and 17.
ghost use Rattle.std.specs.Prelude.{◌<◌};

#[derive(Drop)]
pub(crate) struct Random {
    seed: u64,
}

impl Random {
    pub(crate) fn new(seed: u64) -> Self {
        Self { seed }
    }

    // A number below the bound, or 0 where the bound is 0.
    pub(crate) fn below(&mut self, bound: usize) -> usize
        ensures { 0 < bound → result < bound }
    {
        let y = self.seed ^ (self.seed << 13);
        let z = y ^ (y >> 7);
        self.seed = z ^ (z << 17);
        ((z >> 32) as usize).checked_rem(bound).unwrap_or(0)
    }

    pub(crate) fn once_in(&mut self, times: usize) -> bool {
        self.below(times) == 0
    }

    pub(crate) fn register(&mut self) -> u8 {
        self.below(32) as u8
    }

    // Mostly a small number, at times a large one.
    pub(crate) fn word(&mut self, small: usize) -> u64 {
        let less = if self.once_in(8) { 3 } else { 0 };
        (self.below(small.wrapping_add(4)) as u64).wrapping_sub(less)
    }
}
