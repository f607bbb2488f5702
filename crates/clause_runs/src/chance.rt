// Numbers by chance, the same in each run of the program.
ghost use Rattle.std.specs.Prelude.{◌<◌};

#[derive(Drop)]
pub struct Chance {
    pub state: u64,
}

impl Chance {
    // A number below n.
    pub fn below(&mut self, n: usize) -> usize
        requires { 0 < n }
        ensures { result < n }
    {
        self.state = self
            .state
            .wrapping_mul(6364136223846793005)
            .wrapping_add(1442695040888963407);
        (self.state >> 33) as usize % n
    }

    // A number from `low` to `high`, or `low` where there is none.
    pub fn between(&mut self, low: i32, high: i32) -> i32 {
        let count = high.saturating_sub(low).max(0) as usize + 1;
        let more = i32::try_from(self.below(count)).unwrap_or(0);
        low.saturating_add(more)
    }

    // Whether one of n chances comes.
    pub fn one_in(&mut self, n: usize) -> bool
        requires { 0 < n }
    {
        self.below(n) == 0
    }
}
