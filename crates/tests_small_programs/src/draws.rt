//! Numbers that are drawn, the same each time.

ghost use Rattle.std.specs.Prelude.{◌<◌, length};

/// Numbers by a linear congruence (Knuth 1997), of which the upper bits are given out.
#[derive(Drop)]
pub(crate) struct Draws {
    state: u64,
}

impl Draws {
    /// Those that begin with a seed.
    pub(crate) fn new(seed: u64) -> Draws {
        let mut draws = Draws {
            state: seed.wrapping_mul(0x9e37_79b9_7f4a_7c15),
        };
        draws.go_on();
        draws
    }

    fn go_on(&mut self) {
        self.state = self
            .state
            .wrapping_mul(6364136223846793005)
            .wrapping_add(1442695040888963407);
    }

    /// A number below this one.
    pub(crate) fn below(&mut self, count: usize) -> usize
        requires { 0 < count }
        ensures { result < count }
    {
        self.go_on();
        (self.state >> 33) as usize % count
    }

    /// One of these texts.
    pub(crate) fn one_of(&mut self, texts: &[&'static str]) -> &'static str
        requires { 0 < length texts.now }
    {
        texts[self.below(texts.len())]
    }
}
