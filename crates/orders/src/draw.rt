// Numbers that look drawn, the same on each run.
ghost use Rattle.std.specs.Prelude.{◌<◌};

/// A drawn number. Its arithmetic is by hand, so that the orders drawn, and what the program prints of them, stay the same.
#[derive(Clone, Copy, Debug)]
pub struct Drawn(pub u32);

impl Drawn {
    pub fn next(self) -> Drawn {
        Drawn(self.0.wrapping_mul(1664525).wrapping_add(1013904223))
    }

    /// The upper half, whose digits repeat less soon.
    pub fn upper(self) -> u32 {
        self.0 / 65536
    }

    pub fn below(self, limit: u32) -> u32
        requires { 0 < limit }
        ensures { result < limit }
    {
        self.upper() % limit
    }
}
