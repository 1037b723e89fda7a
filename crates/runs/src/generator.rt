// Drawn numbers; reference/drawn.py has the same generator.
ghost use Rattle.std.specs.Prelude.{◌<◌, ◌≤◌};

// Holds a number of 32 bits other than 0.
#[derive(Clone, Copy)]
pub struct Generator {
    held: u32,
}

impl Generator {
    // From a seed above 0: spread over the 32 bits.
    pub fn new(seed: u32) -> Generator {
        Generator {
            held: seed.wrapping_mul(2654435761),
        }
    }

    // A number below n.
    pub fn draw(&mut self, n: u32) -> u32
        requires { 0 < n }
        ensures { result < n }
    {
        let mut x = self.held;
        x ^= x << 13;
        x ^= x >> 17;
        x ^= x << 5;
        self.held = x;
        x % n
    }

    // True in one of n draws.
    pub fn one_in(&mut self, n: u32) -> bool
        requires { 0 < n }
    {
        self.draw(n) == 0
    }

    // A number from 0 to the limit, small ones more often, 0 in a quarter of the draws.
    pub fn some(&mut self, limit: u32) -> u32
        requires { limit < 4294967295 }
        ensures { result ≤ limit }
    {
        if self.one_in(4) {
            return 0;
        }
        let high = self.draw(limit + 1);
        let middle = self.draw(high + 1);
        self.draw(middle + 1)
    }

    // A number from 0 to the limit, in half of the draws any as often as another, in half small ones more often.
    pub fn evenly_or_some(&mut self, limit: u32) -> u32
        requires { limit < 4294967295 }
        ensures { result ≤ limit }
    {
        if self.one_in(2) {
            self.draw(limit + 1)
        } else {
            self.some(limit)
        }
    }

    // A number of this size, above or below 0.
    fn either(&mut self, size: u32) -> i32
        requires { size < 2147483648 }
    {
        let size = size as i32;
        if self.one_in(2) { size } else { -size }
    }

    // A multiple of the unit from −limit to limit.
    pub fn around(&mut self, limit: u32, unit: u32) -> i32
        requires { limit < 2147483648 }
    {
        let size = multiple(self.draw(limit + 1), unit);
        self.either(size)
    }

    // A force out of range.
    pub fn beyond(&mut self) -> i32 {
        let size = 1073741825 + self.draw(1073741823);
        self.either(size)
    }
}

// The greatest multiple of the unit that is at most the number; with a unit of 0 the number itself.
pub fn multiple(number: u32, unit: u32) -> u32
    ensures { result ≤ number }
{
    if unit == 0 {
        return number;
    }
    number - number % unit
}
