// Numbers that look drawn at random, by a linear congruence: buffers are filled with them, and held to them afterwards.

// Each number is drawn from the one before; the first from a seed.
#[derive(Clone, Copy)]
pub(crate) struct Draws {
    last: u64,
}

impl Draws {
    pub(crate) fn new(seed: u64) -> Draws {
        Draws { last: seed }
    }

    fn number(&mut self) -> u64 {
        self.last = (self.last % 2147483648 * 1103515245 + 12345) % 2147483648;
        self.last
    }

    // The upper bits of a number: the lower ones repeat early.
    pub(crate) fn high(&mut self) -> u64 {
        self.number() / 65536
    }
}

impl Iterator for Draws {
    type Item = u64;

    fn next(&mut self) -> Option<u64> {
        Some(self.number())
    }
}

// An element of a buffer, as a number that was drawn gives it.
pub trait Drawn: Copy + PartialEq {
    fn drawn(x: u64) -> Self;
}

impl Drawn for u64 {
    fn drawn(x: u64) -> u64 {
        x
    }
}

impl Drawn for u8 {
    fn drawn(x: u64) -> u8 {
        (x / 65536 % 256) as u8
    }
}

pub fn fill<T: Drawn>(xs: &mut [T], seed: u64) {
    for (place, x) in xs.iter_mut().zip(Draws::new(seed)) {
        *place = T::drawn(x);
    }
}

// Whether what was filled is still there, from the given place on. Kept: the place, since the numbers are drawn from the start.
pub fn holds<T: Drawn>(xs: &[T], from: usize, seed: u64) -> bool {
    xs.iter()
        .zip(Draws::new(seed))
        .skip(from)
        .all(|(x, drawn)| *x == T::drawn(drawn))
}
