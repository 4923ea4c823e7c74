// A line of the script: what it asks for, and its numbers.
ghost use Rattle.std.specs.Prelude.{◌≤◌};

use calls::{Asked, Buffer};

#[derive(Clone, Copy, Debug, PartialEq, Eq)]
pub enum Command {
    Given,
    Map,
    New,
    Put(Buffer),
    Call(Asked),
    Show(Buffer),
    Heading,
}

impl From<u8> for Command {
    fn from(letter: u8) -> Command {
        match letter {
            b'g' => Command::Given,
            b'm' => Command::Map,
            b'n' => Command::New,
            b'w' => Command::Put(Buffer::Words),
            b'p' => Command::Put(Buffer::Pool),
            b'r' => Command::Put(Buffer::Records),
            b's' => Command::Put(Buffer::Slots),
            b'c' => Command::Call(Asked::Setup),
            b'e' => Command::Call(Asked::Event),
            b'W' => Command::Show(Buffer::Words),
            b'P' => Command::Show(Buffer::Pool),
            b'R' => Command::Show(Buffer::Records),
            b'S' => Command::Show(Buffer::Slots),
            _ => Command::Heading,
        }
    }
}

// 0 where no number can be read, as the script's cases have it.
fn number(word: &[u8]) -> u64 {
    cursor::read_digits(word, 0).map_or(0, |digits| digits.value)
}

// The numbers of a line. There is room for 24, and further ones are let go.
// Kept: a buffer and a count, since the project's programs have no heap.
#[derive(Clone, Copy)]
pub struct Numbers {
    values: [u64; 24],
    count: usize,
    ghost in_room: { count ≤ 24 },
}

impl Numbers {
    // The number after each space.
    pub fn of(line: &[u8]) -> Numbers {
        let mut numbers = Numbers {
            values: [0; 24],
            count: 0,
        };
        for word in line.split(|b| *b == b' ').skip(1) {
            numbers.push(number(word));
        }
        numbers
    }

    fn push(&mut self, x: u64) {
        if self.count < self.values.len() {
            self.values[self.count] = x;
            self.count += 1;
        }
    }

    pub fn as_slice(&self) -> &[u64] {
        &self.values[..self.count]
    }
}
