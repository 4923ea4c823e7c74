// The list call: what it is asked, the buffers that it is lent, and its answer as text.
ghost use Rattle.std.specs.Prelude.{◌≡◌};
ghost use Rattle.rules.specs.Refusal.{refusal_of};

use buffers::{draw, print, print_numbers, print_pairs};
use rules::{Question, Refusal};
use std::io;

// Whether processor 0 may read at address 8.
pub const READ: Question = Question {
    proc: 0,
    addr: 8,
    request: 0,
};

#[derive(Clone, Copy)]
pub struct Call<'a> {
    pub map: &'a [u64],
    pub cr3s: &'a [u64],
    pub events: &'a [[u64; 4]],
    pub question: Question,
}

#[derive(Drop)]
pub struct Lent<'a> {
    pub words: &'a mut [u64],
    pub work: &'a mut [u8],
    pub outcomes: &'a mut [u64],
}

impl Lent<'_> {
    // Each buffer with numbers of its own.
    pub fn fill(&mut self) {
        draw::fill(self.words, 1);
        draw::fill(self.work, 2);
        draw::fill(self.outcomes, 3);
    }

    pub fn is_as_filled(&self) -> bool {
        draw::holds(self.words, 0, 1)
            && draw::holds(self.work, 0, 2)
            && draw::holds(self.outcomes, 0, 3)
    }
}

impl Call<'_> {
    pub fn list(&self, lent: &mut Lent) -> Result<u64, Refusal> {
        listing::list(
            self.map,
            lent.words,
            self.cr3s,
            self.events.as_flattened(),
            lent.work,
            lent.outcomes,
            self.question,
        )
    }

    // Calls, and prints the number of the refusal, the count and the pairs.
    pub fn show(&self, rt: &impl Print, lent: &mut Lent) -> io::Result<()> {
        let listed = self.list(lent);
        let count = listed.unwrap_or(0);
        print_numbers(rt, &[refusal_number(listed), count])?;
        print_pairs(rt, count, lent.outcomes)?;
        print(rt, b"\n")
    }
}

// The number under which a call was refused, and 0 if it was not.
pub fn refusal_number(listed: Result<u64, Refusal>) -> u64
    ensures { result ≡ refusal_of listed }
{
    listed.err().map_or(0, u64::from)
}
