// The machine's two calls, for the program that plays a script: on the state's buffers, cut as the script asks for.
// What a call leaves is held to the state before it.
#![tactic(auto)]

ghost use Rattle.std.specs.Prelude.{◌≡◌, ◌≤◌, length, replicate};
ghost use Rattle.calls.specs.State.{buffer_of};

use buffers::{at, print, print_kept, print_numbers};
use rules::{Event, Refusal};
use shadow::Answer;
use std::io;
use tables::Sizes;

#[derive(Clone, Copy, Debug, PartialEq, Eq)]
pub enum Asked {
    Setup,
    Event,
}

#[derive(Clone, Copy, Debug, PartialEq, Eq)]
pub enum Buffer {
    Words,
    Pool,
    Records,
    Slots,
}

// What is given is G, P, S and the pool base, then how much of each buffer a call is lent.
#[derive(Clone, Copy, PartialEq, Eq)]
pub struct State {
    pub given: [u64; 9],
    pub map: [u64; 6],
    pub words: [u64; 3072],
    pub pool: [u64; 10240],
    pub records: [u64; 40],
    pub slots: [u64; 120],
}

impl State {
    pub fn new() -> State
        ensures numbers { (result.given ≡ replicate 9 0) × (result.map ≡ replicate 6 0) }
        ensures words { result.words ≡ replicate 3072 0 }
        ensures shadow { (result.pool ≡ replicate 10240 0) × (result.records ≡ replicate 40 0) × (result.slots ≡ replicate 120 0) }
    {
        State {
            given: [0; 9],
            map: [0; 6],
            words: [0; 3072],
            pool: [0; 10240],
            records: [0; 40],
            slots: [0; 120],
        }
    }

    pub fn buffer(&self, buffer: Buffer) -> &[u64]
        ensures { result.now ≡ buffer_of self.now buffer }
    {
        match buffer {
            Buffer::Words => &self.words,
            Buffer::Pool => &self.pool,
            Buffer::Records => &self.records,
            Buffer::Slots => &self.slots,
        }
    }

    pub fn buffer_mut(&mut self, buffer: Buffer) -> &mut [u64]
        ensures { result.now ≡ buffer_of self.old buffer }
    {
        match buffer {
            Buffer::Words => &mut self.words,
            Buffer::Pool => &mut self.pool,
            Buffer::Records => &mut self.records,
            Buffer::Slots => &mut self.slots,
        }
    }

    fn answer(&mut self, asked: Asked, numbers: &[u64]) -> Result<Answer, Refusal>
        ensures { (self.new.given ≡ self.old.given) × (self.new.map ≡ self.old.map) }
    {
        let [
            frames,
            processors,
            share,
            base,
            map,
            words,
            pool,
            records,
            slots,
        ] = self.given;
        let z = Sizes {
            frames,
            processors,
            share,
            base,
        };
        let map = &self.map[..within(map, self.map.len())];
        let words = first(&mut self.words, words);
        let pool = first(&mut self.pool, pool);
        let records = first(&mut self.records, records);
        let slots = first(&mut self.slots, slots);
        match asked {
            Asked::Setup => shadow::setup(map, numbers, pool, records, slots, z),
            Asked::Event => shadow::event(map, words, pool, records, slots, z, event_of(numbers)),
        }
    }

    // Calls, and prints "refusal, kind, value", and whether all buffers are as they were.
    pub fn show(&mut self, rt: &impl Print, asked: Asked, numbers: &[u64]) -> io::Result<()>
        ensures { (self.new.given ≡ self.old.given) × (self.new.map ≡ self.old.map) }
    {
        let before = *self;
        let r = shadow::by_number(self.answer(asked, numbers));
        print(rt, b":")?;
        print_numbers(
            rt,
            &[
                shadow::refusal_of(r),
                shadow::kind_of(r),
                shadow::value_of(r),
            ],
        )?;
        print_kept(rt, *self == before)
    }
}

// A length that is asked for, and at most what there is.
fn within(n: u64, most: usize) -> usize
    ensures { result ≤ most }
{
    n.min(most as u64) as usize
}

fn first(xs: &mut [u64], n: u64) -> &mut [u64]
    ensures { length result.now ≤ length xs.old }
{
    let n = within(n, xs.len());
    &mut xs[..n]
}

fn event_of(numbers: &[u64]) -> Event {
    Event {
        proc: at(numbers, 0),
        kind: at(numbers, 1),
        a: at(numbers, 2),
        b: at(numbers, 3),
    }
}
