// Runs the list call on puzzles of document 01 that no theorem evaluates, and prints what it answers and leaves.
// A call's line is the refusal's number, the count, and the pairs of the outcome buffer.
#![tactic(auto)]

mod call;
mod large;
mod sides;

use buffers::{draw, print, print_kept, print_marks, put_pairs};
use call::{Call, Lent, READ};
use std::io;

const MAP: [u64; 13] = [
    100, 101, 102, 103, 104, 105, 106, 107, 108, 109, 110, 111, 112,
];

// "Start as above": words and values.
const START: [u64; 8] = [0, 4103, 512, 8199, 1024, 12295, 1536, 16391];

// "stores of frames 5 to 12 into word 1536"
const STORES: [[u64; 4]; 8] = [
    [0, 1, 1536, 20487],
    [0, 1, 1536, 24583],
    [0, 1, 1536, 28679],
    [0, 1, 1536, 32775],
    [0, 1, 1536, 36871],
    [0, 1, 1536, 40967],
    [0, 1, 1536, 45063],
    [0, 1, 1536, 49159],
];

// Two stores, and the words that they leave.
const TWO_STORES: [[u64; 4]; 2] = [[0, 1, 1536, 20487], [0, 1, 3071, 77]];

const STORED: [u64; 4] = [1536, 20487, 3071, 77];

fn show_thirteen(rt: &impl Print) -> io::Result<()> {
    let mut words = [0u64; 6656];
    let mut work = [0u8; 520];
    let mut outcomes = [0u64; 32];
    put_pairs(&mut words, &START);
    print(rt, b"thirteen frames:")?;
    let call = Call {
        map: &MAP,
        cr3s: &[0],
        events: &STORES,
        question: READ,
    };
    let mut lent = Lent {
        words: &mut words,
        work: &mut work,
        outcomes: &mut outcomes,
    };
    call.show(rt, &mut lent)
}

fn show_words(rt: &impl Print, words: &[u64; 3072]) -> io::Result<()> {
    let mut wanted = [0u64; 3072];
    draw::fill(&mut wanted, 1);
    put_pairs(&mut wanted, &START);
    put_pairs(&mut wanted, &STORED);
    let answer = if *words == wanted { "yes" } else { "no" };
    println!(rt; "words are the start with all stores done: {answer}")
}

// What an accepted call leaves in longer buffers that were full of other numbers.
fn show_left(rt: &impl Print, work: &[u8; 300], outcomes: &[u64; 24]) -> io::Result<()> {
    print(rt, b"outcomes after the pairs:")?;
    print_kept(rt, draw::holds(outcomes, 4, 3))?;
    print(rt, b"\nwork bytes from 240 on:")?;
    print_kept(rt, draw::holds(work, 240, 2))?;
    print(rt, b"\nwork bytes that are 1 below 240:")?;
    print_marks(rt, &work[..240])?;
    print(rt, b"\n")
}

fn show_accepted(rt: &impl Print) -> io::Result<()> {
    let mut words = [0u64; 3072];
    let mut work = [0u8; 300];
    let mut outcomes = [0u64; 24];
    let call = Call {
        map: &[100, 101, 102, 103, 104, 105],
        cr3s: &[0],
        events: &TWO_STORES,
        question: READ,
    };
    let mut lent = Lent {
        words: &mut words,
        work: &mut work,
        outcomes: &mut outcomes,
    };
    lent.fill();
    put_pairs(lent.words, &START);
    print(rt, b"accepted:")?;
    call.show(rt, &mut lent)?;
    show_left(rt, &work, &outcomes)?;
    show_words(rt, &words)
}

fn main(rt: HostRuntime) -> io::Result<()> {
    show_thirteen(&rt)?;
    sides::show_sides(&rt)?;
    sides::show_refusals(&rt)?;
    show_accepted(&rt)?;
    large::show(&rt)
}
