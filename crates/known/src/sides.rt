// The sides for G = 6, and a refusal of each number in the list call's own order.
// A line is the call's last event or its question, the number that the call returns, and whether the lent buffers changed.
ghost use Rattle.std.specs.Prelude.{◌≤◌};

use crate::call::{Call, Lent, READ, refusal_number};
use buffers::{print, print_kept, print_number, print_numbers};
use rules::Question;
use std::io;

const LOW_END: u64 = 0x8000_0000_0000;

const HIGH_START: u64 = 0xFFFF_8000_0000_0000;

// What is in, then what is out.
const EVENTS: [[u64; 4]; 14] = [
    [0, 1, 3071, 0],
    [0, 1, 3072, 0], // word
    [0, 3, 5, 0],
    [0, 3, 6, 0], // frame
    [0, 5, 8, 7],
    [0, 5, 8, 8],
    [0, 6, 7, 0],
    [0, 6, 8, 0],
    [0, 7, 7, 0],
    [0, 7, 8, 0], // slot
    [0, 4, 8, 5],
    [0, 4, 8, 6], // request
    [0, 2, LOW_END - 1, 0],
    [0, 2, LOW_END, 0], // address
];

// Processor, address, request.
const QUESTIONS: [[u64; 3]; 7] = [
    [0, 8, 5],
    [0, 8, 6], // request
    [0, LOW_END - 1, 0],
    [0, LOW_END, 0],
    [0, HIGH_START - 1, 0],
    [0, HIGH_START, 0], // address
    [1, 8, 0], // processor
];

// First events with more than one fault, if they have one: the lowest number is returned, before that of any later event.
const FAULTY: [[u64; 4]; 16] = [
    [1, 5, LOW_END, 8],
    [0, 5, LOW_END, 8],
    [0, 5, 8, 8], // 4, 5, 9
    [0, 4, LOW_END, 6],
    [0, 4, 8, 6], // 5, 6
    [0, 3, 6, 1],
    [0, 3, 5, 1], // 7, 11
    [0, 1, 3072, 1], // 8
    [0, 2, LOW_END, 1],
    [0, 2, 8, 1], // 5, 11
    [0, 6, 8, 1],
    [0, 6, 7, 1],
    [0, 7, 8, 1],
    [0, 7, 7, 1], // 9, 11
    [0, 0, LOW_END, 8],
    [0, 8, LOW_END, 8], // 11
];

// All of the question is wrong at first; then one fault less at each call.
const LATER: [[u64; 3]; 3] = [[1, LOW_END, 6], [0, LOW_END, 6], [0, 8, 6]];

const GOOD: Call = Call {
    map: &[100, 101, 102, 103, 104, 105],
    cr3s: &[0],
    events: &[],
    question: READ,
};

// All that a call is asked is wrong: a repeated map frame, a CR3, an event with every fault, the question.
const WRONG: Call = Call {
    map: &[100, 101, 102, 103, 104, 100],
    cr3s: &[6],
    events: &[[1, 5, LOW_END, 8]],
    question: Question {
        proc: 1,
        addr: LOW_END,
        request: 6,
    },
};

// Calls on buffers full of drawn numbers, so that a change of any element shows.
fn show_call<const WORK: usize>(
    rt: &impl Print,
    label: &[u8],
    numbers: &[u64],
    call: Call,
) -> io::Result<()>
    requires { WORK ≤ 300 }
{
    let mut words = [0u64; 3072];
    let mut work = [0u8; WORK];
    let mut outcomes = [0u64; 24];
    let mut lent = Lent {
        words: &mut words,
        work: &mut work,
        outcomes: &mut outcomes,
    };
    lent.fill();
    print(rt, label)?;
    print_numbers(rt, numbers)?;
    print(rt, b":")?;
    print_number(rt, refusal_number(call.list(&mut lent)))?;
    print_kept(rt, lent.is_as_filled())?;
    print(rt, b"\n")
}

fn show_event(rt: &impl Print, e: &[u64; 4]) -> io::Result<()> {
    let call = Call {
        events: &[*e],
        ..GOOD
    };
    show_call::<300>(rt, b"event", e, call)
}

// The event, then one that would be refused with 4, and a question that would be.
fn show_faulty(rt: &impl Print, e: &[u64; 4]) -> io::Result<()> {
    let call = Call {
        events: &[*e, [1, 1, 0, 0]],
        question: Question { proc: 1, ..READ },
        ..GOOD
    };
    show_call::<300>(rt, b"faulty event", e, call)
}

// The question after events that are all fine.
fn show_question(rt: &impl Print, numbers: &[u64; 3]) -> io::Result<()> {
    let [proc, addr, request] = *numbers;
    let call = Call {
        events: &[[0, 1, 0, 1], [0, 7, 0, 0]],
        question: Question {
            proc,
            addr,
            request,
        },
        ..GOOD
    };
    show_call::<300>(rt, b"question", numbers, call)
}

pub fn show_sides(rt: &impl Print) -> io::Result<()> {
    EVENTS.iter().try_for_each(|e| show_event(rt, e))?;
    QUESTIONS.iter().try_for_each(|q| show_question(rt, q))
}

// Everything is wrong at first; then one fault less at each call.
fn show_first(rt: &impl Print) -> io::Result<()> {
    show_call::<239>(
        rt,
        b"short work, repeated map frame, CR3, event, question",
        &[],
        WRONG,
    )?;
    show_call::<300>(rt, b"repeated map frame, CR3, event, question", &[], WRONG)?;
    let call = Call {
        map: GOOD.map,
        ..WRONG
    };
    show_call::<300>(rt, b"CR3, event, question", &[], call)
}

// A good event, then one whose word is out.
fn show_second(rt: &impl Print) -> io::Result<()> {
    let call = Call {
        events: &[[0, 1, 3071, 1], [0, 1, 3072, 1]],
        question: WRONG.question,
        ..GOOD
    };
    show_call::<300>(rt, b"second event, question", &[], call)
}

pub fn show_refusals(rt: &impl Print) -> io::Result<()> {
    show_first(rt)?;
    FAULTY.iter().try_for_each(|e| show_faulty(rt, e))?;
    show_second(rt)?;
    LATER.iter().try_for_each(|q| show_question(rt, q))
}
