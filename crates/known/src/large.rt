// The largest list call: 256 frames, 4 processors, 4,096 events, all drawn.
use crate::call::{Call, Lent};
use buffers::{guest, print, print_number, sum};
use rules::Question;
use std::io;

const CR3S: [u64; 4] = [0, 17, 34, 51];

const QUESTION: Question = Question {
    proc: 1,
    addr: guest::ADDRESS,
    request: 1,
};

fn show_drawn(rt: &impl Print, call: &Call) -> io::Result<()> {
    let mut words = [0u64; 131072];
    let mut work = [0u8; 10240];
    let mut outcomes = [0u64; 518];
    guest::put_entries(&mut words);
    print(rt, b"256 frames, 4,096 events:")?;
    let mut lent = Lent {
        words: &mut words,
        work: &mut work,
        outcomes: &mut outcomes,
    };
    call.show(rt, &mut lent)?;
    print(rt, b"sums of the words and of the work bytes:")?;
    print_number(rt, sum(&words))?;
    print_number(rt, sum(&work))?;
    print(rt, b"\n")
}

pub fn show(rt: &impl Print) -> io::Result<()> {
    let mut map = [0u64; 256];
    let mut events = [[0u64; 4]; 4096];
    guest::put_map(&mut map);
    guest::put_events(events.as_flattened_mut());
    let call = Call {
        map: &map,
        cr3s: &CR3S,
        events: &events,
        question: QUESTION,
    };
    show_drawn(rt, &call)
}
