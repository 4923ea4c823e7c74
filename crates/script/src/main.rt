// Runs `shadow::setup` and `shadow::event` on the states that stdin draws up, and prints what they answer and leave.
// A line's first letter says what its numbers are for:
// given (G, P, S, pool base; lengths of map, words, pool, records, slots), map; new (all words 0);
// words, pool, records, slots (place and value, again and again);
// cr3s (a setup call), event (an event call): the answer's refusal, kind and value, and whether a buffer changed;
// Words, Pool, Records, Slots (places): what stands there. Any other line is printed as it is.
#![tactic(auto)]

mod line;

use calls::State;
use line::{Command, Numbers};
use std::io;

fn show(rt: &impl Print, xs: &[u64], places: &[u64]) -> io::Result<()> {
    buffers::print(rt, b":")?;
    for place in places {
        buffers::print_number(rt, buffers::at(xs, *place))?;
    }
    Ok(())
}

// A line that is printed: a call, places to show, or a heading.
fn speak(rt: &impl Print, command: Command, numbers: &[u64], state: &mut State) -> io::Result<()> {
    match command {
        Command::Call(asked) => state.show(rt, asked, numbers),
        Command::Show(buffer) => show(rt, state.buffer(buffer), numbers),
        _ => Ok(()),
    }
}

// A line that only puts numbers somewhere, or one that is printed.
fn act(rt: &impl Print, line: &[u8], numbers: &[u64], state: &mut State) -> io::Result<()> {
    match line.first().map_or(Command::Heading, |c| Command::from(*c)) {
        Command::Given => buffers::copy(&mut state.given, numbers),
        Command::Map => buffers::copy(&mut state.map, numbers),
        Command::New => state.words.fill(0),
        Command::Put(buffer) => buffers::put_pairs(state.buffer_mut(buffer), numbers),
        command => {
            buffers::print(rt, line)?;
            speak(rt, command, numbers, state)?;
            buffers::print(rt, b"\n")?;
        }
    }
    Ok(())
}

fn play(rt: &impl Print, text: &[u8]) -> io::Result<()> {
    let mut state = State::new();
    for line in text.split_inclusive(|b| *b == b'\n') {
        let line = line.strip_suffix(b"\n").unwrap_or(line);
        let numbers = Numbers::of(line);
        act(rt, line, numbers.as_slice(), &mut state)?;
    }
    Ok(())
}

fn main(rt: HostRuntime) -> io::Result<()> {
    let mut input = [0u8; 65536];
    let n = buffers::read_full(&mut rt.reader(), &mut input)?;
    play(&rt, &input[..n])
}
