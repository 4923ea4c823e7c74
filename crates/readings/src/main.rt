// Runs `puzzle::read` on the texts of stdin and prints what it answers.
// A case is `label=text|`; its line is the label, the result, and a sum of each buffer.
// Every buffer starts as sevens, so that the sums of a refusal show that nothing was written.
#![tactic(auto)]

use buffers::{print, print_numbers, read_full, sum};
use puzzle::{Counts, TextFault};
use std::io;

fn print_result(rt: &impl Print, r: Result<Counts, TextFault>) -> io::Result<()> {
    match r {
        Ok(counts) => {
            print(rt, b": A")?;
            let Counts {
                frames,
                processors,
                words,
                events,
                questions,
            } = counts;
            print_numbers(rt, &[frames, processors, words, events, questions])
        }
        Err(fault) => {
            print(rt, b": R")?;
            print_numbers(rt, &[fault.number(), fault.line])
        }
    }
}

fn show(rt: &impl Print, label: &[u8], text: &[u8]) -> io::Result<()> {
    let mut map = [7u64; 16];
    let mut cr3s = [7u64; 4];
    let mut words = [7u64; 8192];
    let mut events = [7u64; 1024];
    let mut questions = [7u64; 48];
    let r = puzzle::read(
        text,
        &mut map,
        &mut cr3s,
        &mut words,
        &mut events,
        &mut questions,
    );
    print(rt, label)?;
    print_result(rt, r)?;
    print(rt, b" ;")?;
    print_numbers(
        rt,
        &[
            sum(&map),
            sum(&cr3s),
            sum(&words),
            sum(&events),
            sum(&questions),
        ],
    )
}

// A label goes on to its `=`, across any `|`; what follows the last text is no case.
fn show_all(rt: &impl Print, s: &[u8]) -> io::Result<()> {
    let mut rest = s;
    while let Some(eq) = rest.iter().position(|b| *b == b'=') {
        let text = &rest[eq + 1..];
        let end = text.iter().position(|b| *b == b'|').unwrap_or(text.len());
        show(rt, &rest[..eq], &text[..end])?;
        rest = text.get(end + 1..).unwrap_or(&[]);
    }
    Ok(())
}

// Buffers that are too short are refused before the text is looked at.
fn show_short(rt: &impl Print, text: &[u8]) -> io::Result<()> {
    let r = puzzle::read(
        text,
        &mut [7; 15],
        &mut [7; 4],
        &mut [7; 8192],
        &mut [7; 1024],
        &mut [7; 48],
    );
    print(rt, b"\na map of 15")?;
    print_result(rt, r)
}

fn main(rt: HostRuntime) -> io::Result<()> {
    let mut input = [0u8; 65536];
    let n = read_full(&mut rt.reader(), &mut input)?;
    show_all(&rt, &input[..n])?;
    show(&rt, b"\n65,536 line feeds", &[10u8; 65536])?;
    show(&rt, b"\n65,537 line feeds", &[10u8; 65537])?;
    show_short(&rt, b"x")?;
    print(&rt, b"\n")
}
