// Reads a puzzle from standard input to its end and prints what a program says of it. One byte more than a puzzle may have
// is asked for, so that over-long text is seen. A read that fails is not the end of the text: then nothing is printed, a
// line on standard error says why, and the program ends with status 1.
#![tactic(auto)]

ghost use Rattle.std.specs.Prelude.{◌≤◌, length, IfOk};

use std::io;
use std::io::Read;
use std::process::ExitCode;
use trainer::{OUTPUT_SIZE, Program, Told};

// One byte more than a text may have.
const ASKED: usize = sections::TEXT_SIZE + 1;

// To the end of the input or of the buffer: how many bytes were read. Kept: std's own such call fills a `Vec`, on the heap.
// Kept: as buffers::read_full, which is the gate's programs' (README.md, "Where to read"): the shipped programs stand on no crate of theirs.
fn read_text<R: Read>(reader: &mut R, text: &mut [u8]) -> io::Result<usize>
    ensures { IfOk result (λ n. n ≤ length text.new) }
{
    let mut at = 0;
    // Kept: no slice is walked by one; each turn goes on by as many bytes as a read gave.
    while at < text.len() {
        let n = reader.read(&mut text[at..])?;
        if n == 0 {
            break;
        }
        at += n;
    }
    Ok(at)
}

fn write_lines(
    rt: &impl Print,
    text: &[u8],
    output: &mut [u8; OUTPUT_SIZE],
    program: Program,
) -> io::Result<()> {
    let r = trainer::print(text, output, program);
    let n = trainer::bytes_of(Told::of(r)) as usize;
    rt.write_all(&output[..n])
}

// A line on standard error: which stream failed, and the system's words for it, without the number that std adds.
fn tell<R: Eprint + Alloc>(rt: &R, stream: &str, e: io::Error) -> io::Result<()> {
    let Ok(words) = e.to_string(rt.alloc()) else {
        return eprintln!(rt; "flamecurl: {stream}: {e}");
    };
    match words.split_once(" (os error ") {
        Some((reason, _)) => eprintln!(rt; "flamecurl: {stream}: {reason}"),
        None => eprintln!(rt; "flamecurl: {stream}: {words}"),
    }
}

fn fail<R: Eprint + Alloc>(rt: &R, stream: &str, e: io::Error) -> ExitCode {
    let _ = tell(rt, stream, e);
    ExitCode::FAILURE
}

fn answer<R: io::Input + Print + Eprint + Alloc>(
    rt: &R,
    text: &mut [u8],
    output: &mut [u8; OUTPUT_SIZE],
    program: Program,
) -> ExitCode {
    match read_text(&mut rt.reader(), text) {
        Ok(n) => match write_lines(rt, &text[..n], output, program) {
            Ok(()) => ExitCode::SUCCESS,
            Err(e) => fail(rt, "standard output", e),
        },
        Err(e) => fail(rt, "standard input", e),
    }
}

pub fn serve<R: io::Input + Print + Eprint + Alloc>(rt: &R, program: Program) -> ExitCode {
    let mut text = [0u8; ASKED];
    let mut output = [0u8; OUTPUT_SIZE];
    answer(rt, &mut text, &mut output, program)
}
