// The public library's calls in the form that C sees (crates/flamecurl_c exports them): an answer is document 01's numbers in a
// lent buffer, and each function returns the refusal number. Kept: sizes, events and questions are single numbers, as C passes them.
#![tactic(auto)]

ghost use Rattle.std.specs.Prelude.{◌≡◌, [], ◌<◌, length, get_or};
ghost use Rattle.tables.specs.State.{shadow_of, state_of};
ghost use Rattle.listing.specs.Call.{asked, lent};
ghost use Rattle.puzzle.specs.Buffers.{buffers};
ghost use Rattle.flamecurl.specs.Exports.{sizes_of, event_from, question_from, ListExport, SetupExport, EventExport, ReadExport, PrintExport};
ghost use Rattle.trainer.specs.Answers.{AnswersOf};
ghost use Rattle.trainer.specs.Run.{RunOf};
ghost use Rattle.trainer.specs.PartsCode.{LinesOf};

use rules::{Event, Question, Refusal};
use tables::Sizes;
use trainer::{Program, Written};

fn sizes_of(frames: u64, processors: u64, share: u64, base: u64) -> Sizes
    ensures { result ≡ sizes_of frames processors share base }
{
    Sizes {
        frames,
        processors,
        share,
        base,
    }
}

fn event_from(proc: u64, kind: u64, a: u64, b: u64) -> Event
    ensures { result ≡ event_from proc kind a b }
{
    Event { proc, kind, a, b }
}

fn question_from(proc: u64, addr: u64, request: u64) -> Question
    ensures { result ≡ question_from proc addr request }
{
    Question {
        proc,
        addr,
        request,
    }
}

// An answer as numbers, into a buffer of as many; the first is returned.
fn put<const N: usize>(answer: &mut [u64], numbers: [u64; N]) -> u64
    requires { (length answer.old ≡ N) × (0 < N) }
    ensures { (answer.new ≡ numbers.entry) × (result ≡ get_or numbers.entry 0 0) }
{
    answer.copy_from_slice(&numbers);
    numbers[0]
}

// Every permitted outcome of a question. The answer: refusal, count.
pub fn flamecurl_list(
    map: &[u64],
    words: &mut [u64],
    cr3s: &[u64],
    events: &[u64],
    work: &mut [u8],
    outcomes: &mut [u64],
    answer: &mut [u64],
    processor: u64,
    address: u64,
    request: u64,
) -> u64
    ensures { ListExport (asked map.now cr3s.now events.now (question_from processor address request)) (lent words.old work.old outcomes.old) (lent words.new work.new outcomes.new) answer.old result answer.new }
{
    if answer.len() != 2 {
        return u64::from(Refusal::WrongSizes);
    }
    let q = question_from(processor, address, request);
    match listing::list(map, words, cr3s, events, work, outcomes, q) {
        Ok(count) => put(answer, [0, count]),
        Err(refusal) => put(answer, [u64::from(refusal), 0]),
    }
}

// A fresh machine.
pub fn flamecurl_setup(
    map: &[u64],
    cr3s: &[u64],
    pool: &mut [u64],
    records: &mut [u64],
    slots: &mut [u64],
    frames: u64,
    processors: u64,
    share: u64,
    base: u64,
) -> u64
    ensures { SetupExport (sizes_of frames processors share base) map.now cr3s.now (state_of [] (shadow_of pool.old records.old) slots.old) result (state_of [] (shadow_of pool.new records.new) slots.new) }
{
    let z = sizes_of(frames, processors, share, base);
    let r = shadow::setup(map, cr3s, pool, records, slots, z);
    shadow::refusal_of(shadow::by_number(r))
}

// One event of the machine. The answer: refusal, kind, value.
pub fn flamecurl_event(
    map: &[u64],
    words: &mut [u64],
    pool: &mut [u64],
    records: &mut [u64],
    slots: &mut [u64],
    answer: &mut [u64],
    frames: u64,
    processors: u64,
    share: u64,
    base: u64,
    processor: u64,
    kind: u64,
    a: u64,
    b: u64,
) -> u64
    ensures { EventExport (sizes_of frames processors share base) map.now (event_from processor kind a b) (state_of words.old (shadow_of pool.old records.old) slots.old) (state_of words.new (shadow_of pool.new records.new) slots.new) answer.old result answer.new }
{
    if answer.len() != 3 {
        return u64::from(Refusal::WrongSizes);
    }
    let z = sizes_of(frames, processors, share, base);
    let e = event_from(processor, kind, a, b);
    let r = shadow::by_number(shadow::event(map, words, pool, records, slots, z, e));
    let numbers = [
        shadow::refusal_of(r),
        shadow::kind_of(r),
        shadow::value_of(r),
    ];
    put(answer, numbers)
}

// A puzzle text into buffers. The answer: refusal, line, then the counts of the five sections.
pub fn flamecurl_read(
    text: &[u8],
    map: &mut [u64],
    cr3s: &mut [u64],
    words: &mut [u64],
    events: &mut [u64],
    questions: &mut [u64],
    answer: &mut [u64],
) -> u64
    ensures { ReadExport text.now (buffers map.old cr3s.old words.old events.old questions.old) (buffers map.new cr3s.new words.new events.new questions.new) answer.old result answer.new }
{
    if answer.len() != 7 {
        return u64::from(Refusal::WrongSizes);
    }
    match puzzle::read(text, map, cr3s, words, events, questions) {
        Ok(n) => put(
            answer,
            [0, 0, n.frames, n.processors, n.words, n.events, n.questions],
        ),
        Err(fault) => put(answer, [fault.number(), fault.line, 0, 0, 0, 0, 0]),
    }
}

fn print(text: &[u8], output: &mut [u8], answer: &mut [u64], program: Program) -> u64
    ensures { PrintExport (LinesOf program) text.now output.old output.new answer.old result answer.new }
{
    if answer.len() != 4 {
        return u64::from(Refusal::WrongSizes);
    }
    match trainer::print(text, output, program) {
        Ok(Written::Lines(bytes)) => put(answer, [0, bytes, 0, 0]),
        Ok(Written::Refused(fault, bytes)) => {
            put(answer, [0, bytes, fault.number(), fault.line])
        }
        Err(refusal) => put(answer, [u64::from(refusal), 0, 0, 0]),
    }
}

// Kept: the next two are two names of the C interface, one print.

// What the program `answers` prints for a text. The answer: refusal, bytes written, a refused text's number and line.
pub fn flamecurl_answers(text: &[u8], output: &mut [u8], answer: &mut [u64]) -> u64
    ensures { PrintExport AnswersOf text.now output.old output.new answer.old result answer.new }
{
    print(text, output, answer, Program::Answers)
}

// What the program `run` prints for a text. The answer: as of `answers`.
pub fn flamecurl_run(text: &[u8], output: &mut [u8], answer: &mut [u64]) -> u64
    ensures { PrintExport RunOf text.now output.old output.new answer.old result answer.new }
{
    print(text, output, answer, Program::Run)
}
