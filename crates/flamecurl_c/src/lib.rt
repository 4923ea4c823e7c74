// The public library for C: a slice is a pointer and a count, an answer is document 01's numbers in a lent buffer, and each
// function returns the refusal number.
// Kept: each export calls the function of crates/flamecurl of the same name and states its clauses; an export of C can't be generic.
#![tactic(auto)]

ghost use Rattle.std.specs.Prelude.{[]};
ghost use Rattle.tables.specs.State.{shadow_of, state_of};
ghost use Rattle.listing.specs.Call.{asked, lent};
ghost use Rattle.puzzle.specs.Buffers.{buffers};
ghost use Rattle.flamecurl.specs.Exports.{sizes_of, event_from, question_from, ListExport, SetupExport, EventExport, ReadExport, PrintExport};
ghost use Rattle.trainer.specs.Answers.{AnswersOf};
ghost use Rattle.trainer.specs.Run.{RunOf};

// Every permitted outcome of a question. The answer: refusal, count.
#[unsafe(no_mangle)]
pub extern "C" fn flamecurl_list(
    map: &[u64],
    words: &mut [u64],
    cr3s: &[u64],
    events: &[u64],
    work: &mut [u8],
    outcomes: &mut [u64],
    answer: &mut [u64],
    processor: u64,
    address: u64,
    request: u64,
) -> u64
    ensures { ListExport (asked map.now cr3s.now events.now (question_from processor address request)) (lent words.old work.old outcomes.old) (lent words.new work.new outcomes.new) answer.old result answer.new }
{
    flamecurl::flamecurl_list(
        map, words, cr3s, events, work, outcomes, answer, processor, address, request,
    )
}

// A fresh machine.
#[unsafe(no_mangle)]
pub extern "C" fn flamecurl_setup(
    map: &[u64],
    cr3s: &[u64],
    pool: &mut [u64],
    records: &mut [u64],
    slots: &mut [u64],
    frames: u64,
    processors: u64,
    share: u64,
    base: u64,
) -> u64
    ensures { SetupExport (sizes_of frames processors share base) map.now cr3s.now (state_of [] (shadow_of pool.old records.old) slots.old) result (state_of [] (shadow_of pool.new records.new) slots.new) }
{
    flamecurl::flamecurl_setup(
        map, cr3s, pool, records, slots, frames, processors, share, base,
    )
}

// One event of the machine. The answer: refusal, kind, value.
#[unsafe(no_mangle)]
pub extern "C" fn flamecurl_event(
    map: &[u64],
    words: &mut [u64],
    pool: &mut [u64],
    records: &mut [u64],
    slots: &mut [u64],
    answer: &mut [u64],
    frames: u64,
    processors: u64,
    share: u64,
    base: u64,
    processor: u64,
    kind: u64,
    a: u64,
    b: u64,
) -> u64
    ensures { EventExport (sizes_of frames processors share base) map.now (event_from processor kind a b) (state_of words.old (shadow_of pool.old records.old) slots.old) (state_of words.new (shadow_of pool.new records.new) slots.new) answer.old result answer.new }
{
    flamecurl::flamecurl_event(
        map, words, pool, records, slots, answer, frames, processors, share, base, processor, kind,
        a, b,
    )
}

// A puzzle text into buffers. The answer: refusal, line, then the counts of the five sections.
#[unsafe(no_mangle)]
pub extern "C" fn flamecurl_read(
    text: &[u8],
    map: &mut [u64],
    cr3s: &mut [u64],
    words: &mut [u64],
    events: &mut [u64],
    questions: &mut [u64],
    answer: &mut [u64],
) -> u64
    ensures { ReadExport text.now (buffers map.old cr3s.old words.old events.old questions.old) (buffers map.new cr3s.new words.new events.new questions.new) answer.old result answer.new }
{
    flamecurl::flamecurl_read(text, map, cr3s, words, events, questions, answer)
}

// What the program `answers` prints for a text. The answer: refusal, bytes written, a refused text's number and line.
#[unsafe(no_mangle)]
pub extern "C" fn flamecurl_answers(text: &[u8], output: &mut [u8], answer: &mut [u64]) -> u64
    ensures { PrintExport AnswersOf text.now output.old output.new answer.old result answer.new }
{
    flamecurl::flamecurl_answers(text, output, answer)
}

// What the program `run` prints for a text. The answer: as of `answers`.
#[unsafe(no_mangle)]
pub extern "C" fn flamecurl_run(text: &[u8], output: &mut [u8], answer: &mut [u64]) -> u64
    ensures { PrintExport RunOf text.now output.old output.new answer.old result answer.new }
{
    flamecurl::flamecurl_run(text, output, answer)
}
