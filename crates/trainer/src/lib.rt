// `answers` and `run`: from the text of a puzzle to the lines that are printed, in a lent buffer.
#![tactic(auto)]

ghost use Rattle.std.specs.Prelude.{◌≡◌, [], ◌*◌, ◌≤◌, length, take};
ghost use Rattle.puzzle.specs.Buffers.{buffers};
ghost use Rattle.tables.specs.State.{machine64};
ghost use Rattle.render.specs.WrittenCode.{HasRoom};
ghost use Rattle.sections.specs.Sizes.{events_size};
ghost use Rattle.trainer.specs.Call.{Call, told, bytes_of, output_size};
ghost use Rattle.trainer.specs.Answers.{AnswersOf};
ghost use Rattle.trainer.specs.Run.{RunOf, Startable};
ghost use Rattle.trainer.specs.Ready.{Posed, Printable};
ghost use Rattle.trainer.specs.PartsCode.{LinesOf, lists_of, state_in, Answered, Started, Stepped, EventsPut, AllPut, PrintedTo};

mod lists;

use lists::Lists;
use render::Printer;
use rules::{Event, Question, Refusal};
use sections::TextFault;
use shadow::Answer;
use tables::Sizes;

// The number of bytes written: the lines of an accepted text, or why the text was refused.
// Kept: no Result, since a refused text is answered too, by a line of its own.
#[derive(Clone, Copy)]
pub enum Written {
    Lines(u64),
    Refused(TextFault, u64),
}

// Room for every output.
pub const OUTPUT_SIZE: usize = 16384;

// "The programs take … S = 4": words and records of a processor's four tables; and buffers for four processors.
const SHARE_WORDS: usize = 2048;

const SHARE_RECORDS: usize = 8;

const SHARE_SLOTS: usize = slots::SLOTS_SIZE as usize;

const POOL_SIZE: usize = SHARE_WORDS * sections::MOST_PROCESSORS;

const RECORDS_SIZE: usize = SHARE_RECORDS * sections::MOST_PROCESSORS;

const SLOTS_SIZE: usize = SHARE_SLOTS * sections::MOST_PROCESSORS;

// What a call tells, in the numbers of document 01: the bytes written for an accepted text; a refused text's number, line and
// bytes; or why the call was refused. Kept: numbers, also such as no call tells, for bytes_of.
#[derive(Clone, Copy)]
pub enum Told {
    Bytes(u64),
    RefusedText(u64, u64, u64),
    Refused(u64),
}

impl Told {
    pub fn of(r: Result<Written, Refusal>) -> Told
        ensures { result ≡ told r }
    {
        match r {
            Ok(Written::Lines(n)) => Told::Bytes(n),
            Ok(Written::Refused(fault, n)) => Told::RefusedText(fault.number(), fault.line, n),
            Err(refusal) => Told::Refused(u64::from(refusal)),
        }
    }
}

// None for a refused call.
pub fn bytes_of(t: Told) -> u64
    ensures { result ≡ bytes_of t }
{
    match t {
        Told::Bytes(n) | Told::RefusedText(_, _, n) => n,
        Told::Refused(_) => 0,
    }
}

// Kept: an enum, since LinesOf program of specs/ says what each prints.
#[derive(Clone, Copy)]
pub enum Program {
    Answers,
    Run,
}

// Kept: `HasRoom printer output_size` stands in each contract, since each call uses room up, so it is no invariant.
impl Program {
    // Kept: the buffers are variables, since `puzzle::read` takes each as C lends it.
    fn print(self, text: &[u8], printer: &mut Printer<'_>) -> Written
        requires { HasRoom printer.old output_size × (printer.old.at ≡ 0) }
        ensures { PrintedTo (LinesOf self) text.now result printer.old printer.new }
    {
        let mut map = [0u64; sections::MOST_FRAMES];
        let mut cr3s = [0u64; sections::MOST_PROCESSORS];
        let mut words = [0u64; sections::WORDS_SIZE];
        let mut events = [0u64; sections::EVENTS_SIZE];
        let mut questions = [0u64; sections::QUESTIONS_SIZE];
        match puzzle::read(
            text,
            &mut map,
            &mut cr3s,
            &mut words,
            &mut events,
            &mut questions,
        ) {
            Err(fault) => {
                printer.put_line(b'R', &[fault.number(), fault.line]);
                Written::Refused(fault, printer.len() as u64)
            }
            Ok(counts) => {
                let map = front(&map, 1, counts.frames);
                let cr3s = front(&cr3s, 1, counts.processors);
                let words = &mut words[..paging::FRAME_WORDS * counts.frames as usize];
                let events = front(&events, 4, counts.events);
                let questions = front(&questions, 3, counts.questions);
                self.put(printer, map, cr3s, words, events, questions);
                Written::Lines(printer.len() as u64)
            }
        }
    }

    // Kept: the lists as parameters, since a run changes the words, and `Lists` lends them as they were read.
    // A function of its own when it runs too, so that the 64 KiB of a copy or a pool don't stand beside what `puzzle::read` needs.
    #[inline(never)]
    fn put(
        self,
        printer: &mut Printer<'_>,
        map: &[u64],
        cr3s: &[u64],
        words: &mut [u64],
        events: &[u64],
        questions: &[u64],
    )
        requires { HasRoom printer.old output_size × Printable (buffers map.now cr3s.now words.old events.now questions.now) }
        ensures { AllPut (LinesOf self) (buffers map.now cr3s.now words.old events.now questions.now) printer.old printer.new }
    {
        match self {
            Program::Answers => {
                let lists = Lists {
                    map,
                    cr3s,
                    words,
                    events,
                    questions,
                };
                lists.put_answers(printer);
            }
            Program::Run => put_run(printer, map, cr3s, words, events),
        }
    }
}

impl Lists<'_> {
    // ---- answers

    // The list call leaves the stores done in the words, so each question takes a copy of the puzzle's own.
    // `Posed` excludes a refusal, so that `unwrap_or` never gives its 0.
    fn put_answer(&self, printer: &mut Printer<'_>, q: Question)
        requires { HasRoom printer.old 922 × Posed (lists_of self.now) q }
        ensures { Answered (lists_of self.now) q printer.old printer.new }
    {
        let mut buffer = [0u64; sections::WORDS_SIZE];
        let words = &mut buffer[..self.words.len()];
        paging::copy(words, self.words);
        let mut work = [0u8; 640];
        let mut outcomes = [0u64; 38];
        let count = listing::list(
            self.map,
            words,
            self.cr3s,
            self.events,
            &mut work,
            &mut outcomes,
            q,
        )
        .unwrap_or(0);
        let pairs = front(&outcomes, 2, count);
        printer.put_question(self.map, q, pairs);
    }

    fn put_answers(&self, printer: &mut Printer<'_>)
        requires { HasRoom printer.old output_size }
        ensures { AllPut AnswersOf (lists_of self.now) printer.old printer.new }
    {
        for numbers in self.questions.chunks_exact(3) {
            let q = Question {
                proc: numbers[0],
                addr: numbers[1],
                request: numbers[2],
            };
            self.put_answer(printer, q);
        }
    }
}

// ---- run

// The events change the puzzle's own words. The machine wants exact lengths: four tables with their records, and eight slots,
// to a processor.
fn put_run(printer: &mut Printer<'_>, map: &[u64], cr3s: &[u64], words: &mut [u64], events: &[u64])
    requires { HasRoom printer.old output_size × (length events.now ≤ events_size) × Startable map.now cr3s.now }
    ensures { AllPut RunOf (buffers map.now cr3s.now words.old events.now []) printer.old printer.new }
{
    let mut pool = [0u64; POOL_SIZE];
    let mut records = [0u64; RECORDS_SIZE];
    let mut slots = [0u64; SLOTS_SIZE];
    let p = cr3s.len();
    let mut session = Session {
        map,
        sizes: Sizes {
            frames: map.len() as u64,
            processors: p as u64,
            share: 4,
            base: 1 << 20,
        },
        words,
        pool: &mut pool[..SHARE_WORDS * p],
        records: &mut records[..SHARE_RECORDS * p],
        slots: &mut slots[..SHARE_SLOTS * p],
    };
    session.set_up(cr3s);
    session.put_events(printer, events);
}

// A run's session with the machine: what it is made for, and the buffers that it changes.
#[derive(Drop)]
struct Session<'a> {
    map: &'a [u64],
    sizes: Sizes,
    words: &'a mut [u64],
    pool: &'a mut [u64],
    records: &'a mut [u64],
    slots: &'a mut [u64],
}

impl Session<'_> {
    // Setup takes every accepted puzzle, so that its answer need not be looked at.
    fn set_up(&mut self, cr3s: &[u64])
        ensures { Started cr3s.now self.old self.new }
    {
        let _ = shadow::setup(
            self.map,
            cr3s,
            self.pool,
            self.records,
            self.slots,
            self.sizes,
        );
    }

    fn event(&mut self, e: Event) -> Result<Answer, Refusal>
        ensures { Stepped e self.old result self.new }
    {
        shadow::event(
            self.map,
            self.words,
            self.pool,
            self.records,
            self.slots,
            self.sizes,
            e,
        )
    }

    fn put_events(&mut self, printer: &mut Printer<'_>, events: &[u64])
        requires { HasRoom printer.old output_size × (length events.now ≤ events_size) }
        ensures { EventsPut (machine64 self.old.sizes) self.old.map.now (state_in self.old) events.now printer.old printer.new }
    {
        let (events, _) = events.as_chunks::<4>();
        for (k, e) in events.iter().enumerate() {
            let answer = self.event(rules::event_at(e, 0));
            let index = (k + 1) as u64;
            let numbered = shadow::by_number(answer);
            printer.put_event(index, shadow::kind_of(numbered), shadow::value_of(numbered));
        }
    }
}

// The first n parts of a buffer, of so many numbers each. Kept: here a caller's buffer and count become a slice.
fn front(buffer: &[u64], size: usize, n: u64) -> &[u64]
    requires { size * n ≤ length buffer.now }
    ensures { result.now ≡ take (size * n) buffer.now }
{
    &buffer[..size * n as usize]
}

// The lines of a program for a text, or `R number line`.
pub fn print(text: &[u8], output: &mut [u8], program: Program) -> Result<Written, Refusal>
    ensures { Call (LinesOf program) text.now output.old (told result) output.new }
{
    rules::unless(output.len() == OUTPUT_SIZE, Refusal::WrongSizes)?;
    let mut printer = Printer::new(output);
    Ok(program.print(text, &mut printer))
}
