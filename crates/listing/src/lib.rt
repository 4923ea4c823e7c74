// The list call: every permitted outcome of a question, over lent buffers.
// Everything is tested before anything is written; then the events are taken one by one, with the held walks as bytes.
#![tactic(auto)]

ghost use Rattle.std.specs.Prelude.{◌≡◌, ℕ, ◌+◌, ◌*◌, ◌/◌, ◌≤◌, ◌<◌, length, List};
ghost use Rattle.rules.specs.Refusal.{refusal_of};
ghost use Rattle.rules.specs.History.{setup64, event_refusal};
ghost use Rattle.listing.specs.Call.{asked, lent, sizes_fit, first_refusal, list_refusal, ListCall};
ghost use Rattle.rules.specs.Numbers.{event_of};
ghost use Rattle.listing.specs.AnswerCode.{Answerable, Answers};
ghost use Rattle.listing.specs.ReplayCode.{Reach, replay_of, forgets, applied, replayed};
ghost use Rattle.listing.specs.CollectCode.{Readable, written, out_of, walk_at, serves, lacks, is_absent, is_beyond, with_step, stops, addresses, collected};
ghost use Rattle.held.specs.FollowCode.{Room};

use held::AskedPage;
use paging::{Guest, Request, Rights, Step, Stop, Walk};
use rules::{Event, Kind, Outcome, Question, Refusal};

fn forgotten(at: AskedPage, a: u64) -> usize
    requires { at.frames ≤ 256 }
    ensures { result ≡ forgets at.frames at.page a }
{
    if paging::page_of(a) == at.page {
        0
    } else {
        (8 * at.frames) as usize
    }
}

// Takes one event; the result is the processor's CR3 after it.
fn apply(words: &mut [u64], work: &mut [u8], at: AskedPage, p: u64, cr3: u64, e: Event) -> u64
    requires { Room at.frames words.old work.old × (cr3 < at.frames) × Reach at.frames e }
    ensures { replay_of result words.new work.new ≡ applied at.frames p at.page e (replay_of cr3 words.old work.old) }
{
    let Ok(kind) = Kind::try_from(e.kind) else {
        return cr3;
    };
    match kind {
        Kind::Store => {
            words[e.a as usize] = e.b;
            held::reread_word(words, work, at, e.a);
            cr3
        }
        Kind::Invlpg => {
            if e.proc != p {
                return cr3;
            }
            held::restart(words, work, at, forgotten(at, e.a), Guest(cr3));
            cr3
        }
        Kind::Cr3Write => {
            if e.proc != p {
                return cr3;
            }
            held::restart(words, work, at, 0, Guest(e.a));
            e.a
        }
        _ => cr3,
    }
}

// Takes all events in order. A function of its own when it runs too: measured, each event then takes 5 to 8% less time.
#[inline(never)]
fn replay(
    words: &mut [u64],
    work: &mut [u8],
    events: &[u64],
    at: AskedPage,
    p: u64,
    start: u64,
) -> u64
    requires { Room at.frames words.old work.old × (start < at.frames) × ((k : ℕ) → k < length events.now / 4 → Reach at.frames (event_of events.now k)) }
    ensures { replay_of result words.new work.new ≡ replayed at.frames p at.page events.now (length events.now / 4) (replay_of start words.old work.old) }
{
    let (events, _) = events.as_chunks::<4>();
    let mut cr3 = start;
    for e in events {
        cr3 = apply(words, work, at, p, cr3, rules::event_at(e, 0));
    }
    cr3
}

// ---- the outcomes

// Whether a held completed walk on frame f has enough rights.
fn serves(work: &[u8], frames: u64, q: &Request, f: u64) -> bool
    requires { Readable frames work.now × (f < frames) }
    ensures { result ≡ serves frames q.now work.now f }
{
    let first = (8 * f) as usize;
    work[first..first + 8].iter().enumerate().any(|(rights, byte)| *byte == 1
        && paging::has_enough(q, Rights::of(rights as u64)))
}

// Whether a held completed walk lacks a right.
fn lacks(work: &[u8], frames: u64, q: &Request) -> bool
    requires { Readable frames work.now }
    ensures { result ≡ lacks frames q.now work.now }
{
    work[..(8 * frames) as usize].iter().enumerate().any(|(k, byte)| *byte == 1
        && !paging::has_enough(q, Rights::of(k as u64)))
}

fn walk_at(frames: u64, k: u64) -> Walk
    requires { 0 < frames }
    ensures { result ≡ walk_at frames k }
{
    Walk {
        level: k / 8 / frames,
        frame: Guest(k / 8 % frames),
        rights: Rights::of(k),
    }
}

// Which faults of entries the held partial walks give.
#[derive(Clone, Copy)]
struct Faults {
    absent: bool,
    beyond: bool,
}

impl Faults {
    fn with(self, step: Step) -> Faults
        ensures { result ≡ with_step self step }
    {
        match step {
            Err(Stop::Absent) => Faults {
                absent: true,
                ..self
            },
            Err(Stop::Beyond) => Faults {
                beyond: true,
                ..self
            },
            _ => self,
        }
    }
}

fn find_faults(words: &[u64], work: &[u8], at: AskedPage) -> Faults
    requires { Room at.frames words.now work.now × (0 < at.frames) }
    ensures { (result.absent ≡ stops at.frames at.page words.now work.now is_absent) × (result.beyond ≡ stops at.frames at.page words.now work.now is_beyond) }
{
    let first = (8 * at.frames) as usize;
    let end = (40 * at.frames) as usize;
    let mut faults = Faults {
        absent: false,
        beyond: false,
    };
    for (j, byte) in work[first..end].iter().enumerate() {
        if *byte == 1 {
            let w = walk_at(at.frames, (first + j) as u64);
            faults = faults.with(held::next(words, at, w));
        }
    }
    faults
}

// The outcomes that were written so far, and the buffer that they stand in. Kept: a buffer and a count, since C lends the buffer.
#[derive(Drop)]
struct Outcomes<'a> {
    buffer: &'a mut [u64],
    count: u64,
}

impl Outcomes<'_> {
    // Writes one pair more.
    fn push(&mut self, outcome: Outcome)
        requires { 2 * self.old.count + 1 < length self.old.buffer.now }
        ensures same_reference { self.new.buffer.ghost_name ≡ self.old.buffer.ghost_name }
        ensures pair { out_of self.new.count self.new.buffer.now ≡ written outcome (out_of self.old.count self.old.buffer.now) }
    {
        let (tag, value) = match outcome {
            Outcome::Address(f) => (0, f.0),
            Outcome::Fault(code) => (1, code),
        };
        let i = (2 * self.count) as usize;
        self.buffer[i] = tag;
        self.buffer[i + 1] = value;
        self.count += 1;
    }
}

// The addresses, by rising frame.
fn addresses(work: &[u8], outcomes: &mut Outcomes, frames: u64, q: &Request)
    requires { Readable frames work.now × (outcomes.old.count ≡ 0) × (2 * frames ≤ length outcomes.old.buffer.now) }
    ensures same_reference { outcomes.new.buffer.ghost_name ≡ outcomes.old.buffer.ghost_name }
    ensures pairs { out_of outcomes.new.count outcomes.new.buffer.now ≡ addresses frames q.now work.now outcomes.old.buffer.now }
    ensures few { outcomes.new.count ≤ frames }
    ensures size { length outcomes.new.buffer.now ≡ length outcomes.old.buffer.now }
{
    for f in 0..frames {
        if serves(work, frames, q, f) {
            outcomes.push(Outcome::Address(Guest(f)));
        }
    }
}

// Addresses by rising frame, then faults by rising code; the result is the count. Kept: the base codes 0, 1 and 9 as `given` of rules'
// specs/Outcome writes them (tried: Stop's base_code; the proofs of the three joins then no longer compute).
fn collect(words: &[u64], work: &[u8], buffer: &mut [u64], at: AskedPage, q: Request) -> u64
    requires { Room at.frames words.now work.now × (0 < at.frames) × (q.adds ≤ 20) × (2 * (at.frames + 3) ≤ length buffer.old) }
    ensures { out_of result buffer.new ≡ collected at.frames at.page q words.now work.now buffer.old }
{
    let mut outcomes = Outcomes { buffer, count: 0 };
    addresses(work, &mut outcomes, at.frames, &q);
    let faults = find_faults(words, work, at);
    if faults.absent {
        outcomes.push(Outcome::Fault(q.adds));
    }
    if lacks(work, at.frames, &q) {
        outcomes.push(Outcome::Fault(1 + q.adds));
    }
    if faults.beyond {
        outcomes.push(Outcome::Fault(9 + q.adds));
    }
    outcomes.count
}

// ---- refusals

fn test_events(frames: u64, processors: u64, events: &[u64]) -> Result<(), Refusal>
    requires { frames ≤ 256 }
    ensures { (words cr3s : List ℕ) → refusal_of result ≡ first_refusal (length events.now / 4) (λ k. event_refusal (setup64 frames processors words cr3s) (event_of events.now k)) }
{
    let (events, _) = events.as_chunks::<4>();
    for e in events {
        rules::test_event(frames, processors, rules::event_at(e, 0))?;
    }
    Ok(())
}

// What the call was lent, as it is tested.
#[derive(Clone, Copy)]
struct Buffers<'a> {
    map: &'a [u64],
    words: &'a [u64],
    cr3s: &'a [u64],
    events: &'a [u64],
    work: &'a [u8],
    outcomes: &'a [u64],
}

impl Buffers<'_> {
    fn fit(&self) -> bool
        ensures { result ≡ sizes_fit (length self.now.map.now) (length self.now.cr3s.now) (length self.now.events.now) (length self.now.words.now) (length self.now.work.now) (length self.now.outcomes.now) }
    {
        let frames = self.map.len();
        paging::is_between(1, 256, frames as u64)
            && paging::is_between(1, 4, self.cr3s.len() as u64)
            && self.events.len() % 4 == 0
            && self.events.len() / 4 <= 4096
            && self.words.len() == paging::FRAME_WORDS * frames
            && self.work.len() >= 40 * frames
            && self.outcomes.len() >= 2 * (frames + 3)
    }

    // Whether the question is answered; else why it is refused.
    fn test(&self, q: Question) -> Result<(), Refusal>
        ensures { refusal_of result ≡ list_refusal (asked self.now.map.now self.now.cr3s.now self.now.events.now q) (lent self.now.words.now self.now.work.now self.now.outcomes.now) }
    {
        let frames = self.map.len() as u64;
        let processors = self.cr3s.len() as u64;
        rules::unless(self.fit(), Refusal::WrongSizes)?;
        rules::unless(paging::map_fits(self.map), Refusal::WrongMap)?;
        rules::unless(paging::cr3s_fit(frames, self.cr3s), Refusal::NoFrame)?;
        test_events(frames, processors, self.events)?;
        // Kept: an event holds its kind as the buffers do, as document 01's number; 4 is an access.
        let access = Event {
            proc: q.proc,
            kind: 4,
            a: q.addr,
            b: q.request,
        };
        rules::test_event(frames, processors, access)
    }
}

// The work of an accepted call; the result is the count.
// Kept: seven parameters, since three of the buffers are written: a struct of them needs a clause on each in every contract.
fn answer(
    words: &mut [u64],
    work: &mut [u8],
    outcomes: &mut [u64],
    events: &[u64],
    frames: u64,
    q: Question,
    start: u64,
) -> u64
    requires { Answerable frames words.old work.old outcomes.old events.now q start }
    ensures { Answers frames words.old work.old outcomes.old events.now q start result words.new work.new outcomes.new }
{
    let at = AskedPage {
        frames,
        page: paging::page_of(q.addr),
    };
    held::restart(words, work, at, 0, Guest(start));
    replay(words, work, events, at, q.proc, start);
    collect(words, work, outcomes, at, paging::request_of(q.request))
}

// Every permitted outcome of the question, in order; a refusal changes nothing.
// Kept: seven parameters, as the C interface's flamecurl_list has them.
pub fn list(
    map: &[u64],
    words: &mut [u64],
    cr3s: &[u64],
    events: &[u64],
    work: &mut [u8],
    outcomes: &mut [u64],
    q: Question,
) -> Result<u64, Refusal>
    ensures { ListCall (asked map.now cr3s.now events.now q) (lent words.old work.old outcomes.old) result (lent words.new work.new outcomes.new) }
{
    let lent = Buffers {
        map,
        words,
        cr3s,
        events,
        work,
        outcomes,
    };
    lent.test(q)?;
    let frames = map.len() as u64;
    let start = cr3s[q.proc as usize];
    Ok(answer(words, work, outcomes, events, frames, q, start))
}
