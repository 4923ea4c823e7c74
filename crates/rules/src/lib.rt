// What document 01 permits: events, moments, held walks, every permitted outcome of a question.
#![tactic(auto)]

ghost use Rattle.std.specs.Prelude.{◌≡◌, cond, List, ℕ, ◌+◌, ◌*◌, ◌<◌, ◌≤◌, length};
ghost use Rattle.rules.specs.Refusal.{number_of, refusal_of};
ghost use Rattle.rules.specs.History.{setup64, event_refusal};
ghost use Rattle.rules.specs.Numbers.{event_of, Decodes};

use paging::Guest;

// "Four numbers each: processor p, kind, a, b". Kept: all numbers, as C and texts give them, so that whatever they are can be refused;
// `Kind` is what a kind's number asks for.
#[derive(Clone, Copy)]
pub struct Event {
    pub proc: u64,
    pub kind: u64,
    pub a: u64,
    pub b: u64,
}

// Kept: numbers, as C and texts give them, so that a request of 6 or more can be refused.
#[derive(Clone, Copy)]
pub struct Question {
    pub proc: u64,
    pub addr: u64,
    pub request: u64,
}

// An address in a guest frame, or a fault with its code. Kept: no Result, since a fault is what a question may permit, and the list
// holds both in one order.
#[derive(Clone, Copy)]
pub enum Outcome {
    Address(Guest),
    Fault(u64),
}

// Event k of a list, "four numbers each". Kept: k, though callers pass a chunk and 0: the clause, `event_of events.now k`, promises every k.
pub fn event_at(events: &[u64], k: usize) -> Event
    requires { 4 * k + 3 < length events.now }
    ensures { result ≡ event_of events.now k }
{
    Event {
        proc: events[4 * k],
        kind: events[4 * k + 1],
        a: events[4 * k + 2],
        b: events[4 * k + 3],
    }
}

// Why a call or a text is refused. `number_of` of specs/Refusal has the numbers.
#[derive(Clone, Copy, Debug, PartialEq, Eq)]
pub enum Refusal {
    WrongSizes,
    WrongMap,
    Unlawful,
    NoProcessor,
    WrongAddress,
    NoRequest,
    NoFrame,
    NoWord,
    NoSlot,
    NoNumber,
    OutOfRange,
    TooFewTables,
}

impl From<Refusal> for u64 {
    ghost from_gives = { λ r n. n ≡ number_of r };

    fn from(r: Refusal) -> u64 {
        match r {
            Refusal::WrongSizes => 1,
            Refusal::WrongMap => 2,
            Refusal::Unlawful => 3,
            Refusal::NoProcessor => 4,
            Refusal::WrongAddress => 5,
            Refusal::NoRequest => 6,
            Refusal::NoFrame => 7,
            Refusal::NoWord => 8,
            Refusal::NoSlot => 9,
            Refusal::NoNumber => 10,
            Refusal::OutOfRange => 11,
            Refusal::TooFewTables => 12,
        }
    }
}

// What an event asks for.
#[derive(Clone, Copy, Debug, PartialEq, Eq)]
pub enum Kind {
    Store,
    Invlpg,
    Cr3Write,
    Access,
    Begin,
    Extend,
    Drop,
}

impl TryFrom<u64> for Kind {
    type Error = Refusal;

    ghost try_from_gives = { Decodes };

    fn try_from(number: u64) -> Result<Kind, Refusal> {
        match number {
            1 => Ok(Kind::Store),
            2 => Ok(Kind::Invlpg),
            3 => Ok(Kind::Cr3Write),
            4 => Ok(Kind::Access),
            5 => Ok(Kind::Begin),
            6 => Ok(Kind::Extend),
            7 => Ok(Kind::Drop),
            _ => Err(Refusal::OutOfRange),
        }
    }
}

// A test: refused under its number unless it fits.
pub fn unless(fits: bool, refusal: Refusal) -> Result<(), Refusal>
    ensures { refusal_of result ≡ cond fits 0 (number_of refusal) }
{
    if fits { Ok(()) } else { Err(refusal) }
}

// Whether an event fits; else the lowest number under which it is refused. Kept: the bound on the frames, which only the product
// with a frame's words asks for.
pub fn test_event(frames: u64, processors: u64, e: Event) -> Result<(), Refusal>
    requires { frames ≤ 256 }
    ensures { (words cr3s : List ℕ) → refusal_of result ≡ event_refusal (setup64 frames processors words cr3s) e }
{
    let a = e.a;
    let b = e.b;
    unless(e.proc < processors, Refusal::NoProcessor)?;
    match Kind::try_from(e.kind)? {
        Kind::Store => unless(a < paging::FRAME_WORDS as u64 * frames, Refusal::NoWord),
        Kind::Invlpg => {
            unless(paging::is_allowed(a), Refusal::WrongAddress)?;
            unless(b == 0, Refusal::OutOfRange)
        }
        Kind::Cr3Write => {
            unless(a < frames, Refusal::NoFrame)?;
            unless(b == 0, Refusal::OutOfRange)
        }
        Kind::Access => {
            unless(paging::is_allowed(a), Refusal::WrongAddress)?;
            unless(b < 6, Refusal::NoRequest)
        }
        Kind::Begin => {
            unless(paging::is_allowed(a), Refusal::WrongAddress)?;
            unless(b < 8, Refusal::NoSlot)
        }
        Kind::Extend | Kind::Drop => {
            unless(a < 8, Refusal::NoSlot)?;
            unless(b == 0, Refusal::OutOfRange)
        }
    }
}
