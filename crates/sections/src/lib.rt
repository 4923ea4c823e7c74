// A section of a puzzle text: a count and its numbers, each in its range, read into the front of a buffer.
#![tactic(auto)]

ghost use Rattle.std.specs.Prelude.{◌≡◌, [], ◌*◌, ◌≤◌, length};
ghost use Rattle.rules.specs.Refusal.{number_of};
ghost use Rattle.sections.specs.Sizes.{most_frames};
ghost use Rattle.sections.specs.Sections.{map_range, word_range, event_so_far, event_range, question_range, width, count_range, in_range, numbers, section};
ghost use Rattle.sections.specs.PartsCode.{capacity, fault_of, out_of_range, PartIs};
ghost use Rattle.cursor.specs.CursorCode.{Stands};

use cursor::{Cursor, NoNumber};
use rules::{Event, Refusal};

// "The programs take G to 16, S = 4, 256 events, 16 questions and 65,536 bytes of text", and "P 1..4".
pub const MOST_FRAMES: usize = 16;

pub const MOST_PROCESSORS: usize = 4;

const MOST_EVENTS: usize = 256;

const MOST_QUESTIONS: usize = 16;

pub const TEXT_SIZE: usize = 65536;

pub const WORDS_SIZE: usize = paging::FRAME_WORDS * MOST_FRAMES;

pub const PAIRS_SIZE: usize = 2 * WORDS_SIZE;

pub const EVENTS_SIZE: usize = 4 * MOST_EVENTS;

pub const QUESTIONS_SIZE: usize = 3 * MOST_QUESTIONS;

// The sections of a puzzle text, in their order.
#[derive(Clone, Copy)]
pub enum Section {
    Map,
    Cr3s,
    Words,
    Events,
    Questions,
}

// What the ranges hang on: how many frames and processors the text has named. Kept: 0 before it does, as puzzle_of of specs/Sections gives it.
#[derive(Clone, Copy)]
pub struct Limits {
    pub frames: u64,
    pub processors: u64,
    pub ghost few: { frames ≤ most_frames },
}

// The count of a section and the cursor after it.
#[derive(Clone, Copy)]
pub struct Part {
    pub count: u64,
    pub after: Cursor,
}

// Why a text is refused, and on which line.
#[derive(Clone, Copy)]
pub struct TextFault {
    pub refusal: Refusal,
    pub line: u64,
}

impl TextFault {
    // The number of the refusal, as it is printed.
    pub fn number(self) -> u64
        ensures { result ≡ number_of self.refusal }
    {
        self.refusal.into()
    }
}

impl From<NoNumber> for TextFault {
    ghost from_gives = { λ none fault. fault ≡ fault_of none };

    fn from(none: NoNumber) -> TextFault {
        TextFault {
            refusal: Refusal::NoNumber,
            line: none.line,
        }
    }
}

#[tactic(auto, unfolding(crate::specs::Sections::map_range))]
fn in_map_range(before: &[u64], v: u64) -> bool
    ensures { result ≡ map_range before.now v }
{
    v < 0x10_0000 && paging::is_new(before, before.len(), v)
}

#[tactic(auto, unfolding(crate::specs::Sections::word_range))]
fn in_word_range(limits: Limits, before: &[u64], v: u64) -> bool
    ensures { result ≡ word_range limits.frames before.now v }
{
    let i = before.len();
    if i % 2 != 0 {
        return true;
    }
    v < paging::FRAME_WORDS as u64 * limits.frames && (i == 0 || before[i - 2] < v)
}

// What is still to come of the event is taken to be a store of 0 to word 0, which always fits.
// Kept: 1 is a store, as event_so_far of specs/Sections, this function's clause, writes it.
fn event_so_far(before: &[u64], v: u64) -> Event
    ensures { result ≡ event_so_far before.now v }
{
    let (_, event) = before.as_chunks::<4>();
    match event {
        [] => Event {
            proc: v,
            kind: 1,
            a: 0,
            b: 0,
        },
        [proc] => Event {
            proc: *proc,
            kind: v,
            a: 0,
            b: 0,
        },
        [proc, kind] => Event {
            proc: *proc,
            kind: *kind,
            a: v,
            b: 0,
        },
        [proc, kind, a, ..] => Event {
            proc: *proc,
            kind: *kind,
            a: *a,
            b: v,
        },
    }
}

#[tactic(auto, unfolding(crate::specs::Sections::event_range))]
fn in_event_range(limits: Limits, before: &[u64], v: u64) -> bool
    ensures { result ≡ event_range limits.frames limits.processors before.now v }
{
    let Limits { frames, processors } = limits;
    rules::test_event(frames, processors, event_so_far(before, v)).is_ok()
}

#[tactic(auto, unfolding(crate::specs::Sections::question_range))]
fn in_question_range(limits: Limits, i: usize, v: u64) -> bool
    ensures { result ≡ question_range limits.processors i v }
{
    match i % 3 {
        0 => v < limits.processors,
        1 => paging::is_allowed(v),
        _ => v <= 5,
    }
}

// Kept: `in_range` and `width` of specs/Sections take the section, and these are they.
impl Section {
    // How many numbers make one of the section.
    fn width(self) -> usize
        ensures { result ≡ width self }
    {
        match self {
            Section::Map => 1,
            Section::Cr3s => 1,
            Section::Words => 2,
            Section::Events => 4,
            Section::Questions => 3,
        }
    }

    fn in_count_range(self, limits: Limits, n: u64) -> bool
        ensures { result ≡ count_range self limits.frames n }
    {
        match self {
            Section::Map => (1..=MOST_FRAMES as u64).contains(&n),
            Section::Cr3s => (1..=MOST_PROCESSORS as u64).contains(&n),
            Section::Words => n <= paging::FRAME_WORDS as u64 * limits.frames,
            Section::Events => n <= MOST_EVENTS as u64,
            Section::Questions => (1..=MOST_QUESTIONS as u64).contains(&n),
        }
    }

    // Whether a number of the section may follow those before it.
    fn in_range(self, limits: Limits, before: &[u64], v: u64) -> bool
        ensures { result ≡ in_range self limits.frames limits.processors before.now v }
    {
        match self {
            Section::Map => in_map_range(before, v),
            Section::Cr3s => v < limits.frames,
            Section::Words => in_word_range(limits, before, v),
            Section::Events => in_event_range(limits, before, v),
            Section::Questions => in_question_range(limits, before.len(), v),
        }
    }
}

// A number out of range: it stands on the line where the cursor after it is.
fn out_of_range(after: Cursor) -> TextFault
    ensures { result ≡ out_of_range after }
{
    TextFault {
        refusal: Refusal::OutOfRange,
        line: after.line,
    }
}

fn read_numbers(
    text: &[u8],
    from: Cursor,
    which: Section,
    limits: Limits,
    count: u64,
    buffer: &mut [u64],
) -> Result<Part, TextFault>
    requires { Stands text.now from × (count * width which ≤ length buffer.old) }
    ensures { PartIs (numbers (in_range which limits.frames limits.processors) text.now (count * width which) [] from.at) (width which) text.now buffer.old buffer.new result }
{
    let mut c = from;
    // Kept: the index, since a number's range hangs on those before it in the buffer that it is put into.
    for i in 0..count as usize * which.width() {
        let number = cursor::next_from(text, c)?;
        if !which.in_range(limits, &buffer[..i], number.value) {
            return Err(out_of_range(number.after));
        }
        buffer[i] = number.value;
        c = number.after;
    }
    Ok(Part { count, after: c })
}

// A section after its count. The buffer has room for the longest one.
pub fn read(
    text: &[u8],
    from: Cursor,
    which: Section,
    limits: Limits,
    buffer: &mut [u64],
) -> Result<Part, TextFault>
    requires { Stands text.now from × (length buffer.old ≡ capacity which) }
    ensures { PartIs (section which limits.frames limits.processors text.now from.at) (width which) text.now buffer.old buffer.new result }
{
    let count = cursor::next_from(text, from)?;
    if !which.in_count_range(limits, count.value) {
        return Err(out_of_range(count.after));
    }
    read_numbers(text, count.after, which, limits, count.value, buffer)
}
