// From the bytes of a puzzle to its map, CR3s, words, events and questions, or to the first fault's number and line.
#![tactic(auto)]

ghost use Rattle.std.specs.Prelude.{◌≡◌, true, ◌≤◌, length};
ghost use Rattle.cursor.specs.CursorCode.{Stands};
ghost use Rattle.sections.specs.Sections.{puzzle_of};
ghost use Rattle.puzzle.specs.Buffers.{buffers, after, with_pairs, result_of, verdict_of, answer, sized, read_call};
ghost use Rattle.puzzle.specs.PartsCode.{EndIs, lists, LongEnough, SectionsAre, WordsBelow, Lengths, accepts};

use cursor::{Cursor, NoNumber};
use rules::Refusal;
pub use sections::TextFault;
use sections::{Limits, Section};

// The count of each section.
#[derive(Clone, Copy)]
pub struct Counts {
    pub frames: u64,
    pub processors: u64,
    pub words: u64,
    pub events: u64,
    pub questions: u64,
}

// Only blanks may follow the last section; what else does is refused as no number.
fn test_end(text: &[u8], last: Cursor) -> Result<(), TextFault>
    requires { Stands text.now last }
    ensures { EndIs text.now last.at result }
{
    let end = cursor::skip_from(text, last);
    if end.at < text.len() {
        return Err(TextFault::from(NoNumber { line: end.line }));
    }
    Ok(())
}

// All sections in their order, each into its buffer; the words as pairs of word and value.
fn read_sections(
    text: &[u8],
    map: &mut [u64],
    cr3s: &mut [u64],
    pairs: &mut [u64],
    events: &mut [u64],
    questions: &mut [u64],
) -> Result<Counts, TextFault>
    requires { LongEnough (lists map.old cr3s.old pairs.old events.old questions.old) }
    ensures { SectionsAre text.now (lists map.old cr3s.old pairs.old events.old questions.old) (lists map.new cr3s.new pairs.new events.new questions.new) result }
{
    let start = Cursor { at: 0, line: 1 };
    let none = Limits {
        frames: 0,
        processors: 0,
    };
    let frames = sections::read(text, start, Section::Map, none, map)?;
    let guest = Limits {
        frames: frames.count,
        processors: 0,
    };
    let roots = sections::read(text, frames.after, Section::Cr3s, guest, cr3s)?;
    let limits = Limits {
        frames: frames.count,
        processors: roots.count,
    };
    let words = sections::read(text, roots.after, Section::Words, limits, pairs)?;
    let steps = sections::read(text, words.after, Section::Events, limits, events)?;
    let asked = sections::read(text, steps.after, Section::Questions, limits, questions)?;
    test_end(text, asked.after)?;
    Ok(Counts {
        frames: limits.frames,
        processors: limits.processors,
        words: words.count,
        events: steps.count,
        questions: asked.count,
    })
}

// Each word of the pairs becomes its value.
#[tactic(auto, using(crate::proofs::Fills::pair_more, crate::proofs::Fills::pair_below, crate::proofs::Fills::pair_end))]
fn store_pairs(words: &mut [u64], pairs: &[u64])
    requires { WordsBelow (length words.old) pairs.now }
    ensures { words.new ≡ with_pairs pairs.now words.old }
{
    for pair in pairs.chunks_exact(2) {
        words[pair[0] as usize] = pair[1];
    }
}

// What the text says, before any buffer is touched: its sections are read into arrays of this function's own.
#[tactic(auto, using(crate::proofs::Fills::verdict_is))]
fn verdict(text: &[u8]) -> Result<Counts, TextFault>
    ensures { result_of result ≡ verdict_of (puzzle_of text.now) }
{
    let mut map = [0u64; sections::MOST_FRAMES];
    let mut cr3s = [0u64; sections::MOST_PROCESSORS];
    let mut pairs = [0u64; sections::PAIRS_SIZE];
    let mut events = [0u64; sections::EVENTS_SIZE];
    let mut questions = [0u64; sections::QUESTIONS_SIZE];
    read_sections(
        text,
        &mut map,
        &mut cr3s,
        &mut pairs,
        &mut events,
        &mut questions,
    )
}

// An accepted text is read once more, now into the lent buffers.
fn fill(
    text: &[u8],
    map: &mut [u64],
    cr3s: &mut [u64],
    words: &mut [u64],
    events: &mut [u64],
    questions: &mut [u64],
) -> Result<Counts, TextFault>
    requires { Lengths (buffers map.old cr3s.old words.old events.old questions.old) × (accepts (puzzle_of text.now) ≡ true) }
    ensures { after (result_of result) (buffers map.new cr3s.new words.new events.new questions.new) ≡ answer (puzzle_of text.now) (buffers map.old cr3s.old words.old events.old questions.old) }
{
    let mut pairs = [0u64; sections::PAIRS_SIZE];
    let counts = read_sections(text, map, cr3s, &mut pairs, events, questions)?;
    paging::zero(&mut words[..paging::FRAME_WORDS * counts.frames as usize]);
    store_pairs(words, &pairs[..counts.words as usize * 2]);
    Ok(counts)
}

// A text that is not too long, and buffers of the sizes that the programs take.
fn are_sized(
    text: &[u8],
    map: &[u64],
    cr3s: &[u64],
    words: &[u64],
    events: &[u64],
    questions: &[u64],
) -> bool
    ensures { result ≡ sized text.now (buffers map.now cr3s.now words.now events.now questions.now) }
{
    text.len() <= sections::TEXT_SIZE
        && map.len() == sections::MOST_FRAMES
        && cr3s.len() == sections::MOST_PROCESSORS
        && words.len() == sections::WORDS_SIZE
        && events.len() == sections::EVENTS_SIZE
        && questions.len() == sections::QUESTIONS_SIZE
}

// The text is judged first; only then is anything written, so that a refusal changes nothing.
// Kept: five buffers, here and in read_sections, fill, since the C interface lends them one by one (`flamecurl_read`).
// A function of its own when it runs too, as trainer's `put` is: its 128 KiB of pairs then stand on the stack while it reads alone.
#[inline(never)]
#[tactic(auto, using(crate::proofs::Calls::refused_answer), unfolding(crate::specs::Buffers::read_call))]
pub fn read(
    text: &[u8],
    map: &mut [u64],
    cr3s: &mut [u64],
    words: &mut [u64],
    events: &mut [u64],
    questions: &mut [u64],
) -> Result<Counts, TextFault>
    ensures { after (result_of result) (buffers map.new cr3s.new words.new events.new questions.new) ≡ read_call text.now (buffers map.old cr3s.old words.old events.old questions.old) }
{
    if !are_sized(text, map, cr3s, words, events, questions) {
        // line 0, as read_call of specs/Buffers says
        return Err(TextFault {
            refusal: Refusal::WrongSizes,
            line: 0,
        });
    }
    verdict(text)?;
    fill(text, map, cr3s, words, events, questions)
}
