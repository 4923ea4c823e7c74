// The held walks of one processor and one page, as bytes that a caller lends: marked, followed, forgotten.
// A walk has at most one extension, so closing under extension is following a chain.
#![tactic(auto)]

ghost use Rattle.std.specs.Prelude.{◌≡◌, ◌*◌, ◌≤◌, ◌<◌, length};
ghost use Rattle.paging.specs.Layout.{tables64, frame_words};
ghost use Rattle.held.specs.Work.{cell, work_bytes, HasByte};
ghost use Rattle.held.specs.FollowCode.{step_in, followed, reread, reread_all, reread_at, reread_word, restarted, Room};
ghost use Rattle.paging.specs.declared.Guest.{Guest};

use paging::{Guest, Rights, Step, Walk};

const WORDS: u64 = paging::FRAME_WORDS as u64;

// The page that is asked about, in a guest of so many frames. Kept, below: words and work stay slices under `Room`; in a struct of
// a `&mut` every contract would have to add that reference and length stay.
#[derive(Clone, Copy)]
pub struct AskedPage {
    pub frames: u64,
    pub page: u64,
}

pub fn cell_of(frames: u64, w: &Walk) -> usize
    requires { (frames ≤ 256) × HasByte frames w.now }
    ensures { result ≡ cell frames w.now }
{
    let row = w.level * frames + w.frame.0;
    (row * 8 + w.rights.number()) as usize
}

pub fn next(words: &[u64], at: AskedPage, w: Walk) -> Step
    requires { (length words.now ≡ frame_words * at.frames) × HasByte at.frames w }
    ensures { result ≡ step_in tables64 at.frames at.page words.now w }
{
    let level = w.level;
    if level == 0 {
        return w.step(0, at.frames);
    }
    let i = (WORDS * w.frame.0) as usize + paging::index_of(at.page, level);
    w.step(words[i], at.frames)
}

// Marks w and all it goes on to; a marked walk ends it, since what that goes on to is marked or will be read again.
fn follow(words: &[u64], work: &mut [u8], at: AskedPage, from: Walk)
    requires { Room at.frames words.now work.old × HasByte at.frames from }
    ensures { work.new ≡ followed tables64 at.frames at.page words.now from work.old }
{
    let mut w = from;
    // Kept: a loop, since each walk is what the one before goes on to, and a marked one ends it too.
    loop {
        let k = cell_of(at.frames, &w);
        if work[k] == 1 {
            return;
        }
        work[k] = 1;
        let Ok(on) = next(words, at, w) else {
            return;
        };
        w = on;
    }
}

// Follows what a marked walk goes on to now.
fn reread(words: &[u64], work: &mut [u8], at: AskedPage, w: Walk)
    requires { Room at.frames words.now work.old × HasByte at.frames w }
    ensures { work.new ≡ reread tables64 at.frames at.page words.now w work.old }
{
    let k = cell_of(at.frames, &w);
    if work[k] != 1 {
        return;
    }
    let Ok(on) = next(words, at, w) else {
        return;
    };
    follow(words, work, at, on);
}

fn reread_all(words: &[u64], work: &mut [u8], at: AskedPage, level: u64, f: u64)
    requires { Room at.frames words.now work.old × (level ≤ 4) × (f < at.frames) }
    ensures { work.new ≡ reread_all tables64 at.frames at.page words.now level f work.old }
{
    for rights in 0..8 {
        let w = Walk {
            level,
            frame: Guest(f),
            rights: Rights::of(rights),
        };
        reread(words, work, at, w);
    }
}

fn reread_at(words: &[u64], work: &mut [u8], at: AskedPage, a: u64, level: u64)
    requires { Room at.frames words.now work.old × (1 ≤ level) × (level ≤ 4) × (a < frame_words * at.frames) }
    ensures { work.new ≡ reread_at tables64 at.frames at.page words.now a level work.old }
{
    if paging::index_of(at.page, level) == (a % WORDS) as usize {
        reread_all(words, work, at, level, a / WORDS);
    }
}

// Word a was stored: the walks that stand on it are followed again, from the upper level down.
pub fn reread_word(words: &[u64], work: &mut [u8], at: AskedPage, a: u64)
    requires { Room at.frames words.now work.old × (a < frame_words * at.frames) }
    ensures { work.new ≡ reread_word tables64 at.frames at.page words.now a 4 work.old }
{
    for level in (1..=4).rev() {
        reread_at(words, work, at, a, level);
    }
}

// Walks from byte `from` on are forgotten; the walk from the root begins anew. Kept: from beside work, as `restarted` of specs/ has it.
pub fn restart(words: &[u64], work: &mut [u8], at: AskedPage, from: usize, cr3: Guest)
    requires { Room at.frames words.now work.old × (from ≤ work_bytes at.frames) × (cr3.0 < at.frames) }
    ensures { work.new ≡ restarted tables64 at.frames at.page words.now from cr3 work.old }
{
    work[from..(40 * at.frames) as usize].fill(0);
    follow(words, work, at, Walk::start(cr3));
}
