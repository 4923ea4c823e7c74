// The words of the trade: requests, entries, walks, guest and host frames.
// Every shift and mask of the project stands here. Callers speak of indices, frames, rights and steps.
// The smallest functions are inlined always: measured, a call of each word or byte makes a list call up to a third slower (docs/BENCH.md).
#![tactic(auto)]

ghost use Rattle.std.specs.Prelude.{◌%◌, ◌≡◌, eqb, ltb, ◌<◌, ◌≤◌, ◌^◌, length, replicate};
ghost use Rattle.std.specs.List.{list_all, position};
ghost use Rattle.paging.specs.Numbers.{is_between};
ghost use Rattle.paging.specs.NotesCode.{noted_at, Noted};
ghost use Rattle.paging.specs.Frame.{host_of, origin_of, is_new, map_fits, cr3s_fit, host_address};
ghost use Rattle.paging.specs.Layout.{tables64, page_of, index, frame_of, rights_of, compose, is_present, with_bit, bit, frame_words, get, put};
ghost use Rattle.paging.specs.Walk.{base_of, start, narrowed, down_to, step, meet};
ghost use Rattle.paging.specs.Request.{request_of, enough, is_write};

use std::marker::Model;

// Rights in one number: W + 2 U + 4 X.
#[derive(Clone, Copy, Debug, PartialEq, Eq)]
pub struct Rights(u64);

impl Model for Rights {
    ghost use Rattle.std.specs.Prelude.{ℕ, ◌<◌};

    ghost Value = { ℕ };

    ghost view = { λ r. r.0 };

    ghost invariant = { λ r. r.0 < 8 };

    ghost inverse = { λ n. record { 0 = n } };
}

impl Rights {
    // The rights that both have.
    #[inline(always)]
    pub fn shared(self, other: Rights) -> Rights
        ensures { result ≡ meet self other }
    {
        Rights(self.0 & other.0)
    }

    // The rights in the three lowest bits of a number.
    #[inline(always)]
    pub fn of(number: u64) -> Rights
        ensures { result ≡ number % 8 }
    {
        Rights(number % 8)
    }

    pub fn all() -> Rights
        ensures { result ≡ 7 }
    {
        Rights(7)
    }

    // Kept: no From, which is no plainer: callers cite by its name the clause that the number is small.
    #[inline(always)]
    pub fn number(self) -> u64
        ensures number { result ≡ self }
        ensures small { result < 8 }
    {
        self.0
    }
}

// The rights that a request needs, and what it adds to a fault's code.
#[derive(Clone, Copy)]
pub struct Request {
    pub needs: Rights,
    pub adds: u64,
}

const REQUESTS: [Request; 6] = [
    Request {
        needs: Rights(0),
        adds: 0,
    },
    Request {
        needs: Rights(1),
        adds: 2,
    },
    Request {
        needs: Rights(4),
        adds: 16,
    },
    Request {
        needs: Rights(2),
        adds: 4,
    },
    Request {
        needs: Rights(3),
        adds: 6,
    },
    Request {
        needs: Rights(6),
        adds: 20,
    },
];

pub fn request_of(number: u64) -> Request
    requires { number < 6 }
    ensures { result ≡ request_of tables64 number }
{
    REQUESTS[number as usize]
}

// Whether a request is a write: it needs W.
pub fn is_write(q: &Request) -> bool
    ensures { result ≡ is_write q.now }
{
    let needs = q.needs;
    flag(needs.0, 0) == 1
}

#[inline(always)]
pub fn has_enough(q: &Request, rights: Rights) -> bool
    ensures { result ≡ enough q.now rights }
{
    let needs = q.needs;
    needs.0 & rights.0 == needs.0
}

const INDEX_BITS: u64 = 9;

const INDEX_MASK: u64 = (1 << INDEX_BITS) - 1;

// Kept: the level is a number with its bounds, since it counts down to 0, where a walk is complete.
pub fn index_of(page: u64, level: u64) -> usize
    requires { (1 ≤ level) × (level ≤ 4) }
    ensures { result ≡ index tables64 page level }
{
    ((page >> (INDEX_BITS * (level - 1))) & INDEX_MASK) as usize
}

pub fn page_of(a: u64) -> u64
    ensures { result ≡ page_of tables64 a }
{
    (a >> 12) & 0xF_FFFF_FFFF
}

pub fn is_allowed(a: u64) -> bool
    ensures { result ≡ tables64.allowed a }
{
    a < 0x8000_0000_0000 || a >= 0xFFFF_8000_0000_0000
}

#[inline(always)]
fn flag(e: u64, k: u64) -> u64
    requires { k < 64 }
    ensures { result ≡ bit e k }
{
    (e >> k) & 1
}

#[inline(always)]
pub fn present(e: u64) -> bool
    ensures { result ≡ is_present e }
{
    flag(e, 0) == 1
}

pub fn d_of(e: u64) -> u64
    ensures { result ≡ bit e 6 }
{
    flag(e, 6)
}

#[inline(always)]
pub fn frame_of(e: u64) -> u64
    ensures { result ≡ frame_of tables64 e }
{
    (e >> 12) & 0xFF_FFFF_FFFF
}

#[inline(always)]
pub fn rights_of(e: u64) -> Rights
    ensures { result ≡ rights_of tables64 e }
{
    Rights(flag(e, 1) | (flag(e, 2) << 1) | ((flag(e, 63) ^ 1) << 2))
}

// The entry with P and A, with these rights, D and frame.
pub fn composed(rights: Rights, d: u64, f: u64) -> u64
    requires { (d < 2) × (f < 2 ^ 40) }
    ensures { result ≡ compose tables64 rights d f }
{
    let rw = flag(rights.0, 0);
    let us = flag(rights.0, 1);
    let nx = flag(rights.0, 2) ^ 1;
    1 | (rw << 1) | (us << 2) | (1 << 5) | (d << 6) | (f << 12) | (nx << 63)
}

pub fn set_accessed(e: u64) -> u64
    ensures { result ≡ with_bit 5 e }
{
    e | (1 << 5)
}

pub fn set_dirty(e: u64) -> u64
    ensures { result ≡ with_bit 6 e }
{
    e | (1 << 6)
}

// ---- words

// "G frames of 512 words"
pub const FRAME_WORDS: usize = 512;

// Entry i of frame or table f; past the end it is absent.
// Kept: the frame is bounded at each call: a record's or an entry's frame is any number until it is judged.
#[inline(always)]
pub fn entry_at(words: &[u64], f: u64, i: usize) -> u64
    requires { (f < 2 ^ 40) × (i < frame_words) }
    ensures { result ≡ get tables64 words.now f i }
{
    let at = FRAME_WORDS * (f as usize) + i;
    if at < words.len() { words[at] } else { 0 }
}

pub fn write_entry(words: &mut [u64], f: u64, i: usize, e: u64)
    requires { (f < 2 ^ 40) × (i < frame_words) }
    ensures { words.new ≡ put tables64 words.old f i e }
{
    let at = FRAME_WORDS * (f as usize) + i;
    if at < words.len() {
        words[at] = e;
    }
}

// Kept: these two are std's `fill` and `copy_from_slice` under names of the project's own, which the must-fail edits ones_for_zeros and
// copies_nothing speak of.
pub fn zero(buffer: &mut [u64])
    ensures { buffer.new ≡ replicate (length buffer.old) 0 }
{
    buffer.fill(0);
}

pub fn copy(words: &mut [u64], start: &[u64])
    requires { length words.old ≡ length start.now }
    ensures { words.new ≡ start.now }
{
    words.copy_from_slice(start);
}

// ---- frames

#[derive(Clone, Copy)]
pub struct Guest(pub u64);

#[derive(Clone, Copy)]
pub struct Host(pub u64);

// Frames past the end of the map have host frame 0.
pub fn host_of(map: &[u64], g: Guest) -> Host
    ensures { result ≡ host_of map.now g }
{
    Host(map.get(g.0 as usize).copied().unwrap_or(0))
}

// "host frame × 4096 + address mod 4096"
pub fn host_address(h: Host, a: u64) -> u64
    requires { h.0 < 2 ^ 40 }
    ensures { result ≡ host_address h a }
{
    h.0 * 4096 + a % 4096
}

fn place_of(map: &[u64], f: u64) -> Option<usize>
    ensures { result ≡ position (λ x. eqb x f) map.now }
{
    map.iter().position(|&x| x == f)
}

// The guest frame behind a host frame, if there is one.
pub fn origin_of(map: &[u64], h: Host) -> Option<Guest>
    ensures { result ≡ origin_of map.now h }
{
    place_of(map, h.0).map(|i| Guest(i as u64))
}

// ---- numbers that fit

// Kept: std's `contains` under the name that specs/Numbers gives the fact; the must-fail edits refuses_what_fits of listing and
// share_past_the_range of tables name calls of it.
pub fn is_between(lo: u64, hi: u64, x: u64) -> bool
    ensures { result ≡ is_between lo hi x }
{
    (lo..=hi).contains(&x)
}

// None of the first n frames is f. Kept: n beside the map, as `is_new map n f` of specs/Frame has it.
pub fn is_new(map: &[u64], n: usize, f: u64) -> bool
    requires { n ≤ length map.now }
    ensures { result ≡ is_new map.now n f }
{
    !map[..n].contains(&f)
}

pub fn noted_at(f: u64) -> usize
    ensures { (result ≡ noted_at f) × (result < 4096) }
{
    ((f ^ (f >> 12)) & 0xFFF) as usize
}

// Only a frame whose place is noted already need be compared with those before it. Kept: n beside the map, as of is_new.
fn is_new_by(map: &[u64], notes: &[u8; 4096], n: usize, f: u64) -> bool
    requires { (n ≤ length map.now) × Noted map.now notes.now n }
    ensures { result ≡ is_new map.now n f }
{
    notes[noted_at(f)] != 1 || is_new(map, n, f)
}

// No frame repeats, and none is 2^40 or more. Notes make the test of most maps linear; what they held before does not matter.
// A function of its own when it runs too, so that the notes leave the stack before the state rules are asked.
#[inline(never)]
pub fn map_fits(map: &[u64]) -> bool
    ensures { result ≡ map_fits (2 ^ 40) map.now }
{
    let mut notes = [0u8; 4096];
    for (i, &f) in map.iter().enumerate() {
        if f >= 0x100_0000_0000 || !is_new_by(map, &notes, i, f) {
            return false;
        }
        notes[noted_at(f)] = 1;
    }
    true
}

fn are_below(xs: &[u64], limit: u64) -> bool
    ensures { result ≡ list_all (λ x. ltb x limit) xs.now }
{
    xs.iter().all(|&x| x < limit)
}

pub fn cr3s_fit(frames: u64, cr3s: &[u64]) -> bool
    ensures { result ≡ cr3s_fit frames cr3s.now }
{
    are_below(cr3s, frames)
}

// Where a walk stands: the level of its next entry (0: it is complete), the frame, the rights it has left.
#[derive(Clone, Copy)]
pub struct Walk {
    pub level: u64,
    pub frame: Guest,
    pub rights: Rights,
}

// Why a walk goes no further: P is 0; the frame is none of the guest's; it was complete before.
#[derive(Clone, Copy, Debug, PartialEq, Eq)]
pub enum Stop {
    Absent,
    Beyond,
    Complete,
}

impl Stop {
    // The base code of the fault that a walk gives which stops so; one that is complete lacks a right. Kept: no From, since a code is
    // not the stop as a number.
    pub fn base_code(self) -> u64
        ensures { result ≡ base_of self }
    {
        match self {
            Stop::Absent => 0,
            Stop::Beyond => 9,
            Stop::Complete => 1,
        }
    }
}

// What a walk does at an entry: it goes on, or it stops.
pub type Step = Result<Walk, Stop>;

impl Walk {
    pub fn start(cr3: Guest) -> Walk
        ensures { result ≡ start tables64 cr3 }
    {
        Walk {
            level: 4,
            frame: cr3,
            rights: Rights::all(),
        }
    }

    fn narrow(self, e: u64) -> Walk
        ensures { result ≡ narrowed tables64 self e }
    {
        Walk {
            rights: self.rights.shared(rights_of(e)),
            ..self
        }
    }

    fn down_to(self, f: Guest) -> Walk
        requires { 1 ≤ self.level }
        ensures { result ≡ down_to self f }
    {
        Walk {
            level: self.level - 1,
            frame: f,
            ..self
        }
    }

    pub fn step(self, e: u64, frames: u64) -> Step
        ensures { result ≡ step tables64 frames self e }
    {
        let f = frame_of(e);
        if self.level == 0 {
            return Err(Stop::Complete);
        }
        if !present(e) {
            return Err(Stop::Absent);
        }
        if f >= frames {
            return Err(Stop::Beyond);
        }
        Ok(self.narrow(e).down_to(Guest(f)))
    }
}
