// A guest of 256 frames and events on 4 processors, all drawn, for the largest list call.
// Entries and stores keep to sixteen frames, 0, 17, .., 255, so that walks change often; 272 is beyond the guest.
// Kept: an event's kind is a number here and no `rules::Kind`: it goes into the buffer as a number, and an enum would only be written
// back as one.
use crate::draw::Draws;

const MAP_BASE: u64 = 1000;

// Indices 1, 2, 3 and 4, offset 5.
pub const ADDRESS: u64 = (1 << 39) + (2 << 30) + (3 << 21) + (4 << 12) + 5;

// The flags of an entry: mostly all rights; no US, no RW, no P, NX.
const FLAGS: [u64; 8] = [7, 7, 7, 7, 3, 5, 6, 0x8000_0000_0000_0007];

fn entry(h: u64) -> u64 {
    (17 * (h % 17)) << 12 | FLAGS[(h / 17 % 8) as usize]
}

// Stores mostly; of each other kind one in 64.
fn kind(h: u64) -> u64 {
    match h % 64 {
        k @ 1..=7 => k,
        _ => 1,
    }
}

// Word, address or the page after it, frame, slot.
fn first_number(kind: u64, h: u64) -> u64 {
    match kind {
        1 => 512 * (17 * (h % 16)) + 1 + h / 16 % 4,
        3 => 17 * (h % 16),
        6 | 7 => h % 8,
        _ => ADDRESS + 4096 * (h % 2),
    }
}

fn second_number(kind: u64, h: u64) -> u64 {
    match kind {
        1 => entry(h),
        4 => h % 6,
        5 => h % 8,
        _ => 0,
    }
}

// Processor, kind, and the two numbers that the kind asks for.
fn event(draws: &mut Draws) -> [u64; 4] {
    let proc = draws.high() % 4;
    let kind = kind(draws.high());
    let first = first_number(kind, draws.high());
    let second = second_number(kind, draws.high());
    [proc, kind, first, second]
}

// As many numbers as there is room for: the last event may be cut short.
pub fn put_events(numbers: &mut [u64]) {
    let mut draws = Draws::new(1);
    let (events, rest) = numbers.as_chunks_mut::<4>();
    events.fill_with(|| event(&mut draws));
    let last = event(&mut draws);
    rest.copy_from_slice(&last[..rest.len()]);
}

pub fn put_entries(words: &mut [u64]) {
    let mut draws = Draws::new(6);
    words.fill_with(|| entry(draws.high()));
}

pub fn put_map(map: &mut [u64]) {
    for (i, frame) in map.iter_mut().enumerate() {
        *frame = MAP_BASE.wrapping_add(i as u64);
    }
}
