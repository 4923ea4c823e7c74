// The eight slots of a processor: the lowest that serves, and the flush of a page.
#![tactic(auto)]

ghost use Rattle.std.specs.Prelude.{◌≡◌, ◌^◌, ◌<◌, ◌≤◌, MatchOption};
ghost use Rattle.slots.specs.Slots.{slot_count, HasSlots, slot_at, slot_of, with_slot, emptied, slot_serves, serving_slot, goes_with, flushed, flush, empty_slots};

use paging::{Request, Rights};

// What a slot says: its mark (0 empty, 1 complete, level + 1 partial), its page, and the place and rights of its walk.
// Kept: the mark is a number of the buffer that C lends, and slot_right of lawful's specs/Rules judges marks above 5 too.
#[derive(Clone, Copy)]
pub struct Slot {
    pub mark: u64,
    pub page: u64,
    pub place: u64,
    pub rights: Rights,
}

// "8 hardware TLB slots", of three numbers each: 24 numbers to a processor.
pub const SLOTS: u64 = 8;

const SLOT_SIZE: u64 = 3;

pub const SLOTS_SIZE: u64 = SLOTS * SLOT_SIZE;

// Where slot k of p stands: its mark, its page, and its place and rights.
pub fn slot_at(p: u64, k: u64) -> usize
    requires { (p < 4) × (k < slot_count) }
    ensures { result ≡ slot_at p k }
{
    (SLOTS_SIZE * p + SLOT_SIZE * k) as usize
}

// What slot k of p says; k is a number below 8 that the loops count.
// Kept, here and below: the whole list with p and k, as with_slot, flush and slot_right of specs/ take them; a struct of a
// &mut adds to every contract that reference and length stay.
pub fn slot_of(slots: &[u64], p: u64, k: u64) -> Slot
    requires { HasSlots p slots.now × (k < slot_count) }
    ensures { result ≡ slot_of slots.now p k }
{
    let at = slot_at(p, k);
    Slot {
        mark: slots[at],
        page: slots[at + 1],
        place: slots[at + 2] / 8,
        rights: Rights::of(slots[at + 2]),
    }
}

pub fn set_slot(slots: &mut [u64], p: u64, k: u64, s: Slot)
    requires { HasSlots p slots.old × (k < slot_count) × (s.place < 2 ^ 40) }
    ensures { slots.new ≡ with_slot p k s.mark s.page s.place s.rights slots.old }
{
    let at = slot_at(p, k);
    slots[at] = s.mark;
    slots[at + 1] = s.page;
    slots[at + 2] = s.place * 8 + s.rights.number();
}

pub fn empty_slot(slots: &mut [u64], p: u64, k: u64)
    requires { HasSlots p slots.old × (k < slot_count) }
    ensures { slots.new ≡ emptied p k slots.old }
{
    let empty = Slot {
        mark: 0,
        page: 0,
        place: 0,
        rights: Rights::of(0),
    };
    set_slot(slots, p, k, empty);
}

fn slot_serves(slots: &[u64], p: u64, page: u64, q: &Request, k: u64) -> bool
    requires { HasSlots p slots.now × (k < slot_count) }
    ensures { result ≡ slot_serves slots.now p page q.now k }
{
    let s = slot_of(slots, p, k);
    s.mark == 1 && s.page == page && paging::has_enough(q, s.rights)
}

// The lowest slot with a complete walk of the page and enough rights.
pub fn serving_slot(slots: &[u64], p: u64, page: u64, q: &Request) -> Option<u64>
    requires { HasSlots p slots.now }
    ensures { MatchOption result (slot_count ≤ serving_slot slots.now p page q.now) (λ k. (k < slot_count) × (k ≡ serving_slot slots.now p page q.now)) }
{
    (0..SLOTS).find(|&k| slot_serves(slots, p, page, q, k))
}

// Whether a flush of the page empties slot k: a partial one always goes.
fn goes_with(slots: &[u64], p: u64, page: u64, k: u64) -> bool
    requires { HasSlots p slots.now × (k < slot_count) }
    ensures { result ≡ goes_with slots.now p page k }
{
    let s = slot_of(slots, p, k);
    s.mark > 1 || s.mark == 1 && s.page == page
}

#[tactic(auto, unfolding(crate::specs::Slots::flushed))]
fn flush_slot(slots: &mut [u64], p: u64, page: u64, k: u64)
    requires { HasSlots p slots.old × (k < slot_count) }
    ensures { slots.new ≡ flushed p page k slots.old }
{
    if goes_with(slots, p, page, k) {
        empty_slot(slots, p, k);
    }
}

// Empties p's partial slots and its complete slots of the page.
#[tactic(auto, using(paging::proofs::Numbers::each_none, paging::proofs::Numbers::each_more), unfolding(crate::specs::Slots::flush))]
pub fn flush(slots: &mut [u64], p: u64, page: u64)
    requires { HasSlots p slots.old }
    ensures { slots.new ≡ flush p page slots.old }
{
    for k in 0..SLOTS {
        flush_slot(slots, p, page, k);
    }
}

#[tactic(auto, using(paging::proofs::Numbers::each_none, paging::proofs::Numbers::each_more), unfolding(crate::specs::Slots::empty_slots))]
pub fn empty_slots(slots: &mut [u64], p: u64)
    requires { HasSlots p slots.old }
    ensures { slots.new ≡ empty_slots p slots.old }
{
    for slot in 0..SLOTS {
        empty_slot(slots, p, slot);
    }
}
