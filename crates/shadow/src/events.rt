// Every event but access: store, INVLPG, CR3 write, begin, extend, drop.
ghost use Rattle.std.specs.Prelude.{◌≡◌, List, ℕ, ◌<◌, ◌≤◌, length};
ghost use Rattle.slots.specs.Slots.{slot_count, HasSlots};
ghost use Rattle.tables.specs.State.{Shadow, shadow_of, state_of, machine64};
ghost use Rattle.tables.specs.SizesCode.{Room};
ghost use Rattle.shadow.specs.Answer.{gives};
ghost use Rattle.shadow.specs.Moves.{after_store, leaf_cleared, after_invlpg, after_cr3, after_begin, place_below, after_extend, after_drop};
ghost use Rattle.shadow.specs.ReadyCode.{Owner, Standing};

use crate::Answer;
use paging::{Guest, Host, Rights};
use slots::Slot;
use tables::Ranged;

pub fn store(words: &mut [u64], a: u64, b: u64) -> Answer
    requires { a < length words.old }
    ensures { (h : Shadow) (l : List ℕ) → gives result (state_of words.new h l) ≡ after_store a b (state_of words.old h l) }
{
    words[a as usize] = b;
    Answer::Done
}

// Clears the page's level 1 entry, if one is reached.
#[tactic(auto, unfolding(crate::specs::Moves::leaf_cleared))]
fn clear_leaf(pool: &mut [u64], m: Ranged, p: u64, page: u64)
    requires { p < m.sizes.processors }
    ensures { pool.new ≡ leaf_cleared (machine64 m.sizes) p page pool.old }
{
    let w = tables::path_to(pool, m, p, page, 1);
    if w.table < tables::table_count(m) {
        paging::write_entry(pool, w.table, paging::index_of(page, 1), 0);
    }
}

#[tactic(auto, unfolding(crate::specs::Moves::after_invlpg))]
pub fn invlpg(pool: &mut [u64], slots: &mut [u64], m: Ranged, p: u64, a: u64) -> Answer
    requires { Owner m.sizes slots.old p }
    ensures { (w records : List ℕ) → gives result (state_of w (shadow_of pool.new records) slots.new) ≡ after_invlpg (machine64 m.sizes) p a (state_of w (shadow_of pool.old records) slots.old) }
{
    let page = paging::page_of(a);
    clear_leaf(pool, m, p, page);
    slots::flush(slots, p, page);
    Answer::Done
}

#[tactic(auto, unfolding(crate::specs::Moves::after_cr3))]
pub fn write_cr3(
    pool: &mut [u64],
    records: &mut [u64],
    slots: &mut [u64],
    m: Ranged,
    p: u64,
    f: u64,
) -> Answer
    requires owner { Owner m.sizes slots.old p }
    requires room { Room m.sizes records.old }
    ensures { (w : List ℕ) → gives result (state_of w (shadow_of pool.new records.new) slots.new) ≡ after_cr3 (machine64 m.sizes) p f (state_of w (shadow_of pool.old records.old) slots.old) }
{
    tables::empty_share(pool, records, m, p);
    tables::set_record(records, tables::root_of(m, p), 4, Guest(f));
    slots::empty_slots(slots, p);
    Answer::Done
}

#[tactic(auto, unfolding(crate::specs::Moves::after_begin))]
pub fn begin(slots: &mut [u64], m: Ranged, p: u64, a: u64, k: u64) -> Answer
    requires owner { Owner m.sizes slots.old p }
    requires slot { k < slot_count }
    ensures { (w : List ℕ) (h : Shadow) → gives result (state_of w h slots.new) ≡ after_begin (machine64 m.sizes) p a k (state_of w h slots.old) }
{
    let whole = Slot {
        mark: 5,
        page: paging::page_of(a),
        place: tables::root_of(m, p),
        rights: Rights::all(),
    };
    slots::set_slot(slots, p, k, whole);
    Answer::Done
}

#[tactic(auto, unfolding(crate::specs::Moves::after_drop))]
pub fn drop_slot(slots: &mut [u64], p: u64, k: u64) -> Answer
    requires { HasSlots p slots.old × (k < slot_count) }
    ensures { (w : List ℕ) (h : Shadow) → gives result (state_of w h slots.new) ≡ after_drop p k (state_of w h slots.old) }
{
    slots::empty_slot(slots, p, k);
    Answer::Done
}

// Where a walk moves to from an entry of a level: the guest frame or the table, if there is one.
#[tactic(auto, unfolding(crate::specs::Moves::place_below))]
fn place_below(map: &[u64], m: Ranged, level: u64, e: u64) -> Option<u64>
    ensures { result ≡ place_below (machine64 m.sizes) map.now level e }
{
    if level == 1 {
        return paging::origin_of(map, Host(paging::frame_of(e))).map(|g| g.0);
    }
    tables::named_by(m, e)
}

#[tactic(auto, unfolding(crate::specs::Moves::after_extend))]
pub fn extend(map: &[u64], pool: &[u64], slots: &mut [u64], m: Ranged, p: u64, k: u64) -> Answer
    requires owner { Owner m.sizes slots.old p }
    requires slot { k < slot_count }
    requires guests { length map.now ≤ 256 }
    requires stands { Standing slots.old p k }
    ensures { (w records : List ℕ) → gives result (state_of w (shadow_of pool.now records) slots.new) ≡ after_extend (machine64 m.sizes) map.now p k (state_of w (shadow_of pool.now records) slots.old) }
{
    let slot = slots::slot_of(slots, p, k);
    if slot.mark < 2 {
        return Answer::NoStep;
    }
    let level = slot.mark - 1;
    let e = paging::entry_at(pool, slot.place, paging::index_of(slot.page, level));
    if !paging::present(e) {
        return Answer::NoStep;
    }
    let Some(place) = place_below(map, m, level, e) else {
        return Answer::NoStep;
    };
    let rights = slot.rights.shared(paging::rights_of(e));
    let below = Slot {
        mark: level,
        place,
        rights,
        ..slot
    };
    slots::set_slot(slots, p, k, below);
    Answer::Done
}
