// The shadow is filled from the root, after a walk of the guest's tables that was granted.
ghost use Rattle.std.specs.Prelude.{◌≡◌, ◌<◌};
ghost use Rattle.tables.specs.State.{shadow_of, state_of, machine64};
ghost use Rattle.shadow.specs.Fill.{fill};
ghost use Rattle.shadow.specs.ReadyCode.{Ready};

use tables::{Ranged, Spot};

#[tactic(auto, unfolding(crate::specs::Fill::fill))]
pub fn fill(
    map: &[u64],
    words: &[u64],
    pool: &mut [u64],
    records: &mut [u64],
    slots: &mut [u64],
    m: Ranged,
    p: u64,
    page: u64,
)
    requires { Ready m.sizes map.now records.old slots.old p }
    ensures { state_of words.now (shadow_of pool.new records.new) slots.new ≡ fill (machine64 m.sizes) map.now p page (state_of words.now (shadow_of pool.old records.old) slots.old) }
{
    let root = tables::root_of(m, p);
    let cr3 = tables::shadowed_by(records, root);
    let top = Spot {
        missing: 3,
        table: root,
        frame: cr3,
    };
    let mut from = tables::settle(words, pool, records, m, page, top);
    if tables::count_free(records, m, p) < from.missing {
        tables::empty_share(pool, records, m, p);
        slots::empty_slots(slots, p);
        from = top;
    }
    tables::build_path(map, words, pool, records, m, p, page, from);
    slots::flush(slots, p, page);
}
