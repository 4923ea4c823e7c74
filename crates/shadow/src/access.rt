// Access: a slot answers, or a shadow path, or the guest's tables are walked.
ghost use Rattle.std.specs.Prelude.{◌≡◌, ◌&&◌, ◌+◌, ◌<◌, ◌≤◌};
ghost use Rattle.paging.specs.Layout.{tables64, rights_of, is_present};
ghost use Rattle.paging.specs.Request.{enough};
ghost use Rattle.paging.specs.Walk.{meet};
ghost use Rattle.tables.specs.State.{shadow_of, state_of, machine64};
ghost use Rattle.shadow.specs.Answer.{gives};
ghost use Rattle.shadow.specs.Access.{after_miss, after_access};
ghost use Rattle.shadow.specs.ReadyCode.{Ready};

use crate::{Answer, fill};
use guest::Walked;
use paging::{Guest, Host, Request, Stop};
use tables::{Path, Ranged};

// Neither slot nor shadow answers: the guest's tables are walked.
#[tactic(auto, unfolding(crate::specs::Access::after_miss))]
fn miss(
    map: &[u64],
    words: &mut [u64],
    pool: &mut [u64],
    records: &mut [u64],
    slots: &mut [u64],
    m: Ranged,
    p: u64,
    page: u64,
    q: &Request,
) -> Answer
    requires ready { Ready m.sizes map.now records.old slots.old p }
    requires adds_bound { q.now.adds ≤ 20 }
    ensures { gives result (state_of words.new (shadow_of pool.new records.new) slots.new) ≡ after_miss (machine64 m.sizes) map.now p page q.now (state_of words.old (shadow_of pool.old records.old) slots.old) }
{
    let cr3 = tables::shadowed_by(records, tables::root_of(m, p));
    match guest::walk_guest(words, m.sizes.frames, cr3, page) {
        Err(stop) => Answer::Fault(stop.base_code() + q.adds),
        Ok(Walked { last, walk }) => {
            if !paging::has_enough(q, walk.rights) {
                return Answer::Fault(Stop::Complete.base_code() + q.adds);
            }
            guest::set_d(words, q, page, last);
            fill::fill(map, words, pool, records, slots, m, p, page);
            Answer::Again
        }
    }
}

fn path_serves(w: Path, e: u64, q: &Request) -> bool
    ensures { result ≡ (is_present e && enough q.now (meet w.rights (rights_of tables64 e))) }
{
    paging::present(e) && paging::has_enough(q, w.rights.shared(paging::rights_of(e)))
}

#[tactic(auto, unfolding(crate::specs::Access::after_access))]
pub fn access(
    map: &[u64],
    words: &mut [u64],
    pool: &mut [u64],
    records: &mut [u64],
    slots: &mut [u64],
    m: Ranged,
    p: u64,
    a: u64,
    request: u64,
) -> Answer
    requires ready { Ready m.sizes map.now records.old slots.old p }
    requires request_bound { request < 6 }
    ensures { gives result (state_of words.new (shadow_of pool.new records.new) slots.new) ≡ after_access (machine64 m.sizes) map.now p a request (state_of words.old (shadow_of pool.old records.old) slots.old) }
{
    let page = paging::page_of(a);
    let q = paging::request_of(request);
    if let Some(k) = slots::serving_slot(slots, p, page, &q) {
        let place = Guest(slots::slot_of(slots, p, k).place);
        return Answer::Address(paging::host_address(paging::host_of(map, place), a));
    }
    let w = tables::path_to(pool, m, p, page, 1);
    let e = paging::entry_at(pool, w.table, paging::index_of(page, 1));
    if path_serves(w, e, &q) {
        return Answer::Address(paging::host_address(Host(paging::frame_of(e)), a));
    }
    miss(map, words, pool, records, slots, m, p, page, &q)
}
