// What setup and the event call test before they act: the lowest number that is due.
ghost use Rattle.std.specs.Prelude.{◌≡◌, true, false, not, ◌&&◌, [], ◌*◌, ◌≤◌, length, get_or, MatchOption, IfOk};
ghost use Rattle.paging.specs.Numbers.{all};
ghost use Rattle.rules.specs.Refusal.{refusal_of};
ghost use Rattle.tables.specs.State.{shadow_of, state_of, machine64};
ghost use Rattle.shadow.specs.Refusals.{ranges_fit, lengths_fit, in_pool, frames_fit, call_refusal, setup_refusal};

use rules::{Event, Refusal};
use tables::{Ranged, Sizes};

#[tactic(auto, unfolding(crate::specs::Refusals::ranges_fit))]
fn ranges_fit(z: Sizes) -> bool
    ensures { result ≡ ranges_fit (machine64 z) }
{
    paging::is_between(1, 256, z.frames)
        && paging::is_between(1, 4, z.processors)
        && paging::is_between(4, 16, z.share)
}

#[tactic(auto, unfolding(crate::specs::Refusals::lengths_fit))]
fn lengths_fit(map: &[u64], pool: &[u64], records: &[u64], slots: &[u64], z: Sizes) -> bool
    requires { (z.processors ≤ 4) × (z.processors * z.share ≤ 64) }
    ensures { result ≡ lengths_fit (machine64 z) map.now (shadow_of pool.now records.now) slots.now }
{
    let tables = (z.processors * z.share) as usize;
    map.len() as u64 == z.frames
        && pool.len() == paging::FRAME_WORDS * tables
        && records.len() == tables::RECORD * tables
        && slots.len() as u64 == slots::SLOTS_SIZE * z.processors
}

fn sizes_fit(map: &[u64], pool: &[u64], records: &[u64], slots: &[u64], z: Sizes) -> bool
    ensures { result ≡ (ranges_fit (machine64 z) && lengths_fit (machine64 z) map.now (shadow_of pool.now records.now) slots.now) }
{
    ranges_fit(z) && lengths_fit(map, pool, records, slots, z)
}

#[tactic(auto, unfolding(crate::specs::Refusals::in_pool))]
fn in_pool(m: Ranged, f: u64) -> bool
    ensures { result ≡ in_pool (machine64 m.sizes) f }
{
    let base = m.sizes.base;
    (base..base + tables::table_count(m)).contains(&f)
}

fn outside_pool(map: &[u64], m: Ranged) -> bool
    ensures { result ≡ all (length map.now) (λ i. not (in_pool (machine64 m.sizes) (get_or map.now i 0))) }
{
    map.iter().all(|f| !in_pool(m, *f))
}

#[tactic(auto, using(crate::proofs::Accepted::pool_sized), unfolding(crate::specs::Refusals::frames_fit))]
fn frames_fit(map: &[u64], m: Ranged) -> bool
    ensures { result ≡ frames_fit (machine64 m.sizes) map.now }
{
    paging::map_fits(map) && outside_pool(map, m)
}

// The sizes as ones in range, if pool and map fit them.
#[tactic(auto, using(crate::proofs::Accepted::fits_unsized))]
fn fit_frames(map: &[u64], z: Sizes) -> Option<Ranged>
    requires { ranges_fit (machine64 z) ≡ true }
    ensures { MatchOption result (frames_fit (machine64 z) map.now ≡ false) (λ m. (m.sizes ≡ z) × (frames_fit (machine64 z) map.now ≡ true)) }
{
    let m = Ranged::of(z)?;
    frames_fit(map, m).then_some(m)
}

// The sizes in range of an event call that is accepted; else the lowest refusal that is due.
#[tactic(auto, unfolding(crate::specs::Refusals::call_refusal, rules::specs::Refusal::refusal))]
pub fn test_call(
    map: &[u64],
    words: &[u64],
    pool: &[u64],
    records: &[u64],
    slots: &[u64],
    z: Sizes,
    e: Event,
) -> Result<Ranged, Refusal>
    ensures same { IfOk result (λ m. m.sizes ≡ z) }
    ensures refusal { refusal_of result ≡ call_refusal (machine64 z) map.now (state_of words.now (shadow_of pool.now records.now) slots.now) e }
{
    rules::unless(sizes_fit(map, pool, records, slots, z), Refusal::WrongSizes)?;
    let long = words.len() == paging::FRAME_WORDS * z.frames as usize;
    rules::unless(long, Refusal::WrongSizes)?;
    let m = fit_frames(map, z).ok_or(Refusal::WrongMap)?;
    let lawful = lawful::is_lawful(map, pool, records, slots, m);
    rules::unless(lawful, Refusal::Unlawful)?;
    rules::test_event(z.frames, z.processors, e)?;
    rules::unless(z.share > 3, Refusal::TooFewTables)?;
    Ok(m)
}

// The sizes in range of a setup that is accepted; else the lowest refusal that is due.
#[tactic(auto, unfolding(crate::specs::Refusals::setup_refusal, rules::specs::Refusal::refusal))]
pub fn test_setup(
    map: &[u64],
    cr3s: &[u64],
    pool: &[u64],
    records: &[u64],
    slots: &[u64],
    z: Sizes,
) -> Result<Ranged, Refusal>
    ensures same { IfOk result (λ m. m.sizes ≡ z) }
    ensures refusal { refusal_of result ≡ setup_refusal (machine64 z) map.now cr3s.now (state_of [] (shadow_of pool.now records.now) slots.now) }
{
    rules::unless(sizes_fit(map, pool, records, slots, z), Refusal::WrongSizes)?;
    rules::unless(cr3s.len() as u64 == z.processors, Refusal::WrongSizes)?;
    let m = fit_frames(map, z).ok_or(Refusal::WrongMap)?;
    rules::unless(paging::cr3s_fit(z.frames, cr3s), Refusal::NoFrame)?;
    Ok(m)
}
