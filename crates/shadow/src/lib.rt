// The machine: setup, and one call for each event. What is refused, what each event does and how access and the fill of
// the shadow go stand in a file each.
#![tactic(auto)]

mod access;
mod events;
mod fill;
mod refusals;

ghost use Rattle.std.specs.Prelude.{◌≡◌, [], length};
ghost use Rattle.rules.specs.Numbers.{kind_number};
ghost use Rattle.tables.specs.State.{shadow_of, state_of, machine64};
ghost use Rattle.shadow.specs.Answer.{by_number, refusal_of, kind_of, value_of, replies, gives};
ghost use Rattle.shadow.specs.Moves.{decode};
ghost use Rattle.shadow.specs.After.{moved, after};
ghost use Rattle.shadow.specs.Setup.{rooted, after_setup};
ghost use Rattle.shadow.specs.ReadyCode.{Ready, Fitting};
ghost use Rattle.tables.specs.SizesCode.{Room};

use paging::Guest;
use rules::{Event, Kind, Refusal};
use tables::{Ranged, Sizes};

// "Answer: refusal, kind (0 done, 1 address, 2 guest fault, 3 again, 4 no step), value"; `refusal_of`, `kind_of` and
// `value_of` of specs/Answer give these numbers.
#[derive(Clone, Copy, Debug, PartialEq, Eq)]
pub enum Answer {
    Done,
    Address(u64),
    Fault(u64),
    Again,
    NoStep,
}

// An answer with its refusal as the number of document 01.
pub fn by_number(a: Result<Answer, Refusal>) -> Result<Answer, u64>
    ensures { result ≡ by_number a }
{
    a.map_err(u64::from)
}

// Kept, here and in kind_of and value_of: public functions of their own, whose numbers are the C interface's answer. They
// take any refused number, also one that no call gives.
pub fn refusal_of(a: Result<Answer, u64>) -> u64
    ensures { result ≡ refusal_of a }
{
    match a {
        Ok(_) => 0,
        Err(number) => number,
    }
}

pub fn kind_of(a: Result<Answer, u64>) -> u64
    ensures { result ≡ kind_of a }
{
    match a {
        Ok(Answer::Address(_)) => 1,
        Ok(Answer::Fault(_)) => 2,
        Ok(Answer::Again) => 3,
        Ok(Answer::NoStep) => 4,
        Ok(Answer::Done) | Err(_) => 0,
    }
}

pub fn value_of(a: Result<Answer, u64>) -> u64
    ensures { result ≡ value_of a }
{
    match a {
        Ok(Answer::Address(value) | Answer::Fault(value)) => value,
        Ok(Answer::Done | Answer::Again | Answer::NoStep) | Err(_) => 0,
    }
}

// ---- the event call

// What an event does that was accepted. Its kind comes beside e, which keeps the number: the contract speaks of e's alone.
// Kept: the buffers as parameters, here and in access, fill and events (tried: a struct of borrows with methods; of a
// buffer that a method passes on as &, a proof then knows the length alone); in refusals, as the C interface's calls have them.
#[tactic(auto, unfolding(crate::specs::After::moved))]
fn take_step(
    map: &[u64],
    words: &mut [u64],
    pool: &mut [u64],
    records: &mut [u64],
    slots: &mut [u64],
    m: Ranged,
    kind: Kind,
    e: Event,
) -> Answer
    requires ready { Ready m.sizes map.now records.old slots.old e.proc }
    requires kind { kind_number kind ≡ e.kind }
    requires fitting { Fitting words.old slots.old e }
    ensures { gives result (state_of words.new (shadow_of pool.new records.new) slots.new) ≡ moved (machine64 m.sizes) map.now e.proc (decode e) (state_of words.old (shadow_of pool.old records.old) slots.old) }
{
    let p = e.proc;
    match kind {
        Kind::Store => events::store(words, e.a, e.b),
        Kind::Invlpg => events::invlpg(pool, slots, m, p, e.a),
        Kind::Cr3Write => events::write_cr3(pool, records, slots, m, p, e.a),
        Kind::Access => access::access(map, words, pool, records, slots, m, p, e.a, e.b),
        Kind::Begin => events::begin(slots, m, p, e.a, e.b),
        Kind::Extend => events::extend(map, pool, slots, m, p, e.a),
        Kind::Drop => events::drop_slot(slots, p, e.a),
    }
}

// One event. A refusal changes nothing.
#[tactic(auto, using(crate::proofs::Accepted::ready, crate::proofs::Accepted::fitting), unfolding(crate::specs::After::after))]
pub fn event(
    map: &[u64],
    words: &mut [u64],
    pool: &mut [u64],
    records: &mut [u64],
    slots: &mut [u64],
    z: Sizes,
    e: Event,
) -> Result<Answer, Refusal>
    ensures { replies (by_number result) (state_of words.new (shadow_of pool.new records.new) slots.new) ≡ after (machine64 z) map.now (state_of words.old (shadow_of pool.old records.old) slots.old) e }
{
    let m = refusals::test_call(map, words, pool, records, slots, z, e)?;
    let kind = Kind::try_from(e.kind)?;
    Ok(take_step(map, words, pool, records, slots, m, kind, e))
}

// ---- setup

// Each root gets its level and its CR3.
#[tactic(auto, using(paging::proofs::Numbers::each_none, paging::proofs::Numbers::each_more), unfolding(crate::specs::Setup::rooted))]
fn set_roots(cr3s: &[u64], records: &mut [u64], m: Ranged)
    requires room { Room m.sizes records.old }
    requires cr3s_len { length cr3s.now ≡ m.sizes.processors }
    ensures { records.new ≡ rooted (machine64 m.sizes) cr3s.now records.old }
{
    for (p, cr3) in cr3s.iter().enumerate() {
        tables::set_record(records, tables::root_of(m, p as u64), 4, Guest(*cr3));
    }
}

// Pool, records and slots zero, roots at level 4 shadowing the given CR3s. A refusal changes nothing.
#[tactic(auto, unfolding(crate::specs::Setup::after_setup))]
pub fn setup(
    map: &[u64],
    cr3s: &[u64],
    pool: &mut [u64],
    records: &mut [u64],
    slots: &mut [u64],
    z: Sizes,
) -> Result<Answer, Refusal>
    ensures { replies (by_number result) (state_of [] (shadow_of pool.new records.new) slots.new) ≡ after_setup (machine64 z) map.now cr3s.now (state_of [] (shadow_of pool.old records.old) slots.old) }
{
    let m = refusals::test_setup(map, cr3s, pool, records, slots, z)?;
    paging::zero(pool);
    paging::zero(records);
    paging::zero(slots);
    set_roots(cr3s, records, m);
    Ok(Answer::Done)
}
