// Whether a state keeps the state rules.
#![tactic(auto)]

ghost use Rattle.std.specs.Prelude.{◌≡◌, List, ℕ, ◌+◌, ◌*◌, ◌/◌, ◌%◌, ◌<◌, ◌≤◌, length};
ghost use Rattle.paging.specs.Layout.{tables64, frame_words};
ghost use Rattle.paging.specs.Numbers.{all};
ghost use Rattle.tables.specs.State.{shadow_of, state_of, machine64, table_count, root_of, entry_of};
ghost use Rattle.lawful.specs.Rules.{is_mapped, is_made_with, is_leaf, is_branch, is_laid_out, names_lower, is_root, record_right, entry_right, table_right, table_whole, entry_whole, is_on_path, slot_right, lawful};
ghost use Rattle.lawful.specs.TallyCode.{Tallied};
ghost use Rattle.slots.specs.Slots.{slot_count, slots_size};

use paging::Host;
use slots::Slot;
use tables::Ranged;

// "a slot's page is below 2^36"
const PAGES: u64 = 1 << 36;

// What the rules are asked of: a state, with a hint at each frame's note. A call passes all of it as one pointer.
#[derive(Clone, Copy)]
struct Known<'a> {
    map: &'a [u64],
    hints: &'a [u8; 4096],
    pool: &'a [u64],
    records: &'a [u64],
    slots: &'a [u64],
    m: Ranged,
    ghost room: { slots_size * m.sizes.processors ≤ length slots.now },
}

// ---- entries and records

// At a frame's note stands its place in the map (a map of 256 frames at most: a byte), or that of another frame with this note.
// The array is lent, since one that is given back lies on the stack twice.
fn give_hints(map: &[u64], hints: &mut [u8; 4096]) {
    for (i, f) in map.iter().enumerate() {
        hints[paging::noted_at(*f)] = (i % 256) as u8;
    }
}

// Whether an entry is made of its own rights and frame, of the D given, and of nothing else.
#[tactic(auto, using(tables::proofs::Names::frame_small), unfolding(crate::specs::Rules::is_made_with))]
fn is_made_with(d: u64, e: u64) -> bool
    requires { d < 2 }
    ensures { result ≡ is_made_with tables64 d e }
{
    e == paging::composed(paging::rights_of(e), d, paging::frame_of(e))
}

impl<'a> Known<'a> {
    // The hint saves most searches; whatever the hints are, the answer is the same.
    fn is_mapped(&self, f: u64) -> bool
        ensures { result ≡ is_mapped self.now.map.now f }
    {
        let hint = self.hints[paging::noted_at(f)] as usize;
        self.map.get(hint) == Some(&f) || paging::origin_of(self.map, Host(f)).is_some()
    }

    #[tactic(auto, using(crate::proofs::Alls::low), unfolding(crate::specs::Rules::is_leaf))]
    fn is_leaf(&self, e: u64) -> bool
        ensures { result ≡ is_leaf tables64 self.now.map.now e }
    {
        is_made_with(paging::rights_of(e).number() % 2, e) && self.is_mapped(paging::frame_of(e))
    }

    #[tactic(auto, unfolding(crate::specs::Rules::is_branch))]
    fn is_branch(&self, e: u64) -> bool
        ensures { result ≡ is_branch (machine64 self.now.m.sizes) e }
    {
        is_made_with(0, e) && tables::named_by(self.m, e).is_some()
    }

    // Whether an entry of a table of this level is laid out rightly.
    #[tactic(auto, unfolding(crate::specs::Rules::is_laid_out))]
    fn is_laid_out(&self, level: u64, e: u64) -> bool
        ensures { result ≡ is_laid_out (machine64 self.now.m.sizes) self.now.map.now level e }
    {
        e == 0
            || match level {
                0 => false,
                1 => self.is_leaf(e),
                _ => self.is_branch(e),
            }
    }

    // Whether entry e of t, if it is present and above level 1, names a table of the same share, one level lower.
    #[tactic(auto, using(tables::proofs::Names::bounds, tables::proofs::Names::named_none, crate::proofs::Strays::stray), unfolding(crate::specs::Rules::names_lower))]
    fn names_lower(&self, t: u64, e: u64) -> bool
        requires { t < table_count (machine64 self.now.m.sizes) }
        ensures { result ≡ names_lower (machine64 self.now.m.sizes) self.now.records.now t e }
    {
        let level = tables::level_of(self.records, t);
        if level <= 1 || e == 0 {
            return true;
        }
        let Some(u) = tables::named_by(self.m, e) else {
            return false;
        };
        tables::owner_of(self.records, self.m, u) == tables::owner_of(self.records, self.m, t)
            && tables::level_of(self.records, u) == level - 1
    }

    // An absent entry is told first: most are, and their table's record is then not looked at.
    #[tactic(auto, using(crate::proofs::Absent::absent_right), unfolding(crate::specs::Rules::entry_right))]
    #[inline(always)]
    fn entry_right(&self, t: u64, e: u64) -> bool
        requires { t < table_count (machine64 self.now.m.sizes) }
        ensures { result ≡ entry_right (machine64 self.now.m.sizes) self.now.map.now self.now.records.now t e }
    {
        e == 0 || self.is_laid_out(tables::level_of(self.records, t), e) && self.names_lower(t, e)
    }

    fn entries_right(&self, t: u64) -> bool
        requires { t < table_count (machine64 self.now.m.sizes) }
        ensures { result ≡ all frame_words (λ i. entry_right (machine64 self.now.m.sizes) self.now.map.now self.now.records.now t (entry_of (machine64 self.now.m.sizes) self.now.pool.now t i)) }
    {
        (0..paging::FRAME_WORDS).all(|i| self.entry_right(t, paging::entry_at(self.pool, t, i)))
    }

    #[tactic(auto, unfolding(crate::specs::Rules::is_root))]
    fn is_root(&self, t: u64) -> bool
        ensures { result ≡ is_root (machine64 self.now.m.sizes) t }
    {
        t == t / self.m.sizes.share * self.m.sizes.share
    }

    // What is asked of a root's record, and of another's.
    #[tactic(auto, unfolding(crate::specs::Rules::record_right))]
    fn record_right(&self, names: u64, t: u64) -> bool
        requires { t ≤ 64 }
        ensures { result ≡ record_right (machine64 self.now.m.sizes) self.now.records.now names t }
    {
        let level = tables::level_of(self.records, t);
        let g = tables::shadowed_by(self.records, t);
        if g.0 >= self.m.sizes.frames {
            return false;
        }
        if self.is_root(t) {
            return level == 4;
        }
        match level {
            0 => g.0 == 0,
            1..=3 => names == 1,
            _ => false,
        }
    }

    // ---- how often each table is named

    fn tally_table(&self, counts: &mut [u64; 64], t: u64)
        requires below { t < 64 }
        requires tallied { Tallied self.now.m.sizes self.now.pool.now counts.old t }
        ensures { Tallied self.now.m.sizes self.now.pool.now counts.new (t + 1) }
    {
        // Kept: by number, since what the pool lacks is absent (entry_at), and is_lawful asks nothing of its length.
        for i in 0..paging::FRAME_WORDS {
            if let Some(u) = tables::named_by(self.m, paging::entry_at(self.pool, t, i)) {
                counts[u as usize] += 1;
            }
        }
    }

    // One pass over the pool counts the names of all tables.
    fn tally(&self) -> [u64; 64]
        ensures { Tallied self.now.m.sizes self.now.pool.now result (table_count (machine64 self.now.m.sizes)) }
    {
        let mut counts = [0u64; 64];
        for t in 0..tables::table_count(self.m) {
            self.tally_table(&mut counts, t);
        }
        counts
    }

    #[tactic(auto, unfolding(crate::specs::Rules::table_right, crate::specs::Rules::names_of))]
    fn table_right(&self, counts: &[u64; 64], t: u64) -> bool
        requires below { t < table_count (machine64 self.now.m.sizes) }
        requires tallied { Tallied self.now.m.sizes self.now.pool.now counts.now (table_count (machine64 self.now.m.sizes)) }
        ensures { result ≡ table_right (machine64 self.now.m.sizes) self.now.map.now (shadow_of self.now.pool.now self.now.records.now) t }
    {
        self.record_right(counts[t as usize], t) && self.entries_right(t)
    }

    fn tables_right(&self) -> bool
        ensures { result ≡ all (table_count (machine64 self.now.m.sizes)) (table_right (machine64 self.now.m.sizes) self.now.map.now (shadow_of self.now.pool.now self.now.records.now)) }
    {
        let counts = self.tally();
        (0..tables::table_count(self.m)).all(|t| self.table_right(&counts, t))
    }

    // ---- whole tables

    // Whether every entry of table t, of the given level, is whole; an absent one is.
    #[cycle(entry_whole_table_whole)]
    #[tactic(auto, using(crate::proofs::Alls::alls), unfolding(crate::specs::Rules::table_whole, crate::specs::Rules::entry_whole))]
    fn table_whole(&self, t: u64, level: u64) -> bool
        requires { t ≤ 64 }
        ensures { result ≡ table_whole (machine64 self.now.m.sizes) self.now.map.now self.now.pool.now level t }
    {
        if level == 0 {
            return true;
        }
        // Kept: by number, as in tally_table. False is returned by hand, where entries_right uses `all`: this function is in
        // a cycle of calls, which a closure would join with a measure of its own.
        for i in 0..paging::FRAME_WORDS {
            if !self.entry_whole(paging::entry_at(self.pool, t, i), level) {
                return false;
            }
        }
        true
    }

    // Whether e, an entry of a table of the given level, is whole.
    #[cycle(entry_whole_table_whole)]
    #[tactic(auto, using(crate::proofs::Alls::alls), unfolding(crate::specs::Rules::table_whole, crate::specs::Rules::entry_whole))]
    #[inline(always)]
    fn entry_whole(&self, e: u64, level: u64) -> bool
        requires { 0 < level }
        ensures { result ≡ entry_whole (machine64 self.now.m.sizes) self.now.map.now self.now.pool.now level e }
    {
        if e == 0 {
            return true;
        }
        if level == 1 {
            return self.is_leaf(e);
        }
        let Some(u) = tables::named_by(self.m, e) else {
            return false;
        };
        self.table_whole(u, level - 1)
    }

    fn roots_whole(&self) -> bool
        ensures { result ≡ all self.now.m.sizes.processors (λ p. table_whole (machine64 self.now.m.sizes) self.now.map.now self.now.pool.now 4 (root_of (machine64 self.now.m.sizes) p)) }
    {
        (0..self.m.sizes.processors).all(|p| self.table_whole(tables::root_of(self.m, p), 4))
    }

    // ---- slots

    // Whether a walk of a level stands on the table that its page reaches from the root, with that path's rights.
    #[tactic(auto, unfolding(crate::specs::Rules::is_on_path))]
    fn is_on_path(&self, p: u64, level: u64, s: Slot) -> bool
        requires { (p < self.now.m.sizes.processors) × (level ≤ 4) }
        ensures { result ≡ is_on_path (machine64 self.now.m.sizes) self.now.pool.now p s.page level s.place s.rights }
    {
        let w = tables::path_to(self.pool, self.m, p, s.page, level);
        w.table < tables::table_count(self.m) && s.place == w.table && s.rights == w.rights
    }

    #[tactic(auto, unfolding(crate::specs::Rules::slot_right))]
    fn slot_right(&self, p: u64, k: u64) -> bool
        requires { (p < self.now.m.sizes.processors) × (k < slot_count) }
        ensures { result ≡ slot_right (machine64 self.now.m.sizes) self.now.pool.now self.now.slots.now p k }
    {
        let s = slots::slot_of(self.slots, p, k);
        s.page < PAGES
            && match s.mark {
                0 => s.page == 0 && s.place == 0 && s.rights.number() == 0,
                1 => s.place < self.m.sizes.frames,
                2..=5 => self.is_on_path(p, s.mark - 1, s),
                _ => false,
            }
    }

    fn slots_of_right(&self, p: u64) -> bool
        requires { p < self.now.m.sizes.processors }
        ensures { result ≡ all slot_count (slot_right (machine64 self.now.m.sizes) self.now.pool.now self.now.slots.now p) }
    {
        (0..slots::SLOTS).all(|k| self.slot_right(p, k))
    }

    fn slots_right(&self) -> bool
        ensures { result ≡ all self.now.m.sizes.processors (λ p. all slot_count (slot_right (machine64 self.now.m.sizes) self.now.pool.now self.now.slots.now p)) }
    {
        (0..self.m.sizes.processors).all(|p| self.slots_of_right(p))
    }

    #[tactic(auto, unfolding(crate::specs::Rules::lawful))]
    fn is_lawful(&self) -> bool
        ensures { (words : List ℕ) → result ≡ lawful (machine64 self.now.m.sizes) self.now.map.now (state_of words (shadow_of self.now.pool.now self.now.records.now) self.now.slots.now) }
    {
        self.tables_right() && self.roots_whole() && self.slots_right()
    }
}

// Whether all state rules hold. A function of its own when it runs too, as paging's map_fits: their arrays never lie on the stack at once.
#[inline(never)]
pub fn is_lawful(map: &[u64], pool: &[u64], records: &[u64], slots: &[u64], m: Ranged) -> bool
    requires { slots_size * m.sizes.processors ≤ length slots.now }
    ensures { (words : List ℕ) → result ≡ lawful (machine64 m.sizes) map.now (state_of words (shadow_of pool.now records.now) slots.now) }
{
    let mut hints = [0u8; 4096];
    give_hints(map, &mut hints);
    let known = Known {
        map,
        hints: &hints,
        pool,
        records,
        slots,
        m,
    };
    known.is_lawful()
}
