// The shadow tables of all processors: what an entry and a record say, and the steps that events are made of.
#![tactic(auto, using(crate::proofs::Names::bounds))]

ghost use Rattle.std.specs.Prelude.{◌≡◌, ℕ, ◌+◌, ◌-◌, ◌*◌, ◌^◌, ◌<◌, ◌≤◌, length, get_or};
ghost use Rattle.paging.specs.Layout.{tables64, frame_words};
ghost use Rattle.tables.specs.State.{machine64, shadow_of, record_size, level_of, shadows, with_record, table_count, home_of, owner_of, root_of, named_some, down, path_to};
ghost use Rattle.tables.specs.Steps.{free_table, cut, zeroed, empty_own, empty_share, may_take, free_count, taken, taken_some, hang_next, leaf_of, agreeing, settle, settled_at, build};
ghost use Rattle.tables.specs.SizesCode.{Room, SpotFits};

mod ranged;

use paging::{Guest, Rights};
pub use ranged::Ranged;

// "G frames", "P processors", "a share of S shadow tables", and the pool base.
#[derive(Clone, Copy)]
pub struct Sizes {
    pub frames: u64,
    pub processors: u64,
    pub share: u64,
    pub base: u64,
}

// Where a path through the shadow tables stands: the level of its next entry, the table, the rights of all entries passed.
// Kept: Walk's twin, since a table is no guest frame, and `down` and `path_to` of specs/State speak of a Path. Here
// and in Spot, tables are numbers into two buffers that C lends, so no boxes.
#[derive(Clone, Copy)]
pub struct Path {
    pub level: u64,
    pub table: u64,
    pub rights: Rights,
}

// Where a fill stands: how many tables are still missing below, the shadow table, and the guest frame it shadows.
#[derive(Clone, Copy)]
pub struct Spot {
    pub missing: u64,
    pub table: u64,
    pub frame: Guest,
}

// A record is level and guest frame shadowed.
pub const RECORD: usize = 2;

// ---- records and owners

// Kept, here and in shadowed_by: two numbers of one record, each asked for alone.
pub fn level_of(records: &[u64], t: u64) -> u64
    requires { t ≤ 64 }
    ensures { result ≡ level_of records.now t }
{
    records.get(RECORD * t as usize).copied().unwrap_or(0)
}

pub fn shadowed_by(records: &[u64], t: u64) -> Guest
    requires { t ≤ 64 }
    ensures { result ≡ shadows records.now t }
{
    Guest(records.get(RECORD * t as usize + 1).copied().unwrap_or(0))
}

pub fn set_record(records: &mut [u64], t: u64, level: u64, g: Guest)
    requires { (t ≤ 64) × (record_size * t + record_size ≤ length records.old) }
    ensures { records.new ≡ with_record t level g records.old }
{
    let at = RECORD * (t as usize);
    records[at] = level;
    records[at + 1] = g.0;
}

#[inline(always)]
pub fn table_count(m: Ranged) -> u64
    ensures { result ≡ table_count (machine64 m.sizes) }
{
    m.sizes.processors * m.sizes.share
}

// The processor in whose share table t lies.
pub fn home_of(m: Ranged, t: u64) -> u64
    ensures { result ≡ home_of (machine64 m.sizes) t }
{
    t / m.sizes.share
}

// The processor that owns table t: that of its share, whatever its record says.
#[tactic(auto, unfolding(crate::specs::State::owner_of))]
pub fn owner_of(records: &[u64], m: Ranged, t: u64) -> u64
    ensures { result ≡ owner_of (machine64 m.sizes) records.now t }
{
    home_of(m, t)
}

// Kept: p and t are bare numbers here and below: what bounds them (the sizes) is another argument, so no type can say it.
pub fn root_of(m: Ranged, p: u64) -> u64
    requires { p < m.sizes.processors }
    ensures { result ≡ root_of (machine64 m.sizes) p }
{
    p * m.sizes.share
}

// The table that an entry names, if it names one; most are absent, which the first test tells.
#[tactic(auto, unfolding(crate::specs::State::named))]
#[inline(always)]
pub fn named_by(m: Ranged, e: u64) -> Option<u64>
    ensures { result ≡ named_some (machine64 m.sizes) e }
{
    if !paging::present(e) {
        return None;
    }
    let t = paging::frame_of(e).checked_sub(m.sizes.base)?;
    (t < table_count(m)).then_some(t)
}

// ---- paths

// Kept: a path off the tables stands on their number, as `down` of specs/State says.
fn step_down(m: Ranged, w: Path, e: u64) -> Path
    requires { 1 ≤ w.level }
    ensures { result ≡ down (machine64 m.sizes) w e }
{
    Path {
        level: w.level - 1,
        table: named_by(m, e).unwrap_or(table_count(m)),
        rights: w.rights.shared(paging::rights_of(e)),
    }
}

// The path of a page from p's root to a level.
pub fn path_to(pool: &[u64], m: Ranged, p: u64, page: u64, level: u64) -> Path
    requires { (p < m.sizes.processors) × (level ≤ 4) }
    ensures { result ≡ path_to (machine64 m.sizes) pool.now p page level }
{
    let mut w = Path {
        level: 4,
        table: root_of(m, p),
        rights: Rights::all(),
    };
    for l in (level + 1..=4).rev() {
        let e = paging::entry_at(pool, w.table, paging::index_of(page, l));
        w = step_down(m, w, e);
    }
    w
}

// ---- freeing

// Frees table t of the given level, and every table below it.
// Kept: pool and records stay two slices, here and below. In one struct of two `&mut` every contract had to add that both
// references, both lengths and the sizes stay.
#[cycle(free_table_cut_entry)]
fn free_table(pool: &mut [u64], records: &mut [u64], m: Ranged, t: u64, level: u64)
    requires room { Room m.sizes records.old }
    requires t_bound { t < table_count (machine64 m.sizes) }
    ensures { shadow_of pool.new records.new ≡ free_table (machine64 m.sizes) level t (shadow_of pool.old records.old) }
{
    if level == 0 {
        return;
    }
    // Kept: by number, since each turn changes the pool.
    for i in 0..paging::FRAME_WORDS {
        cut_entry(pool, records, m, level - 1, t, i);
    }
    set_record(records, t, 0, Guest(0));
}

// Frees the table of the given level that entry i of t names, and clears the entry.
#[cycle(free_table_cut_entry)]
fn cut_entry(pool: &mut [u64], records: &mut [u64], m: Ranged, level: u64, t: u64, i: usize)
    requires room { Room m.sizes records.old }
    requires t_bound { (t < table_count (machine64 m.sizes)) × (i < frame_words) }
    ensures { shadow_of pool.new records.new ≡ cut (machine64 m.sizes) level t i (shadow_of pool.old records.old) }
{
    if let Some(u) = named_by(m, paging::entry_at(pool, t, i)) {
        free_table(pool, records, m, u, level);
    }
    paging::write_entry(pool, t, i, 0);
}

fn zero_table(pool: &mut [u64], t: u64)
    requires { t ≤ 64 }
    ensures { pool.new ≡ zeroed tables64 t pool.old }
{
    let start = (paging::FRAME_WORDS * t as usize).min(pool.len());
    let end = (start + paging::FRAME_WORDS).min(pool.len());
    pool[start..end].fill(0);
}

// Table t, if it is one of p's: zeroed, and freed unless it is the root.
fn empty_table(pool: &mut [u64], records: &mut [u64], m: Ranged, p: u64, t: u64)
    requires room { Room m.sizes records.old }
    requires p_lt_processors { (p < m.sizes.processors) × (t < table_count (machine64 m.sizes)) }
    ensures { shadow_of pool.new records.new ≡ empty_own (machine64 m.sizes) p t (shadow_of pool.old records.old) }
{
    if owner_of(records, m, t) != p {
        return;
    }
    zero_table(pool, t);
    if t == root_of(m, p) {
        return;
    }
    set_record(records, t, 0, Guest(0));
}

pub fn empty_share(pool: &mut [u64], records: &mut [u64], m: Ranged, p: u64)
    requires room { Room m.sizes records.old }
    requires p_lt_processors { p < m.sizes.processors }
    ensures { shadow_of pool.new records.new ≡ empty_share (machine64 m.sizes) p (shadow_of pool.old records.old) }
{
    for t in 0..table_count(m) {
        empty_table(pool, records, m, p, t);
    }
}

// ---- taking

fn may_take(records: &[u64], m: Ranged, p: u64, t: u64) -> bool
    requires { (t ≤ 64) }
    ensures { result ≡ may_take (machine64 m.sizes) p records.now t }
{
    home_of(m, t) == p && level_of(records, t) == 0
}

pub fn count_free(records: &[u64], m: Ranged, p: u64) -> u64
    ensures { result ≡ free_count (machine64 m.sizes) p records.now }
{
    (0..table_count(m))
        .filter(|t| may_take(records, m, p, *t))
        .count() as u64
}

// The table that p takes next: the lowest that it may take, if there is one.
fn next_free(records: &[u64], m: Ranged, p: u64) -> Option<u64>
    ensures { result ≡ taken_some (machine64 m.sizes) p records.now }
{
    (0..table_count(m)).find(|t| may_take(records, m, p, *t))
}

// ---- filling

// The level 1 shadow entry for a guest entry: W only if D is set.
#[tactic(auto, using(crate::proofs::Names::bounds), unfolding(crate::specs::Steps::leaf_of))]
fn leaf_of(map: &[u64], e: u64) -> u64
    requires { (i : ℕ) → get_or map.now i 0 < 2 ^ 40 }
    ensures { result ≡ leaf_of tables64 map.now e }
{
    let r = paging::rights_of(e).shared(Rights::of(6 + paging::d_of(e)));
    let h = paging::host_of(map, Guest(paging::frame_of(e)));
    paging::composed(r, r.number() % 2, h.0)
}

// The table that shadow entry h names, if it agrees with guest entry e in rights and in the frame that this table shadows.
fn agreeing(records: &[u64], m: Ranged, h: u64, e: u64) -> Option<u64>
    ensures { result ≡ agreeing (machine64 m.sizes) records.now h e }
{
    let u = named_by(m, h)?;
    let same_frame = shadowed_by(records, u).0 == paging::frame_of(e);
    (same_frame && paging::rights_of(h) == paging::rights_of(e)).then_some(u)
}

// Down from a table as long as the entries agree with the guest's; the first that does not is cut.
pub fn settle(
    words: &[u64],
    pool: &mut [u64],
    records: &mut [u64],
    m: Ranged,
    page: u64,
    from: Spot,
) -> Spot
    requires room { Room m.sizes records.old }
    requires spot_fits { SpotFits m.sizes from }
    ensures { settled_at result (shadow_of pool.new records.new) ≡ settle (machine64 m.sizes) words.now page from.missing from.table from.frame (shadow_of pool.old records.old) }
{
    let mut table = from.table;
    let mut frame = from.frame;
    for missing in (1..=from.missing).rev() {
        let i = paging::index_of(page, missing + 1);
        let h = paging::entry_at(pool, table, i);
        let e = guest::guest_entry(words, page, missing + 1, frame);
        let Some(u) = agreeing(records, m, h, e) else {
            cut_entry(pool, records, m, missing, table, i);
            return Spot {
                missing,
                table,
                frame,
            };
        };
        table = u;
        frame = Guest(paging::frame_of(e));
    }
    Spot {
        missing: 0,
        table,
        frame,
    }
}

// Takes the next missing table and hangs it below the one that stands.
fn hang_next(
    words: &[u64],
    pool: &mut [u64],
    records: &mut [u64],
    m: Ranged,
    p: u64,
    page: u64,
    w: Spot,
) -> Spot
    requires room { Room m.sizes records.old }
    requires spot_fits { SpotFits m.sizes w × (0 < w.missing) × (taken (machine64 m.sizes) p records.old < table_count (machine64 m.sizes)) }
    ensures { settled_at result (shadow_of pool.new records.new) ≡ hang_next (machine64 m.sizes) words.now p page (w.missing - 1) w.table w.frame (shadow_of pool.old records.old) }
{
    let e = guest::guest_entry(words, page, w.missing + 1, w.frame);
    let u = next_free(records, m, p).unwrap();
    let below = Guest(paging::frame_of(e));
    let i = paging::index_of(page, w.missing + 1);
    let entry = paging::composed(paging::rights_of(e), 0, m.sizes.base + u);
    set_record(records, u, w.missing, below);
    paging::write_entry(pool, w.table, i, entry);
    Spot {
        missing: w.missing - 1,
        table: u,
        frame: below,
    }
}

// Takes and hangs what is missing, from the upper level down, and writes the level 1 entry.
pub fn build_path(
    map: &[u64],
    words: &[u64],
    pool: &mut [u64],
    records: &mut [u64],
    m: Ranged,
    p: u64,
    page: u64,
    from: Spot,
)
    requires room { Room m.sizes records.old }
    requires spot_fits { SpotFits m.sizes from × (from.missing ≤ free_count (machine64 m.sizes) p records.old) }
    requires by_index { (i : ℕ) → get_or map.now i 0 < 2 ^ 40 }
    ensures { shadow_of pool.new records.new ≡ build (machine64 m.sizes) map.now words.now p page from.missing from.table from.frame (shadow_of pool.old records.old) }
{
    let mut w = from;
    for _ in 0..from.missing {
        w = hang_next(words, pool, records, m, p, page, w);
    }
    let e = guest::guest_entry(words, page, 1, w.frame);
    paging::write_entry(pool, w.table, paging::index_of(page, 1), leaf_of(map, e));
}
