// The walk of the guest's own tables: its entries are read, and A and D set in them.
#![tactic(auto)]

ghost use Rattle.std.specs.Prelude.{◌≡◌, ◌^◌, ◌<◌, ◌≤◌};
ghost use Rattle.paging.specs.Layout.{tables64};
ghost use Rattle.guest.specs.GuestWalk.{guest_walk, walk_guest, guest_entry, dirtied};

use paging::{Guest, Request, Stop, Walk};

// A walk of the guest's tables that came to its end: the last table it read, and where it stands.
#[derive(Clone, Copy)]
pub struct Walked {
    pub last: Guest,
    pub walk: Walk,
}

// The entry at a level of the walk of a page, in the frame that the walk stands on.
pub fn guest_entry(words: &[u64], page: u64, level: u64, g: Guest) -> u64
    requires { (1 ≤ level) × (level ≤ 4) × (g.0 < 2 ^ 40) }
    ensures { result ≡ guest_entry tables64 words.now page level g }
{
    let i = paging::index_of(page, level);
    paging::entry_at(words, g.0, i)
}

// Each entry that the walk extends from gets A.
pub fn walk_guest(words: &mut [u64], frames: u64, cr3: Guest, page: u64) -> Result<Walked, Stop>
    requires { (frames ≤ 256) × (cr3.0 < 2 ^ 40) }
    ensures { guest_walk words.new result ≡ walk_guest tables64 frames page words.old cr3 }
{
    let mut last = cr3;
    let mut w = Walk::start(cr3);
    for level in (1..5).rev() {
        let f = w.frame;
        let i = paging::index_of(page, level);
        let e = paging::entry_at(words, f.0, i);
        let next = w.step(e, frames)?;
        paging::write_entry(words, f.0, i, paging::set_accessed(e));
        last = f;
        w = next;
    }
    Ok(Walked { last, walk: w })
}

// A request that needs W sets D in the last entry.
pub fn set_d(words: &mut [u64], q: &Request, page: u64, last: Guest)
    requires { last.0 < 2 ^ 40 }
    ensures { words.new ≡ dirtied tables64 q.now page last words.old }
{
    if paging::is_write(q) {
        let i = paging::index_of(page, 1);
        let e = paging::entry_at(words, last.0, i);
        paging::write_entry(words, last.0, i, paging::set_dirty(e));
    }
}
