// The lines of `answers` and `run`, written one behind the other into a lent buffer.
#![tactic(auto)]

ghost use Rattle.std.specs.Prelude.{◌≡◌, [], ◌∷◌, ◌+◌, ◌*◌, ◌<◌, ◌≤◌, length};
ghost use Rattle.cursor.specs.Text.{digits_of};
ghost use Rattle.render.specs.Render.{line, render_event};
ghost use Rattle.render.specs.WrittenCode.{HasRoom, Puts};
ghost use Rattle.render.specs.LinesCode.{pair_line, pair_lines, question_lines, Mapped, AllMapped};

use paging::Guest;
use rules::Question;

// A lent buffer, and the place of the next byte. Kept: a buffer and a place, since C lends the buffer.
#[derive(Drop)]
pub struct Printer<'a> {
    out: &'a mut [u8],
    at: usize,
}

impl<'a> Printer<'a> {
    pub fn new(out: &'a mut [u8]) -> Printer<'a>
        ensures { (result.at ≡ 0) × (result.out.ghost_name ≡ out.entry.ghost_name) × (result.out.now ≡ out.old) }
    {
        Printer { out, at: 0 }
    }

    // How many bytes were written.
    pub fn len(&self) -> usize
        ensures { result ≡ self.now.at }
    {
        self.at
    }

    fn put(&mut self, byte: u8)
        requires { HasRoom self.old 1 }
        ensures { Puts (byte ∷ []) self.old self.new }
    {
        self.out[self.at] = byte;
        self.at += 1;
    }

    // All digits but the last are those of a tenth. Kept: `write!` may fail, and then promises nothing of what it wrote.
    fn put_digits(&mut self, n: u64)
        requires { HasRoom self.old (length (digits_of n)) }
        ensures { Puts (digits_of n) self.old self.new }
    {
        if n >= 10 {
            self.put_digits(n / 10);
        }
        self.put(48 + (n % 10) as u8);
    }

    fn put_number(&mut self, n: u64)
        requires { HasRoom self.old 21 }
        ensures { Puts (32 ∷ digits_of n) self.old self.new × (self.new.at ≤ self.old.at + 21) }
    {
        self.put(b' ');
        self.put_digits(n);
    }

    // A letter, each number after a space, and a line feed.
    pub fn put_line(&mut self, letter: u8, ns: &[u64])
        requires { HasRoom self.old (2 + 21 * length ns.now) }
        ensures { Puts (line letter ns.now) self.old self.new × (self.new.at ≤ self.old.at + 2 + 21 * length ns.now) }
    {
        self.put(letter);
        for n in ns {
            self.put_number(*n);
        }
        self.put(b'\n');
    }

    // An address is in its mapped host frame. Kept: the tag is a number, since the list call lays its outcomes into a buffer that C lends.
    fn put_outcome(&mut self, map: &[u64], addr: u64, tag: u64, v: u64)
        requires { HasRoom self.old 44 × Mapped map.now tag v }
        ensures { Puts (pair_line map.now addr tag v) self.old self.new × (self.new.at ≤ self.old.at + 44) }
    {
        if tag == 0 {
            let host = paging::host_of(map, Guest(v));
            let address = paging::host_address(host, addr);
            return self.put_line(b'A', &[v, address]);
        }
        self.put_line(b'F', &[v]);
    }

    fn put_outcomes(&mut self, map: &[u64], addr: u64, pairs: &[u64])
        requires { HasRoom self.old (22 * length pairs.now) × AllMapped map.now pairs.now }
        ensures { Puts (pair_lines map.now addr pairs.now) self.old self.new × (self.new.at ≤ self.old.at + 22 * length pairs.now) }
    {
        for pair in pairs.chunks_exact(2) {
            self.put_outcome(map, addr, pair[0], pair[1]);
        }
    }

    // The question with the number of its outcomes, then the outcomes, given as pairs.
    pub fn put_question(&mut self, map: &[u64], q: Question, pairs: &[u64])
        requires { HasRoom self.old (86 + 22 * length pairs.now) × AllMapped map.now pairs.now }
        ensures { Puts (question_lines map.now q pairs.now) self.old self.new × (self.new.at ≤ self.old.at + 86 + 22 * length pairs.now) }
    {
        let count = (pairs.len() / 2) as u64;
        self.put_line(b'Q', &[q.proc, q.addr, q.request, count]);
        self.put_outcomes(map, q.addr, pairs);
    }

    // A kind has one digit; without that the lines of 256 events might not fit into 16,384 bytes.
    pub fn put_event(&mut self, index: u64, kind: u64, value: u64)
        requires { HasRoom self.old 65 × (kind < 10) }
        ensures { Puts (render_event index kind value) self.old self.new × (self.new.at ≤ self.old.at + 46) }
    {
        self.put_line(b'E', &[index, kind, value]);
    }
}
