// Buffers of numbers, for the programs of the gate: put, drawn, copied, summed and printed; and filled from input.
#![tactic(auto)]

pub mod draw;
pub mod guest;

ghost use Rattle.std.specs.Prelude.{◌≤◌, ◌≡◌, length, slice_index, IfOk};

use std::io;
use std::io::Read;

pub fn print(rt: &impl Print, s: &[u8]) -> io::Result<()> {
    rt.write_all(s)
}

pub fn print_number(rt: &impl Print, n: u64) -> io::Result<()> {
    print!(rt; " {n}")
}

pub fn print_numbers(rt: &impl Print, xs: &[u64]) -> io::Result<()> {
    for x in xs {
        print_number(rt, *x)?;
    }
    Ok(())
}

// The pairs that count, and no more than there are. Kept: the count, as the list call answers it beside its buffer.
pub fn print_pairs(rt: &impl Print, count: u64, xs: &[u64]) -> io::Result<()> {
    let (pairs, _) = xs.as_chunks::<2>();
    for [tag, value] in pairs.iter().take(count as usize) {
        print!(rt; " ({tag} {value})")?;
    }
    Ok(())
}

// Place k if its byte is 1; ? if it is neither 0 nor 1.
fn print_mark(rt: &impl Print, k: u64, byte: u8) -> io::Result<()> {
    match byte {
        0 => Ok(()),
        1 => print_number(rt, k),
        _ => print(rt, b" ?"),
    }
}

pub fn print_marks(rt: &impl Print, bytes: &[u8]) -> io::Result<()> {
    for (k, byte) in bytes.iter().enumerate() {
        print_mark(rt, k as u64, *byte)?;
    }
    Ok(())
}

// Whether what was lent is as it was.
pub fn print_kept(rt: &impl Print, kept: bool) -> io::Result<()> {
    print(rt, if kept { b" unchanged" } else { b" changed" })
}

// Reads until the buffer is full or the input ends, and says how many bytes it put at the start. A read that fails is an error,
// and never the end of the text.
pub fn read_full<R: Read>(reader: &mut R, to: &mut [u8]) -> io::Result<usize>
    ensures { IfOk result (λ n. n ≤ length to.new) }
{
    // Kept: no slice is walked by one; each turn goes on by as many bytes as a read gave.
    let mut at = 0;
    while at < to.len() {
        let n = reader.read(&mut to[at..])?;
        if n == 0 {
            return Ok(at);
        }
        at += n;
    }
    Ok(at)
}

// What stands at a place, and 0 beyond the end.
pub fn at(xs: &[u64], i: u64) -> u64
    ensures { result ≡ slice_index xs.now i }
{
    xs.get(i as usize).copied().unwrap_or(0)
}

// Puts places and values, one after the other, as a puzzle text lists words.
pub fn put_pairs(xs: &mut [u64], pairs: &[u64]) {
    let (pairs, _) = pairs.as_chunks::<2>();
    for [i, x] in pairs {
        if let Some(place) = xs.get_mut(*i as usize) {
            *place = *x;
        }
    }
}

// As much of xs as there is room for.
pub fn copy(to: &mut [u64], xs: &[u64]) {
    let n = to.len().min(xs.len());
    to[..n].copy_from_slice(&xs[..n]);
}

// Three times the sum so far and the next element, so that each place counts.
pub fn sum<T: Copy + Into<u64>>(xs: &[T]) -> u64 {
    xs.iter().fold(0u64, |total, x| {
        total.wrapping_mul(3).wrapping_add((*x).into())
    })
}
