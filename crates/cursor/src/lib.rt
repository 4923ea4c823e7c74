// The text read number by number: past the blanks, the next number; first by value, then over a lent cursor.
#![tactic(auto)]

ghost use Rattle.std.specs.Prelude.{◌≡◌, ◌≤◌, length};
ghost use Rattle.cursor.specs.Text.{cursor_at, past_blanks, next_at};
ghost use Rattle.cursor.specs.CursorCode.{Stands, digits_at, past_number, Stepped};

// "The reader knows at each byte which line it has reached"
// Kept: `Stands text c` in each contract, since `Stepped` of specs/ has a Cursor of place and line alone; with the text it would be another form.
#[derive(Clone, Copy)]
pub struct Cursor {
    pub at: usize,
    pub line: u64,
}

// The value of a run of digits and the place after it.
#[derive(Clone, Copy)]
pub struct Digits {
    pub value: u64,
    pub end: usize,
}

// A number and the cursor after it, on the number's own line.
#[derive(Clone, Copy)]
pub struct Number {
    pub value: u64,
    pub after: Cursor,
}

// The line where no number can be read: refusal 10.
#[derive(Clone, Copy)]
pub struct NoNumber {
    pub line: u64,
}

pub fn skip(text: &[u8], c: Cursor) -> Cursor
    requires { Stands text.now c }
    ensures { result ≡ cursor_at text.now (past_blanks text.now c.at) }
{
    let mut line = c.line;
    for (i, b) in text[c.at..].iter().enumerate() {
        match b {
            b'\n' => line += 1,
            b' ' => {}
            _ => return Cursor { at: c.at + i, line },
        }
    }
    Cursor {
        at: text.len(),
        line,
    }
}

// None: the digits write 2^64 or more. Kept: from beside the text, as `digits_at text at` of specs/CursorCode has it.
pub fn read_digits(text: &[u8], from: usize) -> Option<Digits>
    requires { from ≤ length text.now }
    ensures { result ≡ digits_at text.now from }
{
    let mut value: u64 = 0;
    for (i, b) in text[from..].iter().enumerate() {
        match b {
            b'0'..=b'9' => {
                let digit = u64::from(*b - b'0');
                value = value.checked_mul(10)?.checked_add(digit)?;
            }
            _ => return Some(Digits {
                value,
                end: from + i,
            }),
        }
    }
    Some(Digits {
        value,
        end: text.len(),
    })
}

pub fn next_number(text: &[u8], c: Cursor) -> Result<Number, NoNumber>
    requires { Stands text.now c }
    ensures { result ≡ next_at text.now c.at }
{
    let Cursor { at, line } = skip(text, c);
    let none = NoNumber { line };
    let Digits { value, end } = read_digits(text, at).ok_or(none)?;
    if end == at {
        return Err(none);
    }
    if text[at] == b'0' && end > at + 1 {
        return Err(none);
    }
    let after = Cursor { at: end, line };
    Ok(Number { value, after })
}

// The same step over a lent cursor.
// Kept: the scope document's own form, first by value and then thin steps over a lent cursor (docs/DECISIONS.md, 17, says so).
pub fn skip_lent(text: &[u8], c: &mut Cursor)
    requires { Stands text.now c.old }
    ensures { c.new ≡ cursor_at text.now (past_blanks text.now c.old.at) }
{
    *c = skip(text, *c);
}

// Past the number; where there is none the cursor stays.
pub fn past(n: Result<Number, NoNumber>, c: Cursor) -> Cursor
    ensures { result ≡ past_number n c }
{
    n.map_or(c, |number| number.after)
}

// The next number over a lent cursor, which then stands past it.
pub fn next_lent(text: &[u8], c: &mut Cursor) -> Result<Number, NoNumber>
    requires { Stands text.now c.old }
    ensures { Stepped text.now c.old result c.new }
{
    let n = next_number(text, *c);
    *c = past(n, *c);
    n
}

// The reader's step past blanks: it lends a cursor of its own.
pub fn skip_from(text: &[u8], c: Cursor) -> Cursor
    requires { Stands text.now c }
    ensures { result ≡ cursor_at text.now (past_blanks text.now c.at) }
{
    let mut here = c;
    skip_lent(text, &mut here);
    here
}

// The reader's step to the next number, likewise.
pub fn next_from(text: &[u8], c: Cursor) -> Result<Number, NoNumber>
    requires { Stands text.now c }
    ensures { result ≡ next_at text.now c.at }
{
    let mut here = c;
    next_lent(text, &mut here)
}
