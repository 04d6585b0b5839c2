// The bytes of the program's lines: a line taken apart, an answer's bytes written, a stream cut into lines.

#![tactic(auto)]

ghost use Rattle.std.specs.Prelude.{◌≡◌, [], ◌∷◌, ◌++◌, ◌+◌, ◌<◌, ◌≤◌, length};
ghost use Rattle.std.proofs.Math.Seq.{slice};
ghost use Rattle.rules.specs.Lines.{digits_of, field_of};
ghost use Rattle.text.specs.Commands.{grown_by, Digits, field_from, field_at, starts_well, command_of};
ghost use Rattle.rules.specs.Lists.{written};
ghost use Rattle.text.specs.Written.{Put};
ghost use Rattle.text.specs.Cuts.{end_of, text_in, kept};

// ---- a line taken apart

// What a line asks: its letter, and the values of its `count` fields in front of zeros.
#[derive(Drop)]
pub struct Command {
    pub letter: u8,
    pub count: usize,
    pub fields: [u64; 11],
}

// A field of a line: its value, and the place after it.
#[derive(Clone, Copy)]
struct Field {
    value: u64,
    next: usize,
}

// The value with b behind it, where b is a digit and the value still a field's. It is at most 4,294,967,295 before and after, so nothing overflows.
fn grown(value: u64, b: u8) -> Option<u64>
    requires { value ≤ 4294967295 }
    ensures { result ≡ grown_by value b }
{
    if !b.is_ascii_digit() {
        return None;
    }
    let more = value * 10 + u64::from(b - b'0');
    if 4294967295 < more { None } else { Some(more) }
}

// The digits line[from..to] as a field: there is one, and no zero leads others.
fn field_of(line: &[u8], from: usize, to: usize, value: u64) -> Option<Field>
    requires { Digits line.now from to value }
    ensures { result ≡ field_from (slice from to line.now) to }
{
    match &line[from..to] {
        [] => None,
        [b'0', _, ..] => None,
        _ => Some(Field { value, next: to }),
    }
}

// The field that starts at `from` and ends at the next comma or with the line.
fn field_at(line: &[u8], from: usize) -> Option<Field>
    requires { from ≤ length line.now }
    ensures { result ≡ field_at line.now from }
{
    let mut value = 0;
    for i in from..line.len() {
        let b = line[i];
        if b == b',' {
            return field_of(line, from, i, value);
        }
        value = grown(value, b)?;
    }
    field_of(line, from, line.len(), value)
}

// A line starts with one byte, the letter, before the first comma.
fn starts_well(line: &[u8]) -> bool
    ensures { result ≡ starts_well line.now }
{
    match line {
        [] => false,
        [letter] => *letter != b',',
        [letter, next, ..] => *letter != b',' && *next == b',',
    }
}

// Takes a line apart, whatever its bytes and its length. One that is not well formed, or has more fields than any letter takes, is none. Inlined, so that no
// command is copied on its way out, number by number as it was just written.
#[inline(always)]
pub fn parse(line: &[u8]) -> Option<Command>
    ensures { result ≡ command_of line.now }
{
    if 200 < line.len() {
        return None;
    }
    if !starts_well(line) {
        return None;
    }
    let mut fields = [0; 11];
    let mut count = 0;
    let mut at = 1;
    while at < line.len() {
        if count == 11 {
            return None;
        }
        let Field { value, next } = field_at(line, at + 1)?;
        fields[count] = value;
        count += 1;
        at = next;
    }
    let letter = line[0];
    Some(Command {
        letter,
        count,
        fields,
    })
}

// ---- an answer's bytes

// Writes b at `at`; the place after it is returned.
pub fn put_byte(out: &mut [u8], at: usize, b: u8) -> usize
    requires { at < length out.old }
    ensures { Put out.old at (b ∷ []) out.new result }
{
    out[at] = b;
    at + 1
}

// Writes the digits of n from `at` on: the last one first, and then the other way round.
fn put_digits(out: &mut [u8], at: usize, n: u64) -> usize
    requires { (n < 10000000000) × (at + length (digits_of 10 n) ≤ length out.old) }
    ensures { Put out.old at (digits_of 10 n) out.new result }
{
    let mut left = n;
    let mut i = at;
    while 10 <= left {
        out[i] = b'0' + (left % 10) as u8;
        left /= 10;
        i += 1;
    }
    out[i] = b'0' + left as u8;
    out[at..=i].reverse();
    i + 1
}

// Writes a comma and the digits of n from `at` on; the place after them is returned.
pub fn put_field(out: &mut [u8], at: usize, n: u64) -> usize
    requires { (n < 10000000000) × (at + length (field_of n) ≤ length out.old) }
    ensures { Put out.old at (field_of n) out.new result }
{
    let from = put_byte(out, at, b',');
    put_digits(out, from, n)
}

// ---- a stream cut into lines

// Where the line that starts at `from` ends: at the next line end, or with the chunk.
pub fn line_end(chunk: &[u8], from: usize) -> usize
    ensures { result ≡ end_of chunk.now from }
{
    for i in from..chunk.len() {
        if chunk[i] == b'\n' {
            return i;
        }
    }
    chunk.len().max(from)
}

// Writes the bytes from `at` on.
pub fn put_bytes(out: &mut [u8], at: usize, bytes: &[u8])
    requires { at + length bytes.now ≤ length out.old }
    ensures { out.new ≡ written out.old at bytes.now }
{
    out[at..at + bytes.len()].copy_from_slice(bytes);
}

// The text since the last line end is lent as 201 bytes: how many it has, then these. 201 says that it is too long for a line.

// Puts bytes behind the text.
pub fn append(text: &mut [u8], bytes: &[u8])
    requires { length text.old ≡ 201 }
    ensures { text.new ≡ kept text.old (text_in text.old ++ bytes.now) }
{
    let held = text[0] as usize;
    let all = held.saturating_add(bytes.len());
    if 200 < all {
        text[0] = 201;
        return;
    }
    put_bytes(text, 1 + held, bytes);
    text[0] = all as u8;
}
