// Six-column fields and their lines, read at any place of a byte slice.

#![tactic(auto)]

ghost use Rattle.std.specs.Prelude.{◌≡◌, true, ℕ, ◌+◌, ◌*◌, ◌%◌, ◌<◌, ◌≤◌, eqb, length, get_or};
ghost use Rattle.logic.specs.Test.{all};
ghost use Rattle.logic.specs.Numbered.{numbered};
ghost use Rattle.fields.specs.Field.{is_field_at, number_at};
ghost use Rattle.fields.specs.Line.{newline};
ghost use Rattle.fields.specs.Reading.{read_field, read_line};
ghost use Rattle.fields.specs.Scan.{extended, scan, scans, number_of, low_number};

mod line;

pub use line::Line;

// What the columns passed so far are, where they may begin a right field: spaces alone, or a number. As an `Option<u16>` the answer of a
// column would be an `Option` of an `Option`, in which one None is a fault and the other is spaces.
#[derive(Clone, Copy, Debug, PartialEq, Eq)]
pub enum Scan {
    Blank,
    Digits(u16),
}

// A digit after the number n. 0 begins no other number, and no number is above 65535.
#[tactic(auto, using(logic::proofs::Tests::decided), unfolding(crate::specs::Scan::extended))]
fn extend(n: u16, digit: u8) -> Option<u16>
    ensures { result ≡ extended n digit }
{
    if n == 0 {
        return None;
    }
    let next = 10 * u32::from(n) + u32::from(digit);
    u16::try_from(next).ok()
}

// The column c after those before it.
#[tactic(auto, using(crate::proofs::Digit::digits), unfolding(crate::specs::Scan::scan))]
fn scan_column(state: Scan, c: u8) -> Option<Scan>
    ensures { result ≡ scan state c }
{
    match (state, c) {
        (Scan::Blank, b' ') => Some(Scan::Blank),
        (Scan::Blank, b'0'..=b'9') => Some(Scan::Digits(u16::from(c - b'0'))),
        (Scan::Digits(n), b'0'..=b'9') => extend(n, c - b'0').map(Scan::Digits),
        _ => None,
    }
}

// The number that columns are, where they are one.
fn number_of(state: Scan) -> Option<u16>
    ensures { result ≡ number_of state }
{
    match state {
        Scan::Digits(n) => Some(n),
        Scan::Blank => None,
    }
}

// What the columns of a field are, or none that begin one.
fn scan_columns(columns: &[u8; 6]) -> Option<Scan>
    ensures { result ≡ scans Scan.Blank columns.now }
{
    columns
        .iter()
        .try_fold(Scan::Blank, |state, &c| scan_column(state, c))
}

// The field at a place: its number with the place after it, or none that is right. Nothing is read past the slice's end. Not inlined, the
// answer goes through memory, and the check of the largest NET takes 5 % longer.
#[inline(always)]
pub fn read_field(s: &[u8], at: usize) -> Option<(u16, usize)>
    ensures { result ≡ read_field s.now at }
{
    let columns = s.get(at..)?.first_chunk::<6>()?;
    let number = number_of(scan_columns(columns)?)?;
    Some((number, at + 6))
}

// Byte 10 stands at a place.
pub fn ends_line(s: &[u8], at: usize) -> bool
    ensures { result ≡ eqb (get_or s.now at 0) newline }
{
    s.get(at) == Some(&b'\n')
}

// The line of `count` fields at a place, each field in turn and then byte 10: the place after it, or none that is right.
pub fn read_line(s: &[u8], at: usize, count: usize) -> Option<usize>
    ensures { result ≡ read_line s.now at count }
{
    let mut place = at;
    for _ in 0..count {
        let (_, next) = read_field(s, place)?;
        place = next;
    }
    ends_line(s, place).then(|| place + 1)
}

// The low half of a byte: of a digit its value, of a space 0.
fn low_half(c: u8) -> u32
    ensures { (result ≡ c % 16) × (result ≤ 15) }
{
    u32::from(c % 16)
}

// What the low halves of a field's last five columns spell. Five terms and no fold: its closure would be asked how large the number is so
// far, since ten times it may overflow.
fn low_number(s: &[u8], at: usize) -> u32
    requires { at + 6 ≤ length s.now }
    ensures { result ≡ low_number s.now at }
{
    let high = 10000 * low_half(s[at + 1]) + 1000 * low_half(s[at + 2]);
    let low = 100 * low_half(s[at + 3]) + 10 * low_half(s[at + 4]) + low_half(s[at + 5]);
    high + low
}

// The number of a field that was read before and is right, so that nothing is judged again.
// By `as`, in this file, where the bound is proved: no `From` has this conversion, and `TryFrom` has an error that cannot happen.
pub fn number_at(s: &[u8], at: usize) -> u16
    requires { is_field_at s.now at ≡ true }
    ensures { result ≡ number_at s.now at }
{
    low_number(s, at) as u16
}

// A number, or none where it is 0.
pub fn numbered(number: u16) -> Option<u16>
    ensures { result ≡ numbered number }
{
    (number != 0).then_some(number)
}

// "zeros": `count` fields from a place on, which were read before and are right, are 0. A method of `Line` would ask for
// their line, too, and so promise less.
pub fn zeros_at(s: &[u8], at: usize, count: usize) -> bool
    requires { (k : ℕ) → k < count → is_field_at s.now (at + 6 * k) ≡ true }
    ensures { result ≡ all count (λ k. eqb (number_at s.now (at + 6 * k)) 0) }
{
    (0..count).all(|k| number_at(s, at + 6 * k) == 0)
}
