// A line of fields that was found right.

ghost use Rattle.std.specs.Prelude.{◌≡◌, true, ◌+◌, ◌*◌, ◌<◌, ◌≤◌, eqb};
ghost use Rattle.logic.specs.Test.{all};
ghost use Rattle.fields.specs.Field.{number_at};
ghost use Rattle.fields.specs.Line.{is_line_at};

use crate::{number_at, zeros_at};

// A right line of N fields: at an offset of a file.
#[derive(Clone, Copy)]
pub struct Line<'a, const N: usize> {
    bytes: &'a [u8],
    at: usize,
    pub ghost right: { is_line_at bytes.now at N ≡ true },
}

impl<'a, const N: usize> Line<'a, N> {
    // By its offset, which each file counts by its own lines' length, as its definitions do.
    pub fn new(bytes: &'a [u8], at: usize) -> Self
        requires { is_line_at bytes.now at N ≡ true }
        ensures { (result.bytes.now ≡ bytes.now) × (result.at ≡ at) }
    {
        Line { bytes, at }
    }

    // The number in a column.
    pub fn number(&self, column: usize) -> u16
        requires { column < N }
        ensures { result ≡ number_at self.now.bytes.now (self.now.at + 6 * column) }
    {
        number_at(self.bytes, self.at + 6 * column)
    }

    // "zeros": `count` numbers from a column on.
    pub fn has_zeros(&self, column: usize, count: usize) -> bool
        requires { column + count ≤ N }
        ensures { result ≡ all count (λ k. eqb (number_at self.now.bytes.now (self.now.at + 6 * (column + k))) 0) }
    {
        zeros_at(self.bytes, self.at + 6 * column, count)
    }
}
