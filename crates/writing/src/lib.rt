// Numbers written as six-column fields and lines.

#![tactic(auto)]

ghost use Rattle.std.specs.Prelude.{◌≡◌, ◌+◌, ◌<◌, ◌≤◌, length};
ghost use Rattle.std.proofs.lemmas.List.Edits.{sets};
ghost use Rattle.fields.specs.Line.{line_length};
ghost use Rattle.writing.specs.Text.{column_of, field_text, line_text};

// The byte of n's column of the given weight.
// By `as`, in this file, where the bound is proved: no `From` has this conversion, and `TryFrom` has an error that cannot happen.
#[tactic(auto, using(logic::proofs::Judged::connected), unfolding(crate::specs::Text::column_of))]
fn column(n: u16, weight: u16) -> u8
    requires { 0 < weight }
    ensures { result ≡ column_of n weight }
{
    if weight <= n || weight == 1 {
        b'0' + (n / weight % 10) as u8
    } else {
        b' '
    }
}

// n's field, written at a place. The column of weight 100000 is above every number. The bytes go into a lent buffer, and nothing
// allocates: `Display` would need a formatter. Each is stored where it belongs: as an array that is copied, each goes through memory first,
// and a listing of many changes takes half as long again.
pub fn write_field(out: &mut [u8], at: usize, n: u16)
    requires { at + 6 ≤ length out.old }
    ensures { out.new ≡ sets out.old at (field_text n) }
{
    out[at] = b' ';
    out[at + 1] = column(n, 10000);
    out[at + 2] = column(n, 1000);
    out[at + 3] = column(n, 100);
    out[at + 4] = column(n, 10);
    out[at + 5] = column(n, 1);
}

// The line of some numbers, written at a place; the place after it.
pub fn write_line(out: &mut [u8], at: usize, numbers: &[u16]) -> usize
    requires { at + line_length (length numbers.now) ≤ length out.old }
    ensures value { result ≡ at + line_length (length numbers.now) }
    ensures out_after { out.new ≡ sets out.old at (line_text numbers.now) }
{
    for (k, &number) in numbers.iter().enumerate() {
        write_field(out, at + 6 * k, number);
    }
    let end = at + 6 * numbers.len();
    out[end] = b'\n';
    end + 1
}
