// Chart pages (02, ticket 1): up to 56 chosen signals and 72 recorded cycles, as the text of a page to print.
// `cavundir_panel_c` exports the call for C.

#![tactic(auto)]

ghost use Rattle.std.specs.Prelude.{◌≡◌, ℕ, ◌+◌, ◌<◌, ◌≤◌, length, get_or};
ghost use Rattle.std.proofs.lemmas.List.Edits.{sets};
ghost use Rattle.logic.specs.Listed.{listed};
ghost use Rattle.model.specs.Listing.{joined};
ghost use Rattle.file_lines.specs.Answer.{Answers};
ghost use Rattle.session_answers.specs.Answers.{check_bits};
ghost use Rattle.session_answers.specs.Leaves.{Leaves};
ghost use Rattle.session_answers.specs.Left.{left_after};
ghost use Rattle.charts.specs.Page.{page_signals, page_cycles, line_bytes, chosen, charted, glyph as glyph_of, last_cycle};
ghost use Rattle.charts.specs.Text.{spaces, head_text, row_text, chart_row, page_text, printed_on};
ghost use Rattle.charts.specs.Checks.{counts_check, signals_check, rows_check, chart_check};
ghost use Rattle.charts.specs.Answer.{chart_refusal};

use clock::Cycle;
use file_lines::Refusal;
use session_answers::NoSuchValue;
use std::array::TryFromSliceError;

// The lengths of the three buffers.
const SIGNALS_BYTES: usize = 112;

const VALUES_BYTES: usize = 4032;

const PAGE_BYTES: usize = 4617;

// The most signals and cycles of a page, as C counts them.
const MOST_SIGNALS: u32 = 56;

const MOST_CYCLES: u32 = 72;

// The highest signal and the highest cycle.
const LAST_SIGNAL: u16 = 4096;

const LAST_CYCLE: u32 = 65535;

// The values of a row, printed or not; the columns of a line, and its bytes.
const ROW: usize = 72;

const COLUMNS: usize = 80;

const LINE: usize = 81;

// The columns of a number and of the two cycles, and the column of the first value.
const NUMBER: usize = 6;

const CYCLES: usize = 12;

const FIRST_VALUE: usize = 8;

// The refusals of the call: 40, 46, 41 or 42.
#[derive(Clone, Copy, Debug, PartialEq, Eq)]
pub enum ChartRefusal {
    WrongLength,
    OffPage,
    NoSuchSignal(u16),
    NoSuchValue(u8),
}

impl Refusal for ChartRefusal {
    ghost use Rattle.charts.specs.Answer.{chart_refusal};

    ghost refusal = { chart_refusal };

    fn told(self) -> (u8, u32) {
        match self {
            ChartRefusal::WrongLength => (40, 0),
            ChartRefusal::OffPage => (46, 0),
            ChartRefusal::NoSuchSignal(signal) => (41, u32::from(signal)),
            ChartRefusal::NoSuchValue(value) => (42, u32::from(value)),
        }
    }
}

// A buffer lent with another length than its fixed one. Each type of refusals has an impl of its own, since `?` asks for one.
impl From<TryFromSliceError> for ChartRefusal {
    ghost use Rattle.charts.specs.declared.ChartRefusal.TheVariants.{WrongLength};

    ghost from_gives = { λ _ refusal. refusal ≡ WrongLength };

    fn from(_error: TryFromSliceError) -> ChartRefusal {
        ChartRefusal::WrongLength
    }
}

impl From<NoSuchValue> for ChartRefusal {
    ghost use Rattle.charts.specs.declared.ChartRefusal.TheVariants.{NoSuchValue};

    ghost from_gives = { λ error refusal. refusal ≡ NoSuchValue error.0 };

    fn from(error: NoSuchValue) -> ChartRefusal {
        ChartRefusal::NoSuchValue(error.0)
    }
}

// 46: the counts, and the last cycle. It is judged by a difference, since 32 bits may have no room for the sum.
fn check_counts(count: u32, first: u32, cycles: u32) -> Result<(), ChartRefusal>
    ensures { Answers chart_refusal (tt {0}) (counts_check count first cycles) result }
{
    if !(1..=MOST_SIGNALS).contains(&count) {
        return Err(ChartRefusal::OffPage);
    }
    if !(1..=MOST_CYCLES).contains(&cycles) {
        return Err(ChartRefusal::OffPage);
    }
    if LAST_CYCLE - (cycles - 1) < first {
        return Err(ChartRefusal::OffPage);
    }
    Ok(())
}

// What a page can carry: the chosen signals, their recorded values, and how many of both are printed. C lends both buffers at
// their fixed lengths, and the counts beside them.
#[derive(Drop)]
struct Plot<'a> {
    signals: &'a [u8; SIGNALS_BYTES],
    values: &'a [u8; VALUES_BYTES],
    count: usize,
    first: Cycle,
    cycles: usize,
    ghost count_high: { count ≤ page_signals },
    ghost cycles_low: { 1 ≤ cycles },
    ghost cycles_high: { cycles ≤ page_cycles },
    ghost last_high: { last_cycle first.0 cycles ≤ 65535 },
}

// The byte that a value is printed as: 0, 1, U or Z.
#[tactic(auto, unfolding(crate::specs::Page::glyph))]
fn glyph(value: u8) -> u8
    ensures { result ≡ glyph_of value }
{
    match value {
        0 => b'0',
        1 => b'1',
        2 => b'U',
        _ => b'Z',
    }
}

// Spaces, written at a place.
fn write_spaces(page: &mut [u8], at: usize, count: usize)
    requires { at + count ≤ length page.old }
    ensures { page.new ≡ sets page.old at (spaces count) }
{
    page[at..at + count].fill(b' ');
}

// The values of some cycles, written at a place, by the index of each: of what an adapter of `iter_mut` wrote, a proof knows nothing.
fn write_glyphs(page: &mut [u8], at: usize, values: &[u8])
    requires { at + length values.now ≤ length page.old }
    ensures { page.new ≡ sets page.old at (listed (length values.now) (λ c. glyph_of (get_or values.now c 0))) }
{
    for (c, &value) in values.iter().enumerate() {
        page[at + c] = glyph(value);
    }
}

// The line of the first and the last cycle.
fn write_head(page: &mut [u8], first: Cycle, last: Cycle)
    requires { line_bytes ≤ length page.old }
    ensures { page.new ≡ sets page.old 0 (head_text first.0 last.0) }
{
    writing::write_field(page, 0, first.0);
    writing::write_field(page, NUMBER, last.0);
    write_spaces(page, CYCLES, COLUMNS - CYCLES);
    page[COLUMNS] = b'\n';
}

// The line of a signal and its values, written at a place.
fn write_row(page: &mut [u8], at: usize, signal: u16, values: &[u8])
    requires { (at + line_bytes ≤ length page.old) × (length values.now ≤ page_cycles) }
    ensures { page.new ≡ sets page.old at (row_text signal (length values.now) (λ c. get_or values.now c 0)) }
{
    let printed = FIRST_VALUE + values.len();
    writing::write_field(page, at, signal);
    write_spaces(page, at + NUMBER, 2);
    write_glyphs(page, at + FIRST_VALUE, values);
    write_spaces(page, at + printed, COLUMNS - printed);
    page[at + COLUMNS] = b'\n';
}

impl<'a> Plot<'a> {
    // A buffer is named first: a proof takes its length from the type of a variable, and not of a field.

    // The signal chosen for a line.
    fn signal(&self, line: usize) -> u16
        requires { line < self.now.count }
        ensures { result ≡ chosen self.now.signals.now line }
    {
        let signals = self.signals;
        words::word_at(signals, 2 * line)
    }

    // 41: the first chosen signal that there cannot be.
    fn check_signals(&self) -> Result<(), ChartRefusal>
        ensures { Answers chart_refusal (tt {0}) (signals_check self.now.signals.now self.now.count) result }
    {
        for k in 0..self.count {
            let signal = self.signal(k);
            if !(1..=LAST_SIGNAL).contains(&signal) {
                return Err(ChartRefusal::NoSuchSignal(signal));
            }
        }
        Ok(())
    }

    // The values to be printed in a line.
    fn row(&self, line: usize) -> &[u8]
        requires { line < self.now.count }
        ensures size { length result.now ≡ self.now.cycles }
        ensures values { (c : ℕ) → c < self.now.cycles → get_or result.now c 0 ≡ charted self.now.values.now line c }
    {
        let values = self.values;
        &values[ROW * line..ROW * line + self.cycles]
    }

    // 42: the first value above 3, by line and cycle, of those to be printed.
    fn check_values(&self) -> Result<(), ChartRefusal>
        ensures { Answers chart_refusal (tt {0}) (rows_check self.now.values.now self.now.count self.now.cycles) result }
    {
        for line in 0..self.count {
            session_answers::check_recorded(self.row(line))?;
        }
        Ok(())
    }

    // A line for each chosen signal, behind the first line.
    fn fill_rows(&self, page: &mut [u8; PAGE_BYTES])
        ensures { page.new ≡ sets page.old line_bytes (joined self.now.count (chart_row self.now.signals.now self.now.values.now self.now.cycles)) }
    {
        for k in 0..self.count {
            write_row(page, LINE * (k + 1), self.signal(k), self.row(k));
        }
    }

    // The whole text of a page.
    // By `as`, in this file, where the bound is proved: no `From` has this conversion, and `TryFrom` has an error that cannot happen.
    fn fill_page(&self, page: &mut [u8; PAGE_BYTES])
        ensures { page.new ≡ printed_on page.old (page_text self.now.signals.now self.now.values.now self.now.count self.now.first.0 self.now.cycles) }
    {
        let last = Cycle(self.first.0 + ((self.cycles - 1) as u16));
        write_head(page, self.first, last);
        self.fill_rows(page);
    }
}

// Prints the page, or refuses and changes no byte of the page.
fn chart_checked(
    signals: &[u8],
    values: &[u8],
    page: &mut [u8],
    count: u32,
    first: u32,
    cycles: u32,
) -> Result<(), ChartRefusal>
    ensures { Leaves chart_refusal (chart_check signals.now values.now page.old count first cycles) (printed_on page.old (page_text signals.now values.now count first cycles)) page.old result page.new }
{
    let signals: &[u8; SIGNALS_BYTES] = signals.try_into()?;
    let values: &[u8; VALUES_BYTES] = values.try_into()?;
    // `as_mut_array` says, as `try_into` does not, what the slice holds in the end.
    let page = page.as_mut_array().ok_or(ChartRefusal::WrongLength)?;
    check_counts(count, first, cycles)?;
    let plot = Plot {
        signals,
        values,
        count: count as usize,
        first: Cycle(first as u16),
        cycles: cycles as usize,
    };
    plot.check_signals()?;
    plot.check_values()?;
    plot.fill_page(page);
    Ok(())
}

// Prints a chart page into a buffer. Refused by 40, 46, 41, 42, and then no byte of the page changes. The six parameters are C's: a `Plot`
// is what they make once they are judged.
pub fn chart(
    signals: &[u8],
    values: &[u8],
    page: &mut [u8],
    count: u32,
    first: u32,
    cycles: u32,
) -> u64
    ensures answer { result ≡ check_bits (chart_check signals.now values.now page.old count first cycles) }
    ensures page { page.new ≡ left_after (chart_check signals.now values.now page.old count first cycles) (printed_on page.old (page_text signals.now values.now count first cycles)) page.old }
{
    session_answers::check_bits(chart_checked(signals, values, page, count, first, cycles))
}
