// STIM (01, Files): its check, with refusals 30, 31 and 32, and a cursor over the lines of an accepted STIM.

#![tactic(auto)]

ghost use Rattle.std.specs.Prelude.{◌≡◌, true, ◌<◌, ◌≤◌};
ghost use Rattle.fields.specs.Line.{is_line_at};
ghost use Rattle.model.specs.Network.{is_signal};
ghost use Rattle.model.specs.Netlist.{network};
ghost use Rattle.model.specs.Stimulus.{stim_line, stim_limit, stim_check, stim_count};
ghost use Rattle.file_stim.specs.Acceptance.{SomeAccepts};
ghost use Rattle.file_stim.specs.Answer.{StimAnswers};
ghost use Rattle.file_stim.specs.Judging.{numbers_of, ends, rises, gives, may, judged_end, judged_given};

use clock::Cycle;
use file_lines::Refusal;
use netlist::Netlist;

// What STIM is refused for, with the line.
#[derive(Clone, Copy, Debug, PartialEq, Eq)]
pub enum StimRefusal {
    Misformed(u16),
    Layout(u16),
    NotInput(u16),
}

impl Refusal for StimRefusal {
    ghost use Rattle.file_stim.specs.Answer.{stim_refusal};

    ghost refusal = { stim_refusal };

    fn told(self) -> (u8, u32) {
        match self {
            StimRefusal::Misformed(line) => (30, u32::from(line)),
            StimRefusal::Layout(line) => (31, u32::from(line)),
            StimRefusal::NotInput(line) => (32, u32::from(line)),
        }
    }
}

// What a line says: a signal's value at a time; or T, 0, 0.
#[derive(Clone, Copy)]
pub struct Line {
    pub time: Cycle,
    pub signal: u16,
    pub value: u16,
}

// The bytes of a STIM that is accepted, by whatever network.
#[derive(Clone, Copy)]
pub struct Stimulus<'a> {
    pub bytes: &'a [u8],
    pub ghost accepted: { ∥ SomeAccepts bytes.now ∥₁ },
}

// A place among its lines: how many are passed, and so the index of the next. The end line is the last.
#[derive(Clone, Copy)]
pub struct Cursor<'a> {
    pub stimulus: Stimulus<'a>,
    pub line: usize,
    pub ghost within: { line ≤ stim_count stimulus.bytes.now },
}

impl Line {
    // What a right line says.
    #[tactic(auto, using(crate::proofs::Steps::line_fits))]
    pub fn at(stim: &[u8], index: usize) -> Line
        requires { is_line_at stim.now (stim_line index) 3 ≡ true }
        ensures { result ≡ numbers_of stim.now index }
    {
        let numbers = fields::Line::<3>::new(stim, 19 * index);
        Line {
            time: Cycle(numbers.number(0)),
            signal: numbers.number(1),
            value: numbers.number(2),
        }
    }

    // "The last line is T, 0, 0".
    #[tactic(auto, using(logic::proofs::Judged::connected), unfolding(crate::specs::Judging::ends))]
    fn is_end(self) -> bool
        ensures { result ≡ ends self }
    {
        self.signal == 0 && self.value == 0
    }

    // "Strictly rising by time and then signal".
    #[tactic(auto, using(crate::proofs::Rising::pairs_rise), unfolding(crate::specs::Judging::rises))]
    fn is_above(self, before: Line) -> bool
        ensures { result ≡ rises before self }
    {
        (before.time, before.signal) < (self.time, self.signal)
    }
}

// The end line: 31 where T is below the time before it, then 30 for a surplus line after it.
#[tactic(auto, using(logic::proofs::Judged::connected), unfolding(crate::specs::Judging::judged_end))]
fn judge_end(index: u16, last: bool, before: Line, here: Line) -> Result<u16, StimRefusal>
    requires { index < stim_limit }
    ensures { result ≡ judged_end index last before here }
{
    if here.time < before.time {
        return Err(StimRefusal::Layout(index + 1));
    }
    if !last {
        return Err(StimRefusal::Misformed(index + 2));
    }
    Ok(index)
}

// A line that gives a value has its signal, its value and its place in the order right.
#[tactic(auto, using(logic::proofs::Judged::connected), unfolding(crate::specs::Judging::gives))]
fn gives_value(net: &Netlist, before: Line, here: Line) -> bool
    ensures { result ≡ gives (network net.now.net.now) before here }
{
    net.is_signal(here.signal) && here.value <= 3 && here.is_above(before)
}

// "Time 0 may name any signal, a later time only inputs."
#[tactic(auto, using(logic::proofs::Judged::connected), unfolding(crate::specs::Judging::may))]
fn may_give(net: &Netlist, here: Line) -> bool
    requires { is_signal (network net.now.net.now) here.signal ≡ true }
    ensures { result ≡ may (network net.now.net.now) here }
{
    here.time == Cycle(0) || net.is_input(here.signal)
}

// A line that gives a value: 31 where the signal, the value or the order is wrong, then 32 for a gate at a later time.
#[tactic(auto, using(crate::proofs::Judging::gives_signal), unfolding(crate::specs::Judging::judged_given))]
fn judge_given(net: &Netlist, index: u16, before: Line, here: Line) -> Result<(), StimRefusal>
    requires { index < stim_limit }
    ensures { result ≡ judged_given (network net.now.net.now) index before here }
{
    if !gives_value(net, before, here) {
        return Err(StimRefusal::Layout(index + 1));
    }
    if !may_give(net, here) {
        return Err(StimRefusal::NotInput(index + 1));
    }
    Ok(())
}

// STIM's check: its lines in order, 30 before 31 before 32 in each, and left at the first fault with its line or at
// the end line, with the number of lines before it. "At most 65534 lines": line 65535 is missing or surplus.
pub fn check_stim(net: &Netlist, stim: &[u8]) -> Result<u16, StimRefusal>
    ensures { StimAnswers stim.now (stim_check (network net.now.net.now) stim.now) result }
{
    let mut answer = Err(StimRefusal::Misformed(65535));
    let mut before = Line {
        time: Cycle(0),
        signal: 0,
        value: 0,
    };
    'lines: for index in 0..65534 {
        let at = 19 * usize::from(index);
        // Each number is kept as it is read, and none is decoded again: by `Line::at` the largest STIM's check takes a quarter longer.
        let mut numbers = [0u16; 3];
        for column in 0..3 {
            let Some((number, _)) = fields::read_field(stim, at + 6 * column) else {
                answer = Err(StimRefusal::Misformed(index + 1));
                break 'lines;
            };
            numbers[column] = number;
        }
        if !fields::ends_line(stim, at + 18) {
            answer = Err(StimRefusal::Misformed(index + 1));
            break 'lines;
        }
        let here = Line {
            time: Cycle(numbers[0]),
            signal: numbers[1],
            value: numbers[2],
        };
        if here.is_end() {
            answer = judge_end(index, stim.len() <= at + 19, before, here);
            break 'lines;
        }
        if let Err(refusal) = judge_given(net, index, before, here) {
            answer = Err(refusal);
            break 'lines;
        }
        before = here;
    }
    answer
}

impl<'a> Cursor<'a> {
    ghost use Rattle.file_stim.specs.Stepping.{StepAt, StepOf};

    // What the line at the cursor says.
    #[tactic(auto, using(crate::proofs::Steps::line_right))]
    pub fn here(self) -> Line
        ensures { result ≡ numbers_of self.entry.stimulus.bytes.now self.entry.line }
    {
        Line::at(self.stimulus.bytes, self.line)
    }

    // The line at the cursor, which gives a value, and the cursor goes on to the next; none at the end line, where it stays.
    #[tactic(auto, using(crate::proofs::Judging::ended, crate::proofs::Steps::before_end))]
    pub fn next(&mut self) -> Option<Line>
        ensures { StepAt self.old self.new result }
    {
        let here = self.here();
        if here.is_end() {
            return None;
        }
        self.line += 1;
        Some(here)
    }

    // The same, where the line is of a time; none at a line of another time, too, where the cursor stays. Who takes the lines of a time
    // does so in a `while`, as from a stack: an iterator over the lines of one time would be a type of its own, lent the cursor.
    #[tactic(auto)]
    pub fn next_of(&mut self, time: Cycle) -> Option<Line>
        ensures { StepOf self.old self.new time.0 result }
    {
        let mut after = *self;
        let line = after.next().filter(|line| line.time == time)?;
        *self = after;
        Some(line)
    }
}
