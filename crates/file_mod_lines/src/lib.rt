// The lines of MOD (01, Files and Refusals): 20 and 21, line by line.

#![tactic(auto)]

ghost use Rattle.std.specs.Prelude.{◌≡◌, ◌+◌, ◌*◌, ◌/◌, ◌%◌, ◌<◌, ◌≤◌, ltb};
ghost use Rattle.logic.specs.Test.{◌and◌};
ghost use Rattle.model.specs.Network.{Network};
ghost use Rattle.model.specs.ModuleFile.{mod_header, mod_slot, each_line, mod_surplus};
ghost use Rattle.file_lines.specs.Answer.{Answers};
ghost use Rattle.file_mod_lines.specs.Answer.{mod_refusal, ModAnswers, Sized};
ghost use Rattle.file_mod_lines.specs.Form.{form_check};
ghost use Rattle.file_mod_lines.specs.Layout.{number_in, header_at, pair_at, operands_at, line_at};

use clock::Slot;
use fields::Line;
use file_lines::Refusal;

// The part of a pair that names no location, as the file writes it: compared once, so no enum is made of the parts.
const NO_PART: u16 = 9;

// What MOD is refused for: a line, and at 22 a signal.
#[derive(Clone, Copy, Debug, PartialEq, Eq)]
pub enum ModRefusal {
    Misformed(u16),
    Layout(u16),
    Placement(u16),
    Send(u16),
    Reception(u16),
    WrongOperand(u16),
}

impl Refusal for ModRefusal {
    ghost use Rattle.file_mod_lines.specs.Answer.{mod_refusal};

    ghost refusal = { mod_refusal };

    fn told(self) -> (u8, u32) {
        match self {
            ModRefusal::Misformed(line) => (20, u32::from(line)),
            ModRefusal::Layout(line) => (21, u32::from(line)),
            ModRefusal::Placement(signal) => (22, u32::from(signal)),
            ModRefusal::WrongOperand(line) => (23, u32::from(line)),
            ModRefusal::Send(line) => (24, u32::from(line)),
            ModRefusal::Reception(line) => (25, u32::from(line)),
        }
    }
}

// P and C, which line 1 gives. Their bounds are no facts of the type: definitions make a `Shape` of any line 1 (`shape_of`), and whoever
// makes one would be asked for them.
#[derive(Clone, Copy)]
pub struct Shape {
    pub processors: u16,
    pub slots: u16,
}

// The processor and the slot that a line after the first stands for.
#[derive(Clone, Copy)]
pub struct Place {
    pub processor: u16,
    pub slot: Slot,
}

impl Shape {
    // P and C, as line 1 has them.
    pub fn of_line(line: &Line<14>) -> Shape
        ensures { (result.processors ≡ number_in line.now.bytes.now line.now.at 0) × (result.slots ≡ number_in line.now.bytes.now line.now.at 1) }
    {
        Shape {
            processors: line.number(0),
            slots: line.number(1),
        }
    }

    // P × C.
    pub fn lines(self) -> u16
        requires { (self.processors ≤ 16) × (self.slots ≤ 256) }
        ensures { (result ≡ self.processors * self.slots) × (result ≤ 4096) }
    {
        self.processors * self.slots
    }

    // The module has the processor and the slot.
    #[tactic(auto, using(logic::proofs::Judged::connected))]
    pub fn has(self, place: Place) -> bool
        ensures { result ≡ ltb place.processor self.processors and ltb place.slot.0 self.slots }
    {
        place.processor < self.processors && place.slot.0 < self.slots
    }

    // "by processor (0 to P-1), within it by slot (0 to C-1)": the place of the line k after the first.
    pub fn place_of(self, k: u16) -> Place
        requires { 1 ≤ self.slots }
        ensures { (result.processor ≡ k / self.slots) × (result.slot.0 ≡ k % self.slots) }
    {
        Place {
            processor: k / self.slots,
            slot: Slot(k % self.slots),
        }
    }
}

impl Place {
    // The place of a location that its line names, which is its own processor's.
    pub fn at(self, location: u8) -> Place
        ensures { (result.processor ≡ self.processor) × (result.slot.0 ≡ location) }
    {
        Place {
            slot: Slot(u16::from(location)),
            ..self
        }
    }

    // The place of the same slot in a processor.
    pub fn of_processor(self, processor: u16) -> Place
        ensures { (result.processor ≡ processor) × (result.slot.0 ≡ self.slot.0) }
    {
        Place { processor, ..self }
    }

    // Where its line stands in MOD.
    pub fn line_in(self, shape: Shape) -> usize
        requires { (self.processor < 16) × (self.slot.0 < 256) × (shape.slots ≤ 256) }
        ensures { (result ≡ 85 * (1 + self.processor * shape.slots + self.slot.0)) × (result ≤ 348160) }
    {
        let line = usize::from(self.processor) * usize::from(shape.slots);
        85 * (1 + line + usize::from(self.slot.0))
    }
}

// A pair from a column on: a part up to `most` and a location below C, or "Part 9 with location 0".
fn is_pair_laid(line: &Line<14>, column: usize, most: u16, slots: u16) -> bool
    requires { column < 13 }
    ensures { result ≡ pair_at line.now.bytes.now line.now.at column most slots }
{
    let part = line.number(column);
    let location = line.number(column + 1);
    location < slots
        && if part == NO_PART {
            location == 0
        } else {
            part <= most
        }
}

// The four operands: "part 0 to 3 or 9".
fn are_operands_laid(line: &Line<14>, slots: u16) -> bool
    ensures { result ≡ operands_at line.now.bytes.now line.now.at slots }
{
    (0..4).all(|j| is_pair_laid(line, 3 + 2 * j, 3, slots))
}

// The layout is that of a place, N, P and C being given.
#[tactic(auto, using(logic::proofs::Judged::connected), unfolding(crate::specs::Layout::line_at))]
fn is_slot_laid(line: &Line<14>, place: Place, signals: u16, shape: Shape) -> bool
    ensures { result ≡ line_at line.now.bytes.now line.now.at place.processor place.slot.0 signals shape.processors shape.slots }
{
    line.number(0) == place.processor
        && line.number(1) == place.slot.0
        && line.number(2) <= signals
        && are_operands_laid(line, shape.slots)
        && is_pair_laid(line, 11, 1, shape.slots)
        && instruction::sender_right(line.number(13), shape.processors)
}

// The layout is that of line 1: "P (1 to 16), C (1 to 256), twelve zeros".
fn is_header_laid(line: &Line<14>) -> bool
    ensures { result ≡ header_at line.now.bytes.now line.now.at }
{
    (1..=16).contains(&line.number(0))
        && (1..=256).contains(&line.number(1))
        && line.has_zeros(2, 12)
}

// Line 1: 20, then 21. This, the lines and the surplus are judged in NET as here, but by other numbers of fields, other tests and other
// refusals: one function of both would be lent all of these, and would have no statement of its own.
fn check_header(modfile: &[u8]) -> Result<Shape, ModRefusal>
    ensures { ModAnswers modfile.now (mod_header modfile.now) result }
{
    fields::read_line(modfile, 0, 14).ok_or(ModRefusal::Misformed(1))?;
    let line = Line::new(modfile, 0);
    if !is_header_laid(&line) {
        return Err(ModRefusal::Layout(1));
    }
    Ok(Shape::of_line(&line))
}

// The lines after the first, in their order: 20, then 21, and left at the first fault with its line. They are counted from 0, as their
// places are divided out of the count.
fn check_lines(modfile: &[u8], signals: u16, shape: Shape) -> Result<(), ModRefusal>
    requires { Sized modfile.now shape.processors shape.slots }
    ensures { (n : Network) → n.size ≡ signals → Answers mod_refusal tt (each_line modfile.now (mod_slot n modfile.now)) result }
{
    let mut answer = Ok(());
    'lines: for k in 0..shape.lines() {
        let at = 85 * (usize::from(k) + 1);
        for column in 0..14 {
            if fields::read_field(modfile, at + 6 * column).is_none() {
                answer = Err(ModRefusal::Misformed(k + 2));
                break 'lines;
            }
        }
        if !fields::ends_line(modfile, at + 84) {
            answer = Err(ModRefusal::Misformed(k + 2));
            break 'lines;
        }
        let line = Line::new(modfile, at);
        if !is_slot_laid(&line, shape.place_of(k), signals, shape) {
            answer = Err(ModRefusal::Layout(k + 2));
            break 'lines;
        }
    }
    answer
}

// A line after the last: 20.
fn check_surplus(modfile: &[u8], shape: Shape) -> Result<(), ModRefusal>
    requires { Sized modfile.now shape.processors shape.slots }
    ensures { Answers mod_refusal tt (mod_surplus modfile.now) result }
{
    let lines = shape.lines();
    if 85 * (usize::from(lines) + 1) < modfile.len() {
        return Err(ModRefusal::Misformed(lines + 2));
    }
    Ok(())
}

// The lines of MOD, N being given: 20 and 21 line by line, and 20 for a line after the last.
pub fn check_form(modfile: &[u8], signals: u16) -> Result<Shape, ModRefusal>
    ensures { (n : Network) → n.size ≡ signals → ModAnswers modfile.now (form_check n modfile.now) result }
{
    let shape = check_header(modfile)?;
    check_lines(modfile, signals, shape)?;
    check_surplus(modfile, shape)?;
    Ok(shape)
}
