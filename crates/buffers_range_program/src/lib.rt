// 44 (01, Refusals), of the program: the lines of P processors and C slots, and zeros.

#![tactic(auto)]

ghost use Rattle.std.specs.Prelude.{◌≡◌, ◌+◌, ◌<◌, ◌≤◌, eqb, leb};
ghost use Rattle.logic.specs.Test.{one};
ghost use Rattle.buffers_tables.specs.Panel.{processors_in, slots_in};
ghost use Rattle.buffers_tables.specs.Program.{program_length, line_stride};
ghost use Rattle.buffers_range_program.specs.Ranges.{program_ranged};
ghost use Rattle.buffers_range_program.specs.Order.{pair_at, operands_at, line_at, slot_at, slots_at};

use buffers_tables::{
    LINE_STRIDE, OPERAND1, OPERAND2, OPERAND3, OPERAND4, Panel, Program, SEND, SENDER, SLOT_LINES,
    SLOT_STRIDE,
};
use clock::Slot;

// 1 where a number reaches a limit that it has to stay below, else 0.
fn reaches(x: u16, limit: u16) -> u8
    ensures { (result ≡ one (leb limit x)) × (result ≤ 1) }
{
    u8::from(limit <= x)
}

// 1 where two numbers are equal, else 0.
fn equals(x: u16, y: u16) -> u8
    ensures { (result ≡ one (eqb x y)) × (result ≤ 1) }
{
    u8::from(x == y)
}

// The bytes of a program, with the N, P and C that they are judged by.
#[derive(Clone, Copy)]
struct Judged<'a> {
    bytes: &'a Program,
    signals: u16,
    processors: u8,
    slots: u16,
    ghost processors_high: { processors ≤ 16 },
    ghost slots_high: { slots ≤ 256 },
}

impl<'a> Judged<'a> {
    // The bytes are named first in each method that reads them: a proof takes their length from the type of a variable, and not of a field.

    // The faults of the pair at a place: a part above `most`, a location not below C, less one where it is "Part 9 with location 0".
    // Parts follow no pattern that a processor could predict, so faults are counted, not branched on.
    #[tactic(auto, using(crate::proofs::Faults::none_fault, crate::proofs::Faults::pair_fault))]
    fn pair_faults(&self, at: usize, most: u16) -> u8
        requires { (at + 2 ≤ program_length) × (most < 9) }
        ensures { (eqb result 0 ≡ pair_at self.now.bytes.now at most self.now.slots) × (result ≤ 2) }
    {
        let bytes = self.bytes;
        let part = reaches(u16::from(bytes[at]), most + 1);
        let location = reaches(u16::from(bytes[at + 1]), self.slots);
        let none = equals(words::word_at(bytes, at), 9);
        part + location - none
    }

    // The faults of the four operands of the line at a place: "part 0 to 3 or 9". Four calls, and no `sum` over the columns: of a pair it
    // is told whether there is a fault, and that there are two at most, but not how many, and the laws of `sum` ask for each summand.
    #[tactic(auto, using(crate::proofs::Faults::four_none), unfolding(crate::specs::Order::operands_at))]
    fn operand_faults(&self, at: usize) -> u8
        requires { at + line_stride ≤ program_length }
        ensures { (eqb result 0 ≡ operands_at self.now.bytes.now at self.now.slots) × (result ≤ 8) }
    {
        let first = self.pair_faults(at + OPERAND1, 3);
        let second = self.pair_faults(at + OPERAND2, 3);
        let third = self.pair_faults(at + OPERAND3, 3);
        let fourth = self.pair_faults(at + OPERAND4, 3);
        first + second + third + fourth
    }

    // The line at a place: "signal (1 to N, or 0: empty slot)", the operands, "a send 0, 1 or 9", and the processor received from.
    #[tactic(auto, using(logic::proofs::Judged::connected, crate::proofs::Faults::both_none), unfolding(crate::specs::Order::line_at))]
    fn line_right(&self, at: usize) -> bool
        requires { at + line_stride ≤ program_length }
        ensures { result ≡ line_at self.now.bytes.now at self.now.signals self.now.processors self.now.slots }
    {
        let bytes = self.bytes;
        words::word_at(bytes, at) <= self.signals
            && self.operand_faults(at) + self.pair_faults(at + SEND, 1) == 0
            && instruction::sender_right(u16::from(bytes[at + SENDER]), u16::from(self.processors))
    }

    // The 16 lines of a slot: those of P processors, and zeros.
    // A run of records that are right, and then zeros, is written out here and in `slots_right`, `signals_right` and `part_right`: one
    // function for the four would take six parameters for a body of two lines.
    fn slot_right(&self, slot: Slot) -> bool
        requires { slot.0 < self.now.slots }
        ensures { result ≡ slot_at self.now.bytes.now slot.0 self.now.signals self.now.processors self.now.slots }
    {
        let bytes = self.bytes;
        let at = SLOT_STRIDE * usize::from(slot.0);
        let lines = usize::from(self.processors);
        (0..lines).all(|p| self.line_right(at + LINE_STRIDE * p))
            && buffers_runs::all_zero(
                bytes,
                at + LINE_STRIDE * lines,
                LINE_STRIDE * (SLOT_LINES - lines),
            )
    }

    // The 256 slots: C of them, and zeros.
    fn slots_right(&self) -> bool
        ensures { result ≡ slots_at self.now.bytes.now self.now.signals self.now.processors self.now.slots }
    {
        let bytes = self.bytes;
        let count = usize::from(self.slots);
        (0..self.slots).all(|i| self.slot_right(Slot(i)))
            && buffers_runs::all_zero(bytes, SLOT_STRIDE * count, SLOT_STRIDE * (256 - count))
    }
}

// The program, N, P and C being the panel's.
#[tactic(auto, using(crate::proofs::Slots::program_order))]
pub fn program_right(panel: &Panel, program: &Program) -> bool
    requires sizes_high { (processors_in panel.now ≤ 16) × (slots_in panel.now ≤ 256) }
    ensures { result ≡ program_ranged panel.now program.now }
{
    let judged = Judged {
        bytes: program,
        signals: buffers_tables::signals(panel),
        processors: buffers_tables::processors(panel),
        slots: buffers_tables::slots(panel),
    };
    judged.slots_right()
}
