// The working tables, the panel and the program: where their layout has each number, and each of them read and written there.

#![tactic(auto)]

ghost use Rattle.std.specs.Prelude.{◌≡◌, ◌+◌, ◌<◌, ◌≤◌, length, get_or};
ghost use Rattle.instruction.specs.Operand.{operand_of};
ghost use Rattle.buffers_tables.specs.Panel.{finished_place, watched_place, signals_in, processors_in, slots_in, finished_in, watched_in, mask_in, kind_in, codes_in, hand_in, processor_in, slot_in};
ghost use Rattle.buffers_tables.specs.Stores.{with_finished, with_watch, with_hand};
ghost use Rattle.buffers_tables.specs.Program.{program_length, line_stride, line_in, signal_at};
ghost use Rattle.buffers_tables.specs.Decoded.{instruction_in};

use clock::{Cycle, Slot};
use gates::Gate;
use instruction::{Instruction, Operand};

// The lengths of the two.
pub const PANEL_BYTES: usize = 40970;

pub const PROGRAM_BYTES: usize = 53248;

// Aliases, and functions over them: C lends the bytes, and a struct over them would be made at each call, to call one reader.
pub type Panel = [u8; PANEL_BYTES];

pub type Program = [u8; PROGRAM_BYTES];

// The bytes of the session and of each signal.
pub const PANEL_STRIDE: usize = 10;

// Where the session's numbers stand.
pub const SIGNALS: usize = 0;

pub const PROCESSORS: usize = 2;

pub const SLOTS: usize = 3;

pub const FINISHED: usize = 5;

pub const WATCHED: usize = 7;

pub const MASK: usize = 9;

// The columns of a signal's numbers.
pub const KIND: usize = 0;

pub const CODES: usize = 1;

pub const HAND: usize = 7;

pub const PROCESSOR: usize = 8;

pub const SLOT: usize = 9;

// The bytes of a line, the lines of a slot, the bytes of these, and the columns of a line's numbers.
pub const LINE_STRIDE: usize = 13;

pub const SLOT_LINES: usize = 16;

pub const SLOT_STRIDE: usize = 208;

pub const SIGNAL: usize = 0;

pub const OPERAND1: usize = 2;

pub const OPERAND2: usize = 4;

pub const OPERAND3: usize = 6;

pub const OPERAND4: usize = 8;

pub const SEND: usize = 10;

pub const SENDER: usize = 12;

// "the one watch": its signal, and the mask of the values that it watches.
#[derive(Clone, Copy, Debug, PartialEq, Eq)]
pub struct Watch {
    pub signal: u16,
    pub mask: u8,
}

// N: the signals of the network are 1 to N.
pub fn signals(panel: &Panel) -> u16
    ensures { result ≡ signals_in panel.now }
{
    words::word_at(panel, SIGNALS)
}

// P: the processors of the module.
pub fn processors(panel: &Panel) -> u8
    ensures { result ≡ processors_in panel.now }
{
    panel[PROCESSORS]
}

// C: the slots of a cycle.
pub fn slots(panel: &Panel) -> u16
    ensures { result ≡ slots_in panel.now }
{
    words::word_at(panel, SLOTS)
}

// The cycles finished. That the low byte is below 256 lets the number be written back as it is.
pub fn finished(panel: &Panel) -> Cycle
    ensures { (result.0 ≡ finished_in panel.now) × (get_or panel.now finished_place 0 < 256) }
{
    Cycle(words::word_at(panel, FINISHED))
}

// The watch. That the low byte of its signal is below 256 serves likewise.
pub fn watched(panel: &Panel) -> Watch
    ensures { (result.signal ≡ watched_in panel.now) × (result.mask ≡ mask_in panel.now) × (get_or panel.now watched_place 0 < 256) }
{
    Watch {
        signal: words::word_at(panel, WATCHED),
        mask: panel[MASK],
    }
}

// A reader asks that its signal, its processor and its slot are in range, as an index is below a length: a type of each bound would be
// made and taken apart at every call. The kind of a signal.
pub fn kind(panel: &Panel, signal: usize) -> u8
    requires { signal ≤ 4096 }
    ensures { result ≡ kind_in panel.now signal }
{
    panel[PANEL_STRIDE * signal]
}

// The gate of a signal.
pub fn gate_in(panel: &Panel, signal: usize) -> Gate
    requires { signal ≤ 4096 }
    ensures { result ≡ codes_in panel.now signal }
{
    let at = PANEL_STRIDE * signal;
    Gate {
        f: panel[at + CODES],
        g1: panel[at + (CODES + 1)],
        g2: panel[at + (CODES + 2)],
        g3: panel[at + (CODES + 3)],
        g4: panel[at + (CODES + 4)],
        g5: panel[at + (CODES + 5)],
    }
}

// The value in hand of a signal.
pub fn hand(panel: &Panel, signal: usize) -> u8
    requires { signal ≤ 4096 }
    ensures { result ≡ hand_in panel.now signal }
{
    panel[PANEL_STRIDE * signal + HAND]
}

// The processor and the slot of a signal's place.
pub fn place_processor(panel: &Panel, signal: usize) -> u8
    requires { signal ≤ 4096 }
    ensures { result ≡ processor_in panel.now signal }
{
    panel[PANEL_STRIDE * signal + PROCESSOR]
}

pub fn place_slot(panel: &Panel, signal: usize) -> u8
    requires { signal ≤ 4096 }
    ensures { result ≡ slot_in panel.now signal }
{
    panel[PANEL_STRIDE * signal + SLOT]
}

// The cycles finished, written.
pub fn set_finished(panel: &mut Panel, finished: Cycle)
    ensures { panel.new ≡ with_finished finished.0 panel.old }
{
    words::store_word(panel, FINISHED, finished.0);
}

// The watch, written.
pub fn set_watch(panel: &mut Panel, watch: Watch)
    ensures { panel.new ≡ with_watch watch.signal watch.mask panel.old }
{
    words::store_word(panel, WATCHED, watch.signal);
    panel[MASK] = watch.mask;
}

// The value in hand of a signal, written.
pub fn set_hand(panel: &mut Panel, signal: usize, value: u8)
    requires { signal ≤ 4096 }
    ensures { panel.new ≡ with_hand signal value panel.old }
{
    panel[PANEL_STRIDE * signal + HAND] = value;
}

// Where the line of a processor and a slot stands in the program.
pub fn line_offset(processor: usize, slot: Slot) -> usize
    requires { (processor < 16) × (slot.0 < 256) }
    ensures { (result ≡ line_in processor slot.0) × (result + line_stride ≤ program_length) }
{
    LINE_STRIDE * (SLOT_LINES * usize::from(slot.0) + processor)
}

// The signal of the line of a processor and a slot: 0 where the slot is empty.
pub fn signal_in(program: &Program, processor: usize, slot: Slot) -> u16
    requires { (processor < 16) × (slot.0 < 256) }
    ensures { result ≡ signal_at program.now processor slot.0 }
{
    words::word_at(program, line_offset(processor, slot) + SIGNAL)
}

// What the pair at a place names.
fn named_in(program: &Program, at: usize) -> Operand
    requires { at + 2 ≤ length program.now }
    ensures { result ≡ operand_of (get_or program.now at 0) (get_or program.now (at + 1) 0) }
{
    instruction::operand_of(u16::from(program[at]), program[at + 1])
}

// The line of a processor and a slot, decoded.
pub fn instruction_in(program: &Program, processor: usize, slot: Slot) -> Instruction
    requires { (processor < 16) × (slot.0 < 256) }
    ensures { result ≡ instruction_in program.now processor slot.0 }
{
    let at = line_offset(processor, slot);
    Instruction {
        signal: words::word_at(program, at),
        a1: named_in(program, at + OPERAND1),
        a2: named_in(program, at + OPERAND2),
        a3: named_in(program, at + OPERAND3),
        a4: named_in(program, at + OPERAND4),
        send: named_in(program, at + SEND),
        sender: instruction::sender_numbered(program[at + SENDER]),
    }
}
