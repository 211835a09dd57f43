// What the listing does for a time (01, Listing): it takes the settings of STIM, runs one cycle, and writes the lines of the changes.

#![tactic(auto)]

ghost use Rattle.std.specs.Prelude.{◌≡◌, ◌+◌, ◌≤◌, ◌<◌, length, get_or, set};
ghost use Rattle.std.proofs.lemmas.List.Edits.{sets};
ghost use Rattle.model.specs.Stimulus.{stim_time, stim_count, end_time};
ghost use Rattle.buffers_memory.specs.Memory.{memory_of, with_memory};
ghost use Rattle.buffers_tables.specs.Panel.{signals_in, processors_in, slots_in};
ghost use Rattle.machine_run.specs.Running.{cycle_in};
ghost use Rattle.listing_cycle.specs.Changes.{value_held, change_line, change_lines, shown_with};
ghost use Rattle.listing_cycle.specs.Feeding.{Passed, Fed, SameNumbers};
ghost use Rattle.listing_cycle.specs.Cycling.{Ready, OneMore};

use buffers_memory::Memory;
use buffers_tables::Panel;
use clock::Cycle;
use file_stim::{Cursor, Stimulus};
use machine_run::Readable;
use machine_slot::Machine;
use session_state::Session;

// The values last shown, by signal.
pub type Shown = [u8; 4097];

// The lines of a piece, a line of each signal at most.
pub type PieceLines = [u8; 77824];

// The line of a signal, where its value is not the one last shown; the place after it.
fn write_change(
    time: Cycle,
    signal: u16,
    value: u8,
    at: usize,
    shown: &mut [u8],
    out: &mut [u8],
) -> usize
    requires { (signal < length shown.old) × (at + 19 ≤ length out.old) }
    ensures value { result ≡ at + length (change_line time.0 signal value (get_or shown.old signal 0)) }
    ensures out_after { out.new ≡ sets out.old at (change_line time.0 signal value (get_or shown.old signal 0)) }
    ensures shown_after { shown.new ≡ set shown.old signal value }
{
    let index = usize::from(signal);
    let last = shown[index];
    shown[index] = value;
    if value == last {
        return at;
    }
    writing::write_line(out, at, &[time.0, signal, u16::from(value)])
}

// "each whose value differs from the time before, by time and signal". Before time 0 no value is shown, so that all differ.
pub fn write_changes(
    time: Cycle,
    readable: &Readable,
    shown: &mut Shown,
    out: &mut PieceLines,
) -> usize
    ensures value { result ≡ length (change_lines (signals_in readable.now.panel.now) time.0 (value_held readable.now.panel.now readable.now.memory.now) (λ s. get_or shown.old s 0)) }
    ensures out_after { out.new ≡ sets out.old 0 (change_lines (signals_in readable.now.panel.now) time.0 (value_held readable.now.panel.now readable.now.memory.now) (λ s. get_or shown.old s 0)) }
    ensures shown_after { shown.new ≡ shown_with (signals_in readable.now.panel.now) (value_held readable.now.panel.now readable.now.memory.now) (λ s. get_or shown.old s 0) }
{
    let mut at: usize = 0;
    for s in 1..=buffers_tables::signals(readable.panel) {
        let value = readable.value_of(s);
        at = write_change(time, s, value, at, shown, out);
    }
    at
}

// The first line of STIM after those of time 0, which the opening used.
pub fn first_later(stim: Stimulus) -> Cursor
    ensures same_stimulus { result.stimulus ≡ stim.entry }
    ensures passed { Passed stim.entry.bytes.now 0 result.line }
{
    let mut cursor = Cursor {
        stimulus: stim,
        line: 0,
    };
    'lines: while cursor.next_of(Cycle(0)).is_some() {}
    cursor
}

// T, from the end line. How many lines are before it is handed down from the check of STIM, which counted them: a struct of STIM and the
// count would be made for this one use.
#[tactic(auto, unfolding(model::specs::Stimulus::end_time))]
pub fn end_time(stim: Stimulus, lines: u16) -> Cycle
    requires lines_value { lines ≡ stim_count stim.bytes.now }
    ensures { result.0 ≡ end_time stim.entry.bytes.now }
{
    let last = Cursor {
        stimulus: stim,
        line: usize::from(lines),
    };
    last.here().time
}

// The settings of a time, each an accepted command of the session, which writes its value into the panel. The cursor goes on behind them.
pub fn take_settings(
    session: Session,
    cursor: &mut Cursor,
    time: Cycle,
    panel: &mut Panel,
) -> Session
    requires signals_high { signals_in panel.old ≤ 4096 }
    ensures same_stimulus { cursor.new.stimulus ≡ cursor.old.stimulus }
    ensures fed { Fed cursor.old.stimulus.bytes.now panel.old time.0 cursor.old.line panel.new cursor.new.line }
    ensures no_more { cursor.new.line < stim_count cursor.old.stimulus.bytes.now → stim_time cursor.old.stimulus.bytes.now cursor.new.line ≡ time.0 → ⊥ }
    ensures same_numbers { SameNumbers session result }
{
    let mut session = session;
    while let Some(line) = cursor.next_of(time) {
        let told = session.set(panel, u32::from(line.signal), u32::from(line.value));
        session = told.session;
    }
    session
}

// One cycle with the values in hand: "run k cycles" with k = 1 and a mask that watches nothing.
pub fn run_one(session: Session, machine: &Machine, memory: &mut Memory) -> Session
    requires { Ready session machine.now.panel.now machine.now.program.now memory.old }
    ensures one_more { OneMore session result }
    ensures memory_after { memory.new ≡ with_memory (processors_in machine.now.panel.now) (slots_in machine.now.panel.now) (cycle_in machine.now.panel.now machine.now.program.now (memory_of memory.old)) memory.old }
{
    let told = session.run(machine, memory, 1);
    told.session
}
