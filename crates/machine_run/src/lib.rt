// The lockstep machine over the working tables: a cycle, and k cycles with the watch (01, One cycle of the machine, Session).

#![tactic(auto)]

ghost use Rattle.std.specs.Prelude.{◌≡◌, ℕ, ◌<◌, ◌≤◌, length};
ghost use Rattle.gates.specs.Value.{Code};
ghost use Rattle.model.specs.Machine.{slots as slots_done};
ghost use Rattle.model.specs.Session.{watched};
ghost use Rattle.buffers_memory.specs.Memory.{memory_of, with_memory, MemoryBytes};
ghost use Rattle.buffers_tables.specs.Panel.{panel_length, signals_in, processors_in, slots_in, processor_in, slot_in};
ghost use Rattle.machine_slot.specs.Held.{network_of, module_of, hands_of};
ghost use Rattle.machine_run.specs.Running.{cycle_in, value_in, watch_of, run_in, Watching};

use buffers_memory::Memory;
use buffers_tables::{Panel, Watch};
use clock::{Cycle, Ran, Slot};
use instruction::Operand;
use machine_slot::Machine;

// A panel whose signals have their places in the machine, and the memory that holds their values. The panel's length is a field, since a
// proof does not take it from the type of a field.
#[derive(Drop)]
pub struct Readable<'a> {
    pub panel: &'a Panel,
    pub memory: &'a Memory,
    pub ghost panel_size: { length panel.now ≡ panel_length },
    pub ghost signals_high: { signals_in panel.now ≤ 4096 },
    pub ghost processors_low: { (s : ℕ) → 1 ≤ s → s ≤ signals_in panel.now → processor_in panel.now s < 16 },
    pub ghost memory_bytes: { MemoryBytes memory.now },
}

// The slots of a cycle, one after the other.
fn run_slots(machine: &Machine, memory: &mut Memory)
    requires memory_bytes { MemoryBytes memory.old }
    ensures { memory.new ≡ with_memory (processors_in machine.now.panel.now) (slots_in machine.now.panel.now) (slots_done (network_of machine.now) (module_of machine.now) (hands_of machine.now) (slots_in machine.now.panel.now) (memory_of memory.old)) memory.old }
{
    for i in 0..machine.slots {
        machine.run_slot(Slot(i), memory);
    }
}

// One cycle: every slot, and then "Halves alternate".
fn run_cycle(machine: &Machine, memory: &mut Memory)
    requires memory_bytes { MemoryBytes memory.old }
    ensures { memory.new ≡ with_memory (processors_in machine.now.panel.now) (slots_in machine.now.panel.now) (cycle_in machine.now.panel.now machine.now.program.now (memory_of memory.old)) memory.old }
{
    run_slots(machine, memory);
    buffers_memory::alternate(memory, machine.processors, usize::from(machine.slots));
}

// The mask has the bit of a value: "bit v of weight 2^v for value v".
#[tactic(auto, unfolding(model::specs::Session::watched))]
fn shows(mask: u8, value: u8) -> bool
    requires { Code value }
    ensures { result ≡ watched mask value }
{
    (mask >> value) % 2 == 1
}

// The value of a signal at the end of the last finished cycle: that of its place, in the half that this cycle stored. It asks for the
// place of this signal alone, so that a run can ask it of the watched signal; `Readable::value_of` knows the place of each signal.
pub fn value_of(panel: &Panel, memory: &Memory, signal: u16) -> u8
    requires placed { (signal ≤ 4096) × (processor_in panel.now signal < 16) }
    requires memory_bytes { MemoryBytes memory.now }
    ensures { (result ≡ (memory_of memory.now).earlier_local (processor_in panel.now signal) (slot_in panel.now signal)) × Code result }
{
    let s = usize::from(signal);
    let processor = usize::from(buffers_tables::place_processor(panel, s));
    let slot = buffers_tables::place_slot(panel, s);
    buffers_memory::fetch(memory, processor, Operand::LocalEarlier(slot))
}

impl Readable<'_> {
    // The value of a signal of the network.
    pub fn value_of(&self, signal: u16) -> u8
        requires { (1 ≤ signal) × (signal ≤ signals_in self.now.panel.now) }
        ensures { (result ≡ value_in self.now.panel.now (memory_of self.now.memory.now) signal) × Code result }
    {
        value_of(self.panel, self.memory, signal)
    }
}

// "A run stops after the first cycle whose end shows a watched value, else after k."
pub fn run(machine: &Machine, memory: &mut Memory, watch: Watch, cycles: Cycle) -> Ran
    requires watching { Watching machine.now.panel.now (watch_of watch) }
    requires memory_bytes { MemoryBytes memory.old }
    ensures { (result.done.0 ≡ (run_in machine.now.panel.now machine.now.program.now (watch_of watch) cycles.0 (memory_of memory.old)).count) × (result.stopped ≡ (run_in machine.now.panel.now machine.now.program.now (watch_of watch) cycles.0 (memory_of memory.old)).stopped) × (memory.new ≡ with_memory (processors_in machine.now.panel.now) (slots_in machine.now.panel.now) (run_in machine.now.panel.now machine.now.program.now (watch_of watch) cycles.0 (memory_of memory.old)).state memory.old) }
{
    // From 0, as the definitions count the cycles done before one (`ticks`).
    for before in 0..cycles.0 {
        run_cycle(machine, memory);
        if shows(watch.mask, value_of(machine.panel, memory, watch.signal)) {
            return Ran {
                done: Cycle(before + 1),
                stopped: true,
            };
        }
    }
    Ran {
        done: cycles,
        stopped: false,
    }
}
