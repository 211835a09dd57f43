// One slot of the lockstep machine: "every processor fetches first, then stores" (01, One cycle of the machine).

#![tactic(auto)]

ghost use Rattle.std.specs.Prelude.{◌≡◌, ◌<◌, ◌≤◌, not, eqb, IfSome};
ghost use Rattle.gates.specs.Legal.{Legal};
ghost use Rattle.model.specs.Module.{local_present, switch_present};
ghost use Rattle.model.specs.Machine.{sent as sent_by, slot as slot_done};
ghost use Rattle.buffers_memory.specs.Memory.{memory_of, place, with_memory, written, here, MemoryBytes};
ghost use Rattle.buffers_tables.specs.Panel.{processors_in, slots_in, codes_in};
ghost use Rattle.buffers_tables.specs.Decoded.{instruction_in};
ghost use Rattle.machine_slot.specs.Single.{tables_single};
ghost use Rattle.buffers_tables.specs.Tables.{Tables};
ghost use Rattle.machine_slot.specs.Storing.{gate_on, evaluated_on, evaluated, FirstAre, storing, stored_if, received_stored, passed};

use buffers_memory::Memory;
use buffers_tables::{Panel, Program};
use clock::Slot;
use gates::TruthTables;
use instruction::{Instruction, Operand};

// What a run lends to every slot, and no slot changes: the tables of the gates, the panel and the program, which are in range, and
// the numbers of processors and slots that the panel has. Its methods take a processor and a slot, and no struct of the two, as MOD's
// lines have it: the processor runs while the slot stays, and is an index, so one would be made for each call and taken apart in it.
#[derive(Drop)]
pub struct Machine<'a> {
    pub tables: &'a TruthTables,
    pub panel: &'a Panel,
    pub program: &'a Program,
    pub processors: usize,
    pub slots: u16,
    pub ghost in_range: { Tables panel.now program.now } by { tables_single panel.now program.now },
    pub ghost processors_value: { processors ≡ processors_in panel.now },
    pub ghost slots_value: { slots ≡ slots_in panel.now },
}

impl<'a> Machine<'a> {
    ghost use Rattle.machine_slot.specs.Held.{network_of, module_of, hands_of};

    // The machine that the working tables hold.
    pub fn new(tables: &'a TruthTables, panel: &'a Panel, program: &'a Program) -> Machine<'a>
        requires { Tables panel.now program.now }
        ensures { (result.panel.now ≡ panel.now) × (result.program.now ≡ program.now) }
    {
        Machine {
            tables,
            panel,
            program,
            processors: usize::from(buffers_tables::processors(panel)),
            slots: buffers_tables::slots(panel),
        }
    }

    // The result of a line's gate: its operands are fetched, and the codes of its signal applied.
    fn gate_on(&self, memory: &Memory, processor: usize, line: Instruction) -> u8
        requires line_bound { (processor < 16) × (line.signal ≤ 4096) }
        requires memory_bytes { MemoryBytes memory.now }
        requires legal { Legal (codes_in self.now.panel.now line.signal) }
        ensures { result ≡ gate_on self.now.panel.now (memory_of memory.now) processor line }
    {
        let gate = buffers_tables::gate_in(self.panel, usize::from(line.signal));
        gate.value(
            self.tables,
            buffers_memory::fetch(memory, processor, line.a1),
            buffers_memory::fetch(memory, processor, line.a2),
            buffers_memory::fetch(memory, processor, line.a3),
            buffers_memory::fetch(memory, processor, line.a4),
        )
    }

    // "Its gate's result, or its input's value for cycle t", which is the value in hand. An empty slot is not evaluated. The kind is
    // compared as the panel's byte, which 44 judged, and the signal as its number, 0 for none: a `Kind` and an `Option` would be made
    // of them in every slot, and taken apart at once. The line is decoded behind the tests: what is decoded before them has to be kept
    // over them.
    fn evaluate(&self, memory: &Memory, processor: usize, slot: Slot) -> u8
        requires placed { (processor < processors_in self.now.panel.now) × (slot.0 < slots_in self.now.panel.now) }
        requires memory_bytes { MemoryBytes memory.now }
        ensures { result ≡ evaluated_on self.now.panel.now (memory_of memory.now) processor (instruction_in self.now.program.now processor slot.0) }
    {
        let signal = usize::from(buffers_tables::signal_in(self.program, processor, slot));
        if signal == 0 {
            return 0;
        }
        if buffers_tables::kind(self.panel, signal) == 1 {
            return buffers_tables::hand(self.panel, signal);
        }
        let line = buffers_tables::instruction_in(self.program, processor, slot);
        self.gate_on(memory, processor, line)
    }

    // "every processor fetches first": what each stores locally and what it sends. What it sends is fetched before its gate is
    // evaluated, and so is not kept meanwhile. By the processor's number, which the calls take: of what a zip of two `iter_mut` wrote, a
    // proof knows nothing.
    fn fetch_all(&self, memory: &Memory, slot: Slot, results: &mut [u8; 16], sent: &mut [u8; 16])
        requires memory_bytes { MemoryBytes memory.now }
        requires slot_bound { slot.0 < slots_in self.now.panel.now }
        ensures results_are { FirstAre (processors_in self.now.panel.now) (λ p. evaluated (network_of self.now) (module_of self.now) (hands_of self.now) (memory_of memory.now) p slot.0) results.new }
        ensures sent_are { FirstAre (processors_in self.now.panel.now) (λ p. sent_by (module_of self.now) (memory_of memory.now) p slot.0) sent.new }
    {
        for p in 0..self.processors {
            let line = buffers_tables::instruction_in(self.program, p, slot);
            sent[p] = buffers_memory::fetch(memory, p, line.send);
            results[p] = self.evaluate(memory, p, slot);
        }
    }

    // Both stores of a processor, by its line.
    fn store(
        &self,
        processor: usize,
        slot: Slot,
        results: &[u8; 16],
        sent: &[u8; 16],
        memory: &mut Memory,
    )
        requires placed { (processor < processors_in self.now.panel.now) × (slot.0 < slots_in self.now.panel.now) }
        ensures { memory.new ≡ written (here processor slot.0) (storing (module_of self.now) slot.0 results.now sent.now (memory_of memory.old)) memory.old }
    {
        let line = buffers_tables::instruction_in(self.program, processor, slot);
        store_result(line.signal, processor, slot, results[processor], memory);
        store_received(line.sender, processor, slot, sent, memory);
    }

    // "then stores": every processor.
    fn store_all(&self, slot: Slot, results: &[u8; 16], sent: &[u8; 16], memory: &mut Memory)
        requires slot_bound { slot.0 < slots_in self.now.panel.now }
        ensures { memory.new ≡ written (passed (processors_in self.now.panel.now) slot.0) (storing (module_of self.now) slot.0 results.now sent.now (memory_of memory.old)) memory.old }
    {
        for p in 0..self.processors {
            self.store(p, slot, results, sent, memory);
        }
    }

    // "In slot i every processor fetches first, then stores."
    pub fn run_slot(&self, slot: Slot, memory: &mut Memory)
        requires memory_bytes { MemoryBytes memory.old }
        requires slot_bound { slot.0 < slots_in self.now.panel.now }
        ensures { memory.new ≡ with_memory (processors_in self.now.panel.now) (slots_in self.now.panel.now) (slot_done (network_of self.now) (module_of self.now) (hands_of self.now) slot.0 (memory_of memory.old)) memory.old }
    {
        // Two arrays, and no struct of the two: that took 5.05 ns a slot of a small table, and these take 4.77.
        let mut results = [0u8; 16];
        let mut sent = [0u8; 16];
        self.fetch_all(memory, slot, &mut results, &mut sent);
        self.store_all(slot, &results, &sent, memory);
    }
}

// The result "goes to local location i", in the present half. "An empty slot stores no local value".
// By `as`, in this file, where the bound is proved: no `From` has this conversion, and `TryFrom` has an error that cannot happen.
fn store_result(signal: u16, processor: usize, slot: Slot, value: u8, memory: &mut Memory)
    requires { (processor < 16) × (slot.0 < 256) }
    ensures { memory.new ≡ stored_if (not (eqb signal 0)) memory.old (place processor local_present slot.0) value }
{
    if signal != 0 {
        buffers_memory::store(
            memory,
            processor,
            Operand::LocalPresent(slot.0 as u8),
            value,
        );
    }
}

// "the received value goes to switch location i", in the present half; "a slot that receives none stores no switch value".
fn store_received(
    sender: Option<u8>,
    processor: usize,
    slot: Slot,
    sent: &[u8; 16],
    memory: &mut Memory,
)
    requires placed { (processor < 16) × (slot.0 < 256) }
    requires sender_bound { IfSome sender (λ q. q < 16) }
    ensures { memory.new ≡ received_stored sender sent.now memory.old (place processor switch_present slot.0) }
{
    if let Some(sender) = sender {
        buffers_memory::store(
            memory,
            processor,
            Operand::SwitchPresent(slot.0 as u8),
            sent[usize::from(sender)],
        );
    }
}
