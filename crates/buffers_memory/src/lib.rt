// The machine's memory: what an operand or a send of a table line fetches from it, and the change of its halves.

#![tactic(auto)]

ghost use Rattle.std.specs.Prelude.{◌≡◌, ◌*◌, ◌<◌, ◌≤◌, set};
ghost use Rattle.gates.specs.Value.{Code};
ghost use Rattle.model.specs.Machine.{fetch as fetched, alternate as alternated};
ghost use Rattle.instruction.specs.Operand.{part_of, location_of};
ghost use Rattle.buffers_memory.specs.Memory.{memory_length, part_stride, blank, place, memory_of, fetched_part, written, here, below, with_memory, MemoryBytes};

use instruction::Operand;

// The length of the memory, the bytes of a processor, those of each of its parts, its parts, and the parts of all processors.
pub const MEMORY_BYTES: usize = 20480;

pub type Memory = [u8; MEMORY_BYTES];

pub const PROCESSOR_STRIDE: usize = 1280;

pub const PART_STRIDE: usize = 256;

pub const PROCESSOR_PARTS: usize = 5;

pub const MEMORY_PARTS: usize = 80;

// The fifth part, which is none.
pub const BLANK: usize = 4;

// The parts that open with a value, by their places in a processor's memory.
pub const LOCAL_EARLIER: usize = 0;

pub const SWITCH_EARLIER: usize = 2;

pub const SWITCH_PRESENT: usize = 3;

// With SWITCH_PRESENT, the parts of the present half, which a slot stores into.
pub const LOCAL_PRESENT: usize = 1;

// Where the part of an operand begins in its processor's bytes. The arms give constants only, so that no jump is made for them.
fn part_base(a: Operand) -> usize
    ensures { (result ≡ part_stride * fetched_part a) × (result ≤ 1024) }
{
    match a {
        Operand::LocalEarlier(_) => 0,
        Operand::LocalPresent(_) => 256,
        Operand::SwitchEarlier(_) => 512,
        Operand::SwitchPresent(_) => 768,
        Operand::None(_) => 1024,
    }
}

// The byte of the location that an operand names.
fn place_of(processor: usize, a: Operand) -> usize
    requires { processor < 16 }
    ensures { (result ≡ place processor (fetched_part a) (location_of a)) × (result < memory_length) }
{
    PROCESSOR_STRIDE * processor + part_base(a) + usize::from(a.location())
}

// The value at the location that an operand names. That every byte is a value is asked of the memory and not held by a type: a run
// writes it between two fetches, and a value that holds it would be made for each.
#[tactic(auto, using(crate::proofs::Fetched::fetched_there))]
pub fn fetch(memory: &Memory, processor: usize, a: Operand) -> u8
    requires memory_bytes { MemoryBytes memory.now }
    requires processor_bound { processor < 16 }
    ensures { (result ≡ fetched (memory_of memory.now) processor (part_of a) (location_of a)) × Code result }
{
    memory[place_of(processor, a)]
}

// A value stored at the location that an operand names, which is one of the four parts.
pub fn store(memory: &mut Memory, processor: usize, a: Operand, value: u8)
    requires { (processor < 16) × (fetched_part a < blank) }
    ensures { memory.new ≡ set memory.old (place processor (fetched_part a) (location_of a)) value }
{
    memory[place_of(processor, a)] = value;
}

// "Halves alternate": the parts 0 and 1, and 2 and 3, change places in one location.
fn exchange(memory: &mut Memory, processor: usize, location: usize)
    requires { (processor < 16) × (location < 256) }
    ensures { memory.new ≡ written (here processor location) (alternated (memory_of memory.old)) memory.old }
{
    let at = PROCESSOR_STRIDE * processor + location;
    memory.swap(at, at + PART_STRIDE);
    memory.swap(at + 2 * PART_STRIDE, at + 3 * PART_STRIDE);
}

// The same in the locations of one processor.
#[tactic(auto, using(crate::proofs::Halves::none_below, crate::proofs::Halves::location_alternated))]
fn alternate_one(memory: &mut Memory, processor: usize, slots: usize)
    requires { (processor < 16) × (slots ≤ 256) }
    ensures { memory.new ≡ written (below processor slots) (alternated (memory_of memory.old)) memory.old }
{
    for k in 0..slots {
        exchange(memory, processor, k);
    }
}

// "Halves alternate each cycle": the earlier half is what this cycle stored.
#[tactic(auto, using(crate::proofs::Halves::none_within, crate::proofs::Halves::processor_alternated))]
pub fn alternate(memory: &mut Memory, processors: usize, slots: usize)
    requires { (processors ≤ 16) × (slots ≤ 256) }
    ensures { memory.new ≡ with_memory processors slots (alternated (memory_of memory.old)) memory.old }
{
    for p in 0..processors {
        alternate_one(memory, p, slots);
    }
}
