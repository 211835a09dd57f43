// 44 (01, Refusals), of the memory: values in the locations of P processors and C slots, and zeros.

#![tactic(auto)]

ghost use Rattle.std.specs.Prelude.{◌≡◌, ◌+◌, ◌<◌, ◌≤◌, length};
ghost use Rattle.buffers_memory.specs.Memory.{part_stride, memory_parts};
ghost use Rattle.buffers_tables.specs.Panel.{slots_in};
ghost use Rattle.buffers_range_memory.specs.Ranges.{memory_ranged};
ghost use Rattle.buffers_range_memory.specs.Order.{values_in, part_at, parts_at};

use buffers_memory::{BLANK, MEMORY_PARTS, Memory, PART_STRIDE, PROCESSOR_PARTS};
use buffers_tables::Panel;

// How many values the part of the memory with this index holds: C in the four parts of P processors, and none elsewhere.
#[tactic(auto, using(logic::proofs::Judged::connected), unfolding(crate::specs::Order::values_in))]
fn values_in(index: usize, processors: u8, slots: u16) -> usize
    requires { (index < memory_parts) × (slots ≤ 256) }
    ensures { (result ≡ values_in processors slots index) × (result ≤ 256) }
{
    if index / PROCESSOR_PARTS < usize::from(processors) && index % PROCESSOR_PARTS < BLANK {
        usize::from(slots)
    } else {
        0
    }
}

// The 256 bytes of a part: values in the module's slots, and zeros.
#[tactic(auto, using(logic::proofs::Judged::connected), unfolding(crate::specs::Order::part_at))]
fn part_right(memory: &Memory, at: usize, values: usize) -> bool
    requires { (at + part_stride ≤ length memory.now) × (values ≤ part_stride) }
    ensures { result ≡ part_at memory.now at values }
{
    buffers_runs::all_values(memory, at, values)
        && buffers_runs::all_zero(memory, at + values, PART_STRIDE - values)
}

// The memory: 16 processors of five parts.
fn parts_right(memory: &Memory, processors: u8, slots: u16) -> bool
    requires { slots ≤ 256 }
    ensures { result ≡ parts_at memory.now processors slots }
{
    (0..MEMORY_PARTS).all(|j| part_right(memory, PART_STRIDE * j, values_in(j, processors, slots)))
}

// The memory, P and C being the panel's.
#[tactic(auto, using(crate::proofs::Parts::memory_order))]
pub fn memory_right(panel: &Panel, memory: &Memory) -> bool
    requires slots_high { slots_in panel.now ≤ 256 }
    ensures { result ≡ memory_ranged panel.now memory.now }
{
    parts_right(
        memory,
        buffers_tables::processors(panel),
        buffers_tables::slots(panel),
    )
}
