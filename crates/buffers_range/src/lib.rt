// 44 (01, Refusals): "a number in a working buffer lies outside the range that this paper gives it".

#![tactic(auto)]

ghost use Rattle.std.specs.Prelude.{◌≡◌};
ghost use Rattle.buffers_range.specs.Ranges.{ranged};

use buffers_memory::Memory;
use buffers_tables::{Panel, Program};

// 44: every number of the working buffers is in its range.
#[tactic(auto, using(logic::proofs::Judged::connected, buffers_range_panel::proofs::Numbers::processors_limit, buffers_range_panel::proofs::Numbers::slots_limit), unfolding(crate::specs::Ranges::ranged))]
pub fn in_range(panel: &Panel, program: &Program, memory: &Memory) -> bool
    ensures { result ≡ ranged panel.now program.now memory.now }
{
    buffers_range_panel::panel_right(panel)
        && buffers_range_program::program_right(panel, program)
        && buffers_range_memory::memory_right(panel, memory)
}
