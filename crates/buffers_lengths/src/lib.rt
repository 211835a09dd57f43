// The lengths of the working buffers (01, Refusals, 40).

#![tactic(auto)]

ghost use Rattle.std.specs.Prelude.{◌≡◌};
ghost use Rattle.model.specs.Session.{same_lengths};
ghost use Rattle.buffers_lengths.specs.Lengths.{fixed, lengths_lent};

use buffers_memory::MEMORY_BYTES;
use buffers_tables::{PANEL_BYTES, PROGRAM_BYTES};

// The three working buffers have the lengths that docs/PANEL.md gives them.
#[tactic(auto, using(logic::proofs::Judged::connected), unfolding(model::specs::Session::same_lengths))]
pub fn lengths_right(panel: &[u8], program: &[u8], memory: &[u8]) -> bool
    ensures { result ≡ same_lengths (lengths_lent panel.now program.now memory.now) fixed }
{
    panel.len() == PANEL_BYTES && program.len() == PROGRAM_BYTES && memory.len() == MEMORY_BYTES
}
