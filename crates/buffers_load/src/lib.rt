// The opening of a session: every byte of the panel, the program and the memory, from three accepted files.

#![tactic(auto)]

ghost use Rattle.std.specs.Prelude.{◌≡◌};
ghost use Rattle.model.specs.Refusal.{pass};
ghost use Rattle.model.specs.Netlist.{network};
ghost use Rattle.model.specs.Stimulus.{stim_check};
ghost use Rattle.model.specs.ModuleFile.{mod_check};
ghost use Rattle.model.specs.Checked.{Checked};
ghost use Rattle.file_bytes.specs.Bytes.{bytes_of};
ghost use Rattle.buffers_load_files.specs.Loaded.{panel_of, program_of, opening_bytes};

use buffers_memory::Memory;
use buffers_tables::{Panel, Program};
use file_bytes::FileBytes;
use file_stim::Stimulus;
use netlist::Netlist;

// The three buffers of accepted files.
pub fn load(files: &FileBytes, panel: &mut Panel, program: &mut Program, memory: &mut Memory)
    requires checked { Checked files.now.net.now }
    requires modfile_value { mod_check (network files.now.net.now) files.now.modfile.now ≡ pass }
    requires stim_value { stim_check (network files.now.net.now) files.now.stim.now ≡ pass }
    ensures panel_after { panel.new ≡ panel_of (bytes_of files.now) }
    ensures program_after { program.new ≡ program_of (bytes_of files.now) }
    ensures memory_after { memory.new ≡ opening_bytes (bytes_of files.now) }
{
    let net = Netlist::new(files.net);
    let stim = Stimulus { bytes: files.stim };
    let table = buffers_load_files::table_of(files.modfile);
    let values = buffers_load_values::load_values(&net, stim);
    buffers_load_panel::load_panel(&net, &table, &values, panel);
    buffers_load_program::load_program(&table, program);
    buffers_load_memory::load_memory(&table, &values, memory);
}
