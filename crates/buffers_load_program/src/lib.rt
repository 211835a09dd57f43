// The program buffer from an accepted MOD, filled byte by byte: a function answers what a byte is.

#![tactic(auto)]

ghost use Rattle.std.specs.Prelude.{◌≡◌, ◌<◌, get_or};
ghost use Rattle.model.specs.ModuleFile.{module_of};
ghost use Rattle.file_mod_table.specs.Line.{Within};
ghost use Rattle.buffers_tables.specs.Program.{program_length, line_stride, line_bytes, line_processor, line_slot, line_column};
ghost use Rattle.buffers_load_files.specs.Loaded.{program_byte, program_from};

use buffers_tables::{LINE_STRIDE, OPERAND1, Program, SLOT_LINES};
use clock::Slot;
use file_mod_lines::Place;
use file_mod_table::ModTable;

// One of the bytes of the line at a place: the signal takes two, and every other number is below 256.
// By `as`, in this file, where the bound is proved: no `From` has this conversion, and `TryFrom` has an error that cannot happen.
#[tactic(auto, unfolding(model::specs::ModuleFile::module_of))]
fn line_byte(table: &ModTable, place: Place, column: usize) -> u8
    requires within { Within table.now.shape place.processor place.slot.0 }
    requires column_bound { column < line_stride }
    ensures { result ≡ get_or (line_bytes (module_of table.now.modfile.now) place.processor place.slot.0) column 0 }
{
    if column < OPERAND1 {
        return table.column_at(place, 2).to_le_bytes()[column];
    }
    table.column_at(place, column + 1) as u8
}

// Byte a of the program. It holds 0 where the module has no such processor or slot.
fn program_byte(table: &ModTable, a: usize) -> u8
    requires { a < program_length }
    ensures { result ≡ program_byte table.now.modfile.now (line_processor a) (line_slot a) (line_column a) }
{
    let line = a / LINE_STRIDE;
    let place = Place {
        processor: (line % SLOT_LINES) as u16,
        slot: Slot((line / SLOT_LINES) as u16),
    };
    if !table.shape.has(place) {
        return 0;
    }
    line_byte(table, place, a % LINE_STRIDE)
}

// The program: MOD's lines, slot by slot.
pub fn load_program(table: &ModTable, program: &mut Program)
    ensures { program.new ≡ program_from table.now.modfile.now }
{
    buffers_load_files::fill_by(program, |a| program_byte(table, a));
}
