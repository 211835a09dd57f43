// The memory before cycle 1 from an accepted MOD and the signals' time 0 values, filled byte by byte: a function answers what a byte is.

#![tactic(auto)]

ghost use Rattle.std.specs.Prelude.{◌≡◌, ◌<◌};
ghost use Rattle.model.specs.ModuleFile.{module_of};
ghost use Rattle.model.specs.Value.{value_of};
ghost use Rattle.file_mod_table.specs.Line.{Within};
ghost use Rattle.buffers_memory.specs.Memory.{memory_length, byte_processor, byte_part, byte_location};
ghost use Rattle.buffers_load_files.specs.Loaded.{opening_with};
ghost use Rattle.buffers_load_files.specs.Checked.{value_in};
ghost use Rattle.buffers_load_memory.specs.Bytes.{sent_value, opening_byte};

use buffers_memory::{
    LOCAL_EARLIER, Memory, PART_STRIDE, PROCESSOR_STRIDE, SWITCH_EARLIER, SWITCH_PRESENT,
};
use clock::Slot;
use file_mod_lines::Place;
use file_mod_table::ModTable;

// What the opening memory is made of: MOD, and the signals' time 0 values.
#[derive(Clone, Copy)]
struct Opening<'a> {
    table: &'a ModTable<'a>,
    values: &'a [u8; 4097],
}

impl<'a> Opening<'a> {
    // The time 0 value of the signal at a place, and 0 of an empty slot.
    fn local_value(&self, place: Place) -> u8
        requires { Within self.now.table.now.shape place.processor place.slot.0 }
        ensures { result ≡ value_of (value_in self.now.values.now) ((module_of self.now.table.now.modfile.now).signal place.processor place.slot.0) }
    {
        match self.table.signal_at(place) {
            Some(signal) => self.values[usize::from(signal)],
            None => 0,
        }
    }

    // "the time 0 value of the signal sent into it", and 0 where nothing is received.
    fn sent_value(&self, place: Place) -> u8
        requires { Within self.now.table.now.shape place.processor place.slot.0 }
        ensures { result ≡ sent_value (module_of self.now.table.now.modfile.now) (value_in self.now.values.now) place.processor place.slot.0 }
    {
        let Some((from, send)) = self.table.received_at(place) else {
            return 0;
        };
        self.local_value(from.at(send.location()))
    }

    // Byte a of the memory: "the earlier local half holds time 0", a switch location in both halves what is sent into it, all else is 0.
    // By `as`, in this file, where the bound is proved: no `From` has this conversion, and `TryFrom` has an error that cannot happen.
    fn byte(&self, a: usize) -> u8
        requires { a < memory_length }
        ensures { result ≡ opening_byte self.now.table.now.modfile.now (value_in self.now.values.now) (byte_processor a) (byte_part a) (byte_location a) }
    {
        let place = Place {
            processor: (a / PROCESSOR_STRIDE) as u16,
            slot: Slot((a % PART_STRIDE) as u16),
        };
        if !self.table.shape.has(place) {
            return 0;
        }
        match a % PROCESSOR_STRIDE / PART_STRIDE {
            LOCAL_EARLIER => self.local_value(place),
            SWITCH_EARLIER | SWITCH_PRESENT => self.sent_value(place),
            _ => 0,
        }
    }
}

// The memory before cycle 1, by the time 0 values.
pub fn load_memory(table: &ModTable, values: &[u8; 4097], memory: &mut Memory)
    ensures { memory.new ≡ opening_with table.now.modfile.now (value_in values.now) }
{
    let opening = Opening { table, values };
    buffers_load_files::fill_by(memory, |a| opening.byte(a));
}
