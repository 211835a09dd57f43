// The panel as a session opens, from accepted NET and MOD and the signals' time 0 values: where each signal is placed, then every byte.

#![tactic(auto)]

ghost use Rattle.std.specs.Prelude.{◌≡◌, ◌<◌, ◌≤◌, get_or};
ghost use Rattle.logic.specs.Listed.{listed};
ghost use Rattle.model.specs.Netlist.{net_size};
ghost use Rattle.buffers_tables.specs.Panel.{panel_length, panel_stride, head_bytes, signal_of, column_of};
ghost use Rattle.buffers_load_files.specs.Loaded.{place_of, placed_bytes, panel_byte, panel_with};
ghost use Rattle.buffers_load_files.specs.Checked.{value_in};
ghost use Rattle.buffers_load_panel.specs.Lines.{LineNumbers};

use buffers_tables::{HAND, KIND, PANEL_STRIDE, PROCESSOR, Panel, SLOT};
use file_mod_lines::Shape;
use file_mod_table::ModTable;
use netlist::Netlist;

// Which line of MOD has each signal, counted from 0 after line 1. Index 0 is for the empty slots.
fn places_of(table: &ModTable) -> [u16; 4097]
    ensures { result ≡ listed 4097 (place_of table.now.modfile.now) }
{
    let mut places = [0; 4097];
    for k in 0..table.shape.lines() {
        places[table.signal_of(k)] = k;
    }
    places
}

// One of the session's bytes: N, P, C, no cycle finished, watch signal 1 with mask 0.
// By `as`, in this file, where the bound is proved: no `From` has this conversion, and `TryFrom` has an error that cannot happen.
fn head_byte(signals: u16, shape: Shape, column: usize) -> u8
    requires { (signals ≤ 4096) × (shape.processors ≤ 16) × (shape.slots ≤ 256) × (column < panel_stride) }
    ensures { result ≡ get_or (head_bytes signals shape.processors shape.slots 0 1 0) column 0 }
{
    let [n_low, n_high] = signals.to_le_bytes();
    let [c_low, c_high] = shape.slots.to_le_bytes();
    let processors = shape.processors as u8;
    let bytes = [n_low, n_high, processors, c_low, c_high, 0, 0, 1, 0, 0];
    bytes[column]
}

// What the panel is made of: NET, MOD, the signals' lines, and their time 0 values. The lines stand in an array that loading makes, which
// has a lifetime of its own. N is read once, and not from line 1 for each byte.
#[derive(Clone, Copy)]
struct Opening<'a, 'p> {
    net: &'a Netlist<'a>,
    table: &'a ModTable<'a>,
    places: &'p [u16; 4097],
    values: &'a [u8; 4097],
    signals: u16,
    ghost signals_value: { signals ≡ net_size net.now.net.now },
    ghost lines: { LineNumbers table.now.shape.slots places.now },
}

impl<'a, 'p> Opening<'a, 'p> {
    // One of the bytes of a signal: its codes as in NET, its value in hand, the processor and the slot of its line.
    fn signal_byte(&self, signal: usize, column: usize) -> u8
        requires is_signal { (1 ≤ signal) × (signal ≤ self.now.signals) }
        requires column_bound { column < panel_stride }
        ensures { result ≡ get_or (placed_bytes self.now.net.now.net.now signal (value_in self.now.values.now signal) (value_in self.now.places.now signal) self.now.table.now.shape.slots) column 0 }
    {
        let place = self.table.shape.place_of(self.places[signal]);
        match column {
            KIND => self.net.field(signal as u16, 0) as u8,
            HAND => self.values[signal],
            PROCESSOR => place.processor as u8,
            SLOT => place.slot.0 as u8,
            code => self.net.field(signal as u16, code + 1) as u8,
        }
    }

    // Byte a of the panel. It holds 0 above signal N.
    fn byte(&self, a: usize) -> u8
        requires { a < panel_length }
        ensures { result ≡ panel_byte self.now.net.now.net.now self.now.table.now.shape.processors self.now.table.now.shape.slots (value_in self.now.places.now) (value_in self.now.values.now) (signal_of a) (column_of a) }
    {
        let signal = a / PANEL_STRIDE;
        if signal == 0 {
            return head_byte(self.signals, self.table.shape, a % PANEL_STRIDE);
        }
        if usize::from(self.signals) < signal {
            return 0;
        }
        self.signal_byte(signal, a % PANEL_STRIDE)
    }
}

// The panel as the session opens, with given values in hand.
pub fn load_panel(net: &Netlist, table: &ModTable, values: &[u8; 4097], panel: &mut Panel)
    ensures { panel.new ≡ panel_with net.now.net.now table.now.modfile.now (value_in values.now) }
{
    let places = places_of(table);
    let opening = Opening {
        net,
        table,
        places: &places,
        values,
        signals: net.signals(),
    };
    buffers_load_files::fill_by(panel, |a| opening.byte(a));
}
