// The signals' time 0 values from accepted NET and STIM, in an array by signal: U for all, then what STIM gives.

#![tactic(auto)]

ghost use Rattle.std.specs.Prelude.{◌≡◌};
ghost use Rattle.logic.specs.Listed.{listed};
ghost use Rattle.model.specs.Refusal.{pass};
ghost use Rattle.model.specs.Netlist.{network};
ghost use Rattle.model.specs.Stimulus.{stim_check};
ghost use Rattle.buffers_load_files.specs.Loaded.{time_zero_from};
ghost use Rattle.buffers_load_values.specs.Values.{undefined_to};

use clock::Cycle;
use file_stim::{Cursor, Stimulus};
use netlist::Netlist;

// "or U": what signal s has before STIM gives it a value, and 0 where there is no signal.
#[tactic(auto, using(logic::proofs::Judged::connected), unfolding(crate::specs::Values::undefined_to))]
fn undefined_at(signals: usize, s: usize) -> u8
    ensures { result ≡ undefined_to signals s }
{
    if (1..=signals).contains(&s) { 2 } else { 0 }
}

// "At t = 0 every signal has its given value, or U". The lines of time 0 stand first, since times rise.
// By `fill_by`, as the buffers are filled: `from_fn` would make the array a second time on the stack, whose size is counted.
// By `as`, in this file, where the bound is proved: no `From` has this conversion, and `TryFrom` has an error that cannot happen.
pub fn load_values(net: &Netlist, stim: Stimulus) -> [u8; 4097]
    requires { stim_check (network net.now.net.now) stim.bytes.now ≡ pass }
    ensures { result ≡ listed 4097 (time_zero_from net.now.net.now stim.entry.bytes.now) }
{
    let signals = usize::from(net.signals());
    let mut values = [0; 4097];
    buffers_load_files::fill_by(&mut values, |s| undefined_at(signals, s));
    let mut cursor = Cursor {
        stimulus: stim,
        line: 0,
    };
    while let Some(line) = cursor.next_of(Cycle(0)) {
        values[usize::from(line.signal)] = line.value as u8;
    }
    values
}
