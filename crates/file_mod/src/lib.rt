// MOD's check (01, Refusals): its lines, then what they place, send, receive and read, by 22, 24, 25 and 23, each over all lines.

#![tactic(auto)]

ghost use Rattle.std.specs.Prelude.{◌≡◌, ℕ, Bool, ◌≤◌, get_or};
ghost use Rattle.model.specs.Netlist.{network};
ghost use Rattle.model.specs.Module.{placements};
ghost use Rattle.model.specs.ModuleFile.{module_of, placed, mod_check};
ghost use Rattle.model.specs.Refusal.{fail};
ghost use Rattle.file_lines.specs.Answer.{Answers};
ghost use Rattle.file_mod_lines.specs.Answer.{mod_refusal, ModAnswers};
ghost use Rattle.file_mod_table.specs.Line.{Within};
ghost use Rattle.file_mod.specs.Known.{Known};
ghost use Rattle.file_mod.specs.Counting.{counted_once};
ghost use Rattle.file_mod.specs.Testing.{Computes, each_right, module_check};

use file_mod_lines::{ModRefusal, Place, Shape};
use file_mod_sources::{PlacedLine, reception_right, send_right};
use file_mod_table::ModTable;
use netlist::Netlist;

// How often each signal is placed, counted line by line. The array is lent: handed out, it takes its 8 KB twice of the stack, which is
// counted (docs/PANEL.md).
fn count_signals(table: &ModTable, counts: &mut [u16; 4097])
    requires { (s : ℕ) → s ≤ 4096 → get_or counts.old s 0 ≡ 0 }
    ensures { (s : ℕ) → s ≤ 4096 → get_or counts.new s 0 ≡ placements (module_of table.now.modfile.now) s }
{
    for k in 0..table.shape.lines() {
        counts[table.signal_of(k)] += 1;
    }
}

// 22: the smallest signal that is not counted once. Below N + 1 and not up to N: the library's law of `find` is of a half-open range.
fn find_unplaced(counts: &[u16; 4097], signals: u16) -> Result<(), ModRefusal>
    requires { signals ≤ 4096 }
    ensures { Answers mod_refusal tt (counted_once signals counts.now) result }
{
    match (1..signals + 1).find(|&s| counts[usize::from(s)] != 1) {
        Some(signal) => Err(ModRefusal::Placement(signal)),
        None => Ok(()),
    }
}

// 22: "signal not placed exactly once".
fn check_placements(net: &Netlist, table: &ModTable) -> Result<(), ModRefusal>
    ensures { Answers mod_refusal tt (placed (network net.now.net.now) (module_of table.now.modfile.now)) result }
{
    let mut counts = [0; 4097];
    count_signals(table, &mut counts);
    find_unplaced(&counts, net.signals())
}

// A test over all lines: the first that is not right is refused, with its number. They are counted from 0, as their places are divided
// out of the count.
fn check_each<F: Fn(Place) -> bool>(table: &ModTable, right: F) -> Result<(), u16>
    requires { (place : Place) → Within table.now.shape place.processor place.slot.0 → F.pre right place }
    ensures { (number : ℕ) (test : ℕ → ℕ → Bool) → Computes (F.post right) table.now.shape test → Answers (fail number) tt (each_right number test table.now.modfile.now) result }
{
    for k in 0..table.shape.lines() {
        if !right(table.shape.place_of(k)) {
            return Err(k + 2);
        }
    }
    Ok(())
}

// The module that right lines give: 22, 24, 25 and 23, each over all lines.
fn check_module(net: &Netlist, table: &ModTable) -> Result<(), ModRefusal>
    requires { Known net.now.net.now table.now.modfile.now table.now.shape }
    ensures { Answers mod_refusal tt (module_check (network net.now.net.now) table.now.modfile.now) result }
{
    check_placements(net, table)?;
    check_each(table, |place| send_right(table, place)).map_err(ModRefusal::Send)?;
    check_each(table, |place| reception_right(table, place)).map_err(ModRefusal::Reception)?;
    check_each(
        table,
        |place| PlacedLine::new(net, table, place).operands_right(),
    )
    .map_err(ModRefusal::WrongOperand)
}

// MOD's check, NET being accepted: 20 and 21 by line, then 22, 24, 25 and 23.
pub fn check_mod(net: &Netlist, modfile: &[u8]) -> Result<Shape, ModRefusal>
    ensures { ModAnswers modfile.now (mod_check (network net.now.net.now) modfile.now) result }
{
    let shape = file_mod_lines::check_form(modfile, net.signals())?;
    let table = ModTable::new(modfile, shape);
    check_module(net, &table)?;
    Ok(shape)
}
