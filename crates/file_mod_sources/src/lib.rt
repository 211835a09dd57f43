// What a line of MOD sends, receives and reads (01, Refusals): 24, 25 and 23 of one line, where every line is right by itself.

#![tactic(auto)]

ghost use Rattle.std.specs.Prelude.{◌≡◌, ◌<◌};
ghost use Rattle.logic.specs.Test.{all};
ghost use Rattle.model.specs.Netlist.{network};
ghost use Rattle.model.specs.Module.{send_right, reception_right, operand_right};
ghost use Rattle.model.specs.ModuleFile.{module_of};
ghost use Rattle.file_mod_table.specs.Line.{Within};
ghost use Rattle.file_mod_sources.specs.Asked.{Placed};
ghost use Rattle.file_mod_sources.specs.Found.{FoundGate};

mod gate;

use file_mod_lines::Place;
use file_mod_table::ModTable;
use gate::Gate;
use instruction::Operand;
use netlist::{Kind, Netlist};

// 24: the line at a place sends no "empty slot's location, or part 1 with location not below its own slot".
pub fn send_right(table: &ModTable, place: Place) -> bool
    requires { Within table.now.shape place.processor place.slot.0 }
    ensures { result ≡ send_right (module_of table.now.modfile.now) place.processor place.slot.0 }
{
    match table.send_at(place) {
        Operand::LocalEarlier(k) => table.signal_at(place.at(k)).is_some(),
        Operand::LocalPresent(k) => {
            let sent = place.at(k);
            sent.slot < place.slot && table.signal_at(sent).is_some()
        }
        // None: a line sends of no switch part ("a send 0, 1 or 9").
        _ => true,
    }
}

// 25: it does not receive "from a processor that sends none in that slot".
pub fn reception_right(table: &ModTable, place: Place) -> bool
    requires { Within table.now.shape place.processor place.slot.0 }
    ensures { result ≡ reception_right (module_of table.now.modfile.now) place.processor place.slot.0 }
{
    let Some((_, send)) = table.received_at(place) else {
        return true;
    };
    !matches!(send, Operand::None(_))
}

// The line at a place with NET, which has the signal that the line places.
#[derive(Clone, Copy)]
pub struct PlacedLine<'a> {
    pub net: &'a Netlist<'a>,
    pub table: &'a ModTable<'a>,
    pub place: Place,
    pub ghost placed: { Placed net.now.net.now table.now.modfile.now table.now.shape place.processor place.slot.0 },
}

impl<'a> PlacedLine<'a> {
    pub fn new(net: &'a Netlist<'a>, table: &'a ModTable<'a>, place: Place) -> Self
        requires { Placed net.now.net.now table.now.modfile.now table.now.shape place.processor place.slot.0 }
        ensures { (result.net.now ≡ net.now) × (result.table.now ≡ table.now) × (result.place ≡ place) }
    {
        PlacedLine { net, table, place }
    }

    // The line's gate with the source of its operand j: none where the operand has nothing to read.
    #[tactic(auto, using(netlist::proofs::InPlace::sized), unfolding(model::specs::Module::must_be_none, model::specs::Network::is_signal))]
    fn gate(&self, j: usize) -> Option<Gate<'a>>
        requires { j < 4 }
        ensures { FoundGate (network self.now.net.now.net.now) self.now.table.now self.now.place j result }
    {
        let signal = self.table.signal_at(self.place)?;
        let kind = self.net.kind(signal);
        let source = self.net.source(signal, j)?;
        if kind == Kind::Input {
            return None;
        }
        Some(Gate {
            table: self.table,
            place: self.place,
            kind,
            source,
        })
    }

    // 23: operand j of the line. "An operand whose source is 0, and all operands of inputs and empty slots, must be none."
    fn operand_right(&self, j: usize) -> bool
        requires { j < 4 }
        ensures { result ≡ operand_right (network self.now.net.now.net.now) (module_of self.now.table.now.modfile.now) self.now.place.processor self.now.place.slot.0 j }
    {
        let a = self.table.operand_at(self.place, j);
        match self.gate(j) {
            Some(gate) => gate.reads(a),
            None => matches!(a, Operand::None(_)),
        }
    }

    // 23: the four operands of the line.
    pub fn operands_right(&self) -> bool
        ensures { result ≡ all 4 (operand_right (network self.now.net.now.net.now) (module_of self.now.table.now.modfile.now) self.now.place.processor self.now.place.slot.0) }
    {
        (0..4).all(|j| self.operand_right(j))
    }
}
