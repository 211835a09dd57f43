// The gate whose operands a line of MOD has, and what each operand reads (01, Refusals, 23).

ghost use Rattle.std.specs.Prelude.{◌≡◌, ◌≤◌, eqb};
ghost use Rattle.model.specs.Module.{local_earlier, local_present, switch_earlier, switch_present};
ghost use Rattle.model.specs.ModuleFile.{module_of};
ghost use Rattle.instruction.specs.Operand.{part_of, location_of};
ghost use Rattle.file_mod_table.specs.Line.{Within};
ghost use Rattle.file_mod_sources.specs.Mirror.{half_part, sent_from, gate_reads};

use file_mod_lines::Place;
use file_mod_table::ModTable;
use instruction::Operand;
use netlist::Kind;

// What is sent is of the present half, "a send of part 1", where that is asked for, or of the earlier half, "a send of part 0".
fn is_of_half(send: Operand, present: bool) -> bool
    ensures { result ≡ eqb (part_of send) (half_part present) }
{
    match send {
        Operand::LocalEarlier(_) => !present,
        Operand::LocalPresent(_) => present,
        _ => false,
    }
}

// "Switch: look at the send into k": the signal that is sent, where it is of the half that is asked for.
fn sent_from(table: &ModTable, into: Place, present: bool) -> Option<u16>
    requires { Within table.now.shape into.processor into.slot.0 }
    ensures { result ≡ sent_from (module_of table.now.modfile.now) into.processor into.slot.0 (half_part present) }
{
    let (from, send) = table.received_at(into)?;
    if !is_of_half(send, present) {
        return None;
    }
    table.signal_at(from.at(send.location()))
}

// The gate of an operand: MOD and its place there, its kind, and the source that the operand has to read.
#[derive(Clone, Copy)]
pub struct Gate<'a> {
    pub table: &'a ModTable<'a>,
    pub place: Place,
    pub kind: Kind,
    pub source: u16,
    pub ghost some: { 1 ≤ source },
}

impl Gate<'_> {
    // "Local 0: the signal placed at k is the source, gate unit-delay."
    #[tactic(auto, using(logic::proofs::Judged::connected), unfolding(model::specs::Module::reads))]
    fn local_earlier_right(&self, k: u8) -> bool
        requires { Within self.now.table.now.shape self.now.place.processor k }
        ensures { result ≡ gate_reads self.now.table.now.modfile.now self.now.place self.now.kind self.now.source local_earlier k }
    {
        self.kind == Kind::UnitDelay && self.table.signal_at(self.place.at(k)) == Some(self.source)
    }

    // "Local 1: k < i, the signal at k is the source, gate rank-order."
    #[tactic(auto, using(logic::proofs::Judged::connected), unfolding(model::specs::Module::reads))]
    fn local_present_right(&self, k: u8) -> bool
        requires { Within self.now.table.now.shape self.now.place.processor k }
        ensures { result ≡ gate_reads self.now.table.now.modfile.now self.now.place self.now.kind self.now.source local_present k }
    {
        let read = self.place.at(k);
        self.kind == Kind::RankOrder
            && read.slot < self.place.slot
            && self.table.signal_at(read) == Some(self.source)
    }

    // "Part 2 wants a send of part 1, gate unit-delay."
    #[tactic(auto, using(logic::proofs::Judged::connected), unfolding(model::specs::Module::reads, crate::specs::Mirror::sent_from))]
    fn switch_earlier_right(&self, k: u8) -> bool
        requires { Within self.now.table.now.shape self.now.place.processor k }
        ensures { result ≡ gate_reads self.now.table.now.modfile.now self.now.place self.now.kind self.now.source switch_earlier k }
    {
        self.kind == Kind::UnitDelay
            && sent_from(self.table, self.place.at(k), true) == Some(self.source)
    }

    // "Part 3 wants k < i, and a send of part 0 for a unit-delay gate or part 1 for a rank-order gate."
    #[tactic(auto, using(logic::proofs::Judged::connected), unfolding(model::specs::Module::reads, crate::specs::Mirror::sent_from))]
    fn switch_present_right(&self, k: u8) -> bool
        requires { Within self.now.table.now.shape self.now.place.processor k }
        ensures { result ≡ gate_reads self.now.table.now.modfile.now self.now.place self.now.kind self.now.source switch_present k }
    {
        let into = self.place.at(k);
        into.slot < self.place.slot
            && sent_from(self.table, into, self.kind != Kind::UnitDelay) == Some(self.source)
    }

    // The operand reads the source.
    #[tactic(auto, using(logic::proofs::Judged::connected), unfolding(model::specs::Module::reads))]
    pub fn reads(&self, a: Operand) -> bool
        requires { Within self.now.table.now.shape self.now.place.processor (location_of a) }
        ensures { result ≡ gate_reads self.now.table.now.modfile.now self.now.place self.now.kind self.now.source (part_of a) (location_of a) }
    {
        match a {
            Operand::LocalEarlier(k) => self.local_earlier_right(k),
            Operand::LocalPresent(k) => self.local_present_right(k),
            Operand::SwitchEarlier(k) => self.switch_earlier_right(k),
            Operand::SwitchPresent(k) => self.switch_present_right(k),
            Operand::None(_) => false,
        }
    }
}
