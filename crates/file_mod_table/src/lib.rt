// The numbers of MOD's lines after the first, by processor and slot, where every line is right by itself.

#![tactic(auto)]

ghost use Rattle.std.specs.Prelude.{◌≡◌, ◌+◌, ◌*◌, ◌<◌, ◌≤◌, IfSome};
ghost use Rattle.logic.specs.Numbered.{numbered};
ghost use Rattle.model.specs.ModuleFile.{mod_index, mod_field, module_of};
ghost use Rattle.instruction.specs.Operand.{operand_of, location_of};
ghost use Rattle.instruction.specs.Instruction.{operand_named, send_named};
ghost use Rattle.file_mod_table.specs.Line.{LinesLaid, Within};
ghost use Rattle.file_mod_table.specs.Sender.{sender_of, ReceivedAt};

use fields::Line;
use file_mod_lines::{Place, Shape};
use instruction::Operand;

// MOD, P and C, where every line is right by itself.
#[derive(Clone, Copy)]
pub struct ModTable<'a> {
    pub modfile: &'a [u8],
    pub shape: Shape,
    pub ghost laid: { LinesLaid modfile.now shape.processors shape.slots },
}

impl<'a> ModTable<'a> {
    pub fn new(modfile: &'a [u8], shape: Shape) -> Self
        requires { LinesLaid modfile.now shape.processors shape.slots }
        ensures { (result.modfile.now ≡ modfile.now) × (result.shape ≡ shape) }
    {
        ModTable { modfile, shape }
    }

    // The number in a column of the line at a place. A place is asked to be in the module, as an index is in its slice.
    pub fn column_at(&self, place: Place, column: usize) -> u16
        requires within { Within self.now.shape place.processor place.slot.0 }
        requires column_bound { column < 14 }
        ensures { result ≡ mod_field self.now.modfile.now (mod_index self.now.modfile.now place.processor place.slot.0) column }
    {
        let at = place.line_in(self.shape);
        Line::<14>::new(self.modfile, at).number(column)
    }

    // The signal placed there, or none: an empty slot.
    #[tactic(auto, unfolding(model::specs::ModuleFile::module_of))]
    pub fn signal_at(&self, place: Place) -> Option<u16>
        requires { Within self.now.shape place.processor place.slot.0 }
        ensures { result ≡ numbered ((module_of self.now.modfile.now).signal place.processor place.slot.0) }
    {
        fields::numbered(self.column_at(place, 2))
    }

    // The signal of line k after the first, for use as an index: a number, since the arrays that it indexes have a place for 0, the empty
    // slots. It stands at a known offset, so that no place is divided out of k.
    pub fn signal_of(&self, k: u16) -> usize
        requires { k < self.now.shape.processors * self.now.shape.slots }
        ensures { (result ≡ mod_field self.now.modfile.now (k + 1) 2) × (result ≤ 4096) }
    {
        let at = 85 * (usize::from(k) + 1);
        usize::from(Line::<14>::new(self.modfile, at).number(2))
    }

    // What one of the five pairs of the line names.
    // By `as`, in this file, where the bound is proved: no `From` has this conversion, and `TryFrom` has an error that cannot happen.
    fn pair_at(&self, place: Place, pair: usize) -> Operand
        requires within { Within self.now.shape place.processor place.slot.0 }
        requires pair_bound { pair < 5 }
        ensures { result ≡ operand_of (mod_field self.now.modfile.now (mod_index self.now.modfile.now place.processor place.slot.0) (3 + 2 * pair)) (mod_field self.now.modfile.now (mod_index self.now.modfile.now place.processor place.slot.0) (4 + 2 * pair)) }
    {
        let part = self.column_at(place, 3 + 2 * pair);
        let location = self.column_at(place, 4 + 2 * pair) as u8;
        instruction::operand_of(part, location)
    }

    // What the line sends. The location is that of a slot.
    #[tactic(auto, unfolding(model::specs::ModuleFile::module_of))]
    pub fn send_at(&self, place: Place) -> Operand
        requires { Within self.now.shape place.processor place.slot.0 }
        ensures value { result ≡ send_named (module_of self.now.modfile.now) place.processor place.slot.0 }
        ensures within { location_of result < self.now.shape.slots }
    {
        self.pair_at(place, 4)
    }

    // The processor received from, which is one of the module's, or none. One function tells a sender by its number, here and in the
    // program, where it is a byte: the number of a right line fits one.
    #[tactic(auto, unfolding(model::specs::ModuleFile::module_of))]
    pub fn sender_at(&self, place: Place) -> Option<u16>
        requires { Within self.now.shape place.processor place.slot.0 }
        ensures value { result ≡ sender_of (module_of self.now.modfile.now) place.processor place.slot.0 }
        ensures within { IfSome result (λ q. q < self.now.shape.processors) }
    {
        instruction::sender_numbered(self.column_at(place, 13) as u8).map(u16::from)
    }

    // The place of the same slot in the processor received from, and what its line sends; or none.
    pub fn received_at(&self, place: Place) -> Option<(Place, Operand)>
        requires { Within self.now.shape place.processor place.slot.0 }
        ensures { ReceivedAt (module_of self.now.modfile.now) self.now.shape place result }
    {
        let processor = self.sender_at(place)?;
        let from = place.of_processor(processor);
        Some((from, self.send_at(from)))
    }

    // What operand j of the line names.
    #[tactic(auto, unfolding(model::specs::ModuleFile::module_of))]
    pub fn operand_at(&self, place: Place, j: usize) -> Operand
        requires within { Within self.now.shape place.processor place.slot.0 }
        requires j_bound { j < 4 }
        ensures { result ≡ operand_named (module_of self.now.modfile.now) place.processor place.slot.0 j }
    {
        self.pair_at(place, j)
    }
}
