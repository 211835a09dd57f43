// A line of NET that has its form (01, Files and Refusals): what 11 asks of its layout and 12 of its sources, judged on
// the bytes in place.

#![tactic(auto)]

ghost use Rattle.std.specs.Prelude.{◌≡◌, true, ◌+◌, ◌*◌, ◌<◌, ◌≤◌};
ghost use Rattle.logic.specs.Test.{◌and◌, ◌or◌, all};
ghost use Rattle.gates.specs.Translation.{is_translation};
ghost use Rattle.gates.specs.Function.{is_function};
ghost use Rattle.fields.specs.Line.{is_line_at};
ghost use Rattle.model.specs.Netlist.{net_field, net_size, ten_zeros, input_layout, gate_layout, source_right, sources_right};
ghost use Rattle.file_net_line.specs.Layout.{signal_layout};

use fields::Line;
use gates::{is_constant, is_function, is_translation};
use netlist::Kind;

// The line of a signal, or line 1, which is that of 0, that was found right.
#[derive(Clone, Copy)]
pub struct NetLine<'a> {
    fields: Line<'a, 12>,
    line: usize,
    pub ghost place: { fields.at ≡ 73 * line },
}

impl<'a> NetLine<'a> {
    pub fn new(net: &'a [u8], line: usize) -> NetLine<'a>
        requires { (line ≤ 4096) × (is_line_at net.now (73 * line) 12 ≡ true) }
        ensures { (result.fields.bytes.now ≡ net.now) × (result.line ≡ line) }
    {
        let fields = Line::new(net, 73 * line);
        NetLine { fields, line }
    }

    pub fn field(&self, column: usize) -> u16
        requires { column < 12 }
        ensures { result ≡ net_field self.now.fields.bytes.now self.now.line column }
    {
        self.fields.number(column)
    }

    // "ten zeros": the columns 2 to 11.
    #[tactic(auto, unfolding(model::specs::Netlist::ten_zeros))]
    pub fn has_ten_zeros(&self) -> bool
        ensures { result ≡ ten_zeros self.now.fields.bytes.now self.now.line }
    {
        self.fields.has_zeros(2, 10)
    }

    // The function and the five translations of a gate are supplied.
    #[tactic(auto, using(logic::proofs::Judged::connected))]
    fn are_codes_supplied(&self) -> bool
        ensures { result ≡ is_function (net_field self.now.fields.bytes.now self.now.line 2) and all 5 (λ k. is_translation (net_field self.now.fields.bytes.now self.now.line (3 + k))) }
    {
        is_function(self.field(2)) && (0..5).all(|k| is_translation(self.field(3 + k)))
    }

    // 11: an input has ten zeros, and a gate codes that are supplied.
    #[tactic(auto, using(crate::proofs::Layouts::laid_input, crate::proofs::Layouts::laid_unit, crate::proofs::Layouts::laid_rank, crate::proofs::Layouts::laid_none))]
    fn is_kind_laid(&self) -> bool
        ensures { result ≡ input_layout self.now.fields.bytes.now self.now.line or gate_layout self.now.fields.bytes.now self.now.line }
    {
        match Kind::try_from(self.field(0)) {
            Ok(Kind::Input) => self.has_ten_zeros(),
            Ok(Kind::UnitDelay) | Ok(Kind::RankOrder) => self.are_codes_supplied(),
            Err(_) => false,
        }
    }

    // 11: the line of a signal has its number, and is an input's or a gate's.
    #[tactic(auto, using(logic::proofs::Judged::connected))]
    pub fn is_signal_laid(&self) -> bool
        ensures { result ≡ signal_layout self.now.fields.bytes.now self.now.line }
    {
        usize::from(self.field(1)) == self.line && self.is_kind_laid()
    }

    // 12: a source is a signal, or there is none and its translation is a constant. It is judged as the number that it is: an `Option` is
    // made of it where it is read as right (`Netlist::source`).
    #[tactic(auto, using(logic::proofs::Judged::connected), unfolding(model::specs::Netlist::source_right))]
    fn is_source_right(&self, size: u16, j: usize) -> bool
        requires { (j < 4) × (size ≡ net_size self.now.fields.bytes.now) }
        ensures { result ≡ source_right self.now.fields.bytes.now self.now.line j }
    {
        let source = self.field(8 + j);
        source <= size && (source != 0 || is_constant(self.field(3 + j)))
    }

    // 12: the four sources of a gate.
    #[tactic(auto, using(crate::proofs::Layouts::sources_input))]
    pub fn are_sources_right(&self, size: u16) -> bool
        requires { size ≡ net_size self.now.fields.bytes.now }
        ensures { result ≡ sources_right self.now.fields.bytes.now self.now.line }
    {
        Kind::try_from(self.field(0)) == Ok(Kind::Input)
            || (0..4).all(|j| self.is_source_right(size, j))
    }
}
