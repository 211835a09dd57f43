// A NET that is checked: N, and the kinds, sources and codes of its signals, read in place (01, Files).

#![tactic(auto)]

ghost use Rattle.std.specs.Prelude.{◌≡◌, true, ◌<◌, ◌≤◌, eqb};
ghost use Rattle.logic.specs.Numbered.{numbered};
ghost use Rattle.model.specs.Refusal.{pass};
ghost use Rattle.model.specs.Network.{is_signal, input};
ghost use Rattle.model.specs.Netlist.{net_field, net_size, network, net_check};
ghost use Rattle.model.specs.Acceptance.{panel_limit};
ghost use Rattle.model.specs.Checked.{Checked};
ghost use Rattle.netlist.specs.Kind.{code_of};

mod kind;

use fields::Line;
pub use kind::{Kind, UnknownKind};

// The bytes of a NET that is checked. The limit is the panel's: what a lower one accepts, it accepts too.
#[derive(Clone, Copy)]
pub struct Netlist<'a> {
    pub net: &'a [u8],
    pub ghost accepted: { net_check panel_limit net.now ≡ pass },
}

impl<'a> Netlist<'a> {
    #[tactic(auto, using(crate::proofs::InPlace::checked_passes))]
    pub fn new(net: &'a [u8]) -> Self
        requires { Checked net.now }
        ensures { result.net.now ≡ net.now }
    {
        Netlist { net }
    }

    // A field of the line of a signal, or of line 1, which is that of 0.
    #[tactic(auto, using(crate::proofs::InPlace::right_line))]
    pub fn field(&self, line: u16, column: usize) -> u16
        requires { (line ≤ net_size self.now.net.now) × (column < 12) }
        ensures { result ≡ net_field self.now.net.now line column }
    {
        let place = 73 * usize::from(line);
        Line::<12>::new(self.net, place).number(column)
    }

    // N.
    pub fn signals(&self) -> u16
        ensures { (result ≡ net_size self.now.net.now) × (1 ≤ result) × (result ≤ 4096) }
    {
        self.field(0, 1)
    }

    // "A signal is 1 to N".
    #[tactic(auto, using(crate::proofs::InPlace::sized), unfolding(model::specs::Network::is_signal))]
    pub fn is_signal(&self, s: u16) -> bool
        ensures { result ≡ is_signal (network self.now.net.now) s }
    {
        (1..=self.signals()).contains(&s)
    }

    // The kind of a signal, the first field of its line. No other number stands there in a NET that is checked.
    pub fn kind(&self, s: u16) -> Kind
        requires { is_signal (network self.now.net.now) s ≡ true }
        ensures { code_of result ≡ (network self.now.net.now).kind s }
    {
        Kind::try_from(self.field(s, 0)).unwrap()
    }

    pub fn is_input(&self, s: u16) -> bool
        requires { is_signal (network self.now.net.now) s ≡ true }
        ensures { result ≡ eqb ((network self.now.net.now).kind s) input }
    {
        self.kind(s) == Kind::Input
    }

    // Source 1 to 4 of a signal, by 0 to 3, or none: "Source 0 means none".
    #[tactic(auto, using(crate::proofs::InPlace::source_is))]
    pub fn source(&self, s: u16, j: usize) -> Option<u16>
        requires { (is_signal (network self.now.net.now) s ≡ true) × (j < 4) }
        ensures { result ≡ numbered ((network self.now.net.now).source s j) }
    {
        fields::numbered(self.field(s, 8 + j))
    }
}
