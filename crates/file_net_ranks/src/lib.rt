// The ranks of the signals of NET (000, Rank-order simulation).

#![tactic(auto)]

ghost use Rattle.std.specs.Prelude.{◌≡◌};
ghost use Rattle.model.specs.Netlist.{network};
ghost use Rattle.file_net_ranks.specs.Ranks.{ranks_of};

use file_net_graph::CheckedLines;
use graph_ranks::PLACES;
use netlist::Netlist;

// The rank of each signal of a checked NET, at the place of its number. Linear in the signals: no chain is closed, so
// that the descent of `rank_all` ranks every gate in three steps for each signal, and its first pass ranks none.
#[tactic(auto, using(netlist::proofs::InPlace::checked, crate::proofs::Exact::ranks_exact))]
pub fn rank_signals(net: &Netlist, ranks: &mut [u16; PLACES])
    ensures { ranks.new ≡ ranks_of (network net.now.net.now) }
{
    let lines = CheckedLines::new(net.net, net.signals());
    lines.graph().rank_all(ranks);
}
