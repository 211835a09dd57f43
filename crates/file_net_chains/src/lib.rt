// The closed chains of NET (01, Refusals, 13): the smallest signal on a loop of its rank-order gates.

#![tactic(auto)]

ghost use Rattle.std.specs.Prelude.{◌≡◌};
ghost use Rattle.model.specs.Netlist.{net_chains};
ghost use Rattle.file_net_chains.specs.Chain.{chain_check};

use file_net_graph::CheckedLines;
use graph_chains::first_loop;

// The smallest signal on a closed chain of rank-order gates, if there is one.
#[tactic(auto, using(crate::proofs::Found::chain_found))]
pub fn first_chain(lines: &CheckedLines) -> Option<u16>
    ensures { chain_check result ≡ net_chains lines.now.net.now }
{
    first_loop(&lines.graph())
}
