// The rank-order gates of NET as a graph: which signals they are, and which of them feed which.

#![tactic(auto)]

ghost use Rattle.std.specs.Prelude.{◌≡◌, ◌+◌, ◌*◌, ◌<◌, ◌≤◌, eqb};
ghost use Rattle.model.specs.Network.{rank_order};
ghost use Rattle.model.specs.Netlist.{net_field};
ghost use Rattle.file_net_graph.specs.Lines.{Lines};
ghost use Rattle.file_net_graph.specs.Graph.{follow_to, feeder_of, edges_to, follow_of, edges_of};

use file_net_line::NetLine;
use graph_ranks::{ENTRIES, Graph, PLACES};
use netlist::Kind;

// The bytes of a NET of which the lines have passed 10 to 12, and the number of its signals.
#[derive(Clone, Copy)]
pub struct CheckedLines<'a> {
    pub net: &'a [u8],
    pub size: u16,
    pub ghost lines: { Lines net.now size },
}

impl<'a> CheckedLines<'a> {
    pub fn new(net: &'a [u8], size: u16) -> Self
        requires { Lines net.now size }
        ensures { (result.net.now ≡ net.now) × (result.size ≡ size) }
    {
        CheckedLines { net, size }
    }

    // Is s a rank-order gate?
    fn is_rank_order(&self, s: usize) -> bool
        requires { s ≤ self.now.size }
        ensures { result ≡ eqb (net_field self.now.net.now s 0) rank_order }
    {
        Kind::try_from(NetLine::new(self.net, s).field(0)) == Ok(Kind::RankOrder)
    }

    // The rank-order gates, marked. Below size + 1 and not up to size: what a loop up to size stores in its last turn did not close.
    #[tactic(auto, using(crate::proofs::Loading::follow_more), unfolding(crate::specs::Graph::follow_to))]
    fn mark_followed(&self, follow: &mut [bool; PLACES])
        ensures { follow.new ≡ follow_to self.now.net.now follow.old self.now.size }
    {
        for s in 1..usize::from(self.size) + 1 {
            follow[s] = self.is_rank_order(s);
        }
    }

    // The feeder that entry i of the graph names, 0 for none: the number that the entry is to hold.
    #[tactic(auto, using(logic::proofs::Tests::decided), unfolding(crate::specs::Graph::feeder_of))]
    fn feeder_of(&self, follow: &[bool; PLACES], i: usize) -> u16
        requires is_entry { (4 ≤ i) × (i < 4 * self.now.size + 4) }
        ensures { result ≡ feeder_of self.now.net.now follow.now i }
    {
        let gate = i / 4;
        if !follow[gate] {
            return 0;
        }
        let source = NetLine::new(self.net, gate).field(8 + i % 4);
        if follow[usize::from(source)] {
            source
        } else {
            0
        }
    }

    // The graph of the rank-order gates.
    #[tactic(auto, using(crate::proofs::Loading::edges_more), unfolding(crate::specs::Graph::edges_to))]
    fn load_edges(&self, follow: &[bool; PLACES], edges: &mut [u16; ENTRIES])
        ensures { edges.new ≡ edges_to self.now.net.now follow.now edges.old (4 * self.now.size) }
    {
        for i in 4..4 * usize::from(self.size) + 4 {
            edges[i] = self.feeder_of(follow, i);
        }
    }

    // The rank-order gates and the graph of them.
    pub fn graph(&self) -> Graph
        ensures follow { result.follow ≡ follow_of self.now.net.now self.now.size }
        ensures edges { result.edges ≡ edges_of self.now.net.now self.now.size }
        ensures size { result.size ≡ self.now.size }
    {
        let mut follow = [false; PLACES];
        let mut edges = [0; ENTRIES];
        self.mark_followed(&mut follow);
        self.load_edges(&follow, &mut edges);
        Graph {
            follow,
            edges,
            size: self.size,
        }
    }
}
