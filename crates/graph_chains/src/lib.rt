// Graphs of numbered nodes, given as arrays of numbers: the smallest node on a loop.

#![tactic(auto)]

ghost use Rattle.std.specs.Prelude.{◌≡◌, ◌<◌, ◌≤◌};
ghost use Rattle.graph_ranks.specs.Graph.{places, Loops, Decides, FirstLoop};
ghost use Rattle.graph_ranks.specs.Ranks.{Ranked};
ghost use Rattle.graph_chains.specs.Search.{Room, state, blank, pushed, pushed_all};

use graph_ranks::{Graph, PLACES, Stack};

// A search back from a node: a mark for each node, and the marked nodes whose feeders are still to be marked.
#[derive(Drop)]
struct Search {
    marks: [bool; PLACES],
    stack: Stack<PLACES>,
    ghost room: { Room (state marks stack) },
}

impl Search {
    ghost use Rattle.graph_chains.specs.Methods.{state_of};

    fn new() -> Self
        ensures { state_of result ≡ blank }
    {
        Search {
            marks: [false; PLACES],
            stack: Stack::new(),
        }
    }

    // The feeder x is marked and stacked, if it is a node and has no mark.
    #[tactic(auto, using(crate::proofs::Pushing::push_none, crate::proofs::Pushing::push_old, crate::proofs::Unmarked::unmarked_at))]
    fn push(&mut self, x: u16)
        requires { x < places }
        ensures { state_of self.new ≡ pushed (state_of self.old) x }
    {
        let node = usize::from(x);
        if x == 0 || self.marks[node] {
            return;
        }
        self.marks[node] = true;
        self.stack.push(x);
    }

    // Each feeder of the node is marked and stacked.
    #[tactic(auto, using(crate::proofs::Pushing::push_more), unfolding(crate::specs::Search::pushed_to))]
    fn push_feeders(&mut self, graph: &Graph, node: u16)
        requires { node ≤ graph.now.size }
        ensures { state_of self.new ≡ pushed_all graph.now.edges (state_of self.old) node }
    {
        for j in 0..4 {
            self.push(graph.feeder(node, j));
        }
    }
}

// Is s on a loop? A search back from s: s is on a loop if the search comes to it.
fn reaches_itself(graph: &Graph, s: u16) -> bool
    requires { s ≤ graph.now.size }
    ensures { Decides (Loops graph.now.edges s) result }
{
    let mut search = Search::new();
    search.push_feeders(graph, s);
    // Until the stack is empty: nothing is counted.
    while let Some(node) = search.stack.pop() {
        search.push_feeders(graph, node);
    }
    search.marks[usize::from(s)]
}

// Is s on a loop? What is not followed, or has a rank, is not.
fn on_loop(graph: &Graph, ranks: &[u16; PLACES], s: u16) -> bool
    requires ranked { Ranked graph.now.follow graph.now.edges graph.now.size ranks.now }
    requires s_le_size { s ≤ graph.now.size }
    ensures { Decides (Loops graph.now.edges s) result }
{
    let place = usize::from(s);
    ranks[place] == 0 && graph.follow[place] && reaches_itself(graph, s)
}

// The smallest node that is on a loop, if one is. Ranks decide most graphs at once; only what has none is searched
// from. Below size + 1 and not up to size: the library's law of `find` is of a half-open range.
pub fn first_loop(graph: &Graph) -> Option<u16>
    ensures { FirstLoop graph.now.edges graph.now.size result }
{
    let mut ranks = [0u16; PLACES];
    graph.rank_all(&mut ranks);
    (1..graph.size + 1).find(|&s| on_loop(graph, &ranks, s))
}
