// Graphs of numbered nodes, given as arrays of numbers: how far each node stands above its feeders.

#![tactic(auto)]

ghost use Rattle.std.specs.Prelude.{◌≡◌, ◌+◌, ◌*◌, ◌<◌, ◌≤◌, [], length, get_or, MatchOption};
ghost use Rattle.graph_ranks.specs.Graph.{IsGraph};
ghost use Rattle.graph_ranks.specs.Ranks.{OpenFeeder, LastOpen, Ranked, RankAbove};
ghost use Rattle.graph_ranks.specs.Descent.{Nodes, lined_up};

mod stack;

pub use stack::Stack;

// Places for nodes: 0, which is none, and 1 to 4096.
pub const PLACES: usize = 4097;

// Four entries for each.
pub const ENTRIES: usize = 16388;

// Three steps of a descent for each node, and room for a way on which every node stands and to which each step adds one.
const STEPS: usize = 12288;

const WAY: usize = 16384;

// A graph of the nodes 1 to `size`: those that are followed are marked, and the edges are four entries a node, flat, as the definitions
// read them.
#[derive(Drop)]
pub struct Graph {
    pub follow: [bool; PLACES],
    pub edges: [u16; ENTRIES],
    pub size: u16,
    pub ghost is_graph: { IsGraph follow edges size },
}

impl Graph {
    ghost use Rattle.graph_ranks.specs.Methods.{SomeRanked, Visited, Passed, Descended};

    // The feeder that entry j of the node names, or 0 for none, as the entry has it: an Option would be made here and taken
    // apart at once, and no caller would lose its test.
    pub fn feeder(&self, node: u16, j: usize) -> u16
        requires within { (node ≤ self.now.size) × (j < 4) }
        ensures named { result ≡ get_or self.now.edges (4 * node + j) 0 }
        ensures node_or_none { result ≤ self.now.size }
    {
        self.edges[4 * usize::from(node) + j]
    }

    // The rank above the feeders of the node, where each has one. What holds of the ranks so far is asked of each caller: they are lent,
    // and change from call to call. A loop with a skip and a way out: by `filter` and `try_fold` each turn would make
    // an Option of the rank so far.
    #[tactic(auto, using(crate::proofs::Ranking::ground, crate::proofs::Ranking::above_start, crate::proofs::Ranking::above_none, crate::proofs::Ranking::above_more))]
    fn rank_above(&self, ranks: &[u16; PLACES], node: u16) -> Option<u16>
        requires ranked_so_far { SomeRanked self.now ranks.now }
        requires node_le_size { node ≤ self.now.size }
        ensures { MatchOption result (OpenFeeder self.now.edges ranks.now node) (RankAbove self.now.edges ranks.now node 4) }
    {
        let mut rank: u16 = 1;
        for j in 0..4 {
            let feeder = self.feeder(node, j);
            if feeder == 0 {
                continue;
            }
            let below = ranks[usize::from(feeder)];
            if below == 0 {
                return None;
            }
            rank = rank.max(below + 1);
        }
        Some(rank)
    }

    // The node is visited: it gets its rank, if it is followed, has none yet, and each of its feeders has one. Did it?
    fn visit(&self, ranks: &mut [u16; PLACES], node: u16) -> bool
        requires ranked_so_far { SomeRanked self.now ranks.old }
        requires is_node { (1 ≤ node) × (node ≤ self.now.size) }
        ensures { Visited self.now node ranks.old ranks.new result }
    {
        let place = usize::from(node);
        if ranks[place] != 0 || !self.follow[place] {
            return false;
        }
        let Some(rank) = self.rank_above(ranks, node) else {
            return false;
        };
        ranks[place] = rank;
        true
    }

    // A pass: each node is visited in turn. Did some get a rank?
    fn visit_all(&self, ranks: &mut [u16; PLACES]) -> bool
        requires ranked_so_far { SomeRanked self.now ranks.old }
        ensures { Passed self.now (self.now.size + 1) ranks.old ranks.new result }
    {
        let mut some = false;
        for node in 1..=self.size {
            some |= self.visit(ranks, node);
        }
        some
    }

    // The last of the feeders of the node that have no rank. Which of them it is decides how many steps a graph with a loop takes, and no
    // order is quick for all.
    fn open_feeder(&self, ranks: &[u16; PLACES], node: u16) -> Option<u16>
        requires node_le_size { node ≤ self.now.size }
        ensures { MatchOption result (OpenFeeder self.now.edges ranks.now node → ⊥) (LastOpen self.now.edges ranks.now node) }
    {
        (0..4)
            .map(|j| self.feeder(node, 3 - j))
            .find(|&feeder| feeder != 0 && ranks[usize::from(feeder)] == 0)
    }

    // A step of the descent: from the node that stood on top of the way to a feeder that has no rank, or, where each has
    // one, the node is visited and left.
    fn descend(&self, ranks: &mut [u16; PLACES], way: &mut Stack<WAY>, node: u16)
        requires ranked_so_far { SomeRanked self.now ranks.old }
        requires is_node { (1 ≤ node) × (node ≤ self.now.size) }
        requires nodes_on_way { Nodes self.now.size way.old }
        requires room { length way.old + 2 ≤ 16384 }
        ensures { Descended self.now ranks.new way.old way.new }
    {
        let open = self.open_feeder(ranks, node);
        if let Some(feeder) = open {
            way.push(node);
            way.push(feeder);
        } else {
            self.visit(ranks, node);
        }
    }

    // The nodes 1 to size stand on the way.
    #[tactic(auto, using(crate::proofs::Descending::length_lined_up))]
    fn line_up(&self, way: &mut Stack<WAY>)
        requires { way.old ≡ [] }
        ensures { way.new ≡ lined_up self.now.size }
    {
        for node in 1..=self.size {
            way.push(node);
        }
    }

    // A descent from every node. Where there is no loop, it ranks all within three steps for each node: one from where
    // the node stands at first, one down to it and one back. Where there is a loop, the steps run out on it, and passes
    // rank what is left.
    #[tactic(auto, using(crate::proofs::Descending::length_lined_up, crate::proofs::Descending::nodes_lined_up))]
    fn rank_deep(&self, ranks: &mut [u16; PLACES])
        requires ranked_so_far { SomeRanked self.now ranks.old }
        ensures { SomeRanked self.now ranks.new }
    {
        let mut way: Stack<WAY> = Stack::new();
        self.line_up(&mut way);
        for _step in 0..STEPS {
            let Some(node) = way.pop() else {
                return;
            };
            self.descend(ranks, &mut way, node);
        }
    }

    // The rank of every node that has one, and 0, in a fixed array, for the others (an array of Options would be twice as long): by a
    // descent, which is quick, and then by passes over the nodes until one ranks none, which is sure. The array is lent: handed out, it
    // takes its 8 KB twice of the stack, which is counted (docs/PANEL.md).
    #[tactic(auto, using(crate::proofs::Passing::all_ranked))]
    pub fn rank_all(&self, ranks: &mut [u16; PLACES])
        ensures { Ranked self.now.follow self.now.edges self.now.size ranks.new }
    {
        ranks.fill(0);
        self.rank_deep(ranks);
        'passes: while self.visit_all(ranks) {}
    }
}
