// The byte edges of one state.
ghost use Rattle.std.specs.Prelude.{◌≡◌, ◌<◌, ltb, get_or};
ghost use Rattle.graph_rules.specs.Graph.{graph_from};
ghost use Rattle.plan_rules.specs.Plan.{base};
ghost use Rattle.plan_rows.specs.Fork.{fork_of};

use crate::way::EDGES;
use words::graph::Graph;

// Whether one of them leads to the state itself, to how many states they lead, and the lowest of these, ascending.
#[derive(Clone, Copy, PartialEq, Eq)]
pub struct Fork {
    pub own: bool,
    pub count: usize,
    pub lowest: [Option<usize>; EDGES],
}

impl Fork {
    // Whether they are tested by a table, else one by one: these are then all of `lowest`.
    pub fn by_table(self) -> bool
        ensures { result ≡ ltb base.edges self.count }
    {
        EDGES < self.count
    }
}

// The byte edges of state s.
pub fn fork_at(graph: Graph<'_>, s: usize) -> Fork
    requires s_bound { s < get_or graph.words.now 0 0 }
    ensures { result ≡ fork_of (graph_from graph.entry.words.now) s }
{
    let leads = edges::targets(graph, s);
    let mut count: usize = 0;
    let mut lowest: [Option<usize>; EDGES] = [None; EDGES];
    for u in 0..graph.states() {
        if leads[u] {
            if count < EDGES {
                lowest[count] = Some(u);
            }
            count += 1;
        }
    }
    Fork {
        own: leads[s],
        count,
        lowest,
    }
}
