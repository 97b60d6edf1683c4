// The byte edges of a state, grouped by target (docs/RULES.md, "Edges"), from graph words: the states that they lead to, and the class of the bytes that
// lead to one. The end step is none of them.
//
// They are defined in specs/Edges.antt; what is true of them is in proofs/ByTarget.antt.
#![tactic(auto)]

ghost use Rattle.std.specs.Prelude.{◌≡◌, ◌<◌, get_or};
ghost use Rattle.lists.specs.Lists.{tab};
ghost use Rattle.graph_rules.specs.Graph.{state_of, graph_from};
ghost use Rattle.edges.specs.Edges.{class_to, leads_to};
ghost use Rattle.graph_rules.specs.Layout.{most_states};

use words::STATES;
use words::graph::Graph;

// The class of the edge from state s to state u.
pub fn class_to(graph: Graph<'_>, s: usize, u: usize) -> [bool; 256]
    requires s_bound { s < get_or graph.words.now 0 0 }
    requires u_bound { u < get_or graph.words.now 0 0 }
    ensures { result ≡ class_to (state_of (graph_from graph.entry.words.now) s) u }
{
    let mut class = [false; 256];
    for b in 0..256 {
        class[b] = Some(u) == graph.target(s, b);
    }
    class
}

// Which states the byte edges of state s lead to: the first n of the flags are those of the states, and an edge leads to no
// other (`led-below`).
pub fn targets(graph: Graph<'_>, s: usize) -> [bool; STATES]
    requires { s < get_or graph.words.now 0 0 }
    ensures { result ≡ tab 0 most_states (leads_to (state_of (graph_from graph.entry.words.now) s)) }
{
    let mut found = [false; STATES];
    for b in 0..256 {
        if let Some(u) = graph.target(s, b) {
            found[u] = true;
        }
    }
    found
}
