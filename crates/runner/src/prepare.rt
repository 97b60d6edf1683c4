// What is worked out of a graph before texts are run by its plan.
ghost use Rattle.std.specs.Prelude.{◌≡◌, ℕ, ◌<◌, ◌≤◌, length, get_or, IfSome};
ghost use Rattle.graph_rules.specs.Layout.{most_states};
ghost use Rattle.graph_rules.specs.Graph.{graph_from};
ghost use Rattle.plan_rules.specs.Plan.{base, by_table};
ghost use Rattle.runner.specs.Prepared.{edge_at, edges_size, edge_to, no_edge, targets_of, Prepared};

use crate::edge::{Edge, NO_EDGE};
use classes::byte_class::impl_with_cmp;
use plan_rows::fork::fork_at;
use plan_rows::way::{EDGES, way_to};
use plan_rules::Way;
use words::graph::Graph;

// How many edges of all states there may be.
pub const ENDS: usize = EDGES * words::STATES;

// The place of edge j of state s.
pub(crate) fn edge_place(s: usize, j: usize) -> usize
    requires { (s < most_states) × (j < base.edges) }
    ensures { result ≡ edge_at s j }
{
    EDGES * s + j
}

// The edge from state s to its target, if there is one, with its comparisons if it is tested by them: no edge of a state that is run by a table is. A class
// that costs at most 2 has at most three comparisons, and two exceptions.
fn edge_to(graph: Graph<'_>, s: usize, target: Option<usize>, tabled: bool) -> Edge
    requires s_bound { s < get_or graph.words.now 0 0 }
    requires target_bound { IfSome target (λ u. u < get_or graph.words.now 0 0) }
    requires tabled_value { tabled ≡ by_table base (targets_of (graph_from graph.words.now) s) }
    ensures { result ≡ edge_to (graph_from graph.entry.words.now) s target }
{
    let Some(u) = target else {
        return NO_EDGE;
    };
    let target = u as u16;
    if tabled {
        return Edge { target, ..NO_EDGE };
    }
    match way_to(graph, s, u) {
        Way::ByTests => {
            let cmp = impl_with_cmp(&edges::class_to(graph, s, u));
            Edge {
                target,
                count: cmp.count as u8,
                list: [cmp.list[0], cmp.list[1], cmp.list[2]],
                except: [cmp.except[0], cmp.except[1]],
            }
        }
        Way::BySelf | Way::ByMask => Edge { target, ..NO_EDGE },
    }
}

// The edges of each state to its lowest two targets; those behind them are as found.
pub fn prepare(graph: Graph<'_>, edges: &mut [Edge])
    requires { length edges.old ≡ edges_size }
    ensures prepared { Prepared (graph_from graph.entry.words.now) edges.new }
    ensures rest { (i : ℕ) → edge_at (get_or graph.entry.words.now 0 0) 0 ≤ i → get_or edges.new i no_edge ≡ get_or edges.old i no_edge }
    ensures size { length edges.new ≡ edges_size }
{
    for s in 0..graph.states() {
        let fork = fork_at(graph, s);
        let tabled = fork.by_table();
        let first = edge_to(graph, s, fork.lowest[0], tabled);
        let second = edge_to(graph, s, fork.lowest[1], tabled);
        edges[edge_place(s, 0)] = first;
        edges[edge_place(s, 1)] = second;
    }
}
