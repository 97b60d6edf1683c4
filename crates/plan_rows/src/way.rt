// How a plan has the bytes of a state tested (docs/RULES.md, "Plan").
ghost use Rattle.std.specs.Prelude.{◌≡◌, true, ◌<◌, get_or};
ghost use Rattle.graph_rules.specs.Graph.{graph_from, state_of};
ghost use Rattle.plan_rules.specs.Plan.{base, way_to};

use plan_rules::Way;
use words::graph::Graph;

// Above so many byte edges a state is run by a table.
pub const EDGES: usize = 2;

// Above this cost the class of an edge takes a mask.
pub(crate) const COST: usize = 2;

// How a byte is tested for the edge from s to u where no table is used. A target is a state, and stays a number with its bound, as `Graph` says.
pub fn way_to(graph: Graph<'_>, s: usize, u: usize) -> Way
    requires s_bound { s < get_or graph.words.now 0 0 }
    requires u_bound { u < get_or graph.words.now 0 0 }
    ensures { result ≡ way_to base (state_of (graph_from graph.entry.words.now) s) s u }
{
    if u == s {
        Way::BySelf
    } else if COST < classes::byte_class::cost(&edges::class_to(graph, s, u)) {
        Way::ByMask
    } else {
        Way::ByTests
    }
}
