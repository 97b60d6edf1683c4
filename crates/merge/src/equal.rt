// Two states, compared.
ghost use Rattle.std.specs.Prelude.{◌≡◌, ◌<◌, get_or};
ghost use Rattle.graph_rules.specs.Graph.{graph_from, state_of, same};

use words::STEPS;
use words::graph::Graph;

// Whether two states have the same marks, 256 targets and end target. They are rows of words, compared word by word and no further than to the first that
// differs: no values that a derive could compare.
pub(crate) fn equal(graph: Graph<'_>, e: usize, s: usize) -> bool
    requires { (e < get_or graph.words.now 0 0) × (s < get_or graph.words.now 0 0) }
    ensures { result ≡ same (state_of (graph_from graph.entry.words.now) e) (state_of (graph_from graph.entry.words.now) s) }
{
    if graph.accept(e) != graph.accept(s) {
        return false;
    }
    if graph.early(e) != graph.early(s) {
        return false;
    }
    (0..STEPS).all(|c| graph.target(e, c) == graph.target(s, c))
}
