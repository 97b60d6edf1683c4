// Rule 6: accepts that every parent has as early are cleared.
#![tactic(auto)]

ghost use Rattle.std.specs.Prelude.{◌≡◌, true, false, not, ℕ, ◌<◌, get_or};
ghost use Rattle.graph_rules.specs.Graph.{graph_fits, graph_from, rewritten};
ghost use Rattle.graph_rules.specs.Build.{covered, with_cleared};

use words::graph::{Graph, set_marks};
use words::{STATES, STEPS};

// Which states have a parent, by a byte or the end, whose early leaf is not the one they accept.
fn uncovered(graph: Graph<'_>) -> [bool; STATES]
    ensures { (s : ℕ) → s < get_or graph.entry.words.now 0 0 → get_or result s false ≡ not (covered (graph_from graph.entry.words.now) s) }
{
    let mut out = [false; STATES];
    for p in 0..graph.states() {
        let leaf = graph.early(p);
        for c in 0..STEPS {
            if let Some(u) = graph.target(p, c) {
                if graph.accept(u) != leaf {
                    out[u] = true;
                }
            }
        }
    }
    out
}

// Clears the accept of every state whose parents all have it as early, and of a state without parents.
pub fn clear(graph: &mut [u16])
    requires { graph_fits graph.old ≡ true }
    ensures graph_after { graph.new ≡ rewritten with_cleared graph.old }
    ensures graph_after_2 { graph_fits graph.new ≡ true }
{
    let before = Graph { words: graph };
    let n = before.states();
    let lasting = uncovered(before);
    for s in 0..n {
        if !lasting[s] {
            let leaf = Graph { words: graph }.early(s);
            set_marks(graph, s, None, leaf);
        }
    }
}
