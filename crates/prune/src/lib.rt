// Rule 7: the states that are kept.
#![tactic(auto)]

ghost use Rattle.std.specs.Prelude.{◌≡◌, true, false, ◌||◌, ◌++◌, ℕ, ◌+◌, ◌*◌, ◌-◌, ◌<◌, eqb, get_or, replicate};
ghost use Rattle.graph_rules.specs.Graph.{graph_fits, graph_from, rewritten, state_of, leads};
ghost use Rattle.graph_rules.specs.Build.{kept, marked, pruned};
ghost use Rattle.prune.specs.Matrix.{bit_at};
ghost use Rattle.graph_rules.specs.Layout.{most_states};

use bits::{test_bit, with_bit};
use relabel::relabel;
use words::graph::Graph;
use words::names::numbered;
use words::{STATES, STEPS};
use worklist::Worklist;

// A bit for each state, in bytes.
const ROW: usize = STATES / 8;
// A row for each state: one array, no heap, whose definition counts its bytes through (specs/Matrix.antt).
const MATRIX: usize = ROW * STATES;

// The parents of every state, by byte and end edges: bit p of row t is set if state p leads to state t.
fn parents(graph: Graph<'_>) -> [u8; MATRIX]
    ensures { (t p : ℕ) → t < most_states → p < most_states → bit_at result t p ≡ leads (state_of (graph_from graph.entry.words.now) p) t }
{
    let mut out = [0u8; MATRIX];
    for p in 0..graph.states() {
        for c in 0..STEPS {
            if let Some(t) = graph.target(p, c) {
                let at = ROW * t + p / 8;
                out[at] = with_bit(out[at], p % 8, true);
            }
        }
    }
    out
}

// Whether state s has a mark, or is the root.
fn is_seed(graph: Graph<'_>, s: usize) -> bool
    requires { s < get_or graph.words.now 0 0 }
    ensures { result ≡ (marked (state_of (graph_from graph.entry.words.now) s) || eqb (graph_from graph.entry.words.now).root s) }
{
    graph.accept(s).is_some() || graph.early(s).is_some() || graph.root() == s
}

// The states with a mark, the root, and all that can reach one of these: by a worklist, over the parents of each.
fn kept(graph: Graph<'_>) -> [bool; STATES]
    ensures { result ≡ kept (graph_from graph.entry.words.now) ++ replicate (most_states - get_or graph.entry.words.now 0 0) false }
{
    let n = graph.states();
    let from = parents(graph);
    let mut work: Worklist<STATES> = Worklist::new();
    for s in 0..n {
        if is_seed(graph, s) {
            work.push(s);
        }
    }
    while let Some(t) = work.pop() {
        for k in 0..ROW {
            // Eight states at once, where none of them is a parent.
            let byte = from[ROW * t + k];
            if byte != 0 {
                for b in 0..8 {
                    if test_bit(byte, b) {
                        work.push(8 * k + b);
                    }
                }
            }
        }
    }
    work.seen()
}

// Drops the states that are not kept; the others keep their order.
pub fn prune(graph: &mut [u16])
    requires { graph_fits graph.old ≡ true }
    ensures graph_after { graph.new ≡ rewritten pruned graph.old }
    ensures graph_after_2 { graph_fits graph.new ≡ true }
{
    let keep = kept(Graph { words: graph });
    let names = numbered(&keep);
    relabel(graph, &names, &keep);
}
