// The plan's words of a state, by the masks that a store holds; written, and compared.
ghost use Rattle.std.specs.Prelude.{◌≡◌, ◌++◌, ◌<◌, ◌≤◌, IfSome, eqb, length, get_or, take, drop};
ghost use Rattle.lists.specs.Lists.{eq_list};
ghost use Rattle.graph_rules.specs.Graph.{graph_from, state_of};
ghost use Rattle.mask_store.specs.Masks.{held};
ghost use Rattle.plan_rules.specs.Plan.{base, edge_code, plan_row, plan_words, plan_size};
ghost use Rattle.plan_rows.specs.Rows.{target_word};

use crate::fork::fork_at;
use crate::layout::{ROW, TABLE, edge_code, has_row, own_code, set_row};
use crate::way::way_to;
use edges::class_to;
use mask_store::Masks;
use plan_rules::{EdgeWord, Way};
use words::graph::Graph;

// ---- one state

// The word of an edge of s where no table is used: its class is looked for only if it takes a mask.
fn edge_word(graph: Graph<'_>, s: usize, target: Option<usize>, masks: Masks<'_>) -> EdgeWord
    requires s_bound { s < get_or graph.words.now 0 0 }
    requires target_bound { IfSome target (λ u. u < get_or graph.words.now 0 0) }
    ensures word { edge_code result ≡ target_word (held masks.entry.store.now) (state_of (graph_from graph.entry.words.now) s) s target }
    ensures few { edge_code result ≤ 66 }
{
    match target {
        Some(u) => match way_to(graph, s, u) {
            Way::BySelf => EdgeWord::Nothing,
            Way::ByTests => EdgeWord::Tests,
            Way::ByMask => EdgeWord::Mask(masks.number_of(&class_to(graph, s, u))),
        },
        None => EdgeWord::Nothing,
    }
}

// The plan's words of state s, by the numbers that the store has for its classes. The self edge always has a mask.
fn row_at(graph: Graph<'_>, s: usize, masks: Masks<'_>) -> [u16; ROW]
    requires s_bound { s < get_or graph.words.now 0 0 }
    ensures { result ≡ plan_row base (held masks.entry.store.now) (graph_from graph.entry.words.now) s }
{
    let fork = fork_at(graph, s);
    let mask = if fork.own {
        Some(masks.number_of(&class_to(graph, s, s)))
    } else {
        None
    };
    let own = own_code(mask);
    if fork.by_table() {
        return [own, TABLE, TABLE];
    }
    let low = edge_word(graph, s, fork.lowest[0], masks);
    let high = edge_word(graph, s, fork.lowest[1], masks);
    [own, edge_code(low), edge_code(high)]
}

// ---- all states

// The plan is written into the front of the buffer.
pub fn write(graph: Graph<'_>, plan: &mut [u16], masks: Masks<'_>)
    requires graph_in_bounds { plan_size base (graph_from graph.words.now) ≤ length plan.old }
    ensures { plan.new ≡ plan_words base (held masks.entry.store.now) (graph_from graph.entry.words.now) ++ drop (plan_size base (graph_from graph.entry.words.now)) plan.old }
{
    for s in 0..graph.states() {
        set_row(plan, s, row_at(graph, s, masks));
    }
}

// Whether the words begin with the plan.
pub fn agrees(graph: Graph<'_>, plan: &[u16], masks: Masks<'_>) -> bool
    requires graph_in_bounds { plan_size base (graph_from graph.words.now) ≤ length plan.now }
    ensures { result ≡ eq_list eqb (take (plan_size base (graph_from graph.entry.words.now)) plan.now) (plan_words base (held masks.entry.store.now) (graph_from graph.entry.words.now)) }
{
    (0..graph.states()).all(|s| has_row(plan, s, row_at(graph, s, masks)))
}
