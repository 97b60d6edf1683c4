// Rules 2 to 4: the first rows of the graph. The reached states are renumbered in ascending order, steps to state 0 are dropped, and each state
// accepts its leaf.
#![tactic(auto)]

ghost use Rattle.std.specs.Prelude.{◌≡◌, false, ◌++◌, ◌-◌, ◌<◌, ◌≤◌, length, get_or, replicate};
ghost use Rattle.std.proofs.lemmas.List.Edits.{sets};
ghost use Rattle.graph_rules.specs.Build.{reached};
ghost use Rattle.graph_rules.specs.Graph.{written_on};
ghost use Rattle.graph_rules.specs.Table.{table_of};
ghost use Rattle.graph_rules.specs.Layout.{most_states, row_words, graph_place, graph_size};
ghost use Rattle.rows.specs.Renumbering.{first_graph, new_target, new_row};

use leaves::leaf_of;
use legal::Table;
use words::graph::{place, set_head, set_marks, set_target};
use words::names::numbered;
use words::{STATES, STEPS, zero};

// The target of a step to u. State 0 may be reached, and so have a name, but steps to it are dropped.
fn new_target(names: &[Option<u16>; STATES], u: usize) -> Option<u16>
    requires { u < most_states }
    ensures { result ≡ new_target names.now u }
{
    if u == 0 { None } else { names[u] }
}

// Writes the row of state s as that of state k of the graph. A leaf that is none has a word of its own there, as the format has it.
fn write_row(table: Table<'_>, s: usize, names: &[Option<u16>; STATES], graph: &mut [u16], k: usize)
    requires s_bound { s < get_or table.words.now 0 0 }
    requires k_lt_most_states { k < most_states }
    requires row_words_in_bounds { graph_place k row_words ≤ length graph.old }
    ensures { graph.new ≡ sets graph.old (graph_place k 0) (new_row (table_of table.entry.words.now) names.now s) }
{
    let steps = table.steps(s);
    for c in 0..STEPS {
        set_target(graph, k, c, new_target(names, steps[c] as usize));
    }
    set_marks(graph, k, leaf_of(table, s), None);
}

// Writes the graph of the set of reached states; the words after it, up to those of n states, become 0. (The rows are counted, though each has its number
// in `names`: how many they are is told by no name.)
pub fn write(table: Table<'_>, start: usize, set: &[bool; STATES], graph: &mut [u16])
    requires start_bound { start < get_or table.words.now 0 0 }
    requires set_value { set.now ≡ reached (table_of table.words.now) start ++ replicate (most_states - get_or table.words.now 0 0) false }
    requires table_in_bounds { graph_size (get_or table.words.now 0 0) ≤ length graph.old }
    ensures { graph.new ≡ written_on (get_or table.entry.words.now 0 0) (first_graph (table_of table.entry.words.now) start) graph.old }
{
    let n = table.states();
    let names = numbered(set);
    let mut k: usize = 0;
    for s in 0..n {
        if set[s] {
            write_row(table, s, &names, graph, k);
            k += 1;
        }
    }
    zero(graph, place(k, 0), place(n, 0));
    set_head(graph, k as u16, names[start].unwrap_or(0));
}
