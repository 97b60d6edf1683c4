// Rules 7 and 8: the rows that stay move together, in their order, and every state gets its new name.
#![tactic(auto)]

ghost use Rattle.std.specs.Prelude.{◌≡◌, true, ◌⊎◌, ℕ, ◌<◌, ◌≤◌, length, get_or, None, unwrap_or};
ghost use Rattle.lists.specs.Lists.{select};
ghost use Rattle.graph_rules.specs.Layout.{step_count, no_state, most_states, row_words, marks_place, graph_place};
ghost use Rattle.graph_rules.specs.Graph.{graph_fits, graph_from, rewritten};
ghost use Rattle.graph_rules.specs.Build.{relabel};
ghost use Rattle.relabel.specs.Names.{new_word, Fitting, Moved};

use words::graph::{Graph, ROW, place, set_head, set_word, word};
use words::{NONE, STATES, STEPS, zero};

// Word c of a row, renamed: a target gets its new name, the marks stay. (Words: the row is moved word by word, targets and marks alike.)
fn new_word(names: &[Option<u16>; STATES], c: usize, word: usize) -> u16
    requires word_bound { word < 65536 }
    requires fact { c < step_count → (word < most_states) ⊎ (word ≡ no_state) }
    ensures { result ≡ new_word names.now c word }
{
    if STEPS <= c || word == NONE {
        return word as u16;
    }
    names[word].unwrap_or(NONE as u16)
}

// The new name of the root, 0 if it has none.
fn root_name(names: &[Option<u16>; STATES], root: usize) -> u16
    requires { root < most_states }
    ensures { result ≡ unwrap_or (get_or names.now root None) 0 }
{
    names[root].unwrap_or(0)
}

// Row s becomes row k, at or before it, renamed.
fn move_row(graph: &mut [u16], names: &[Option<u16>; STATES], s: usize, k: usize)
    requires k_le_s { (k ≤ s) × (s < most_states) × (graph_place s marks_place < length graph.old) }
    requires by_index { (c : ℕ) → c < step_count → (get_or graph.old (graph_place s c) 0 < most_states) ⊎ (get_or graph.old (graph_place s c) 0 ≡ no_state) }
    ensures { Moved names.now s k row_words graph.old graph.new }
{
    for c in 0..ROW {
        let old = word(graph, s, c);
        set_word(graph, k, c, new_word(names, c, old));
    }
}

// The graph of the rows that stay, each state known by its new name, if it has one. Zeros take the place of the other rows. (The frame is that of
// `rows::write`: one for both would take the row's writer as a closure with its promise, which is longer than the frame. Two arrays: a merged state has a
// name and does not stay.)
pub fn relabel(graph: &mut [u16], names: &[Option<u16>; STATES], stay: &[bool; STATES])
    requires graph_value { graph_fits graph.old ≡ true }
    requires fitting { Fitting names.now (select stay.now (graph_from graph.old).states) (graph_from graph.old).root }
    ensures graph_after { graph.new ≡ rewritten (λ g. relabel names.now (select stay.now g.states) g.root) graph.old }
    ensures graph_after_2 { graph_fits graph.new ≡ true }
{
    let before = Graph { words: graph };
    let n = before.states();
    let root = before.root();
    let mut k: usize = 0;
    for s in 0..n {
        if stay[s] {
            move_row(graph, names, s, k);
            k += 1;
        }
    }
    zero(graph, place(k, 0), place(n, 0));
    set_head(graph, k as u16, root_name(names, root));
}
