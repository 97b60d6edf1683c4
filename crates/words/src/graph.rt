// Graph words: 0 the number of states; 1 the root; then a row a state: the targets of the bytes 0 to 255, the end target, and the marks word, which
// has the leaf that the state accepts in its low half and its early leaf in the high one. All other code reads and writes them by the views below.
ghost use Rattle.std.specs.Prelude.{◌≡◌, true, false, [], ◌∷◌, ◌<◌, ◌≤◌, length, get_or, set, drop, unwrap_or, IfSome, MatchResult};
ghost use Rattle.std.proofs.lemmas.List.Edits.{sets};
ghost use Rattle.lists.specs.Lists.{all_l, pieces};
ghost use Rattle.refusals.specs.declared.Refusal.TheVariants.{GraphForm};
ghost use Rattle.graph_rules.specs.Layout.{step_count, no_state, most_states, row_words, marks_place, graph_place, graph_size, no_leaf, marks_word};
ghost use Rattle.graph_rules.specs.Graph.{target_fits, row_fits, graph_fits, graph_from, to, accept_of, early_of};

use crate::{NONE, STATES, STEPS, or_none};
use refusals::Refusal;

// The words of a row.
pub const ROW: usize = 258;
// The place of the marks in a row, behind the targets.
const MARKS: usize = 257;
// The leaf that is none.
pub const NO_LEAF: usize = 255;

// ---- places (the bounds are of plain numbers, as those of `table`)

// The place of word c of state s.
pub fn place(s: usize, c: usize) -> usize
    requires s_bound { s < 65536 }
    requires c_bound { c < 65536 }
    ensures { result ≡ graph_place s c }
{
    2 + ROW * s + c
}

// Word c of state s.
pub fn word(graph: &[u16], s: usize, c: usize) -> usize
    requires s_bound { s < 65536 }
    requires c_bound { c < 65536 }
    requires c_in_bounds { graph_place s c < length graph.now }
    ensures { (result ≡ get_or graph.now (graph_place s c) 0) × (result < 65536) }
{
    crate::word(graph, place(s, c))
}

// Word c of state s becomes this one. (Rules 5 to 8 each ask that the words are a graph's and promise it: a struct round the lent words would owe it at
// each such write, where it holds only of the whole.)
pub fn set_word(graph: &mut [u16], s: usize, c: usize, word: u16)
    requires s_bound { s < 65536 }
    requires c_bound { c < 65536 }
    requires c_in_bounds { graph_place s c < length graph.old }
    ensures { graph.new ≡ set graph.old (graph_place s c) word }
{
    graph[place(s, c)] = word;
}

// The target of state s by byte c, or by the end step, becomes this one, if there is one.
pub fn set_target(graph: &mut [u16], s: usize, c: usize, target: Option<u16>)
    requires s_bound { s < 65536 }
    requires c_bound { c < 65536 }
    requires c_in_bounds { graph_place s c < length graph.old }
    ensures { graph.new ≡ set graph.old (graph_place s c) (unwrap_or target no_state) }
{
    set_word(graph, s, c, target.unwrap_or(NONE as u16));
}

// The marks of state s become these: the leaf that it accepts, and its early leaf. (Two bytes of a word, by numbers as `marks_word` has it: through
// `from_le_bytes` each leaf would be cast to a byte and the word back.)
pub fn set_marks(graph: &mut [u16], s: usize, accept: Option<usize>, early: Option<usize>)
    requires s_bound { s < 65536 }
    requires accept_le_no_leaf { IfSome accept (λ l. l ≤ no_leaf) × IfSome early (λ l. l ≤ no_leaf) }
    requires marks_place_in_bounds { graph_place s marks_place < length graph.old }
    ensures { graph.new ≡ set graph.old (graph_place s marks_place) (marks_word (unwrap_or accept no_leaf) (unwrap_or early no_leaf)) }
{
    let marks = accept.unwrap_or(NO_LEAF) + 256 * early.unwrap_or(NO_LEAF);
    set_word(graph, s, MARKS, marks as u16);
}

// The number of states and the root become these.
pub fn set_head(graph: &mut [u16], states: u16, root: u16)
    requires { 2 ≤ length graph.old }
    ensures { graph.new ≡ sets graph.old 0 (states ∷ (root ∷ [])) }
{
    graph[0] = states;
    graph[1] = root;
}

// ---- refusal 12

// Whether u is a target in a graph of n states: below n, or none. (A word still, which is judged here; `Graph` reads it as an option.)
fn target_fits(n: usize, u: usize) -> bool
    ensures { result ≡ target_fits n u }
{
    u < n || u == NONE
}

// Whether every target of state s is below n, or none.
fn row_fits(graph: &[u16], n: usize, s: usize) -> bool
    requires n_le_most_states { n ≤ most_states }
    requires n_in_bounds { graph_size n ≤ length graph.now }
    requires s_bound { s < n }
    ensures { result ≡ row_fits n (get_or (pieces row_words n (drop 2 graph.now)) s []) }
{
    (0..STEPS).all(|c| target_fits(n, word(graph, s, c)))
}

// Whether every target of the n states is below n, or none.
fn targets_fit(graph: &[u16], n: usize) -> bool
    requires n_le_most_states { n ≤ most_states }
    requires n_in_bounds { graph_size n ≤ length graph.now }
    ensures { result ≡ all_l (row_fits n) (pieces row_words n (drop 2 graph.now)) }
{
    (0..n).all(|s| row_fits(graph, n, s))
}

// Whether the words are a graph's: not refused by 12.
fn fits(graph: &[u16]) -> bool
    ensures { result ≡ graph_fits graph.now }
{
    if graph.len() < 2 {
        return false;
    }
    let n = crate::word(graph, 0);
    if STATES < n {
        return false;
    }
    if graph.len() < place(n, 0) {
        return false;
    }
    if !targets_fit(graph, n) {
        return false;
    }
    let root = crate::word(graph, 1);
    if n == 0 {
        return root == 0;
    }
    root < n
}

// ---- what well-formed words say

// A graph by its words: whoever holds one knows that they are well-formed, and reads by it without a check. A state, as a step, stays a number with its
// bound, which a loop over all of them has by itself.
#[derive(Clone, Copy)]
pub struct Graph<'a> {
    pub words: &'a [u16],
    pub ghost fits: { graph_fits words.now ≡ true },
}

impl<'a> Graph<'a> {
    // The graph that these words are; refused by 12 where they are none.
    pub fn new(words: &'a [u16]) -> Result<Graph<'a>, Refusal>
        ensures { MatchResult result (λ graph. (graph.words.now ≡ words.now) × (graph_fits words.now ≡ true)) (λ refusal. (refusal ≡ GraphForm) × (graph_fits words.now ≡ false)) }
    {
        if fits(words) {
            Ok(Graph { words })
        } else {
            Err(Refusal::GraphForm)
        }
    }

    // The number of states.
    #[inline]
    pub fn states(self) -> usize
        ensures { (result ≡ get_or self.entry.words.now 0 0) × (result ≤ most_states) }
    {
        crate::word(self.words, 0)
    }

    // The root, 0 in a graph without states.
    #[inline]
    pub fn root(self) -> usize
        ensures { (result ≡ get_or self.entry.words.now 1 0) × (result < most_states) }
    {
        crate::word(self.words, 1)
    }

    // The target of state s by byte c, or by the end step.
    #[inline]
    pub fn target(self, s: usize, c: usize) -> Option<usize>
        requires s_bound { s < get_or self.words.now 0 0 }
        requires c_lt_step_count { c < step_count }
        ensures value { result ≡ to (graph_from self.entry.words.now) s c }
        ensures state { IfSome result (λ u. u < get_or self.entry.words.now 0 0) }
    {
        or_none(NONE, word(self.words, s, c))
    }

    // The leaf that state s accepts.
    #[inline]
    pub fn accept(self, s: usize) -> Option<usize>
        requires s_bound { s < get_or self.words.now 0 0 }
        ensures value { result ≡ accept_of (graph_from self.entry.words.now) s }
        ensures leaf { IfSome result (λ l. l < no_leaf) }
    {
        or_none(NO_LEAF, word(self.words, s, MARKS) % 256)
    }

    // The early leaf of state s.
    #[inline]
    pub fn early(self, s: usize) -> Option<usize>
        requires s_bound { s < get_or self.words.now 0 0 }
        ensures value { result ≡ early_of (graph_from self.entry.words.now) s }
        ensures leaf { IfSome result (λ l. l < no_leaf) }
    {
        or_none(NO_LEAF, word(self.words, s, MARKS) / 256)
    }
}
