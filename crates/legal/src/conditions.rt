// The conditions on a table's words, judged in the order of their numbers, so that no word is read that is not there.
ghost use Rattle.std.specs.Prelude.{◌≡◌, ◌≢◌, ◌||◌, ◌<◌, ◌≤◌, eqb, ltb, get_or, MatchResult};
ghost use Rattle.refusals.specs.Refusals.{numbered};
ghost use Rattle.graph_rules.specs.Table.{refusal, table_of, counts_fit, empties_fit, targets_fit, heads_fit, match_fits, records_fit};
ghost use Rattle.graph_rules.specs.Layout.{no_state, most_states, most_leaves, most_matches, table_row, leaf_place, row_place, match_place};
ghost use Rattle.legal.specs.Conditions.{Sized, states, leaves, records};

use refusals::Refusal;
use words::table::{HEAD, LEAVES, MATCHES, size};
use words::{NONE, STATES, STEPS, table, word};

// Condition 2.
#[tactic(auto, unfolding(graph_rules::specs::Table::counts_fit))]
fn counts_fit(n: usize, m: usize, r: usize) -> bool
    ensures { result ≡ counts_fit n m r }
{
    1 <= n && n <= STATES && m <= LEAVES && r <= MATCHES
}

// Words that are as many as their counts say: conditions 1 to 3. (Table has the same readers of words: a Counted within it would make every contract above
// say `table.counted.words`, which is no plainer.)
#[derive(Clone, Copy)]
pub struct Counted<'a> {
    pub words: &'a [u16],
    pub ghost sized: { Sized words.now },
}

impl<'a> Counted<'a> {
    pub fn new(words: &'a [u16]) -> Result<Counted<'a>, Refusal>
        ensures { MatchResult result (λ counted. counted.words.now ≡ words.now) (λ r. (r ≡ numbered (refusal words.now)) × (refusal words.now ≢ 0)) }
    {
        if words.len() < 4 {
            return Err(Refusal::TableHeader);
        }
        let n = word(words, 0);
        let m = word(words, 2);
        let r = word(words, 3);
        if !counts_fit(n, m, r) {
            return Err(Refusal::TableCounts);
        }
        if words.len() != size(n, m, r) {
            return Err(Refusal::TableLength);
        }
        Ok(Counted { words })
    }

    // ---- what the words say

    // n, the number of states.
    #[inline]
    pub fn states(self) -> usize
        ensures { (result ≡ states self.entry.words.now) × (1 ≤ result) × (result ≤ most_states) }
    {
        word(self.words, 0)
    }

    // The start state, or NONE. (The word: it is judged here.)
    #[inline]
    pub fn start(self) -> usize
        ensures { result ≡ get_or self.entry.words.now 1 0 }
    {
        word(self.words, 1)
    }

    // m, the number of leaves.
    #[inline]
    pub fn leaves(self) -> usize
        ensures { (result ≡ leaves self.entry.words.now) × (result ≤ most_leaves) }
    {
        word(self.words, 2)
    }

    // r, the number of match records.
    #[inline]
    pub fn records(self) -> usize
        ensures { (result ≡ records self.entry.words.now) × (result ≤ most_matches) }
    {
        word(self.words, 3)
    }

    // Word c of leaf l: priority low half, high half, empty flag.
    #[inline]
    pub fn leaf_word(self, l: usize, c: usize) -> usize
        requires l_bound { l < leaves self.words.now }
        requires c_bound { c < 3 }
        ensures { (result ≡ get_or self.entry.words.now (leaf_place l c) 0) × (result < 65536) }
    {
        table::leaf_word(self.words, l, c)
    }

    // Word c of state s: a step's target, or the head of the chain.
    #[inline]
    pub fn row_word(self, s: usize, c: usize) -> usize
        requires s_bound { s < states self.words.now }
        requires c_bound { c < table_row }
        ensures { result ≡ get_or self.entry.words.now (row_place (leaves self.entry.words.now) s c) 0 }
    {
        table::row_word(self.words, self.leaves(), s, c)
    }

    // Word c, 0 or 1, of match record i, from 1. (A number, and no `Record`: those are of a table whose words have been judged, which are judged here.)
    #[inline]
    pub fn match_word(self, i: usize, c: usize) -> usize
        requires i_nonzero { 0 < i }
        requires i_bound { i ≤ records self.words.now }
        requires c_bound { c < 2 }
        ensures { result ≡ get_or self.entry.words.now (match_place (leaves self.entry.words.now) (states self.entry.words.now) i c) 0 }
    {
        table::match_word(self.words, self.leaves(), self.states(), i, c)
    }

    // ---- conditions 4 to 7

    // Condition 4.
    pub fn start_fits(self) -> bool
        ensures { result ≡ (ltb (get_or self.entry.words.now 1 0) (get_or self.entry.words.now 0 0) || eqb (get_or self.entry.words.now 1 0) no_state) }
    {
        let s = self.start();
        s < self.states() || s == NONE
    }

    // Condition 5.
    pub fn empties_fit(self) -> bool
        ensures { result ≡ empties_fit self.entry.words.now }
    {
        (0..self.leaves()).all(|l| self.leaf_word(l, 2) <= 1)
    }

    // Condition 6. (Two loops: by them the check of the table of examples/json.image takes 44,335 instructions; with `all` for both it took 53,613, for the
    // outer one 95,456.)
    pub fn targets_fit(self) -> bool
        ensures { result ≡ targets_fit self.entry.words.now }
    {
        let n = self.states();
        for s in 0..n {
            for c in 0..STEPS {
                if n <= self.row_word(s, c) {
                    return false;
                }
            }
        }
        true
    }

    // Condition 7, the heads.
    pub fn heads_fit(self) -> bool
        ensures { result ≡ heads_fit self.entry.words.now }
    {
        (0..self.states()).all(|s| self.row_word(s, HEAD) <= self.records())
    }

    // Condition 7, the records.
    pub fn records_fit(self) -> bool
        ensures { result ≡ records_fit self.entry.words.now }
    {
        (0..self.records()).all(|k| self.record_fits(k + 1))
    }

    // Whether record i keeps condition 7. A next that is below it is a record's number too, or 0, the word that ends a chain.
    fn record_fits(self, i: usize) -> bool
        requires i_nonzero { 0 < i }
        requires i_bound { i ≤ records self.words.now }
        ensures { result ≡ match_fits (table_of self.entry.words.now) i }
    {
        let leaf = self.match_word(i, 0);
        let next = self.match_word(i, 1);
        if self.leaves() <= leaf || i <= next {
            return false;
        }
        next == 0 || leaf < self.match_word(next, 0)
    }
}
