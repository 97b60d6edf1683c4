// Refusals 1 to 7: a table's words are judged once; whoever holds a `Table` knows that none of them holds, and reads by it without a check. So it is with
// a `Record` of its match records.
#![tactic(auto)]

ghost use Rattle.std.specs.Prelude.{◌≡◌, ◌≢◌, ℕ, ◌<◌, ◌≤◌, eqb, length, get_or, IfSome, MatchResult};
ghost use Rattle.refusals.specs.Refusals.{numbered};
ghost use Rattle.graph_rules.specs.Table.{refusal, table_of, row_of, step, leaf_at, match_of};
ghost use Rattle.graph_rules.specs.Graph.{or_none};
ghost use Rattle.graph_rules.specs.Layout.{step_count, most_states, most_leaves, most_matches, leaf_place, match_place};

use crate::conditions::Counted;
use refusals::Refusal;
use words::table::{HEAD, leaf_word, match_word, row_place, row_word};
use words::{NONE, STEPS, or_none, word};

mod conditions;

// A table by its words. A state, as a step, stays a number with its bound, which a loop over all of them has by itself.
#[derive(Clone, Copy)]
pub struct Table<'a> {
    pub words: &'a [u16],
    pub ghost legal: { refusal words.now ≡ 0 },
}

impl<'a> Table<'a> {
    ghost use Rattle.legal.specs.Records.{number_of};

    // The table that these words are; refused by the lowest number whose condition they break.
    pub fn new(words: &'a [u16]) -> Result<Table<'a>, Refusal>
        ensures { MatchResult result (λ table. (table.words.now ≡ words.now) × (refusal words.now ≡ 0)) (λ r. (r ≡ numbered (refusal words.now)) × (refusal words.now ≢ 0)) }
    {
        let counted = Counted::new(words)?;
        if !counted.start_fits() {
            return Err(Refusal::TableStart);
        }
        if !counted.empties_fit() {
            return Err(Refusal::TableEmptyFlag);
        }
        if !counted.targets_fit() {
            return Err(Refusal::TableTarget);
        }
        if !counted.heads_fit() || !counted.records_fit() {
            return Err(Refusal::TableMatches);
        }
        Ok(Table { words })
    }

    // n, the number of states.
    #[inline]
    pub fn states(self) -> usize
        ensures { (result ≡ get_or self.entry.words.now 0 0) × (1 ≤ result) × (result ≤ most_states) }
    {
        word(self.words, 0)
    }

    // The start state. (Its takers get it beside the table: a struct of both would be made at each call, and taken apart at once by `reached` and `rows`,
    // which ask only that it is a state.)
    #[inline]
    pub fn start(self) -> Option<usize>
        ensures value { result ≡ (table_of self.entry.words.now).start }
        ensures state { IfSome result (λ s. s < get_or self.entry.words.now 0 0) }
    {
        or_none(NONE, word(self.words, 1))
    }

    // m, the number of leaves.
    #[inline]
    pub fn leaves(self) -> usize
        ensures { (result ≡ get_or self.entry.words.now 2 0) × (result ≤ most_leaves) }
    {
        word(self.words, 2)
    }

    // r, the number of match records.
    #[inline]
    pub fn records(self) -> usize
        ensures { (result ≡ get_or self.entry.words.now 3 0) × (result ≤ most_matches) }
    {
        word(self.words, 3)
    }

    // The target of state s by byte c, or by the end step.
    #[inline]
    pub fn step(self, s: usize, c: usize) -> usize
        requires s_bound { s < get_or self.words.now 0 0 }
        requires c_lt_step_count { c < step_count }
        ensures { (result ≡ step (table_of self.entry.words.now) s c) × (result < get_or self.entry.words.now 0 0) }
    {
        row_word(self.words, self.leaves(), s, c)
    }

    // The targets of state s, by each byte and by the end step.
    #[inline]
    pub fn steps(self, s: usize) -> &'a [u16]
        requires { s < get_or self.words.now 0 0 }
        ensures targets { result.now ≡ (row_of (table_of self.entry.words.now) s).steps }
        ensures count { length result.now ≡ step_count }
        ensures states { (c : ℕ) → get_or result.now c 0 < get_or self.entry.words.now 0 0 }
    {
        let at = row_place(self.leaves(), s, 0);
        &self.words[at..at + STEPS]
    }

    // The first record of state s's match chain; none: the chain is empty.
    #[inline]
    pub fn head(self, s: usize) -> Option<Record<'a>>
        requires { s < get_or self.words.now 0 0 }
        ensures number { number_of result ≡ or_none 0 (row_of (table_of self.entry.words.now) s).head }
        ensures table { IfSome result (λ r. r.table ≡ self.entry) }
    {
        self.named(row_word(self.words, self.leaves(), s, HEAD))
    }

    // Word c of leaf l: priority low half, high half, empty flag.
    #[inline]
    pub fn leaf_word(self, l: usize, c: usize) -> usize
        requires l_bound { l < get_or self.words.now 2 0 }
        requires c_bound { c < 3 }
        ensures { (result ≡ get_or self.entry.words.now (leaf_place l c) 0) × (result < 65536) }
    {
        leaf_word(self.words, l, c)
    }

    // Whether leaf l can match empty text.
    #[inline]
    pub fn can_be_empty(self, l: usize) -> bool
        requires { l < get_or self.words.now 2 0 }
        ensures { result ≡ eqb (leaf_at (table_of self.entry.words.now) l).empty 1 }
    {
        self.leaf_word(l, 2) == 1
    }

    // Match record i, from 1.
    #[inline]
    pub fn match_record(self, i: usize) -> Record<'a>
        requires i_nonzero { 0 < i }
        requires i_bound { i ≤ get_or self.words.now 3 0 }
        ensures { (result.table ≡ self.entry) × (result.number ≡ i) }
    {
        Record {
            table: self,
            number: i,
        }
    }

    // The match record that a word names; 0 names none.
    #[inline]
    fn named(self, word: usize) -> Option<Record<'a>>
        requires { word ≤ get_or self.words.now 3 0 }
        ensures number { number_of result ≡ or_none 0 word }
        ensures table { IfSome result (λ r. r.table ≡ self.entry) }
    {
        if word == 0 {
            None
        } else {
            Some(self.match_record(word))
        }
    }
}

// A match record of a table. Records are numbered from 1.
#[derive(Clone, Copy)]
pub struct Record<'a> {
    pub table: Table<'a>,
    pub number: usize,
    pub ghost some: { 0 < number },
    pub ghost there: { number ≤ get_or table.words.now 3 0 },
}

impl<'a> Record<'a> {
    ghost use Rattle.legal.specs.Records.{number_of};

    #[inline]
    pub fn leaf(self) -> usize
        ensures { (result ≡ (match_of (table_of self.entry.table.words.now) self.entry.number).leaf) × (result < get_or self.entry.table.words.now 2 0) }
    {
        self.word(0)
    }

    // The next of its chain; none: it is the last.
    #[inline]
    pub fn next(self) -> Option<Record<'a>>
        ensures number { number_of result ≡ or_none 0 (match_of (table_of self.entry.table.words.now) self.entry.number).next }
        ensures table { IfSome result (λ r. r.table ≡ self.entry.table) }
        ensures lower { IfSome result (λ r. r.number < self.entry.number) }
    {
        self.table.named(self.word(1))
    }

    // Its word c: 0 for the leaf, 1 for the next.
    #[inline]
    fn word(self, c: usize) -> usize
        requires { c < 2 }
        ensures { result ≡ get_or self.entry.table.words.now (match_place (get_or self.entry.table.words.now 2 0) (get_or self.entry.table.words.now 0 0) self.entry.number c) 0 }
    {
        match_word(
            self.table.words,
            self.table.leaves(),
            self.table.states(),
            self.number,
            c,
        )
    }
}
