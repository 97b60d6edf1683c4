// The conflict list: NoUniversalStart and EmptyMatch of rule 1, Disambiguation of rule 3. How many conflicts there are, how many words they take, and
// the words. A tie is known by the match record where it begins, and walked by `next_tied`.
#![tactic(auto)]

ghost use Rattle.std.specs.Prelude.{◌≡◌, ◌+◌, ◌<◌, ◌≤◌, length, get_or, take, IfSome};
ghost use mathlib.Core.List.{[], ◌∷◌, flat_map, map};
ghost use Rattle.std.proofs.lemmas.List.Edits.{sets};
ghost use Rattle.lists.specs.Lists.{before};
ghost use Rattle.graph_rules.specs.Table.{table_of};
ghost use Rattle.graph_rules.specs.Build.{no_universal_start, empty_match, disambiguation, error_words, empty_leaves};
ghost use Rattle.legal.specs.Records.{number_of};
ghost use Rattle.leaves.specs.Chains.{tie_from};
ghost use Rattle.conflicts.specs.Slots.{tie_of, tied_at, slot, put_in, Held, InOrder};
ghost use Rattle.conflicts.specs.Listed.{ties_in, listed};
ghost use Rattle.graph_rules.specs.Layout.{most_states, most_leaves};

use leaves::{next_tied, top};
use legal::{Record, Table};
use words::STATES;

// The kinds of conflicts, by their first words.
enum Kind {
    NoUniversalStart = 0,
    EmptyMatch = 1,
    Disambiguation = 2,
}

// The record where the tie of state s begins; none: it has no tie, or is not in the set.
fn tied<'a>(table: Table<'a>, set: &[bool; STATES], s: usize) -> Option<Record<'a>>
    requires { s < get_or table.words.now 0 0 }
    ensures number { number_of result ≡ tied_at (table_of table.entry.words.now) set.now s }
    ensures table { IfSome result (λ r. r.table ≡ table.entry) }
{
    if !set[s] {
        return None;
    }
    let i = top(table, s)?;
    next_tied(i)?;
    Some(i)
}

// How many leaves the tie from record i has. (A tie is walked by its links, here and below.)
fn tie_length(i: Record<'_>) -> usize
    ensures { (result ≡ length (tie_of i.entry)) × (result ≤ most_leaves) }
{
    let mut number = 0;
    let mut at = Some(i);
    while let Some(j) = at {
        number += 1;
        at = next_tied(j);
    }
    number
}

// A number of conflicts, and of the words that tell them.
#[derive(Clone, Copy)]
pub struct TieWords {
    pub errors: usize,
    pub words: usize,
}

// Rule 3: how many states of a set are tied, and the words of their conflicts. The set is of the table's n states; flags from n on mean nothing.
pub fn tie_words(table: Table<'_>, set: &[bool; STATES]) -> TieWords
    ensures errors_value { result.errors ≡ length (ties_in table.entry.words.now set.now) }
    ensures words_value { result.words ≡ length (flat_map error_words (ties_in table.entry.words.now set.now)) }
{
    let mut errors = 0;
    let mut words = 0;
    for s in (0..table.states()).rev() {
        if let Some(i) = tied(table, set, s) {
            errors += 1;
            words += 2 + tie_length(i);
        }
    }
    TieWords { errors, words }
}

// Whether the tie from record a comes before the one from record b, or is the same: by the first leaf that differs, a shorter prefix first. (A loop, and
// no `while let` as above: so each turn has both records, and the counts of their table are read once, not for each leaf. The build of 126 states that
// tie with 255 leaves takes 14.3 million instructions; by `while let` over two options it took 18.3.)
fn tie_before(a: Record<'_>, b: Record<'_>) -> bool
    ensures { result ≡ before (tie_of a.entry) (tie_of b.entry) }
{
    let mut i = a;
    let mut j = b;
    loop {
        let x = i.leaf();
        let y = j.leaf();
        if x != y {
            return x < y;
        }
        let Some(one) = next_tied(i) else {
            return true;
        };
        let Some(other) = next_tied(j) else {
            return false;
        };
        i = one;
        j = other;
    }
}

// Where the tie from record i belongs among those from these records, which stand in order: before the first that it comes before. By halving, so
// that a tie is compared with ten others at most. (By hand: `partition_point` calls its closure on any number, and a record is made only of one that the
// table has.)
fn slot_of(order: &[u16], i: Record<'_>) -> usize
    requires in_order { InOrder (table_of i.table.words.now) (get_or i.table.words.now 3 0) order.now (length order.now) }
    ensures { (result ≡ slot (tie_of i.entry) (map (tie_from (table_of i.entry.table.words.now)) order.now)) × (result ≤ length order.now) }
{
    let mut low = 0;
    let mut high = order.len();
    while low < high {
        let middle = low + (high - low) / 2;
        if tie_before(i, i.table.match_record(order[middle] as usize)) {
            high = middle;
        } else {
            low = middle + 1;
        }
    }
    low
}

// v at place p, and the elements from p up to `count` one place on.
fn put_in(order: &mut [u16; STATES], count: usize, p: usize, v: u16)
    requires count_lt_most_states { count < most_states }
    requires p_le_count { p ≤ count }
    ensures { order.new ≡ put_in order.old count p v }
{
    order.copy_within(p..count, p + 1);
    order[p] = v;
}

// The numbers of the records where ties begin, the first `count` of them. (An array and a count: the repository has no heap. Numbers: records, each with
// its table, would take twelve times the stack.)
#[derive(Clone, Copy)]
struct TieOrder {
    order: [u16; STATES],
    count: usize,
}

// A set's ties in the order of the conflict list: from the last state down, each is put in at its place. Equal ones are kept. (The
// definition sorts by insertion; the library's sort tells of some sorted order.)
fn tie_order(table: Table<'_>, set: &[bool; STATES]) -> TieOrder
    ensures order_value { map disambiguation (map (tie_from (table_of table.entry.words.now)) (take result.count result.order)) ≡ ties_in table.entry.words.now set.now }
    ensures held { Held (get_or table.entry.words.now 3 0) result.order result.count }
{
    let mut order = [0; STATES];
    let mut count = 0;
    for s in (0..table.states()).rev() {
        if let Some(i) = tied(table, set, s) {
            let p = slot_of(&order[..count], i);
            put_in(&mut order, count, p, i.number as u16);
            count += 1;
        }
    }
    TieOrder { order, count }
}

// Writes the conflict of the tie from record i at place `at`; answers the place after it.
fn write_tie(i: Record<'_>, errors: &mut [u16], at: usize) -> usize
    requires i_in_bounds { at + length (error_words (disambiguation (tie_of i))) ≤ length errors.old }
    ensures value { result ≡ at + length (error_words (disambiguation (tie_of i.entry))) }
    ensures errors_after { errors.new ≡ sets errors.old at (error_words (disambiguation (tie_of i.entry))) }
{
    errors[at] = Kind::Disambiguation as u16;
    errors[at + 1] = tie_length(i) as u16;
    let mut k = at + 2;
    let mut tie = Some(i);
    while let Some(j) = tie {
        errors[k] = j.leaf() as u16;
        k += 1;
        tie = next_tied(j);
    }
    k
}

// Rule 3: writes the conflicts of a set's ties.
pub fn write_ties(table: Table<'_>, set: &[bool; STATES], errors: &mut [u16])
    requires { length (flat_map error_words (ties_in table.words.now set.now)) ≤ length errors.old }
    ensures { errors.new ≡ listed (ties_in table.entry.words.now set.now) errors.old }
{
    let sorted = tie_order(table, set);
    let mut at = 0;
    for i in &sorted.order[..sorted.count] {
        at = write_tie(table.match_record(*i as usize), errors, at);
    }
}

// Rule 1: how many leaves can match empty text.
pub fn count_empty(table: Table<'_>) -> usize
    ensures { result ≡ length (empty_leaves (table_of table.entry.words.now)) }
{
    (0..table.leaves())
        .filter(|l| table.can_be_empty(*l))
        .count()
}

// Rule 1, where a leaf can match empty text: writes a conflict for each such leaf.
pub fn write_empty(table: Table<'_>, errors: &mut [u16])
    requires { length (flat_map error_words (map empty_match (empty_leaves (table_of table.words.now)))) ≤ length errors.old }
    ensures { errors.new ≡ listed (map empty_match (empty_leaves (table_of table.entry.words.now))) errors.old }
{
    let mut at = 0;
    for l in 0..table.leaves() {
        if table.can_be_empty(l) {
            errors[at] = Kind::EmptyMatch as u16;
            errors[at + 1] = 1;
            errors[at + 2] = l as u16;
            at += 3;
        }
    }
}

// Rule 1, where there is no universal start: writes that conflict.
pub fn write_no_start(errors: &mut [u16])
    requires { 2 ≤ length errors.old }
    ensures { errors.new ≡ listed (no_universal_start ∷ []) errors.old }
{
    errors[0] = Kind::NoUniversalStart as u16;
    errors[1] = 0;
}
