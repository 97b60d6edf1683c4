// Rule 3: the leaf of a state, or the tie that stands in its place.
#![tactic(auto)]

ghost use Rattle.std.specs.Prelude.{◌≡◌, ◌<◌, ◌≤◌, get_or, IfSome};
ghost use Rattle.graph_rules.specs.Table.{table_of};
ghost use Rattle.graph_rules.specs.Build.{leaf_of};
ghost use Rattle.legal.specs.Records.{number_of};
ghost use Rattle.leaves.specs.Chains.{priority_at, highest_from, first_with, top_of, next_tied};

use legal::{Record, Table};

// The priority of a record's leaf, from its two halves.
fn priority(i: Record<'_>) -> usize
    ensures { result ≡ priority_at (table_of i.entry.table.words.now) i.entry.number }
{
    let leaf = i.leaf();
    i.table.leaf_word(leaf, 0) + 65536 * i.table.leaf_word(leaf, 1)
}

// The highest priority in the chain from this record on. A while, here and below: the next record is known only from this one, and no index is counted.
fn highest(from: Record<'_>) -> usize
    ensures { result ≡ highest_from (table_of from.entry.table.words.now) from.entry.number }
{
    let mut top = 0;
    let mut at = Some(from);
    while let Some(i) = at {
        top = top.max(priority(i));
        at = i.next();
    }
    top
}

// The first record whose leaf has priority p in the chain from this record on.
fn first_with<'a>(p: usize, from: Record<'a>) -> Option<Record<'a>>
    ensures number { number_of result ≡ first_with (table_of from.entry.table.words.now) p from.entry.number }
    ensures table { IfSome result (λ r. r.table ≡ from.entry.table) }
    ensures lower { IfSome result (λ r. r.number ≤ from.entry.number) }
{
    let mut at = Some(from);
    while let Some(i) = at {
        if priority(i) == p {
            return at;
        }
        at = i.next();
    }
    None
}

// The first record of state s's chain whose leaf has the highest priority in it; none: the chain is empty.
pub fn top<'a>(table: Table<'a>, s: usize) -> Option<Record<'a>>
    requires { s < get_or table.words.now 0 0 }
    ensures number { number_of result ≡ top_of (table_of table.entry.words.now) s }
    ensures table { IfSome result (λ r. r.table ≡ table.entry) }
{
    let head = table.head(s)?;
    first_with(highest(head), head)
}

// The next record after record i whose leaf has the same priority.
pub fn next_tied<'a>(i: Record<'a>) -> Option<Record<'a>>
    ensures number { number_of result ≡ next_tied (table_of i.entry.table.words.now) i.entry.number }
    ensures table { IfSome result (λ r. r.table ≡ i.entry.table) }
    ensures lower { IfSome result (λ r. r.number < i.entry.number) }
{
    first_with(priority(i), i.next()?)
}

// State s's leaf; none if its chain is empty, or if several share the highest priority.
pub fn leaf_of(table: Table<'_>, s: usize) -> Option<usize>
    requires { s < get_or table.words.now 0 0 }
    ensures value { result ≡ leaf_of (table_of table.entry.words.now) s }
    ensures leaf { IfSome result (λ l. l < get_or table.entry.words.now 2 0) }
{
    let i = top(table, s)?;
    match next_tied(i) {
        Some(_) => None,
        None => Some(i.leaf()),
    }
}
