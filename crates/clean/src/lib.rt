// Whether a table is clean (docs/RULES.md, "Clean"), and which rule it breaks first, at which state. What the call answers is defined in
// specs/Answers.antt, over graph_rules/specs/Clean.antt. Each state's leaf is worked out once, so that the time is in proportion to the table's words
// and to its states' chains.
#![tactic(auto)]

ghost use Rattle.std.specs.Prelude.{◌≡◌, [], ◌<◌, get_or, Some};
ghost use Rattle.graph_rules.specs.Table.{table_of};
ghost use Rattle.graph_rules.specs.Build.{empty_leaves};
ghost use Rattle.graph_rules.specs.Clean.{breach, tied, zero_dead, bytes_leaf, endless};
ghost use Rattle.clean.specs.Answers.{clean_of};
ghost use Rattle.clean.specs.Held.{LeavesOf, lowest_in};

use graph_rules::Breach;
use legal::Table;
use refusals::Refusal;
use words::{END, NONE, STATES, STEPS};

// Each state's leaf; none if it has none.
fn leaves_of(table: Table<'_>) -> [Option<u8>; STATES]
    ensures { LeavesOf table.entry.words.now result }
{
    let mut out: [Option<u8>; STATES] = [None; STATES];
    for s in 0..table.states() {
        out[s] = leaves::leaf_of(table, s).map(|l| l as u8);
    }
    out
}

// Whether state 0 has an empty chain and all its steps lead to 0.
fn zero_dead(table: Table<'_>) -> bool
    ensures { result ≡ zero_dead (table_of table.entry.words.now) }
{
    (0..STEPS).all(|c| table.step(0, c) == 0) && table.head(0).is_none()
}

// A table with each state's leaf. (By reference: the leaves stand once on the stack.)
#[derive(Clone, Copy)]
struct Leaved<'a> {
    table: Table<'a>,
    leaf: &'a [Option<u8>; STATES],
    ghost leaves: { LeavesOf table.words.now leaf.now },
}

impl<'a> Leaved<'a> {
    // Whether several leaves share the highest priority in state s's chain: it is not empty, and the state has no leaf.
    fn tied(self, s: usize) -> bool
        requires { s < get_or self.table.words.now 0 0 }
        ensures { result ≡ tied (table_of self.entry.table.words.now) s }
    {
        self.leaf[s].is_none() && self.table.head(s).is_some()
    }

    // The leaf of all states that the bytes lead to from state s; none if one has none or two differ.
    fn bytes_leaf(self, s: usize) -> Option<u8>
        requires { s < get_or self.table.words.now 0 0 }
        ensures { result ≡ bytes_leaf (table_of self.entry.table.words.now) s }
    {
        let first = self.leaf[self.table.step(s, 0)];
        if !(1..END).all(|b| self.leaf[self.table.step(s, b)] == first) {
            return None;
        }
        first
    }

    // Whether the bytes of state s all lead to one leaf, and no end step to a state other than 0.
    fn endless(self, s: usize) -> bool
        requires { s < get_or self.table.words.now 0 0 }
        ensures { result ≡ endless (table_of self.entry.table.words.now) s }
    {
        if self.table.step(s, END) != 0 {
            return false;
        }
        self.bytes_leaf(s).is_some()
    }

    // The lowest state of a set where several leaves tie.
    fn lowest_tied(self, set: &[bool; STATES]) -> Option<usize>
        ensures { result ≡ lowest_in self.entry.table.words.now set.now (tied (table_of self.entry.table.words.now)) }
    {
        (0..self.table.states()).find(|s| set[*s] && self.tied(*s))
    }

    // The lowest state of a set that is endless.
    fn lowest_endless(self, set: &[bool; STATES]) -> Option<usize>
        ensures { result ≡ lowest_in self.entry.table.words.now set.now (endless (table_of self.entry.table.words.now)) }
    {
        (0..self.table.states()).find(|s| set[*s] && self.endless(*s))
    }
}

// The first rule, 1 to 3, that a table breaks with a start and no leaf that can match empty text, and the lowest state where; none: it is clean.
fn judged(table: Table<'_>, start: usize) -> Option<Breach>
    requires start { (table_of table.words.now).start ≡ Some start }
    requires none_empty { empty_leaves (table_of table.words.now) ≡ [] }
    ensures { result ≡ breach (table_of table.entry.words.now) }
{
    let set = reach::reached(table, start);
    let leaf = leaves_of(table);
    let leaved = Leaved { table, leaf: &leaf };
    if let Some(tie) = leaved.lowest_tied(&set) {
        return Some(Breach {
            rule: 1,
            state: tie,
        });
    }
    if !zero_dead(table) {
        return Some(Breach { rule: 2, state: 0 });
    }
    let end = leaved.lowest_endless(&set)?;
    Some(Breach {
        rule: 3,
        state: end,
    })
}

// The first rule, 1 to 3, that a table breaks, and the lowest state where, NONE if the breach belongs to no state; none: it is clean. Refused: 1 to 7.
pub fn clean(table: &[u16]) -> Result<Option<Breach>, Refusal>
    ensures { result ≡ clean_of table.now }
{
    let table = Table::new(table)?;
    match table.start() {
        Some(s) if conflicts::count_empty(table) == 0 => Ok(judged(table, s)),
        _ => Ok(Some(Breach {
            rule: 1,
            state: NONE,
        })),
    }
}
