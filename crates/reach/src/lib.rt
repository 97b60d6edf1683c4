// Rule 2: the states reached from the start, by a worklist: each is looked at once, after it is first met.
#![tactic(auto)]

ghost use Rattle.std.specs.Prelude.{◌≡◌, false, ◌++◌, ◌<◌, ◌-◌, get_or, replicate};
ghost use Rattle.graph_rules.specs.Build.{reached};
ghost use Rattle.graph_rules.specs.Table.{table_of};
ghost use Rattle.graph_rules.specs.Layout.{most_states};

use legal::Table;
use words::{STATES, STEPS};
use worklist::Worklist;

// The set of the states that byte and end steps reach from `start`; through state 0 too, if it is reached.
pub fn reached(table: Table<'_>, start: usize) -> [bool; STATES]
    requires { start < get_or table.words.now 0 0 }
    ensures { result ≡ reached (table_of table.entry.words.now) start ++ replicate (most_states - get_or table.entry.words.now 0 0) false }
{
    let mut work: Worklist<STATES> = Worklist::new();
    work.push(start);
    while let Some(s) = work.pop() {
        for c in 0..STEPS {
            work.push(table.step(s, c));
        }
    }
    work.seen()
}
