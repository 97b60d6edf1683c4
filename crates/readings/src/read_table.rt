// The reading of a text by a table: match one byte late, end step, dead state.
ghost use Rattle.std.specs.Prelude.{◌≡◌, get_or};
ghost use Rattle.graph_rules.specs.Table.{table_of};
ghost use Rattle.graph_rules.specs.Read.{read_table, table_walker};
ghost use Rattle.readings.specs.Answers.{table_read};

use crate::read::{at_end, late};
use crate::walk::{Walker, walk};
use graph_rules::Found;
use leaves::leaf_of;
use legal::Table;
use refusals::Refusal;
use words::or_none;

// The state from which nothing is read.
const DEAD: usize = 0;

impl Walker for Table<'_> {
    ghost walker = { λ t. table_walker (table_of t.words.now) };

    ghost states = { λ t. get_or t.words.now 0 0 };

    fn next(&self, s: usize, c: usize) -> Option<usize> {
        or_none(DEAD, self.step(s, c))
    }

    fn entered(&self, s: usize, k: usize) -> Option<Found> {
        late(leaf_of(*self, s), k)
    }

    fn left(&self, s: usize, k: usize) -> Option<Found> {
        at_end(leaf_of(*self, s), k)
    }
}

// The reading of a text by a legal table: none from state 0.
pub fn read(table: Table<'_>, text: &[u8]) -> Option<Found>
    ensures { result ≡ read_table (table_of table.entry.words.now) text.now }
{
    let start = or_none(DEAD, table.start()?)?;
    walk(&table, start, text).reading()
}

// The reading of a text by a table, or 1 to 7.
pub fn read_table(table: &[u16], text: &[u8]) -> Result<Option<Found>, Refusal>
    ensures { result ≡ table_read table.now text.now }
{
    let table = Table::new(table)?;
    Ok(read(table, text))
}
