// The self run (docs/RULES.md, "Planned run").
ghost use Rattle.std.specs.Prelude.{◌≡◌, true, false, ℕ, ◌<◌, ◌≤◌, ◌+◌, ◌*◌, length, get_or};
ghost use Rattle.mask_store.specs.Masks.{mask_has};
ghost use Rattle.plan_rules.specs.Plan.{base, own_place};
ghost use Rattle.plan_rules.specs.Run.{self_takes};

use crate::planned::Planned;
use mask_store::{SIZE, TABLE_MASKS, TABLE_SIZE};

// The first place from `from` on whose byte mask i does not have, or the text's length. The table and the bit are found once: a byte costs one
// look at the text, one at the table and one test.
fn self_run(tables: &[u8; SIZE], i: usize, text: &[u8], from: usize) -> usize
    requires { (i < 64) × (from ≤ length text.now) }
    ensures lower_bound { (from ≤ result) × (result ≤ length text.now) }
    ensures passes { (j : ℕ) → j < result → from ≤ j → mask_has tables.now i (get_or text.now j 0) ≡ true }
    ensures stops { result < length text.now → mask_has tables.now i (get_or text.now result 0) ≡ false }
{
    let base = TABLE_SIZE * (i / TABLE_MASKS);
    let bit = i % TABLE_MASKS;
    (from..text.len())
        .find(|k| !bits::test_bit(tables[base + text[*k] as usize], bit))
        .unwrap_or(text.len())
}

impl Planned<'_> {
    // Where the run of state s stands after its self run: at its first other byte, or where it was if the plan names no self mask.
    pub(crate) fn passed(&self, s: usize, text: &[u8], from: usize) -> usize
        requires s_bound { s < get_or self.now.graph.words.now 0 0 }
        requires within { from ≤ length text.now }
        ensures lower_bound { (from ≤ result) × (result ≤ length text.now) }
        ensures passes { (j : ℕ) → j < result → from ≤ j → self_takes self.now.tables.now (get_or self.now.plan.now (own_place base s) 0) (get_or text.now j 0) ≡ true }
        ensures stops { result < length text.now → self_takes self.now.tables.now (get_or self.now.plan.now (own_place base s) 0) (get_or text.now result 0) ≡ false }
    {
        match plan_rows::layout::own(self.plan, s) {
            Some(i) => self_run(self.tables, i, text, from),
            None => from,
        }
    }
}
