// Where the words of a plan stand and what they say (docs/RULES.md, "Plan"): the self edge's, then those of its edges in target order. All other code
// reads and writes them through here.
ghost use Rattle.std.specs.Prelude.{◌≡◌, ◌<◌, ◌≤◌, ◌+◌, ◌^◌, eqb, length, get_or, take, drop};
ghost use Rattle.std.proofs.lemmas.List.Edits.{sets};
ghost use Rattle.lists.specs.Lists.{eq_list};
ghost use Rattle.plan_rules.specs.Plan.{base, row_size, own_place, edge_place, own_said, own_code, edge_said, edge_code};

use plan_rules::EdgeWord;

// The words of a state.
pub const ROW: usize = 3;

// The edge words of a state that is run by a table.
pub(crate) const TABLE: u16 = 65535;

// The mask of the self edge of state s, if it has one.
pub fn own(plan: &[u16], s: usize) -> Option<usize>
    requires { own_place base s < length plan.now }
    ensures { result ≡ own_said (get_or plan.now (own_place base s) 0) }
{
    match plan[ROW * s] {
        0 => None,
        w => Some(w as usize - 1),
    }
}

// Its word. (No From, here and below: the types are of other crates.)
pub(crate) fn own_code(mask: Option<usize>) -> u16
    requires { own_code mask < 2 ^ 16 }
    ensures { result ≡ own_code mask }
{
    match mask {
        None => 0,
        Some(i) => (1 + i) as u16,
    }
}

// What the word of its edge j says, in target order. An edge stays a number with its bound, since its place is counted by it, as it is where a run's
// edges are kept.
pub fn edge(plan: &[u16], s: usize, j: usize) -> EdgeWord
    requires { edge_place base s j < length plan.now }
    ensures { result ≡ edge_said (get_or plan.now (edge_place base s j) 0) }
{
    match plan[ROW * s + (1 + j)] {
        TABLE => EdgeWord::Table,
        0 => EdgeWord::Nothing,
        1 => EdgeWord::Tests,
        w => EdgeWord::Mask(w as usize - 2),
    }
}

// That word.
pub(crate) fn edge_code(word: EdgeWord) -> u16
    requires { edge_code word < 2 ^ 16 }
    ensures { result ≡ edge_code word }
{
    match word {
        EdgeWord::Nothing => 0,
        EdgeWord::Tests => 1,
        EdgeWord::Mask(i) => (2 + i) as u16,
        EdgeWord::Table => TABLE,
    }
}

// The words of state s become these.
pub(crate) fn set_row(plan: &mut [u16], s: usize, row: [u16; ROW])
    requires { own_place base s + row_size base ≤ length plan.old }
    ensures { plan.new ≡ sets plan.old (own_place base s) row }
{
    plan[ROW * s..ROW * s + ROW].copy_from_slice(&row);
}

// Whether these are the words of state s.
pub(crate) fn has_row(plan: &[u16], s: usize, row: [u16; ROW]) -> bool
    requires { own_place base s + row_size base ≤ length plan.now }
    ensures { result ≡ eq_list eqb (take (row_size base) (drop (own_place base s) plan.now)) row }
{
    plan[ROW * s..ROW * s + ROW] == row[..]
}
