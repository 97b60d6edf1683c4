// How a byte leads on from a state (docs/RULES.md, "Planned run"): by the row's targets if the plan says table, else along the edge whose mask has
// the byte or whose comparisons hold.
ghost use Rattle.std.specs.Prelude.{◌≡◌, [], ◌<◌, get_or, IfSome, slice_get, MatchOption, false};
ghost use Rattle.graph_rules.specs.Graph.{graph_from, state_of};
ghost use Rattle.plan_rules.specs.Plan.{base, edge_place, table_word};
ghost use Rattle.plan_rules.specs.Run.{edge_takes, led_by, rows_of};
ghost use Rattle.runner.specs.Prepared.{targets_of, led_along};

use crate::comparisons::edge_holds;
use crate::planned::Planned;
use crate::prepare::edge_place;
use mask_store::tables::mask_has;
use plan_rows::layout;
use plan_rules::EdgeWord;

impl Planned<'_> {
    // Whether the test that the plan names for edge j of state s takes the byte; of no edge it names none. (A row's words are a table's both or neither,
    // and `step` looks at the first. A type of rows without a table would be made of the same words again at each byte.)
    #[inline(always)]
    fn takes(&self, s: usize, j: usize, byte: u8) -> bool
        requires s_bound { s < get_or self.now.graph.words.now 0 0 }
        requires j_lt_edges { j < base.edges }
        requires plain { get_or self.now.plan.now (edge_place base s 0) 0 ≡ table_word → ⊥ }
        ensures { MatchOption (slice_get (targets_of (graph_from self.now.graph.words.now) s) j) (result ≡ false) (λ u. result ≡ edge_takes self.now.tables.now (state_of (graph_from self.now.graph.words.now) s) u (get_or self.now.plan.now (edge_place base s j) 0) byte) }
    {
        match layout::edge(self.plan, s, j) {
            EdgeWord::Nothing => false,
            EdgeWord::Tests => edge_holds(&self.edges[edge_place(s, j)], byte),
            EdgeWord::Mask(i) => mask_has(self.tables, i, byte),
            EdgeWord::Table => unreachable!(),
        }
    }

    // Where edge j of state s leads the byte, if its test takes it.
    #[inline(always)]
    fn along(&self, s: usize, j: usize, byte: u8) -> Option<usize>
        requires s_bound { s < get_or self.now.graph.words.now 0 0 }
        requires j_lt_edges { j < base.edges }
        requires plain { get_or self.now.plan.now (edge_place base s 0) 0 ≡ table_word → ⊥ }
        ensures { result ≡ led_along self.now.tables.now (state_of (graph_from self.now.graph.words.now) s) (slice_get (targets_of (graph_from self.now.graph.words.now) s) j) (get_or self.now.plan.now (edge_place base s j) 0) byte }
    {
        if self.takes(s, j, byte) {
            Some(self.edges[edge_place(s, j)].target as usize)
        } else {
            None
        }
    }

    // The state that the byte leads to from state s, if any. (No `or_else`: what stands for the second edge would be a closure with a contract of its own.)
    pub(crate) fn step(&self, s: usize, byte: u8) -> Option<usize>
        requires { s < get_or self.now.graph.words.now 0 0 }
        ensures led { result ≡ led_by (graph_from self.now.graph.words.now) (get_or (rows_of base (graph_from self.now.graph.words.now) self.now.plan.now) s []) self.now.tables.now s byte }
        ensures state { IfSome result (λ u. u < get_or self.now.graph.words.now 0 0) }
    {
        match layout::edge(self.plan, s, 0) {
            EdgeWord::Table => self.graph.target(s, byte as usize),
            _ => match self.along(s, 0, byte) {
                Some(u) => Some(u),
                None => self.along(s, 1, byte),
            },
        }
    }
}
