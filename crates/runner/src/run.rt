// The run of a text by a plan.
ghost use Rattle.std.specs.Prelude.{◌≡◌, None};
ghost use Rattle.graph_rules.specs.Graph.{graph_from};
ghost use Rattle.plan_rules.specs.Plan.{base};
ghost use Rattle.plan_rules.specs.Run.{run_from, rows_of};

use crate::planned::Planned;
use readings::walk::{Last, Walker, ended};

impl Planned<'_> {
    // The last record of the run.
    pub fn run(&self, text: &[u8]) -> Last
        ensures { result ≡ run_from (graph_from self.now.graph.words.now) (rows_of base (graph_from self.now.graph.words.now) self.now.plan.now) self.now.tables.now (graph_from self.now.graph.words.now).root 0 None text.now }
    {
        if self.graph.states() == 0 {
            return Last::none();
        }
        let mut last = Last::none();
        let mut s = self.graph.root();
        let mut k: usize = 0;
        // no `for` over the text and no Walker: a turn passes as many bytes as the self run does, and reads the marks where it ends
        loop {
            let j = self.passed(s, text, k);
            last.record(self.graph.entered(s, j));
            if j == text.len() {
                return ended(&self.graph, s, j, last);
            }
            let Some(t) = self.step(s, text[j]) else {
                return last;
            };
            s = t;
            k = j + 1;
        }
    }
}
