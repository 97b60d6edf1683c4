// The walk of a text (docs/RULES.md, "Reading by the table" and "Reading by the graph"): one step for each byte, then the end step; the last record
// is the reading. What steps and marks a walk takes is a type's: a table's or a graph's.
ghost use Rattle.std.specs.Prelude.{◌≡◌, ℕ, ◌<◌, None, IfSome};
ghost use Rattle.std.specs.Option.{option_or};
ghost use Rattle.graph_rules.specs.Layout.{step_count, no_leaf};
ghost use Rattle.graph_rules.specs.Read.{Reading, onward, walk};
ghost use Rattle.readings.specs.Answers.{recorded, leaf_word, end_word};

use graph_rules::Found;
use std::marker::Model;
use words::END;
use words::graph::NO_LEAF;

// The last record of a walk, if there is one. The walk is hot, and holds it in two words, leaf 255 for none: with an `Option<Found>` in its place a byte
// took a fifth more instructions. A walk hands it out as it is, in two registers: a reading made there went through memory, and a scan of short tokens
// took a third more.
#[derive(Clone, Copy)]
pub struct Last {
    leaf: usize,
    end: usize,
}

impl Model for Last {
    ghost Value = { Reading };

    ghost view = { λ r. recorded r.leaf r.end };

    // Without a leaf the end is 0, so that the reading gives both words back.
    ghost invariant = { λ r. r.leaf ≡ no_leaf → r.end ≡ 0 };

    ghost inverse = { λ d. record { leaf = leaf_word d; end = end_word d } };
}

impl Last {
    pub fn none() -> Last
        ensures { result ≡ None }
    {
        Last {
            leaf: NO_LEAF,
            end: 0,
        }
    }

    // Records this, if it is there.
    pub fn record(&mut self, found: Option<Found>)
        requires { IfSome found (λ f. f.leaf < no_leaf) }
        ensures { self.new ≡ option_or found self.old }
    {
        if let Some(found) = found {
            self.leaf = found.leaf;
            self.end = found.end;
        }
    }

    pub fn reading(self) -> Option<Found>
        ensures { result ≡ self }
    {
        if self.leaf == NO_LEAF {
            return None;
        }
        Some(Found {
            leaf: self.leaf,
            end: self.end,
        })
    }
}

// What walks a text.
pub trait Walker {
    ghost use Rattle.graph_rules.specs.Read.{Walker as Walk};

    // Its steps and marks.
    ghost walker: { Self → Walk };

    // It is in a state below this number.
    ghost states: { Self → ℕ };

    // Where a byte leads from state s, or the end step, if anywhere.
    fn next(&self, s: usize, c: usize) -> Option<usize>
        requires s_bound { s < states self.now }
        requires c_bound { c < step_count }
        ensures target { result ≡ (walker self.now).next s c }
        ensures below { IfSome result (λ u. u < states self.now) };

    // What state s records, entered by k byte steps.
    fn entered(&self, s: usize, k: usize) -> Option<Found>
        requires { s < states self.now }
        ensures value { (r : Reading) → (walker self.now).enter s k r ≡ option_or result r }
        ensures leaf { IfSome result (λ f. f.leaf < no_leaf) };

    // What state s records, entered by the end step after k byte steps.
    fn left(&self, s: usize, k: usize) -> Option<Found>
        requires { s < states self.now }
        ensures value { (r : Reading) → (walker self.now).leave s k r ≡ option_or result r }
        ensures leaf { IfSome result (λ f. f.leaf < no_leaf) };
}

// The last record after the end step from state s, k bytes passed: what the end target records, if there is one and it does.
pub fn ended<W: Walker>(w: &W, s: usize, k: usize, mut last: Last) -> Last
    requires { s < W.states w.now }
    ensures { result ≡ onward last (λ u. (W.walker w.now).leave u k last) ((W.walker w.now).next s 256) }
{
    if let Some(u) = w.next(s, END) {
        last.record(w.left(u, k));
    }
    last
}

// The last record of the walk of a text from a state.
pub fn walk<W: Walker>(w: &W, start: usize, text: &[u8]) -> Last
    requires { start < W.states w.now }
    ensures { result ≡ walk (W.walker w.now) start 0 None text.now }
{
    let mut s = start;
    let mut last = Last::none();
    for (k, &b) in text.iter().enumerate() {
        last.record(w.entered(s, k));
        let Some(u) = w.next(s, b as usize) else {
            return last;
        };
        s = u;
    }
    let k = text.len();
    last.record(w.entered(s, k));
    ended(w, s, k, last)
}
