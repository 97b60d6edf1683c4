// A worklist: a set of numbers below N, of which some wait to be looked at. A number waits once, from when it is first met, so there is always room.
#![tactic(auto)]

ghost use Rattle.std.specs.Prelude.{◌≡◌, ℕ, ◌<◌, ◌≤◌, length, get_or, take, MatchOption, [], ◌∷◌, ◌++◌};
ghost use Rattle.lists.specs.Sets.{In, count};
ghost use Rattle.worklist.specs.Work.{Work, begun, pushed};

use std::marker::Model;

// An array and how much of it is in use: nothing is allocated. A number below N takes 16 bits.
#[derive(Drop)]
pub struct Worklist<const N: usize> {
    seen: [bool; N],
    stack: [u16; N],
    top: usize,
}

// Clauses see which numbers have been met, and which of them wait, the last to be taken first.
impl<const N: usize> Model for Worklist<N> {
    ghost Value = { Work };

    ghost view = { λ w. record { seen = w.seen; waiting = take w.top w.stack } };

    ghost invariant = { λ w. (length w.seen ≡ N) × (length w.stack ≡ N) × (w.top ≤ count w.seen) × ((i : ℕ) → i < w.top → In w.seen (get_or w.stack i 0)) × (N ≤ 65536) };
}

impl<const N: usize> Worklist<N> {
    // Nothing is met yet.
    pub fn new() -> Self
        requires { N ≤ 65536 }
        ensures { result ≡ begun N }
    {
        Worklist {
            seen: [false; N],
            stack: [0; N],
            top: 0,
        }
    }

    // A number that is met for the first time waits from now on.
    pub fn push(&mut self, number: usize)
        requires { number < N }
        ensures { self.new ≡ pushed self.old number }
    {
        if !self.seen[number] {
            self.seen[number] = true;
            self.stack[self.top] = number as u16;
            self.top += 1;
        }
    }

    // The last of those that wait, taken off; none: none waits.
    pub fn pop(&mut self) -> Option<usize>
        ensures seen { self.new.seen ≡ self.old.seen }
        ensures waiting { MatchOption result (self.old.waiting ≡ []) (λ k. self.old.waiting ≡ self.new.waiting ++ (k ∷ [])) }
        ensures taken { MatchOption result (self.new.waiting ≡ []) (λ k. In self.new.seen k × (k < N)) }
    {
        if self.top == 0 {
            return None;
        }
        self.top -= 1;
        Some(self.stack[self.top] as usize)
    }

    // Which numbers have been met.
    pub fn seen(self) -> [bool; N]
        ensures { result ≡ self.entry.seen }
    {
        self.seen
    }
}
