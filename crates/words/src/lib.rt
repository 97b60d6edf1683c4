// The layouts of graph words (`graph`) and of table words (`table`): each is drawn once, beside the functions through which alone all other code
// reads and writes such words. And the numbers that states get anew (`names`).
#![tactic(auto)]

ghost use Rattle.std.specs.Prelude.{◌≡◌, ◌<◌, ◌≤◌, ◌-◌, length, get_or, replicate};
ghost use Rattle.std.proofs.lemmas.List.Edits.{sets};
ghost use Rattle.graph_rules.specs.Graph.{or_none};

pub mod graph;
pub mod names;
pub mod table;

// The end step comes behind the steps of the bytes 0 to 255.
pub const END: usize = 256;
// The steps of a state.
pub const STEPS: usize = 257;
// The word that is no state's number: no target, no start.
pub const NONE: usize = 65535;
// The most states.
pub const STATES: usize = 1024;

// Word i.
pub fn word(words: &[u16], i: usize) -> usize
    requires { i < length words.now }
    ensures { (result ≡ get_or words.now i 0) × (result < 65536) }
{
    words[i] as usize
}

// A number, or none where it is the word for none.
#[inline]
pub fn or_none(word: usize, x: usize) -> Option<usize>
    ensures { result ≡ or_none word x }
{
    if x == word { None } else { Some(x) }
}

// The words from a up to b become 0.
pub fn zero(words: &mut [u16], a: usize, b: usize)
    requires a_le_b { a ≤ b }
    requires b_in_bounds { b ≤ length words.old }
    ensures { words.new ≡ sets words.old a (replicate (b - a) 0) }
{
    words[a..b].fill(0);
}
