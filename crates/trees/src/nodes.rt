// Words that are a tree, and its records one by one: what they are is known by type, so nothing that holds a node checks words again.
ghost use Rattle.std.specs.Prelude.{◌≡◌, true, false, ◌+◌, ◌<◌, ◌≤◌, MatchOption, MatchResult};
ghost use Rattle.refusals.specs.declared.Refusal.TheVariants.{TreeForm};
ghost use Rattle.trees.specs.Tree.{count, flag, part, tree_fits};

use crate::kind::{DOT, GREEDY, Kind, UNBOUNDED};
use crate::tree::{WORDS, fits, record_at};
use refusals::Refusal;

// A pattern tree: its words, and the bytes of its literals.
#[derive(Clone, Copy)]
pub struct Tree<'a> {
    pub words: &'a [u32],
    pub bytes: &'a [u8],
    pub ghost fits: { tree_fits words.now bytes.now ≡ true },
}

impl<'a> Tree<'a> {
    // The tree that these words are over these bytes; refused by 10 where they are none.
    pub fn new(words: &'a [u32], bytes: &'a [u8]) -> Result<Tree<'a>, Refusal>
        ensures { MatchResult result
            (λ tree. (tree.words.now ≡ words.now) × (tree.bytes.now ≡ bytes.now) × (tree_fits words.now bytes.now ≡ true))
            (λ refusal. (refusal ≡ TreeForm) × (tree_fits words.now bytes.now ≡ false)) }
    {
        if fits(words, bytes) {
            Ok(Tree { words, bytes })
        } else {
            Err(Refusal::TreeForm)
        }
    }

    // The number of records, which is that of the root.
    pub fn count(&self) -> usize
        ensures { result ≡ count self.now.words.now }
    {
        self.words.len() / WORDS
    }

    // The last record.
    pub fn root(&'a self) -> Node<'a>
        ensures { (result.tree ≡ self.entry) × (result.number ≡ count self.now.words.now) }
    {
        self.node(self.count())
    }

    // The record with a number.
    pub fn node(&'a self, number: usize) -> Node<'a>
        requires { (0 < number) × (number ≤ count self.now.words.now) }
        ensures { (result.tree ≡ self.entry) × (result.number ≡ number) }
    {
        Node { tree: self, number }
    }

    // The record that a word names; 0 names none.
    fn named(&'a self, number: usize) -> Option<Node<'a>>
        requires { number ≤ count self.now.words.now }
        ensures { MatchOption result (number ≡ 0) (λ node. (node.tree ≡ self.entry) × (node.number ≡ number)) }
    {
        if number == 0 {
            None
        } else {
            Some(self.node(number))
        }
    }
}

// A record of a tree.
#[derive(Clone, Copy)]
pub struct Node<'a> {
    pub tree: &'a Tree<'a>,
    pub number: usize,
    pub ghost some: { 0 < number },
    pub ghost there: { number ≤ count tree.now.words.now },
}

// What a record is, with those that it names.
#[derive(Clone, Copy)]
pub enum Shape<'a> {
    Empty,
    Literal(&'a [u8]),
    // whether it is one of the six of `DOT_HIRS`
    Class(bool),
    Look,
    Repetition {
        min: u32,
        greedy: bool,
        unbounded: bool,
        part: Node<'a>,
    },
    Capture(Node<'a>),
    // the first of the chain of its parts
    Concat(Option<Node<'a>>),
    Alternation(Option<Node<'a>>),
}

// Flag f, 1 or 2.
fn is_set(f: u32, flags: u32) -> bool
    requires { 0 < f }
    ensures { result ≡ flag f flags }
{
    flags / f % 2 == 1
}

impl<'a> Node<'a> {
    ghost use Rattle.trees.specs.Nodes.{tree_of_node, tree_of_shape, chain_of, chain_of_first, FirstBelow, PartsBelow, PartAlone};

    pub fn shape(self) -> Shape<'a>
        ensures stands { tree_of_shape result ≡ tree_of_node self.entry }
        ensures lower { PartsBelow result self.entry }
        ensures alone { PartAlone result }
    {
        let r = record_at(self.tree.words, self.number);
        let Ok(kind) = Kind::try_from(r.kind) else {
            return Shape::Empty;
        };
        match kind {
            Kind::Empty => Shape::Empty,
            Kind::Literal => {
                let from = r.a as usize;
                let to = from + r.b as usize;
                Shape::Literal(&self.tree.bytes[from..to])
            }
            Kind::Class => Shape::Class(is_set(DOT, r.flags)),
            Kind::Look => Shape::Look,
            Kind::Repetition => Shape::Repetition {
                min: r.a,
                greedy: is_set(GREEDY, r.flags),
                unbounded: is_set(UNBOUNDED, r.flags),
                part: self.tree.node(r.child),
            },
            Kind::Capture => Shape::Capture(self.tree.node(r.child)),
            Kind::Concat => Shape::Concat(self.tree.named(r.child)),
            Kind::Alternation => Shape::Alternation(self.tree.named(r.child)),
        }
    }

    // The next of the chain that it is in.
    pub fn next(self) -> Option<Node<'a>>
        ensures chain { chain_of self.entry ≡ part (tree_of_node self.entry) (chain_of_first result) }
        ensures lower { FirstBelow result self.entry }
    {
        self.tree
            .named(record_at(self.tree.words, self.number).next)
    }
}
