// The kinds of records, in the order of their numbers, and what a record of each may hold.
ghost use Rattle.std.specs.Prelude.{◌≡◌};
ghost use Rattle.trees.specs.Tree.{rule_of};
ghost use Rattle.trees.specs.Held.{Decodes, kind_number};

use refusals::Refusal;

#[derive(Clone, Copy)]
pub enum Kind {
    Empty,
    Literal,
    Class,
    Look,
    Repetition,
    Capture,
    Concat,
    Alternation,
}

// The kind with a number; refused by 10 where none has it.
impl TryFrom<u32> for Kind {
    type Error = Refusal;

    ghost try_from_gives = { Decodes };

    fn try_from(number: u32) -> Result<Kind, Refusal> {
        match number {
            0 => Ok(Kind::Empty),
            1 => Ok(Kind::Literal),
            2 => Ok(Kind::Class),
            3 => Ok(Kind::Look),
            4 => Ok(Kind::Repetition),
            5 => Ok(Kind::Capture),
            6 => Ok(Kind::Concat),
            7 => Ok(Kind::Alternation),
            _ => Err(Refusal::TreeForm),
        }
    }
}

// Flags, by the bits that a record's word has for them.

// The flag of a class that is one of the six of `DOT_HIRS`.
pub const DOT: u32 = 1;
// The flags of a repetition.
pub const GREEDY: u32 = 1;

pub const UNBOUNDED: u32 = 2;

#[derive(Clone, Copy)]
pub enum Children {
    No,
    One,
    Any,
}

// What a record may hold: in a, in b, the greatest flags, and how many children.
#[derive(Clone, Copy)]
pub struct Rule {
    pub a: bool,
    pub b: bool,
    pub flags: u32,
    pub children: Children,
}

impl Kind {
    #[tactic(auto, unfolding(crate::specs::Tree::rule_of, crate::specs::Tree::rules))]
    pub fn rule(self) -> Rule
        ensures { result ≡ rule_of (kind_number self) }
    {
        let (a, b, flags, children) = match self {
            Kind::Empty | Kind::Look => (false, false, 0, Children::No),
            Kind::Literal => (true, true, 0, Children::No),
            Kind::Class => (false, false, DOT, Children::No),
            Kind::Repetition => (true, false, GREEDY + UNBOUNDED, Children::One),
            Kind::Capture => (false, false, 0, Children::One),
            Kind::Concat | Kind::Alternation => (false, false, 0, Children::Any),
        };
        Rule {
            a,
            b,
            flags,
            children,
        }
    }
}
