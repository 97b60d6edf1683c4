// Why a call refuses (docs/REFUSALS.md): one name for each number, so that a call answers a `Result` and a refusal goes up by `?`.
//
// The numbers are defined in specs/Refusals.antt; that no two refusals have the same is in proofs/Numbers.antt.
#![tactic(auto)]

ghost use Rattle.std.specs.Prelude.{◌≡◌};
ghost use Rattle.refusals.specs.Refusals.{number};

// Each with its number, by which C and the stored lists know it.
#[derive(Clone, Copy, PartialEq, Eq)]
pub enum Refusal {
    TableHeader = 1,
    TableCounts = 2,
    TableLength = 3,
    TableStart = 4,
    TableEmptyFlag = 5,
    TableTarget = 6,
    TableMatches = 7,
    GraphRoom = 8,
    ErrorRoom = 9,
    TreeForm = 10,
    PriorityLimit = 11,
    GraphForm = 12,
    ImageLength = 13,
    PlanOrOffset = 14,
    Store = 15,
    ScanEnded = 16,
    NoRoom = 29,
}

// Its number.
impl From<Refusal> for u8 {
    ghost from_gives = { λ refusal n. n ≡ number refusal };

    fn from(refusal: Refusal) -> u8 {
        refusal as u8
    }
}
