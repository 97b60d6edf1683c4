// Answers of calls, as a list tells them: by the number of a refusal, 0 for none, and a value. The definitions are in specs/Answers.antt.
ghost use Rattle.vectors.specs.Answers.{Named, Told};

use refusals::Refusal;

// Every refusal. (Names alone: the numbers stand once, at the enum.)
const REFUSALS: [Refusal; 17] = [
    Refusal::TableHeader,
    Refusal::TableCounts,
    Refusal::TableLength,
    Refusal::TableStart,
    Refusal::TableEmptyFlag,
    Refusal::TableTarget,
    Refusal::TableMatches,
    Refusal::GraphRoom,
    Refusal::ErrorRoom,
    Refusal::TreeForm,
    Refusal::PriorityLimit,
    Refusal::GraphForm,
    Refusal::ImageLength,
    Refusal::PlanOrOffset,
    Refusal::Store,
    Refusal::ScanEnded,
    Refusal::NoRoom,
];

// The refusal that has a number; none where no refusal has it. (No TryFrom: the type is of another crate.)
pub fn refusal(number: usize) -> Option<Refusal>
    ensures { Named number result }
{
    REFUSALS
        .iter()
        .copied()
        .find(|r| usize::from(u8::from(*r)) == number)
}

// The answer that a number and a value tell: the value where the number is 0, else the refusal; none where no refusal has the number.
pub fn answer<T: Copy>(number: usize, value: T) -> Option<Result<T, Refusal>>
    ensures { Told number value result }
{
    if number == 0 {
        return Some(Ok(value));
    }
    Some(Err(refusal(number)?))
}
