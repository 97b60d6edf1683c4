// The line of a conflict (`GraphError` in the Rust), from its words: kind, leaf count, leaves.
ghost use Rattle.std.specs.Prelude.{◌≡◌, true, false, MatchResult};
ghost use Rattle.refusals.specs.declared.Refusal.TheVariants.{ErrorRoom};
ghost use Rattle.display.specs.Display.{line_of};
ghost use Rattle.display.specs.Answers.{error_fits};

use crate::text::Text;
use refusals::Refusal;

// Words that begin with a conflict.
#[derive(Clone, Copy)]
pub struct Conflict<'a> {
    pub words: &'a [u16],
    pub ghost fits: { error_fits words.now ≡ true },
}

impl<'a> Conflict<'a> {
    // The conflict that these words begin with; refused by 9 where they end before it does.
    pub fn new(words: &'a [u16]) -> Result<Conflict<'a>, Refusal>
        ensures { MatchResult result (λ conflict. (conflict.words.now ≡ words.now) × (error_fits words.now ≡ true)) (λ refusal. (refusal ≡ ErrorRoom) × (error_fits words.now ≡ false)) }
    {
        if fits(words) {
            Ok(Conflict { words })
        } else {
            Err(Refusal::ErrorRoom)
        }
    }
}

// Whether the words begin with a conflict.
fn fits(words: &[u16]) -> bool
    ensures { result ≡ error_fits words.now }
{
    2 <= words.len() && 2 + words[1] as usize <= words.len()
}

impl Text for Conflict<'_> {
    ghost text = { λ conflict. line_of conflict.words.now };

    // The kind, and each leaf after a space. (The kind by its number: any is taken, so an enum would refuse words that are not refused.)
    fn write(&self, out: &mut [u8], at: usize) -> usize {
        let words = self.words;
        let mut next = texts::numbered(out, at, b"error ", words[0] as usize);
        for leaf in &words[2..2 + words[1] as usize] {
            next = texts::numbered(out, next, b" ", *leaf as usize);
        }
        next
    }
}
