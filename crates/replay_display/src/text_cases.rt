// A case: words in runs, those of a graph or of an error, and the text of them. The call that writes the text is a parameter.
use refusals::Refusal;
use vectors::answers::answer;
use vectors::cases::{number, part, shaped, words};
use vectors::parts::{filled, rest_is, written};
use vectors::words::front;

// Room for the words of a graph of 1,024 states and of one more.
const WORDS: usize = 265216;

// A case: the words that a call is given, what it answers, and the text that it writes.
#[derive(Clone, Copy)]
struct Shown<'a> {
    pub words: &'a [u16],
    pub answer: Result<usize, Refusal>,
    pub text: &'a [u8],
}

impl Shown<'_> {
    // A call with a buffer of `room` bytes that is as before the case: the text, and the rest unchanged; or the refusal, and all unchanged. It is 29 where
    // the text has no room.
    fn alike<F: Fn(&[u16], &mut [u8]) -> Result<usize, Refusal>>(
        self,
        call: &F,
        before: &[u8; 65536],
        room: usize,
    ) -> bool
        requires { F.IsAlwaysCallable call.now }
    {
        let mut out = *before;
        if out.len() < room {
            return false;
        }
        let answer = if room < self.text.len() {
            Err(Refusal::NoRoom)
        } else {
            self.answer
        };
        let text = if answer.is_ok() { self.text } else { &[] };
        call(self.words, &mut out[..room]) == answer && written(&out[..room], text, before)
    }
}

// The case with number i, by the call that writes its text: with a long buffer, one that the text just fits, and one that is a byte shorter.
pub(crate) fn alike<F: Fn(&[u16], &mut [u8]) -> Result<usize, Refusal> + Drop>(
    call: F,
    case: &[u8],
    i: usize,
) -> bool
    requires { F.IsAlwaysCallable call }
{
    let mut room: [u16; WORDS] = vectors::room(0);
    let Some(n) = words(case, 0, &mut room) else {
        return false;
    };
    let text = part(case, 1);
    let Some(answer) = answer(number(case, 0), text.len()) else {
        return false;
    };
    let shown = Shown {
        words: front(&room, n),
        answer,
        text,
    };
    let before = filled(i);
    // (Beside a refusal a list has no text, or any length of the byte that the buffer begins with.)
    shaped(case, 1, 2)
        && (answer.is_ok() || rest_is(text, 0, before[0]))
        && shown.alike(&call, &before, 65536)
        && shown.alike(&call, &before, text.len())
        && (text.len() == 0 || shown.alike(&call, &before, text.len() - 1))
}
