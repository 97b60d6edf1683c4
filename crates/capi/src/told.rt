// Answers in numbers, as C has them.
ghost use Rattle.std.specs.Prelude.{◌≡◌, cond, List, [], ◌∷◌, ℕ};
ghost use Rattle.refusals.specs.Refusals.{report};

use refusals::Refusal;

// A value in N numbers.
pub(crate) trait Numbers<const N: usize> {
    ghost numbers: { Self → List ℕ };

    fn numbers(self) -> [usize; N]
        ensures { result ≡ numbers self };
}

impl Numbers<1> for usize {
    ghost numbers = { λ n. n ∷ [] };

    fn numbers(self) -> [usize; 1] {
        [self]
    }
}

impl Numbers<1> for u32 {
    ghost numbers = { λ n. n ∷ [] };

    fn numbers(self) -> [usize; 1] {
        [self as usize]
    }
}

impl Numbers<1> for bool {
    ghost numbers = { λ yes. cond yes 1 0 ∷ [] };

    fn numbers(self) -> [usize; 1] {
        [usize::from(self)]
    }
}

// An answer: 0 and the numbers of the value; or the number of the refusal, and zeros.
#[derive(Clone, Copy)]
pub(crate) struct Report<const N: usize> {
    pub refusal: u8,
    pub values: [usize; N],
}

pub(crate) fn told<const N: usize, V: Numbers<N> + Drop>(answer: Result<V, Refusal>) -> Report<N>
    ensures { report V.numbers N answer ≡ record { refusal = result.refusal; values = result.values } }
{
    match answer {
        Ok(value) => Report {
            refusal: 0,
            values: value.numbers(),
        },
        Err(refusal) => Report {
            refusal: u8::from(refusal),
            values: [0; N],
        },
    }
}
