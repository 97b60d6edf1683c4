// The bits of a byte, by shift and mask. They are defined in specs/Bits.antt; what is true of them over all numbers is in proofs/Bits.antt.
#![tactic(auto)]

ghost use Rattle.std.specs.Prelude.{◌≡◌, ◌<◌};
ghost use Rattle.bits.specs.Bits.{is_set, with_bit};

// Whether bit k of the word is set.
pub fn test_bit(word: u8, k: usize) -> bool
    requires { k < 8 }
    ensures { result ≡ is_set k word }
{
    (word >> k) & 1 == 1
}

// The word with bit k made 1 or 0, and no other bit changed. (The flag is a value that is written, and chooses no step of a caller's.)
pub fn with_bit(word: u8, k: usize, flag: bool) -> u8
    requires { k < 8 }
    ensures { result ≡ with_bit k word flag }
{
    if flag {
        word | (1u8 << k)
    } else {
        word & !(1u8 << k)
    }
}
