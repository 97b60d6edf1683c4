// Angles in hundredths of a degree, from -180.00 to 180.00: an angle read from a text, and its text written. A text is an optional plus or hyphen, one
// to three digits, a point and one or two digits; three hyphens are a missing angle, which carries no number; every other text is not an angle. No call
// refuses anything.
//
// What the calls answer is defined in specs/Angles.antt; what a text that is an angle looks like, and a written one, in specs/Meaning.antt. That these
// agree is in proofs/Means.antt and proofs/Form.antt, that a written angle is read back in proofs/Back.antt, cases are in proofs/Cases.antt.
#![tactic(auto)]

ghost use Rattle.std.specs.Prelude.{◌≡◌};
ghost use Rattle.angles.specs.Angles.{angle_of, written_of, written_in_range};

mod digits;
mod signs;
mod text;

// The greatest angle, in hundredths.
const LIMIT: u32 = 18000;

// Neither Option nor Result: a text that is missing is no mistake.
#[derive(Clone, Copy, PartialEq, Eq)]
pub enum Angle {
    Hundredths(i32),
    Missing,
    NotAnAngle,
}

// A text of `length` bytes, and zeros after it. A length of 0: there is no text. (An array and a length: the repository has no heap.)
#[derive(Clone, Copy, PartialEq, Eq)]
pub struct Written {
    pub bytes: [u8; 7],
    pub length: usize,
}

// What is told where there is no text.
const NO_TEXT: Written = Written {
    bytes: [0; 7],
    length: 0,
};

// The angle that a text is. All of the slice is the text.
pub fn read(text: &[u8]) -> Angle
    ensures { result ≡ angle_of text.now }
{
    if digits::is_missing(text) {
        return Angle::Missing;
    }
    let parts = signs::without_sign(text);
    match digits::magnitude(parts.body) {
        Some(size) if size <= LIMIT => Angle::Hundredths(signs::signed(parts.below, size)),
        _ => Angle::NotAnAngle,
    }
}

// The text of an angle; none, if the value is out of range. (Seven bytes and a length for any value, as C takes them.)
pub fn write(hundredths: i32) -> Written
    ensures { result ≡ written_of hundredths }
{
    write_in_range(hundredths).unwrap_or(NO_TEXT)
}

// The same as an option, so that no caller can take the zeros for a text.
pub fn write_in_range(hundredths: i32) -> Option<Written>
    ensures { result ≡ written_in_range hundredths }
{
    let size = hundredths.unsigned_abs();
    if LIMIT < size {
        return None;
    }
    let mut bytes = [0u8; 7];
    let length = text::text(&mut bytes, hundredths < 0, size as usize);
    Some(Written { bytes, length })
}
