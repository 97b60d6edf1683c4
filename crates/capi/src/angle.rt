// Angles in hundredths of a degree, read from a text and written.
ghost use Rattle.std.specs.Prelude.{◌≡◌, [], ◌∷◌};
ghost use Rattle.angles.specs.Angles.{angle_of, written_of};
ghost use Rattle.capi.specs.Angles.{kind_of, hundredths_of};
ghost use Rattle.capi.specs.Lent.{put, put_report};

use angles::Angle;

// What the hundredths are where there is no angle: the least number, which no angle has. (C has numbers for this, and for the kind.)
const NO_ANGLE: i32 = -2147483648;

// An angle, stored.
fn store(answer: Angle, kind: &mut usize, hundredths: &mut i32) -> u8
    ensures { (result ≡ 0) × (kind.new ≡ kind_of answer) × (hundredths.new ≡ hundredths_of answer) }
{
    (*kind, *hundredths) = match answer {
        Angle::Hundredths(v) => (1, v),
        Angle::Missing => (2, NO_ANGLE),
        Angle::NotAnAngle => (0, NO_ANGLE),
    };
    0
}

// `read`.
#[unsafe(no_mangle)]
pub extern "C" fn balthwyr_read_angle(text: &[u8], kind: &mut usize, hundredths: &mut i32) -> u8
    ensures { (result ≡ 0) × (kind.new ≡ kind_of (angle_of text.now)) × (hundredths.new ≡ hundredths_of (angle_of text.now)) }
{
    store(angles::read(text), kind, hundredths)
}

// `write`: the seven bytes in a lent block.
#[unsafe(no_mangle)]
pub extern "C" fn balthwyr_write_angle(hundredths: i32, text: &mut [u8], length: &mut usize) -> u8
    ensures hundredths_value { put_report (put (written_of hundredths).bytes text.old) (written_of hundredths).length ≡ record { refusal = result; values = length.new ∷ [] } }
    ensures text_after { text.new ≡ (put (written_of hundredths).bytes text.old).block }
{
    let written = angles::write(hundredths);
    crate::lent::put_counted(&written.bytes, written.length, text, length)
}
