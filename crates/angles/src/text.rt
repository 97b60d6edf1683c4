// The text of an angle, written into a lent buffer from its front, as the functions of crate `texts` do.

ghost use Rattle.std.specs.Prelude.{◌≤◌};
ghost use Rattle.texts.specs.Text.{Wrote};
ghost use Rattle.angles.specs.Angles.{limit, hyphen, text_of};

// (`below` is a sign, a value, as in `signs`.)
fn hyphen(out: &mut [u8], below: bool) -> usize
    ensures { Wrote out.old 0 (hyphen below) out.new result }
{
    if below {
        return texts::byte(out, 0, b'-');
    }
    0
}

pub(crate) fn text(out: &mut [u8], below: bool, size: usize) -> usize
    requires { size ≤ limit }
    ensures { Wrote out.old 0 (text_of below size) out.new result }
{
    let signed = hyphen(out, below);
    let degrees = texts::number(out, signed, size / 100);
    let point = texts::byte(out, degrees, b'.');
    texts::pair(
        out,
        point,
        b'0' + (size / 10 % 10) as u8,
        b'0' + (size % 10) as u8,
    )
}
