// The text of a class of bytes (`ByteClass` in the Rust).
ghost use Rattle.texts.specs.Text.{Wrote, Counts};
ghost use Rattle.display.specs.Display.{escaped, range_text, class_text};

use classes::byte_class::ByteRange;

// A byte as `escape_default` gives it.
fn escape_default(out: &mut [u8], at: usize, b: u8) -> usize
    requires { Counts at (escaped b) }
    ensures { Wrote out.old at (escaped b) out.new result }
{
    let mut next = at;
    for e in b.escape_ascii() {
        next = texts::byte(out, next, e);
    }
    next
}

// A range: its first byte, and its last if that is another.
fn range(out: &mut [u8], at: usize, range: ByteRange) -> usize
    requires { Counts at (range_text range.first range.last) }
    ensures { Wrote out.old at (range_text range.first range.last) out.new result }
{
    let next = escape_default(out, at, range.first);
    if range.first == range.last {
        return next;
    }
    let next = texts::bytes(out, next, b"..=");
    escape_default(out, next, range.last)
}

// A class: its maximal ranges, with a bar between two.
pub(crate) fn class(out: &mut [u8], at: usize, class: &[bool; 256]) -> usize
    requires { Counts at (class_text class.now) }
    ensures { Wrote out.old at (class_text class.now) out.new result }
{
    let held = classes::byte_class::ranges(class);
    let [first, rest @ ..] = &held.ranges[..held.count] else {
        return at;
    };
    let mut next = range(out, at, *first);
    for other in rest {
        next = texts::byte(out, next, b'|');
        next = range(out, next, *other);
    }
    next
}
