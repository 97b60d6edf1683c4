// An image: a table's words as bytes, low byte first.
ghost use Rattle.std.specs.Prelude.{◌≡◌, ◌++◌, ◌+◌, ◌*◌, ◌/◌, ◌≤◌, ◌<◌, length, get_or, drop};
ghost use Rattle.graph.specs.New.{words_of, image_of};

use crate::new::Counts;
use refusals::Refusal;

// The word of two bytes.
fn word(low: u8, high: u8) -> u16
    ensures { result ≡ low + 256 * high }
{
    u16::from_le_bytes([low, high])
}

// The words of an image, written into a lent buffer; the rest of the buffer stays.
fn unpack(image: &[u8], out: &mut [u16])
    requires { length image.now / 2 ≤ length out.old }
    ensures { out.new ≡ words_of image.now ++ drop (length image.now / 2) out.old }
{
    // By index: the definition takes two bytes a word, and no law of the library says so of chunks.
    for i in 0..image.len() / 2 {
        out[i] = word(image[2 * i], image[2 * i + 1]);
    }
}

// The build of a table from its image; or 13, and then 1 to 9, and both buffers as they were.
pub fn from_image(image: &[u8], graph: &mut [u16], errors: &mut [u16]) -> Result<Counts, Refusal>
    ensures { record { answer = result; graph = graph.new; errors = errors.new } ≡ image_of image.now graph.old errors.old }
{
    if image.len() % 2 == 1 || 65536 < image.len() {
        return Err(Refusal::ImageLength);
    }
    // (an array: the repository has no heap)
    let mut space = [0u16; 32768];
    unpack(image, &mut space);
    let n = image.len() / 2;
    crate::new::new(&space[..n], graph, errors)
}
