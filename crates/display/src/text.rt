// What is shown as a text: how it is written from a place on, and so how it is measured, and put into a buffer that has room.
ghost use Rattle.std.specs.Prelude.{◌≡◌, List, ℕ, length};
ghost use Rattle.texts.specs.Text.{Wrote, Counts};
ghost use Rattle.display.specs.Answers.{written};

use refusals::Refusal;

pub trait Text {
    // Its bytes.
    ghost text: { Self → List ℕ };

    // Writes the text from a place on; the place after it. What passes the buffer's end is counted and not written.
    fn write(&self, out: &mut [u8], at: usize) -> usize
        requires { Counts at (text self.now) }
        ensures { Wrote out.old at (text self.now) out.new result };

    // Its length.
    final fn length(&self) -> usize
        requires { Counts 0 (text self.now) }
        ensures { result ≡ length (text self.now) }
    {
        self.write(&mut [], 0)
    }

    // The text, from the front of the buffer; how many bytes it has. Refused: 29 if it does not fit.
    final fn put(&self, out: &mut [u8]) -> Result<usize, Refusal>
        requires { Counts 0 (text self.now) }
        ensures answer { result ≡ (written (text self.now) out.old).answer }
        ensures buffer { out.new ≡ (written (text self.now) out.old).buffer }
    {
        if out.len() < self.length() {
            return Err(Refusal::NoRoom);
        }
        Ok(self.write(out, 0))
    }
}
