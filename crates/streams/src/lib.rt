// What the programs have in common. In order: reading into a buffer; the line of a refusal.
#![tactic(auto)]

ghost use Rattle.std.specs.Prelude.{◌≡◌, length, take, IfOk, IfSome, OnOk};
ghost use Rattle.std.specs.Io.{ReadsAtMost};
ghost use Rattle.std.specs.Io.KnownBytes.{Appends, Consumes};
ghost use Rattle.model.specs.Lister.{refusal};
ghost use Rattle.refusal.specs.Refusal.{number_of};

use refusal::Refusal;
use std::io;
use std::io::{Read, Write};

// Reads until the buffer is full or the input ends. The answer is how many bytes were read; they stand at the buffer's
// start, and the input goes on after them. A read may take less than there is room for, so it is no `for`.
// Rules out: fewer of an input that has more; a byte read that the buffer does not have.
pub fn read_full<R: Read>(input: &mut R, buf: &mut [u8]) -> io::Result<usize>
    ensures in_bounds { ReadsAtMost result buf.new }
    ensures read { IfOk result (λ n. IfSome (R.remaining input.old)
        (λ bs. take n buf.new ≡ take (length buf.new) bs)) }
    ensures rest { IfOk result (λ n. Consumes (R.remaining input.old) (R.remaining input.new) (take n buf.new)) }
{
    let mut done = 0;
    while done < buf.len() {
        let n = input.read(&mut buf[done..])?;
        if n == 0 {
            break;
        }
        done += n;
    }
    Ok(done)
}

// Writes the line of a refusal. Rules out: the place before the number; the newline left out.
pub fn write_refusal<W: Write>(output: &mut W, refused: Refusal) -> io::Result<()>
    ensures { OnOk result (Appends (W.contents output.old) (W.contents output.new)
        (refusal (number_of refused.check) refused.place)) }
{
    let mut line = [0u8; text::LINE];
    let number = refused.check.number();
    let n = text::put_refusal(&mut line, u64::from(number), u64::from(refused.place));
    output.write_all(&line[..n])
}
