// Reads a forest from standard input and writes the bytes of its tree to standard output. A refusal is a line on
// standard error, and nothing is written. Of a forest over 65,535 bytes 65,536 are read: it is refused for its length.
// A read or a write that fails ends the program with its error.
// In order: what is written for a forest; the program, over any input and outputs.
#![tactic(auto)]

ghost use Rattle.std.specs.Prelude.{take, OnOk, IfSome};
ghost use Rattle.std.specs.Io.KnownBytes.{Appends};
ghost use Rattle.tree.specs.Written as written;

use std::io;
use std::io::{Read, Write};

// What is written for a forest.
// Rules out: the root's own bytes; a byte past the tree's; bytes of a forest that is refused.
fn answer<O: Write, E: Write>(forest: &[u8], output: &mut O, errors: &mut E) -> io::Result<()>
    ensures output { OnOk result (Appends (O.contents output.old) (O.contents output.new) (written.output forest.now)) }
    ensures errors { OnOk result (Appends (E.contents errors.old) (E.contents errors.new) (written.errors forest.now)) }
{
    let mut out = [0u8; 65535];
    let mut work = [0u32; 16384];
    match cse::cse(forest, &mut out, &mut work) {
        Ok(w) => {
            let length = w.length as usize;
            output.write_all(&out[..length])
        }
        Err(r) => streams::write_refusal(errors, r),
    }
}

// The program. Rules out: a forest over 65,535 bytes cut to one that is not refused.
fn run<I: Read, O: Write, E: Write>(input: &mut I, output: &mut O, errors: &mut E) -> io::Result<()>
    ensures output { OnOk result (IfSome (I.remaining input.old) (λ bs. Appends (O.contents output.old)
        (O.contents output.new) (written.output (take 65536 bs)))) }
    ensures errors { OnOk result (IfSome (I.remaining input.old) (λ bs. Appends (E.contents errors.old)
        (E.contents errors.new) (written.errors (take 65536 bs)))) }
{
    let mut forest = [0u8; 65536];
    let n = streams::read_full(input, &mut forest)?;
    answer(&forest[..n], output, errors)
}

fn main(rt: HostRuntime) -> io::Result<()> {
    run(&mut rt.stdin(), &mut rt.stdout(), &mut rt.stderr())
}
