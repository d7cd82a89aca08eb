// Reads a forest from standard input and prints its symbols and the written tree's definitions, a line each, or its
// refusal. Of a forest over 65,535 bytes 65,536 are read: it is refused for its length. A read or a write that fails ends the program with its error.
#![tactic(auto)]

ghost use Rattle.std.specs.Prelude.{take, OnOk, IfSome};
ghost use Rattle.std.specs.Io.KnownBytes.{Appends};
ghost use Rattle.model.specs.Lister.{lister};

use std::io;
use std::io::{Read, Write};

// The program, over any input and output.
// Rules out: the text of another forest; a byte past the text; a forest over 65,535 bytes that is not refused.
fn run<I: Read, O: Write>(input: &mut I, output: &mut O) -> io::Result<()>
    ensures { OnOk result (IfSome (I.remaining input.old) (λ bs. Appends (O.contents output.old)
        (O.contents output.new) (lister (take 65536 bs)))) }
{
    let mut forest = [0u8; 65536];
    let n = streams::read_full(input, &mut forest)?;
    let mut out = [0u8; 65535];
    let mut work = [0u32; 16384];
    let length = listing::list(&forest[..n], &mut out, &mut work);
    output.write_all(&out[..length])
}

fn main(rt: HostRuntime) -> io::Result<()> {
    run(&mut rt.stdin(), &mut rt.stdout())
}
