// Reads a forest from standard input and prints, where the main call says 16 of it, `mixed` and the opcode at that place;
// else what the lister prints. Of a forest over 65,535 bytes 65,536 are read: it is refused for its length. A read or a write
// that fails ends the program with its error.
// In order: the opcode that has two shapes; its line; the text; the program, over any input and output.
#![tactic(auto)]

ghost use Rattle.std.specs.Prelude.{◌≡◌, ◌≤◌, length, take, OnOk, IfSome};
ghost use Rattle.std.specs.Io.KnownBytes.{Appends};
ghost use Rattle.model.specs.ArchiveLister.{mixed_line, archive_lister};
ghost use Rattle.model.specs.ArchiveLister as model;
ghost use Rattle.output.specs.Output.{Wrote};
ghost use Rattle.regions.specs.Regions.{WORDS};

use output::Output;
use record::Forest;
use refusal::Check;
use std::io;
use std::io::{Read, Write};

// The opcode at the place where the main call says 16; nothing where it says something else. Only the checks are made: what
// the call does after them refuses with other numbers. The check is told by its number, as in the definition. What the words
// hold afterwards is left free.
// Rules out: the shape for the opcode; an opcode where 7 comes before 16.
fn mixed_opcode(forest: &[u8], work: &mut [u32]) -> Option<u8>
    requires { WORDS ≤ length work.old }
    ensures opcode { result ≡ model.mixed_opcode forest.now }
    ensures words { length work.new ≡ length work.old }
{
    let mut ends = [0; 256];
    match codec::check(forest, work, &mut ends) {
        Err(r) if r.check.number() == Check::OneShape.number() => {
            Some(Forest::new(forest).opcode(r.place as usize))
        }
        _ => None,
    }
}

// The line of an opcode that has two shapes, over the output's start; the answer is its length.
// Rules out: the opcode in decimal; the newline left out.
#[tactic(auto, unfolding(model::specs::ArchiveLister::mixed_line, model::specs::Text::text))]
fn put_mixed(out: &mut [u8], opcode: u8) -> usize
    requires { 9 ≤ length out.old }
    ensures { Wrote out.old 0 (mixed_line opcode) out.new result }
{
    let mut line = Output::new(out);
    line.put_bytes(b"mixed ");
    text::put_hex(&mut line, opcode);
    line.put_byte(b'\n');
    line.at
}

// The text for a forest, over the output's start; the answer is its length. What the output holds past the text, and the
// words, is left free.
// Rules out: the lister's line of 16; a line where another number refuses.
fn list(forest: &[u8], out: &mut [u8], work: &mut [u32]) -> usize
    requires { (length out.old ≡ 65535) × (WORDS ≤ length work.old) }
    ensures in_bounds { result ≤ length out.new }
    ensures text { take result out.new ≡ archive_lister forest.now }
{
    match mixed_opcode(forest, work) {
        Some(opcode) => put_mixed(out, opcode),
        None => listing::list(forest, out, work),
    }
}

// The program, over any input and output.
// Rules out: the text of another forest; a byte past the text; a forest over 65,535 bytes that is not refused.
fn run<I: Read, O: Write>(input: &mut I, output: &mut O) -> io::Result<()>
    ensures { OnOk result (IfSome (I.remaining input.old) (λ bs. Appends (O.contents output.old)
        (O.contents output.new) (archive_lister (take 65536 bs)))) }
{
    let mut forest = [0u8; 65536];
    let n = streams::read_full(input, &mut forest)?;
    let mut out = [0u8; 65535];
    let mut work = [0u32; 16384];
    let length = list(&forest[..n], &mut out, &mut work);
    output.write_all(&out[..length])
}

fn main(rt: HostRuntime) -> io::Result<()> {
    run(&mut rt.stdin(), &mut rt.stdout())
}
