// Shows the forest on standard input as a sheet, a line a record (model's `Sheet` says what it is), or, where a check
// from 2 to 10, or 16, refuses it, as the one line `refused N at P`. At most 65,536 bytes are read: one more than a forest may
// have. A read or a write that fails ends the program with its error.
#![tactic(auto)]

ghost use Rattle.std.specs.Prelude.{◌≡◌, length, take, OnOk, IfSome};
ghost use Rattle.std.specs.Io.KnownBytes.{Appends};
ghost use Rattle.model.specs.Sheet as model;
ghost use Rattle.sheet.specs.Clip.{Clipped};

use std::io;
use std::io::{Read, Write};

// More than any sheet takes: 131,070 hex digits of literals, and 256 lines with less than 400 bytes beside. It is made
// here, since a proof that sees so many zeros counts them one by one.
fn room() -> [u8; 262144]
    ensures { 262144 ≡ length result }
{
    [0; 262144]
}

// What is shown for a forest, put at the start of text, as far as there is room; gives its length.
#[tactic(auto, unfolding(model::specs::Sheet::sheet, model::specs::Sheet::sheet_of))]
fn shown(forest: &[u8], work: &mut [u32; 3840], text: &mut [u8]) -> usize
    ensures { Clipped text.old 0 (model.sheet forest.now) text.new result }
{
    let mut ends = [0u16; 256];
    match codec::check(forest, work, &mut ends) {
        Ok(formed) => sheet::write(&formed, text),
        Err(refused) => sheet::write_refusal(refused.check.number(), refused.place as usize, text),
    }
}

// The program, over any input and output.
// Rules out: the sheet of another forest; a byte past the text; a forest over 65,535 bytes that is not refused.
fn run<I: Read, O: Write>(input: &mut I, output: &mut O) -> io::Result<()>
    ensures { OnOk result (IfSome (I.remaining input.old) (λ bs. Appends (O.contents output.old)
        (O.contents output.new) (take 262144 (model.sheet (take 65536 bs))))) }
{
    let mut forest = [0u8; 65536];
    let mut work = [0u32; 3840];
    let mut text = room();
    let n = streams::read_full(input, &mut forest)?;
    let k = shown(&forest[..n], &mut work, &mut text);
    output.write_all(&text[..k])
}

fn main(rt: HostRuntime) -> io::Result<()> {
    run(&mut rt.stdin(), &mut rt.stdout())
}
