// Replays a list of forests. A row of standard input is a 32-bit length and so many bytes, at most 65,536; for each
// row the answer of the checks is printed on a line: of an accepted forest also the number of the first record after
// each record's subtree. A read or a write that fails ends the program with its error.
// In order: the line of an accepted forest; the answer for a forest; a row; the rows; the program, over any input and
// output.
#![tactic(auto)]

ghost use Rattle.std.specs.Prelude.{◌+◌, ◌*◌, ◌≤◌, OnOk, IfOk, IfSome, length};
ghost use Rattle.std.specs.Io.KnownBytes.{Appends};
ghost use Rattle.output.specs.Output.{Wrote, Room, Put};
ghost use Rattle.replay_check.specs.Line.{spaced, accepted, line, forest_of, Answered, lines};

use output::Output;
use std::io;
use std::io::{Read, Write};

// How many rows are answered.
const ROWS: usize = 65536;

// Room for an accepted forest's line: `accepted` and a newline, and for each record a space and at most twenty digits.
const LINE: usize = 9 + 21 * 256;

// Ends in decimal, each after a space. Rules out: the first left out; a space after the last.
fn put_spaced(out: &mut Output, ends: &[u16])
    requires { Room out.old (21 * length ends.now) }
    ensures { Put out.old (spaced ends.now) out.new }
{
    for &end in ends {
        out.put_byte(b' ');
        text::put_decimal(out, u64::from(end));
    }
}

// The line of an accepted forest with these ends, over the output's start; gives its length.
// Rules out: the ends from the second record on; the newline left out.
fn put_accepted(out: &mut [u8], ends: &[u16]) -> usize
    requires { 9 + 21 * length ends.now ≤ length out.old }
    ensures { Wrote out.old 0 (accepted ends.now) out.new result }
{
    let mut line = Output::new(out);
    line.put_bytes(b"accepted");
    put_spaced(&mut line, ends);
    line.put_byte(b'\n');
    line.at
}

// Writes the line of an accepted forest. Rules out: the line of no ends; a byte past the line.
fn write_accepted<W: Write>(output: &mut W, ends: &[u16]) -> io::Result<()>
    requires { length ends.now ≤ 256 }
    ensures { OnOk result (Appends (W.contents output.old) (W.contents output.new) (accepted ends.now)) }
{
    let mut line = [0u8; LINE];
    let n = put_accepted(&mut line, ends);
    output.write_all(&line[..n])
}

// The answer for a forest. Rules out: an end for each of the 256 entries; the place before a refusal's number.
#[tactic(auto, unfolding(crate::specs::Line::line_of))]
fn answer<W: Write>(output: &mut W, forest: &[u8], work: &mut [u32; 3840]) -> io::Result<()>
    ensures { OnOk result (Appends (W.contents output.old) (W.contents output.new) (line forest.now)) }
{
    let mut ends = [0u16; 256];
    match codec::check(forest, work, &mut ends) {
        Ok(formed) => write_accepted(output, &ends[..formed.laid.record_count()]),
        Err(refused) => streams::write_refusal(output, refused),
    }
}

// Answers the next row; false at the end of the list.
// Rules out: a row passed over; an answer for a row that the list ends in; a byte of the next row read.
fn row<R: Read, W: Write>(
    input: &mut R,
    output: &mut W,
    forest: &mut [u8],
    work: &mut [u32; 3840],
) -> io::Result<bool>
    ensures { IfOk result (λ more. IfSome (R.remaining input.old) (λ bs.
        Answered (forest_of (length forest.old) bs) bs more (R.remaining input.new) (W.contents output.old)
        (W.contents output.new))) }
{
    let mut head = [0u8; 4];
    if streams::read_full(input, &mut head)? < head.len() {
        return Ok(false);
    }
    let n = u32::from_le_bytes(head) as usize;
    if forest.len() < n {
        return Ok(false);
    }
    if streams::read_full(input, &mut forest[..n])? < n {
        return Ok(false);
    }
    answer(output, &forest[..n], work)?;
    Ok(true)
}

// Answers up to 65,536 rows; `_k` has a name, since the proof counts the rows by it.
// Rules out: a row left out; a line after a row that the list ends in.
fn rows<R: Read, W: Write>(
    input: &mut R,
    output: &mut W,
    forest: &mut [u8],
    work: &mut [u32; 3840],
) -> io::Result<()>
    ensures { OnOk result (IfSome (R.remaining input.old) (λ bs. Appends (W.contents output.old)
        (W.contents output.new) (lines (length forest.old) ROWS bs))) }
{
    for _k in 0..ROWS {
        if !row(input, output, forest, work)? {
            break;
        }
    }
    Ok(())
}

// The program, over any input and output. Rules out: the lines of another list; a forest of 65,536 bytes passed over.
fn run<R: Read, W: Write>(input: &mut R, output: &mut W) -> io::Result<()>
    ensures { OnOk result (IfSome (R.remaining input.old) (λ bs. Appends (W.contents output.old)
        (W.contents output.new) (lines 65536 ROWS bs))) }
{
    rows(input, output, &mut [0; 65536], &mut [0; 3840])
}

fn main(rt: HostRuntime) -> io::Result<()> {
    run(&mut rt.stdin(), &mut rt.stdout())
}
