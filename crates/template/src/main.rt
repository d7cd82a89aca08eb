// Reads a forest from standard input and prints one line of it: how many definitions its tree has and how many
// parameters the forest, or a mark with two values, or the refusal. Of a forest over 65,535 bytes 65,536 are read: it
// is refused for its length. A read or a write that fails ends the program with its error. The line's room stays a
// clause: an array would ask for just so many bytes. In order: the line of a mark with two values; that of a template;
// which of them; any forest; the program, over any input and output.
#![tactic(auto)]

ghost use Rattle.std.specs.Prelude.{◌≡◌, ◌<◌, ◌≤◌, length, take, OnOk, IfSome};
ghost use Rattle.std.specs.Io.KnownBytes.{Appends};
ghost use Rattle.model.specs.Tree.{rows};
ghost use Rattle.model.specs.Forest.{record_count, rows_in};
ghost use Rattle.model.specs.Call.{Written, ample, out_after, work_after};
ghost use Rattle.model.specs.TemplateLine.{two_values, verdict, template_line, LineSays};
ghost use Rattle.output.specs.Output.{Wrote};

use record::Forest;
use std::io;
use std::io::{Read, Write};

// The line of a record whose parameter had another value earlier: its mark, and its place.
// Rules out: the aux for the mark; the place before the mark.
#[tactic(auto, unfolding(model::specs::TemplateLine::verdict, model::specs::Text::text, record::specs::Record::row_at))]
fn put_two_values(forest: &Forest, p: usize, line: &mut [u8]) -> usize
    requires p_bound { (p < record_count forest.now) × (80 ≤ length line.old) }
    ensures { (w : Written) → Wrote line.old 0 (verdict forest.now w (Some p))
        line.new result }
{
    let mark = record::mark(forest.aux(p));
    text::put_line(
        line,
        b"two values of mark ",
        u64::from(mark),
        b" at ",
        p as u64,
        b"\n",
    )
}

// The line of a template, once its tree is written.
// Rules out: the forest's own definitions; the parameters before the definitions.
#[tactic(auto, unfolding(model::specs::TemplateLine::verdict, model::specs::Text::text))]
fn put_template(forest: &Forest, tree: &Forest, line: &mut [u8]) -> usize
    requires { 80 ≤ length line.old }
    ensures { (w : Written) → rows_in tree.now ≡ rows w.tree → Wrote line.old 0
        (verdict forest.now w None) line.new result }
{
    let d = parameters::definitions(tree);
    let p = parameters::parameters(forest);
    text::put_line(
        line,
        b"template: ",
        d as u64,
        b" definitions, ",
        p as u64,
        b" parameters\n",
    )
}

// The line of a forest whose tree is written.
// Rules out: a template where a parameter has two values; two values of a constant without a mark.
fn put_verdict(forest: &Forest, tree: &Forest, line: &mut [u8]) -> usize
    requires { 80 ≤ length line.old }
    ensures { (w : Written) → rows_in tree.now ≡ rows w.tree → Wrote line.old 0
        (verdict forest.now w (two_values forest.now)) line.new result }
{
    match parameters::two_values(forest) {
        Some(p) => put_two_values(forest, p, line),
        None => put_template(forest, tree, line),
    }
}

// The line of any forest, over the start of `line`; the answer is its length. The call's refusal comes first. Output
// and words are as the call leaves them. Where the line says that the forest is a template, the clause holds of every
// filling. Rules out: two values where the call refuses; definitions of the forest instead of the written tree's.
#[tactic(auto, using(theory::proofs::Templates::Line::line_says))]
fn judged(forest: &[u8], out: &mut [u8], work: &mut [u32], line: &mut [u8]) -> usize
    requires { (length out.old ≡ 65535) × (length work.old ≡ 16384) × (80 ≤ length line.old) }
    ensures wrote { Wrote line.old 0 (template_line forest.now) line.new result }
    ensures out_after { out.new ≡ out_after (ample forest.now) out.old }
    ensures work_after { work.new ≡ work_after work.old }
    ensures line_says { LineSays forest.now }
{
    match cse::cse(forest, out, work) {
        Ok(written) => {
            let tree = Forest::new(&out[..written.length as usize]);
            put_verdict(&Forest::new(forest), &tree, line)
        }
        Err(refused) => text::put_refusal(
            line,
            u64::from(refused.check.number()),
            u64::from(refused.place),
        ),
    }
}

// The program, over any input and output. Where the line says that the forest is a template, the clause holds of every
// filling. Rules out: the line of another forest; a byte past the line; a forest over 65,535 bytes that is not refused.
fn run<I: Read, O: Write>(input: &mut I, output: &mut O) -> io::Result<()>
    ensures line { OnOk result (IfSome (I.remaining input.old) (λ bs. Appends (O.contents output.old)
        (O.contents output.new) (template_line (take 65536 bs)))) }
    ensures says { OnOk result (IfSome (I.remaining input.old) (λ bs. LineSays (take 65536 bs))) }
{
    let mut forest = [0u8; 65536];
    let n = streams::read_full(input, &mut forest)?;
    let mut out = [0u8; 65535];
    let mut work = [0u32; 16384];
    let mut line = [0u8; 80];
    let k = judged(&forest[..n], &mut out, &mut work, &mut line);
    output.write_all(&line[..k])
}

fn main(rt: HostRuntime) -> io::Result<()> {
    run(&mut rt.stdin(), &mut rt.stdout())
}
