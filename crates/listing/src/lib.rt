// The lister's text for a forest: its symbols, the written tree's definitions, and the rules of symbols, a line each, or its
// refusal.
// In order: the lines; the text.
#![tactic(auto)]

ghost use Rattle.std.specs.Prelude.{◌≡◌, ◌++◌, ◌≤◌, length};
ghost use Rattle.model.specs.Call.{call_of};
ghost use Rattle.model.specs.Lister.{symbol_lines, saving_lines, rule_lines};
ghost use Rattle.regions.specs.Regions.{WORDS};
ghost use Rattle.symbols.specs.Symbols.{syms_of};
ghost use Rattle.gate.specs.Gate.{uses_at};
ghost use Rattle.output.specs.Output.{Wrote};
ghost use Rattle.rules.specs.Rules.{rules_to};
ghost use Rattle.lines.specs.Lines.{Listable};
ghost use Rattle.cse.specs.Call.{LentOnly};
ghost use Rattle.listing.specs.Listing.{Listed};

use output::Output;
use record::Forest;

// The lines of n symbols, whose uses are counted in the words, then those of definitions, then those of the rules of symbols,
// the words having the plan of the written tree in so many rows, over the output's start; the answer is their length.
// Rules out: the definitions first; the length of the symbols' lines alone.
fn put_lines(
    forest: &Forest,
    work: &[u32],
    n: usize,
    savings: &[(u32, i32)],
    rows: usize,
    out: &mut [u8],
) -> usize
    requires listable { Listable forest.now work.now n }
    requires few { length savings.now ≤ 256 }
    requires rows_bound { rows ≤ 256 }
    requires in_bounds { length out.old ≡ 65535 }
    ensures { Wrote out.old 0
        (symbol_lines (uses_at work.now) (syms_of forest.now work.now n)
        ++ saving_lines savings.now ++ rule_lines (rules_to forest.now work.now n rows n))
        out.new result }
{
    let mut text = Output::new(out);
    lines::put_symbols(forest, work, n, &mut text);
    lines::put_savings(savings, &mut text);
    lines::put_rules(forest, work, n, rows, &mut text);
    text.at
}

// The lister: the main call's pass, lent 65,535 output bytes, decides whether there is a refusal. It leaves the symbols,
// their uses from the root and the plan of the written tree in the words, and the tree's bytes in the output. What the tree's
// definitions save is read from these, and how many rows the plan has; then the text is written over the output's start, and
// the answer is its length. What the first 16,384 words hold afterwards is left free.
// Rules out: symbols of a forest whose tree is refused; a use by a symbol that the root does not reach counted; savings of
// the forest's own definitions; the rule of a symbol by a plan of the forest's length; a refusal's place before its number;
// a later word touched.
pub fn list(forest: &[u8], out: &mut [u8], work: &mut [u32]) -> usize
    requires { (length out.old ≡ 65535) × (WORDS ≤ length work.old) }
    ensures listed { Listed (call_of forest.now out.old work.old) out.old
        out.new result }
    ensures lent_only { LentOnly work.old work.new }
{
    match cse::pass(forest, out, work) {
        Ok(w) => {
            let tree = &out[..w.length as usize];
            let saved = savings::savings(tree);
            let rows = record::record_count(tree);
            put_lines(
                &Forest::new(forest),
                work,
                w.symbols as usize,
                &saved,
                rows,
                out,
            )
        }
        Err(r) => text::put_refusal(out, u64::from(r.check.number()), u64::from(r.place)),
    }
}
