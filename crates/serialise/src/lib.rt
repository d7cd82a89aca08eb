// A planned tree as bytes. In order: a lambda's arguments; one row, and its length; the tree's length; its directory,
// its records, and the whole, front to back.
// Planned rows are told by their first word and their number, as `plan_from` has them; that they are there and can be
// written stays a clause, since only both together say what of the words is a plan.
#![tactic(auto)]

ghost use Rattle.std.specs.Prelude.{◌≡◌, true, ◌+◌, ◌*◌, ◌<◌, ◌≤◌, length};
ghost use Rattle.model.specs.Tree.{row_bytes, row_len, directory, bodies};
ghost use Rattle.model.specs.Binding.{args_of};
ghost use Rattle.model.specs.Forest.{record_count};
ghost use Rattle.model.specs.Materialize.{arg_lit};
ghost use Rattle.laws.specs.Rows.{total};
ghost use Rattle.shape.specs.Reading.{AllArgs};
ghost use Rattle.record.specs.Record.{row_at};
ghost use Rattle.plan.specs.declared.Planned.TheVariants.{Lambda};
ghost use Rattle.plan.specs.Plan.{plan_from, row_for, Renumbered, Writable, AllWritable, planned_rows};
ghost use Rattle.output.specs.Output.{over, Room, Put};
ghost use Rattle.serialise.specs.Serialise.{planned_bytes};

use output::Output;
use plan::Planned;
use record::Forest;
use shape::{Args, FUNC_VALUE, FUNC_VALUE_OP};

// The arguments of the literal `lit`, their ids replaced by the numbers after `last`.
// Rules out: the first argument numbered `last`; an opt left out.
#[tactic(auto, using(crate::proofs::Args::writing))]
fn put_args(out: &mut Output, lit: &[u8], n: u8, last: u32)
    requires all { AllArgs n lit.now }
    requires room { Room out.old (length lit.now) }
    requires n_bound { last + n < 4294967296 }
    ensures { Put out.old (arg_lit last (args_of n lit.now)) out.new }
{
    let mut id = last;
    for arg in Args::new(lit, n) {
        id += 1;
        out.put_32(id);
        out.put_bytes(arg.opt);
    }
}

// The forest's lambda i, its arguments numbered after `last`.
fn put_lambda(forest: &Forest, out: &mut Output, i: u32, last: u32)
    requires i_bound { i < record_count forest.now }
    requires renumbered { Renumbered (row_at forest.now i) last }
    requires room { Room out.old (row_len (row_at forest.now i)) }
    ensures { Put out.old (row_bytes (row_for forest.now (Lambda i last))) out.new }
{
    let aux = forest.aux(i as usize);
    let lit = forest.literal(i as usize);
    writer::put_fixed(out, FUNC_VALUE, FUNC_VALUE_OP, 1, aux);
    put_args(out, lit, aux, last);
}

// The bytes of one planned row.
#[tactic(auto, using(crate::proofs::Rows::lengths), unfolding(plan::specs::Plan::row_for, model::specs::Tree::row_len))]
fn put_row(forest: &Forest, out: &mut Output, p: Planned)
    requires writable { Writable forest.now p }
    requires room { Room out.old (row_len (row_for forest.now p)) }
    ensures { Put out.old (row_bytes (row_for forest.now p)) out.new }
{
    match p {
        Planned::Copy(i) => writer::put_copy(forest, out, i),
        Planned::Field(f) => writer::put_field(out, f as u8),
        Planned::ValUse(id) => writer::put_val_use(out, id),
        Planned::ValDef(id, _) => writer::put_val_def(out, id),
        Planned::Block(kids) => writer::put_block(out, kids as usize),
        Planned::Lambda(i, last) => put_lambda(forest, out, i, last),
    }
}

// How many bytes a planned row takes.
#[tactic(auto, using(crate::proofs::Rows::lengths), unfolding(plan::specs::Plan::row_for, model::specs::Tree::row_len))]
fn row_len(forest: &Forest, p: Planned) -> usize
    requires writable { Writable forest.now p }
    ensures { (result ≡ row_len (row_for forest.now p)) × (result < 65536) }
{
    match p {
        Planned::Copy(i) | Planned::Lambda(i, _) => forest.size(i as usize),
        Planned::Field(_) => 6,
        Planned::ValUse(_) => 9,
        Planned::ValDef(_, _) => 10,
        Planned::Block(_) => 5,
    }
}

// How many bytes the tree of the `n` rows planned from word `at` on takes, with header and directory.
// Rules out: the records alone, without the directory; the plan's row after the last counted too.
pub fn tree_length(forest: &Forest, work: &[u32], at: usize, n: usize) -> usize
    requires all_writable { AllWritable forest.now (plan_from work.now at n) }
    requires n_in_bounds { at + 3 * n ≤ length work.now }
    requires n_bound { n ≤ 256 }
    ensures { result ≡ length (planned_bytes forest.now work.now at n) }
{
    let mut sum = 4 + 4 * n;
    for row in work[at..at + 3 * n].chunks_exact(3) {
        sum += row_len(forest, plan::load(row, 0));
    }
    sum
}

// The directory of the planned rows, after the header: each row's offset and length.
fn put_directory(forest: &Forest, work: &[u32], at: usize, n: usize, out: &mut Output)
    requires all_writable { AllWritable forest.now (plan_from work.now at n) }
    requires n_in_bounds { at + 3 * n ≤ length work.now }
    requires room { Room out.old (4 * n) }
    requires n_bound { 4 + 4 * n + total (planned_rows forest.now work.now at n) ≤ 65535 }
    ensures { Put out.old (directory (4 + 4 * n) (planned_rows forest.now work.now at n)) out.new }
{
    let mut offset = 4 + 4 * n;
    for row in work[at..at + 3 * n].chunks_exact(3) {
        let size = row_len(forest, plan::load(row, 0));
        out.put_16(offset);
        out.put_16(size);
        offset += size;
    }
}

// The planned rows' records, one after the other.
fn put_bodies(forest: &Forest, work: &[u32], at: usize, n: usize, out: &mut Output)
    requires all_writable { AllWritable forest.now (plan_from work.now at n) }
    requires n_in_bounds { at + 3 * n ≤ length work.now }
    requires room { Room out.old (total (planned_rows forest.now work.now at n)) }
    ensures { Put out.old (bodies (planned_rows forest.now work.now at n)) out.new }
{
    for row in work[at..at + 3 * n].chunks_exact(3) {
        put_row(forest, out, plan::load(row, 0));
    }
}

// The tree of the `n` rows planned from word `at` on, written over the output's start. The answer is its length.
// Rules out: offsets counted from the first record on; a byte past the tree's end touched.
pub fn write_tree(forest: &Forest, work: &[u32], at: usize, n: usize, out: &mut [u8]) -> usize
    requires all_writable { AllWritable forest.now (plan_from work.now at n) }
    requires n_in_bounds { at + 3 * n ≤ length work.now }
    requires n_bound { n ≤ 256 }
    requires n_in_bounds_2 { length (planned_bytes forest.now work.now at n) ≤ length out.old }
    requires n_len_bound { length (planned_bytes forest.now work.now at n) ≤ 65535 }
    ensures value { result ≡ length (planned_bytes forest.now work.now at n) }
    ensures out_after { out.new ≡ over out.old 0
        (planned_bytes forest.now work.now at n) }
{
    let mut tree = Output::new(out);
    tree.put_16(1);
    tree.put_16(n);
    put_directory(forest, work, at, n, &mut tree);
    put_bodies(forest, work, at, n, &mut tree);
    tree.at
}
