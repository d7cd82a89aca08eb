// A sheet of a forest: a line a record, as text, for a person to hold against the bytes. Model's `Sheet` says what it
// is; a lambda's sheet:
//
//   0  FuncValue D9  args 7  literal 0700000000
//   1    Two 9A PLUS
//   2      ValUse 72  id 7  literal 07000000
//   3      Const 00  SInt  literal 0402
//
// Text goes into an output, as far as there is room; no other byte is touched (`PutClipped`). A forest that a check
// refuses has one line, as `refused 10 at 0`.
// In order: a record's number and depth; what it has; its line; trees; the sheet; the line of a refusal.
#![tactic(auto)]

mod clip;
mod names;

ghost use Rattle.std.specs.Prelude.{◌≡◌, ℕ, ◌+◌, ◌-◌, ◌<◌, ◌≤◌, ◌++◌, length, get_or};
ghost use Rattle.model.specs.Text.{text};
ghost use Rattle.model.specs.Bytes.{u32};
ghost use Rattle.model.specs.Tree.{rec, many};
ghost use Rattle.model.specs.Forest.{record_count, trees_of};
ghost use Rattle.model.specs.Lister.{numeral, refusal};
ghost use Rattle.model.specs.Sheet.{id_texts, args_text, mark_text, const_text, own_text, literal_text, place_text, record_line, forest_lines};
ghost use Rattle.shape.specs.Reading.{AllArgs};
ghost use Rattle.walk.specs.Words.{arg_ids_at};
ghost use Rattle.walk.specs.Walk.{trees_from, rec_at};
ghost use Rattle.sheet.specs.Clip.{Clipped, PutClipped};
ghost use Rattle.sheet.specs.Shown.{Fits, Shown};

use clip::{put, put_hexes, put_number, put_spaces, put_text};
use names::{put_class, put_opcode, put_shape};
use output::Output;
use shape::{Args, CONST, FUNC_VALUE, SELECT_FIELD, VAL_DEF, VAL_USE};
use walk::Formed;

// ---- a record's number and its depth

// How many spaces stand before a record's number, so that it takes three columns.
fn pad(i: usize) -> usize
    ensures { result ≡ 3 - length (numeral i) }
{
    match i {
        0..=9 => 2,
        10..=99 => 1,
        _ => 0,
    }
}

// Record i's number, and the spaces of its depth.
fn put_place(out: &mut Output, i: usize, depth: usize)
    requires { depth ≤ 257 }
    ensures { PutClipped out.old (place_text i depth) out.new }
{
    put_spaces(out, pad(i));
    put_number(out, i as u64);
    put_spaces(out, 2 * depth);
}

// ---- what a record has

// The ids of a lambda's n arguments.
#[tactic(auto, using(shape::proofs::Reading::all_stand))]
fn put_ids(out: &mut Output, lit: &[u8], n: u8)
    requires { AllArgs n lit.now }
    ensures { PutClipped out.old (id_texts (arg_ids_at n lit.now)) out.new }
{
    for arg in Args::new(lit, n) {
        put(out, b' ');
        put_number(out, u64::from(arg.id));
    }
}

// The ids of a lambda's n arguments, if it has any.
fn put_args(out: &mut Output, lit: &[u8], n: u8)
    requires { AllArgs n lit.now }
    ensures { PutClipped out.old (args_text (arg_ids_at n lit.now)) out.new }
{
    if n == 0 {
        return;
    }
    put_text(out, b"  args");
    put_ids(out, lit, n);
}

// The id of a use or a definition.
fn put_id(out: &mut Output, lit: &[u8])
    requires { 4 ≤ length lit.now }
    ensures { PutClipped out.old (text "  id " ++ numeral (u32 lit.now)) out.new }
{
    put_text(out, b"  id ");
    put_number(out, u64::from(shape::id(lit)));
}

// The field that a selection selects.
fn put_field(out: &mut Output, lit: &[u8])
    requires { 1 ≤ length lit.now }
    ensures { PutClipped out.old (text "  field " ++ numeral (get_or lit.now 0 0)) out.new }
{
    put_text(out, b"  field ");
    put_number(out, u64::from(lit[0]));
}

// A mark, if it is not 0.
fn put_mark(out: &mut Output, mark: u8)
    ensures { PutClipped out.old (mark_text mark) out.new }
{
    if mark == 0 {
        return;
    }
    put_text(out, b" mark ");
    put_number(out, u64::from(mark));
}

// The class and the mark of a constant.
fn put_const(out: &mut Output, aux: u8)
    ensures { PutClipped out.old (const_text aux) out.new }
{
    put_class(out, record::class(aux));
    put_mark(out, record::mark(aux));
}

// What a record of a shape has beside its literal.
fn put_own(out: &mut Output, shape: u8, aux: u8, lit: &[u8])
    requires { Fits shape aux lit.now }
    ensures { (op : ℕ) → PutClipped out.old (own_text (rec shape op aux lit.now)) out.new }
{
    match shape {
        CONST => put_const(out, aux),
        VAL_USE | VAL_DEF => put_id(out, lit),
        FUNC_VALUE => put_args(out, lit, aux),
        SELECT_FIELD => put_field(out, lit),
        _ => (),
    }
}

// A literal in hex, if it is not empty.
fn put_literal(out: &mut Output, lit: &[u8])
    ensures { PutClipped out.old (literal_text lit.now) out.new }
{
    if lit.is_empty() {
        return;
    }
    put_text(out, b"  literal ");
    put_hexes(out, lit);
}

// ---- a line

// Record i's line.
fn put_line(out: &mut Output, forest: &Formed, i: usize, depth: usize)
    requires depth_bound { depth ≤ 257 }
    requires i_bound { i < record_count forest.now.laid }
    ensures { PutClipped out.old (record_line i depth (rec_at forest.now.laid i)) out.new }
{
    let shape = forest.laid.shape(i);
    let lit = reader::literal_at(forest.laid.bytes(), i);
    put_place(out, i, depth);
    put_shape(out, shape);
    put_opcode(out, forest.laid.opcode(i));
    put_own(out, shape, forest.laid.aux(i), lit);
    put_literal(out, lit);
    put(out, b'\n');
}

// ---- trees

// The lines of `count` trees, from record `first` on: a record is followed by its children's subtrees, in order.
// The answer is the record after them.
fn put_trees(forest: &Formed, out: &mut Output, first: usize, count: usize, depth: usize) -> usize
    requires count_bound { count ≤ many (trees_from forest.now.laid first) }
    requires depth_bound { depth ≤ first + 1 }
    ensures { Shown forest.now.laid first depth count out.old out.new result }
{
    let mut i = first;
    for _ in 0..count {
        put_line(out, forest, i, depth);
        i = put_trees(forest, out, i + 1, forest.laid.kids(i), depth + 1);
    }
    i
}

// ---- the sheet

// The sheet of a forest at the start of out, as far as there is room; gives its length.
// Rules out: another opcode's name; another record's literal; a child no further in; a byte past the text touched.
pub fn write(forest: &Formed, out: &mut [u8]) -> usize
    ensures { Clipped out.old 0 (forest_lines (trees_of forest.now.laid)) out.new result }
{
    let mut sheet = Output::new(out);
    put_trees(forest, &mut sheet, 0, forest.laid.tree_count(), 1);
    sheet.at
}

// The one line for a forest that a check refuses, at the start of out, as far as there is room; gives its length.
// Rules out: the place before the number; the newline left out.
pub fn write_refusal(number: u32, place: usize, out: &mut [u8]) -> usize
    ensures { Clipped out.old 0 (refusal number place) out.new result }
{
    let mut line = [0u8; text::LINE];
    let k = text::put_refusal(&mut line, u64::from(number), place as u64);
    let mut sheet = Output::new(out);
    put_text(&mut sheet, &line[..k]);
    sheet.at
}
