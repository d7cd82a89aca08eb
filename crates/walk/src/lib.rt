// Checks 7 to 10: one walk over a forest's records, with a test for each check, and one for all four. A record is
// followed by its children's subtrees, in order: the walk of a subtree gives the record after it, or the first that
// offends. So it also knows where each subtree ends, and notes it. The ids in force stand in work words.
// In order: well-formed forests; tests, and where a record stands; ids in force; what a record binds; the tests of one
// record; the walk.
#![tactic(auto)]

ghost use Rattle.std.specs.Prelude.{◌≡◌, not, ◌++◌, ◌+◌, ◌-◌, ◌<◌, ◌≤◌, eqb, length};
ghost use Rattle.std.specs.Bool.{beq};
ghost use Rattle.std.proofs.Props.{props};
ghost use Rattle.model.specs.Lists.{is_in};
ghost use Rattle.model.specs.Tree.{many};
ghost use Rattle.model.specs.Opcodes.{ValDef};
ghost use Rattle.model.specs.Forest.{record_count};
ghost use Rattle.model.specs.Binding.{id_of, inside, after, rebound_at, unbound_at};
ghost use Rattle.shape.specs.Reading.{AllArgs};
ghost use Rattle.regions.specs.Regions.{IDS, end};
ghost use Rattle.walk.specs.Faults.{any_at, test_at};
ghost use Rattle.walk.specs.Words.{ids_of, arg_ids_at, clash, Bound, ctx_of, child_of};
ghost use Rattle.walk.specs.Walk.{trees_from, rec_at, tree_at, WellFormed, CanStand, Walked, WalkedIn, Checked};

use record::Forest;
use shape::{Args, BLOCK_VALUE, FUNC_VALUE, VAL_DEF, VAL_USE};

// A well-formed forest: its records fit their shapes, and its trees close.
#[derive(Drop)]
pub struct Formed<'a> {
    pub laid: Forest<'a>,
    pub ghost formed: { WellFormed laid } by { Prim.hlevel props },
}

// What a walk tests of each record.
#[derive(Clone, Copy, Debug, PartialEq, Eq)]
pub enum Test {
    // any of the four
    Any,
    // check 7
    Depth,
    // check 8
    Definitions,
    // check 9
    Bindings,
    // check 10
    Uses,
}

// Where a record stands: its depth, whether a definition has to stand here, and how many ids are in force. They stand
// in work[0..top], the newest last.
#[derive(Clone, Copy)]
pub struct Context {
    pub depth: usize,
    pub def: bool,
    pub top: usize,
}

// ---- ids in force

// Whether an id is in force. Rules out: true of an id that stands from top on only; false of the oldest id.
fn in_force(work: &[u32], top: usize, id: u32) -> bool
    requires { top ≤ length work.now }
    ensures { result ≡ is_in id (ids_of work.now top) }
{
    // the newest first, since most uses are of an id that is near; `any`, and not `contains`: the checks then take 3 to 6 %
    // fewer instructions
    work[..top].iter().rev().any(|&x| x == id)
}

// Whether one of the ids from top to end stands before itself.
fn clashes(work: &[u32], top: usize, end: usize) -> bool
    requires { (top ≤ end) × (end ≤ length work.now) }
    ensures { result ≡ clash work.now top (end - top) }
{
    (top..end).any(|k| in_force(work, k, work[k]))
}

// ---- what a record binds

// Puts the ids of n arguments on top, the first newest.
#[tactic(auto, using(crate::proofs::Args::pushing))]
fn push_args(lit: &[u8], work: &mut [u32], n: u8, top: usize)
    requires all { AllArgs n lit.now }
    requires n_bound { (n ≤ 15) × (top + n ≤ IDS.size) × (end IDS ≤ length work.old) }
    ensures { Bound work.old top (arg_ids_at n lit.now) work.new (top + n) }
{
    for (k, arg) in (0..usize::from(n)).rev().zip(Args::new(lit, n)) {
        work[top + k] = arg.id;
    }
}

// Puts on top what record i binds in its children. Rules out: a definition's own id; the last argument newest.
#[tactic(auto, using(crate::proofs::Tests::records))]
fn enter(forest: &Formed, work: &mut [u32], i: usize, top: usize) -> usize
    requires i_bound { (i < record_count forest.now.laid) × (top + 15 ≤ IDS.size) × (end IDS ≤ length work.old) }
    ensures { Bound work.old top (inside (rec_at forest.now.laid i)) work.new result }
{
    if forest.laid.shape(i) != FUNC_VALUE {
        return top;
    }
    let n = forest.laid.aux(i);
    push_args(forest.laid.literal(i), work, n, top);
    top + usize::from(n)
}

// The id at the start of record i's literal.
#[tactic(auto, using(crate::proofs::Tests::id_is))]
fn id_of(forest: &Forest, i: usize) -> u32
    requires i_bound { (i < record_count forest.now) × (4 ≤ length (rec_at forest.now i).lit) }
    ensures { result ≡ id_of (rec_at forest.now i) }
{
    shape::id(forest.literal(i))
}

// Puts on top what record i's subtree binds in its later siblings. Rules out: a lambda's arguments; a use's id.
#[tactic(auto, using(crate::proofs::Tests::records))]
fn define(forest: &Formed, work: &mut [u32], i: usize, top: usize) -> usize
    requires i_bound { (i < record_count forest.now.laid) × (top < IDS.size) × (end IDS ≤ length work.old) }
    ensures { Bound work.old top (after (tree_at forest.now.laid i)) work.new result }
{
    if forest.laid.shape(i) != VAL_DEF {
        return top;
    }
    work[top] = id_of(&forest.laid, i);
    top + 1
}

// ---- the tests of one record

// Check 8 of a record.
fn misplaced(shape: u8, def: bool) -> bool
    ensures { result ≡ not (beq (eqb shape ValDef) def) }
{
    (shape == VAL_DEF) != def
}

// Check 9 of record i, with what it binds in its children from top to end.
#[tactic(auto, using(crate::proofs::Tests::records))]
fn rebound(forest: &Formed, work: &[u32], i: usize, top: usize, end: usize) -> bool
    requires i_bound { (i < record_count forest.now.laid) × (top ≤ end) × (end ≤ length work.now) }
    requires end_value { ids_of work.now end ≡ inside (rec_at forest.now.laid i) ++ ids_of work.now top }
    ensures { result ≡ rebound_at (ids_of work.now top) (rec_at forest.now.laid i) }
{
    if forest.laid.shape(i) == VAL_DEF {
        return in_force(work, top, id_of(&forest.laid, i));
    }
    clashes(work, top, end)
}

// Check 10 of record i.
#[tactic(auto, using(crate::proofs::Tests::records))]
fn unbound(forest: &Formed, work: &[u32], i: usize, top: usize) -> bool
    requires i_bound { (i < record_count forest.now.laid) × (top ≤ length work.now) }
    ensures { result ≡ unbound_at (ids_of work.now top) (rec_at forest.now.laid i) }
{
    forest.laid.shape(i) == VAL_USE && !in_force(work, top, id_of(&forest.laid, i))
}

// Whether record i fails any of checks 7 to 10.
// Rules out: false of a record that fails 9 alone; true where the ids that it binds are new.
#[tactic(auto, unfolding(crate::specs::Faults::any_at))]
fn offends_any(forest: &Formed, work: &[u32], i: usize, at: Context, end: usize) -> bool
    requires i_bound { (i < record_count forest.now.laid) × (at.top ≤ end) × (end ≤ length work.now) }
    requires end_value { ids_of work.now end ≡ inside (rec_at forest.now.laid i) ++ ids_of work.now at.top }
    ensures { result ≡ any_at (ctx_of work.now at) (rec_at forest.now.laid i) }
{
    64 < at.depth
        || misplaced(forest.laid.shape(i), at.def)
        || rebound(forest, work, i, at.top, end)
        || unbound(forest, work, i, at.top)
}

// Whether record i fails a test. An enum, since contracts name the test (`test_at`): a closure would bring a promise of
// its own into each function of the walk. Rules out: depth 64 for 7; a definition that is in force in its own value.
fn offends(forest: &Formed, work: &[u32], test: Test, i: usize, at: Context, end: usize) -> bool
    requires i_bound { (i < record_count forest.now.laid) × (at.top ≤ end) × (end ≤ length work.now) }
    requires end_value { ids_of work.now end ≡ inside (rec_at forest.now.laid i) ++ ids_of work.now at.top }
    ensures { result ≡ test_at test (ctx_of work.now at) (rec_at forest.now.laid i) }
{
    match test {
        Test::Any => offends_any(forest, work, i, at, end),
        Test::Depth => 64 < at.depth,
        Test::Definitions => misplaced(forest.laid.shape(i), at.def),
        Test::Bindings => rebound(forest, work, i, at.top, end),
        Test::Uses => unbound(forest, work, i, at.top),
    }
}

// ---- the walk

// Where a child of a record that stands at `at` stands, `left` being how many follow it, and top the ids in force.
fn child(at: Context, left: usize, top: usize) -> Context
    ensures { result ≡ child_of at left top }
{
    Context {
        depth: at.depth,
        def: at.def && 0 < left,
        top,
    }
}

// The walk of record i's subtree: the record after it, or the first that offends. The words of IDS from top on held the
// ids in force below it, and may hold anything; the others are as they were. Of the records below i it is noted where
// their subtrees end; where one offends, entries from i + 1 on may hold anything.
// Rules out: a fault of a later record where this one offends; the record after i's first child; an entry before i's.
#[cycle(subtree_subtrees)]
#[tactic(auto, using(crate::proofs::Walking::walking))]
fn subtree(
    forest: &Formed,
    work: &mut [u32],
    ends: &mut [u16; 256],
    test: Test,
    i: usize,
    at: Context,
) -> Result<usize, usize>
    requires i_bound { (i < record_count forest.now.laid) × (end IDS ≤ length work.old) × CanStand i at }
    ensures { Walked forest.now.laid test i at work.old work.new ends.old ends.new result }
{
    let end = enter(forest, work, i, at.top);
    if offends(forest, work, test, i, at, end) {
        return Err(i);
    }
    let count = forest.laid.kids(i);
    if count == 0 {
        return Ok(i + 1);
    }
    let inner = Context {
        depth: at.depth + 1,
        def: forest.laid.shape(i) == BLOCK_VALUE,
        top: end,
    };
    subtrees(forest, work, ends, test, i + 1, count, inner)
}

// The walk of `count` trees from record i on: the record after them, or the first that offends; of words as `subtree`.
// Of their records it is noted where their subtrees end, of the trees themselves too.
// Rules out: an id in force past its block's end; a fault in a tree past the last; the last tree's end for each of them.
#[cycle(subtree_subtrees)]
#[tactic(auto, using(crate::proofs::Walking::walking))]
fn subtrees(
    forest: &Formed,
    work: &mut [u32],
    ends: &mut [u16; 256],
    test: Test,
    i: usize,
    count: usize,
    at: Context,
) -> Result<usize, usize>
    requires count_bound { (count ≤ many (trees_from forest.now.laid i)) × (end IDS ≤ length work.old) × CanStand i at }
    ensures { WalkedIn forest.now.laid test i count at work.old work.new ends.old ends.new result }
{
    let mut j = i;
    let mut top = at.top;
    for left in (0..count).rev() {
        let next = subtree(forest, work, ends, test, j, child(at, left, top))?;
        ends[j] = next as u16;
        top = define(forest, work, j, top);
        j = next;
    }
    Ok(j)
}

// Where a test of a forest fails: check 7, 8, 9 or 10, or all four at once, of which a place says only that one of them
// fails. The words of IDS held the ids in force and may hold anything, whatever the answer; the others are as they
// were. Where the test fails nowhere, the entries of all records say where their subtrees end; entries past the last
// record are as they were.
// Rules out: the place counted in one tree and not in the forest; a check of the first tree only; an end counted from
// its own tree's first record.
#[tactic(auto, using(crate::proofs::Walking::walking))]
pub fn trees(forest: &Formed, work: &mut [u32], ends: &mut [u16; 256], test: Test) -> Option<usize>
    requires end_in_bounds { end IDS ≤ length work.old }
    ensures { Checked forest.now.laid test work.old work.new ends.old ends.new result }
{
    let start = Context {
        depth: 1,
        def: false,
        top: 0,
    };
    subtrees(forest, work, ends, test, 0, forest.laid.tree_count(), start).err()
}
