// Checks 2 to 6 and 16 of a forest, and all of its checks in order, with where each subtree ends. A check gives the place
// where it fails: a record, or their count, so at most 256.
// In order: 2; 3; 4; 5; 6; 16; all of them.
#![tactic(auto)]

mod accepted;

ghost use Rattle.std.specs.Prelude.{◌≡◌, ◌+◌, ◌*◌, ◌<◌, ◌≤◌, length, IfSome, IfOk};
ghost use Rattle.model.specs.Ends.{entries};
ghost use Rattle.model.specs.Forest as model;
ghost use Rattle.model.specs.Shape as table;
ghost use Rattle.record.specs.Record.{row_at};
ghost use Rattle.regions.specs.Regions.{IDS, end};
ghost use Rattle.codec.specs.Accepted.{Passes};
ghost use Rattle.codec.specs.Codec.{bad_pair, Layout, Answered, Judged};

pub use accepted::Accepted;
use record::Forest;
use refusal::{Check, Refusal};
use walk::{Formed, Test};

// Check 2: the forest's length, and the header's counts.
// Rules out: a place for 65,535 bytes whose counts are right; nothing for 257 records.
#[tactic(auto, unfolding(model::specs::Forest::check2))]
fn check2(forest: &[u8]) -> Option<usize>
    ensures value { result ≡ model.check2 forest.now }
    ensures low { IfSome result (λ p. p ≤ 256) }
{
    let stands = (4..=65535).contains(&forest.len())
        && (1..=16).contains(&record::tree_count(forest))
        && (1..=256).contains(&record::record_count(forest));
    if stands { None } else { Some(0) }
}

// Whether a pair of the directory is out of place, too short, or last and not at the forest's end.
fn bad_pair(total: usize, from: usize, at: usize, size: usize, last: bool) -> bool
    requires { (at < 65536) × (size < 65536) }
    ensures { result ≡ bad_pair total from at size last }
{
    at != from || size < 5 || (last && at + size != total)
}

// Check 3: the directory.
// Rules out: nothing where bytes stand after the last record; the record after the one that offends.
#[tactic(auto, using(crate::proofs::Directory::directory))]
fn check3(forest: &[u8]) -> Option<usize>
    requires { model.check2 forest.now ≡ None }
    ensures value { result ≡ model.check3 forest.now }
    ensures low { IfSome result (λ p. p ≤ 256) }
{
    let total = forest.len();
    let n = record::record_count(forest);
    let mut from = 4 + 4 * n;
    if total < from {
        return Some(0);
    }
    for i in 0..n {
        let at = record::number16(forest, 4 + 4 * i);
        let size = record::number16(forest, 6 + 4 * i);
        if bad_pair(total, from, at, size, i + 1 == n) {
            return Some(i);
        }
        from = at + size;
    }
    None
}

// Whether record i fits its shape.
fn fits(forest: &Forest, i: usize) -> bool
    requires i_bound { i < model.record_count forest.now }
    ensures { result ≡ table.fits (row_at forest.now i) }
{
    shape::fits(
        forest.shape(i),
        forest.kids(i),
        forest.aux(i),
        forest.literal(i),
    )
}

// Check 4: records against their shapes. Rules out: the last record that does not fit; nothing for shape 27.
#[tactic(auto, using(crate::proofs::Rows::searching))]
fn check4(forest: &Forest) -> Option<usize>
    ensures value { result ≡ model.check4 forest.now }
    ensures low { IfSome result (λ p. p ≤ 256) }
{
    (0..forest.record_count()).find(|&i| !fits(forest, i))
}

// Whether record i's opcode agrees with its shape.
fn agrees(forest: &Forest, i: usize) -> bool
    requires i_bound { i < model.record_count forest.now }
    ensures { result ≡ table.agrees (row_at forest.now i).rec }
{
    shape::agrees(forest.shape(i), forest.opcode(i))
}

// Check 5: opcodes against shapes.
// Rules out: the last record that does not agree; nothing for opcode 00 with shape 2.
#[tactic(auto, using(crate::proofs::Rows::searching))]
fn check5(forest: &Forest) -> Option<usize>
    ensures value { result ≡ model.check5 forest.now }
    ensures low { IfSome result (λ p. p ≤ 256) }
{
    (0..forest.record_count()).find(|&i| !agrees(forest, i))
}

// Check 6: the trees close. Rules out: the last record for one left over; the tree count where records lack.
#[tactic(auto, using(crate::proofs::Closing::closing))]
fn check6(forest: &Forest) -> Option<usize>
    ensures value { result ≡ model.check6 forest.now }
    ensures low { IfSome result (λ p. p ≤ 256) }
{
    let n = forest.record_count();
    let mut left = forest.tree_count();
    for i in 0..n {
        if left == 0 {
            return Some(i);
        }
        left = left - 1 + forest.kids(i);
    }
    if left == 0 { None } else { Some(n) }
}

// Check 16: one opcode, one shape. As long as none had two, the table has the shape of each opcode that was met; 00 is not
// tested.
// Rules out: the earlier of the two records; nothing where the two stand in different trees.
#[tactic(auto, using(crate::proofs::OneShape::meeting))]
fn check16(forest: &Forest) -> Option<usize>
    ensures value { result ≡ model.check16 forest.now }
    ensures low { IfSome result (λ p. p ≤ 256) }
{
    let mut shapes = [None; 256];
    for i in 0..forest.record_count() {
        let shape = forest.shape(i);
        let opcode = forest.opcode(i);
        match shapes[opcode as usize] {
            Some(met) => {
                if opcode != 0 && met != shape {
                    return Some(i);
                }
            }
            None => shapes[opcode as usize] = Some(shape),
        }
    }
    None
}

// Checks 2 to 6, in order, of these bytes: the forest, well-formed, or the first check that fails.
#[tactic(auto, using(crate::proofs::Accepting::answers), unfolding(model::specs::Accept::accept, model::specs::Accept::checks, model::specs::Answer::checked, model::specs::Answer::unless))]
fn layout(bytes: &[u8]) -> Result<Formed, Refusal>
    ensures { Layout bytes.now result }
{
    Refusal::at(Check::Header, check2(bytes))?;
    Refusal::at(Check::Directory, check3(bytes))?;
    let laid = Forest::new(bytes);
    Refusal::at(Check::Shapes, check4(&laid))?;
    Refusal::at(Check::Opcodes, check5(&laid))?;
    Refusal::at(Check::Closing, check6(&laid))?;
    Ok(Formed { laid })
}

// The first of checks 7, 16 and 8 to 10 that fails, of a forest that passes checks 2 to 6: one walk or search for each, in
// order.
// Rules out: 9 where 8 fails in a later record; 16 where 7 fails in a later record; a place of another check.
#[tactic(auto, using(crate::proofs::Accepting::answers), unfolding(model::specs::Accept::accept, model::specs::Accept::checks, model::specs::Answer::checked, model::specs::Answer::unless))]
fn fault(forest: &Formed, work: &mut [u32], ends: &mut [u16; 256]) -> Result<(), Refusal>
    requires agree { model.check5 forest.now.laid ≡ None }
    requires end_in_bounds { end IDS ≤ length work.old }
    ensures { Answered forest.now.laid work.old work.new ends.old ends.new result }
{
    Refusal::at(Check::Depth, walk::trees(forest, work, ends, Test::Depth))?;
    Refusal::at(Check::OneShape, check16(&forest.laid))?;
    Refusal::at(
        Check::Definitions,
        walk::trees(forest, work, ends, Test::Definitions),
    )?;
    Refusal::at(
        Check::Bindings,
        walk::trees(forest, work, ends, Test::Bindings),
    )?;
    Refusal::at(Check::Uses, walk::trees(forest, work, ends, Test::Uses))
}

// Checks 7, 16 and 8 to 10, in order, of a forest that passes checks 2 to 6. One walk tests all but 16, and where it finds
// nothing no other is needed. Where none fails, the entries of all records say where their subtrees end.
// Rules out: nothing where 10 or 16 alone fails; 10 where it fails in a record before one that fails 7.
#[tactic(auto, using(crate::proofs::Accepting::answers))]
fn bindings(forest: &Formed, work: &mut [u32], ends: &mut [u16; 256]) -> Result<(), Refusal>
    requires agree { model.check5 forest.now.laid ≡ None }
    requires end_in_bounds { end IDS ≤ length work.old }
    ensures { Answered forest.now.laid work.old work.new ends.old ends.new result }
{
    match walk::trees(forest, work, ends, Test::Any) {
        Some(_) => fault(forest, work, ends),
        None => Refusal::at(Check::OneShape, check16(&forest.laid)),
    }
}

// Checks 2 to 7, 16 and 8 to 10 of these bytes, "in that order, each over the whole forest before the next": the forest,
// which passes them all, or the first that fails with its place. Whatever `ends` held, it says for each record of an
// accepted forest where its subtree ends; its other entries are 0, and all are after a refusal. After a refusal by 2 to 6 no
// word has changed; else the words of IDS held the ids in force and may hold anything, and the others are as they were.
// Rules out: 9 where 8 fails in a later record; a forest where a definition's value uses it; another forest; an end that
// a refused forest's walk has noted; an entry past the last record left as it was.
#[tactic(auto, using(crate::proofs::Accepting::answers))]
pub fn check<'a>(
    bytes: &'a [u8],
    work: &mut [u32],
    ends: &mut [u16; 256],
) -> Result<Formed<'a>, Refusal>
    requires { end IDS ≤ length work.old }
    ensures judged { Judged bytes.now work.old work.new result }
    ensures forest { IfOk result (λ f. (f.laid ≡ bytes.now) × Passes bytes.now) }
    ensures ends { ends.new ≡ entries bytes.now }
{
    ends.fill(0);
    let formed = layout(bytes)?;
    if let Err(refused) = bindings(&formed, work, ends) {
        ends.fill(0);
        return Err(refused);
    }
    Ok(formed)
}
