// Bytes saved by each definition of a forest (request A.1), read by the ends of its subtrees.
// In order: what definitions and uses cost; a subtree's size; uses; a saving; that of a record; those of trees in a row;
// those of an accepted forest; those of any bytes.
#![tactic(auto)]

ghost use Rattle.std.specs.Prelude.{◌≡◌, ◌++◌, ◌+◌, ◌-◌, ◌<◌, ◌≤◌, length, map};
ghost use Rattle.model.specs.Answer.{good};
ghost use Rattle.model.specs.Tree.{Trees};
ghost use Rattle.model.specs.Forest.{record_count, trees_of};
ghost use Rattle.model.specs.Accept.{accept};
ghost use Rattle.model.specs.Savings.{weight, is_use, saving, savings, sum_ℤ, counted};
ghost use Rattle.record.specs.Record.{row_at};
ghost use Rattle.savings.specs.Plain.{plain_uses};
ghost use Rattle.savings.specs.Siblings.{rows_between, between, Siblings, own_line};
ghost use Rattle.savings.specs.Saved.{saved};

use arrayvec::ArrayVec;
use codec::Accepted;
use shape::{VAL_DEF, VAL_USE};
use walk::Formed;

// The bytes of a definition's own record, with its pair.
const DEF_COST: i32 = 14;

// Those of a use.
const USE_COST: i32 = 13;

// The bytes of the records from number `from` up to `to`, and 4 for each pair. A `for`, since `sum` would ask for a bound
// on what each run of its iterator gives. Rules out: pairs left out; the record at `to` counted.
#[tactic(auto, using(crate::proofs::Rows::weighing))]
fn weight(forest: &Formed, from: usize, to: usize) -> usize
    requires { (from ≤ to) × (to ≤ record_count forest.now.laid) }
    ensures sum { result ≡ weight (rows_between forest.now.laid from to) }
    ensures small { result ≤ 66559 }
{
    let mut sum = 0;
    for i in from..to {
        sum += forest.laid.size(i) + 4;
    }
    sum
}

// Whether record i is a use of an id. Rules out: true of its definition; true of a use of another id.
#[tactic(auto, using(walk::proofs::Bridge::use_literal), unfolding(model::specs::Binding::id_of))]
fn is_use(forest: &Formed, i: usize, id: u32) -> bool
    requires { i < record_count forest.now.laid }
    ensures { result ≡ is_use id (row_at forest.now.laid i).rec }
{
    forest.laid.shape(i) == VAL_USE && shape::id(forest.laid.literal(i)) == id
}

// How many of the records from number `from` up to `to` use an id. Rules out: a use of another id; a definition of it.
#[tactic(auto, using(crate::proofs::Rows::uses_few))]
fn uses(forest: &Formed, id: u32, from: usize, to: usize) -> usize
    requires { (from ≤ to) × (to ≤ record_count forest.now.laid) }
    ensures count { result ≡ plain_uses id (rows_between forest.now.laid from to) }
    ensures few { result ≤ 256 }
{
    (from..to).filter(|&i| is_use(forest, i, id)).count()
}

// What a definition saves whose value has this size. It fits: 256 uses of at most 65,535 bytes and 256 pairs.
// Rules out: 13 for the definition and 14 a use; nothing where it is below zero.
#[tactic(auto, unfolding(model::specs::Savings::saving))]
fn saving(uses: usize, size: usize) -> i32
    requires { (uses ≤ 256) × (size ≤ 66559) }
    ensures { result ≡ saving uses size }
{
    (uses * size) as i32 - size as i32 - DEF_COST - USE_COST * uses as i32
}

// What record i saves put on a list, if it is a definition: it ends at `next` and its block at `end`, and it is in force in
// between. So the uses there are its own: none of them means another (check 9).
// Rules out: uses in its own value; the size of the definition's record counted; a line of a record that is none.
#[tactic(auto, using(walk::proofs::Bridge::def_literal, walk::proofs::Tests::id_is), unfolding(crate::specs::Siblings::own_line))]
fn add_own(forest: &Formed, i: usize, next: usize, end: usize, list: &mut ArrayVec<(u32, i32), 256>)
    requires order { (i < next) × (next ≤ end) × (end ≤ record_count forest.now.laid) }
    requires room { length list.old.items < 256 }
    ensures { list.new.items ≡ list.old.items ++ own_line forest.now.laid i next end }
{
    if forest.laid.shape(i) == VAL_DEF {
        let id = shape::id(forest.laid.literal(i));
        let uses = uses(forest, id, next, end);
        let size = weight(forest, i + 1, next);
        list.push((id, saving(uses, size)));
    }
}

// What the definitions save of the trees that the records from number i up to `end` are, put on a list in record order: a
// definition before those in its value, and these before its later siblings. It calls itself for both, so at most once a
// record, one inside the other.
// Rules out: a definition after those in its value; only those of the outermost block.
fn add(forest: &Accepted, i: usize, end: usize, list: &mut ArrayVec<(u32, i32), 256>)
    requires siblings { Siblings forest.now.formed.laid i end }
    requires room { length list.old.items + (end - i) ≤ 256 }
    ensures { list.new.items ≡ list.old.items ++ savings (between forest.now.formed.laid i end) }
{
    if i == end {
        return;
    }
    let next = usize::from(forest.ends[i]);
    add_own(&forest.formed, i, next, end, list);
    add(forest, i + 1, next, list);
    add(forest, next, end, list);
}

// What the definitions of an accepted forest save.
#[tactic(auto, using(crate::proofs::Siblings::all_siblings))]
fn of_accepted(forest: &Accepted) -> ArrayVec<(u32, i32), 256>
    ensures { result.items ≡ savings (trees_of forest.now.formed.laid) }
{
    let mut list = ArrayVec::new();
    add(forest, 0, forest.formed.laid.record_count(), &mut list);
    list
}

// What the definitions of a forest save, if it is accepted: id and saving of each, in record order; their sum is the count
// over records. Of a forest that is refused, nothing. The check gives the ends of subtrees. It takes words of its own,
// since those of the lister still hold the symbols.
// Rules out: definitions in the order of their ids; those of a forest that is refused; a saving of 0 left out.
pub fn savings(bytes: &[u8]) -> ArrayVec<(u32, i32), 256>
    ensures lines { result.items ≡ saved (accept bytes.now) }
    ensures sum { (ts : Trees) → accept bytes.now ≡ good ts →
        sum_ℤ (map (λ s. s.1) result.items) ≡ counted ts }
{
    let mut work = [0; regions::IDS_WORDS];
    let mut ends = [0; 256];
    match codec::check(bytes, &mut work, &mut ends) {
        Ok(formed) => of_accepted(&Accepted {
            formed,
            ends: &ends,
        }),
        Err(_) => ArrayVec::new(),
    }
}
