// The projections of a symbol: one made or found, one picked of two, two remembered, and both made and remembered.
ghost use Rattle.std.specs.Prelude.{◌≡◌, ◌+◌, ◌<◌, ◌≤◌, length, get_or};
ghost use Rattle.regions.specs.Regions.{PENDING, WORDS};
ghost use Rattle.model.specs.Intern.{recall, pick, new_projections};
ghost use Rattle.record.specs.Record.{row_at};
ghost use Rattle.tables.specs.Tables.{Open};
ghost use Rattle.memo.specs.Memo.{memo_of, remembered};
ghost use Rattle.interner.specs.State.{abs_of, Rep};
ghost use Rattle.interner.specs.Step.{Answers, Projects, field_of, with_pair, step_of};

use crate::State;
use key::{Branches, Node, Operation};
use record::Forest;
use refusal::Refusal;
use tables::Tables;

// Field `field` of the pending symbol at `held`, a projection made for record `at`. Rules out: another field; a
// projection of another symbol.
fn projection(
    forest: &Forest,
    work: &mut [u32],
    t: Tables,
    st: &mut State,
    cur: usize,
    at: u32,
    field: u32,
    held: usize,
) -> Result<u32, Refusal>
    requires rep { Rep forest.now work.old st.old }
    requires fact { Open t st.old.entries }
    requires projects { Projects forest.now work.old st.old cur at held 1 }
    requires field_nonzero { (0 < field) × (field < 4) }
    ensures { Answers forest.now work.old t st.old
        (field_of at cur (row_at forest.now at).rec field (get_or work.old (PENDING.first + held) 0)
        (abs_of forest.now work.old t st.old)) work.new (step_of st.new result) }
{
    let node = Node::Op(Operation {
        source: at,
        field: Some(field),
        branches: Branches::Zero,
    });
    crate::finish(forest, work, t, st, cur, node, held, 1)
}

// Field 1 or 2, of which the symbols are a and b. Rules out: the other one; a third symbol.
pub fn picked(field: u32, a: u32, b: u32) -> u32
    ensures { result ≡ pick field (a, b) }
{
    if field == 1 { a } else { b }
}

// The projections a and b of p are remembered. Rules out: a pair that is not counted; a and b exchanged.
fn remember(work: &mut [u32], st: &mut State, p: u32, a: u32, b: u32)
    requires memo_bound { (st.old.memo < 512) × (WORDS ≤ length work.old) }
    requires p_bound { (p < 512) × (a < 512) × (b < 512) }
    ensures { (work.new ≡ remembered work.old st.old.memo p a b) × (st.new ≡ with_pair st.old) }
{
    memo::remember(work, st.memo as usize, p, a, b);
    st.memo += 1;
}

// Both projections of the pending symbol at `held`, made or found, and remembered. Rules out: only the one asked for;
// a second pair for the same symbol.
pub fn new_projections(
    forest: &Forest,
    work: &mut [u32],
    t: Tables,
    st: &mut State,
    cur: usize,
    at: u32,
    field: u32,
    held: usize,
) -> Result<u32, Refusal>
    requires rep { Rep forest.now work.old st.old }
    requires fact { Open t st.old.entries }
    requires projects { Projects forest.now work.old st.old cur at held 2 }
    requires held_value { recall (memo_of work.old st.old.memo) (get_or work.old (PENDING.first + held) 0) ≡ None }
    ensures { Answers forest.now work.old t st.old
        (new_projections at cur (row_at forest.now at).rec field (get_or work.old (PENDING.first + held) 0)
        (abs_of forest.now work.old t st.old)) work.new (step_of st.new result) }
{
    let p = work[regions::PENDING + held];
    let a = projection(forest, work, t, st, cur, at, 1, held)?;
    let b = projection(forest, work, t, st, cur, at, 2, held)?;
    remember(work, st, p, a, b);
    Ok(picked(field, a, b))
}
