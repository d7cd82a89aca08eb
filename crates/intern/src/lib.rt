// The walk over records that interns them (intern.rs). A record's children are read first; their symbols are pending
// in work words, from `held` on. The ids in force stand in work words too. The stack of open tables, t, is handed down.
// In order: what a walk is given and gives; a lambda's body; what a record gives; the walk; a forest. Its small steps
// are in small.rt.
#![tactic(auto)]

mod small;

ghost use Rattle.std.specs.Prelude.{◌≡◌, ◌<◌, ◌≤◌, length};
ghost use Rattle.regions.specs.Regions.{WORDS};
ghost use Rattle.model.specs.Forest.{record_count};
ghost use Rattle.model.specs.Opcodes.{SelectField, SelectFieldOp};
ghost use Rattle.walk.specs.Walk.{rec_at};
ghost use Rattle.tables.specs.Tables.{Open};
ghost use Rattle.interner.specs.State.{Rep};
ghost use Rattle.concluding.specs.Concluding.{Branched};
ghost use Rattle.intern.specs.Intern.{StandsAt, LegibleAt, CountedAt, WellKids, InThunk, Operands, Concluding};
ghost use Rattle.intern.specs.Intern.{RecordRead, LambdaRead, SelectedRead, ThunkRead, ReadsAll};
ghost use Rattle.intern.specs.Intern.{Enters, Concluded, Interned};
ghost use Rattle.interner.specs.Step.{step_of};
ghost use Rattle.intern.specs.Steps.{kids_step, kids_done, entered_of};

use codec::Accepted;
use interner::{State, Step};
use key::Branches;
use refusal::{Check, Refusal};
use shape::{BLOCK_VALUE, FUNC_VALUE, SELECT_FIELD, VAL_DEF, VAL_USE};
use tables::Tables;
use walk::Formed;

// Where a record is read: its scope, how many symbols are pending, how many ids are bound.
#[derive(Clone, Copy)]
pub struct Here {
    pub scope: usize,
    pub held: usize,
    pub top: usize,
}

// Inside a lambda: where its body is read, and the first of the arguments.
#[derive(Clone, Copy)]
pub struct Inside {
    pub at: Here,
    pub first: u32,
}

// The symbol of a record that is done; or the scopes of the thunks among its children, which are read for the last time,
// with the record still to be completed.
#[derive(Clone, Copy)]
pub enum Selected {
    Done(u32),
    Children(Branches),
}

// ---- a lambda's body

// The arguments of lambda i are made and bound, and its body is opened. Rules out: a body in the lambda's own scope;
// arguments bound in another order.
#[tactic(auto, using(walk::proofs::Bridge::records_few))]
fn enter_lambda(
    forest: &Formed,
    work: &mut [u32],
    t: Tables,
    i: usize,
    at: Here,
    st: &mut State,
) -> Result<Inside, Refusal>
    requires i_bound { (i < record_count forest.now.laid) × ((rec_at forest.now.laid i).shape ≡ 12) }
    requires stands_at { StandsAt forest.now.laid work.old t st.old i at }
    requires counted_at { CountedAt forest.now.laid work.old t st.old i at }
    ensures { Enters forest.now.laid work.old t st.old i at work.new (entered_of st.new result) }
{
    let cur = at.scope;
    let top = at.top;
    let count = usize::from(forest.laid.aux(i));
    let symbol = interner::alloc_args(&forest.laid, work, st, cur, i as u32, count)?;
    let first = small::first_of(symbol, count);
    let body = st.scopes as usize;
    opening::open_body(work, st, cur, first, count as u32);
    let end = bindings::bind_args(forest, work, i, top, first);
    let inner = Here {
        scope: body,
        held: at.held,
        top: end,
    };
    Ok(Inside { at: inner, first })
}

// ---- what a record gives

// The symbol of record i, whose children are read, with thunks in scopes b: of a definition and a block that of the last.
// Rules out: the symbol of a child that is not the last.
fn conclude(
    forest: &Formed,
    work: &mut [u32],
    t: Tables,
    i: usize,
    at: Here,
    b: Branches,
    st: &mut State,
) -> Result<u32, Refusal>
    requires rep { Rep forest.now.laid work.old st.old }
    requires fact { Open t st.old.entries }
    requires concluding { Concluding forest.now.laid work.old i at (kids_done st.old b) }
    requires branched { Branched b }
    ensures { Concluded forest.now.laid work.old t i at (kids_done st.old b) work.new (step_of st.new result) }
{
    let held = at.held;
    let cur = at.scope;
    let count = forest.laid.kids(i);
    match forest.laid.shape(i) {
        VAL_DEF | BLOCK_VALUE => Ok(concluding::last(work, held, count)),
        _ => concluding::general(forest, work, t, st, i, cur, held, count, b),
    }
}

// ---- the walk

// Record i's subtree. Rules out: a reading that is not counted; a 2049th reading.
#[inline(always)]
#[cycle(interning)]
#[tactic(auto, using(walk::proofs::Bridge::records_few))]
fn subtree(
    forest: &Accepted,
    work: &mut [u32],
    t: Tables,
    i: usize,
    at: Here,
    st: &mut State,
) -> Result<u32, Refusal>
    requires i_bound { i < record_count forest.now.formed.laid }
    requires stands_at { StandsAt forest.now.formed.laid work.old t st.old i at }
    requires legible_at { LegibleAt forest.now.formed.laid work.old t st.old i at }
    ensures { RecordRead forest.now.formed.laid work.old t st.old i at work.new (step_of st.new result) }
{
    if st.readings == 2048 {
        return Err(Refusal {
            check: Check::Readings,
            place: i as u32,
        });
    }
    opening::count_reading(st);
    let shape = forest.formed.laid.shape(i);
    if shape == VAL_USE {
        let top = at.top;
        return Ok(concluding::value_use(&forest.formed, work, i, top));
    }
    if shape == FUNC_VALUE {
        return lambda(forest, work, t, i, at, st);
    }
    let count = forest.formed.laid.kids(i);
    let selected = if shape == SELECT_FIELD {
        field(forest, work, t, i, at, st)?
    } else if count == 0 {
        Selected::Children(Branches::Zero)
    } else {
        let op = forest.formed.laid.opcode(i);
        Selected::Children(operands(forest, work, t, i + 1, count, op, at, st)?)
    };
    match selected {
        Selected::Done(symbol) => Ok(symbol),
        Selected::Children(b) => conclude(&forest.formed, work, t, i, at, b, st),
    }
}

// A lambda. Rules out: arguments in force past its body; a body that is read in the lambda's own scope.
#[cycle(interning)]
#[tactic(auto, using(walk::proofs::Bridge::records_few))]
fn lambda(
    forest: &Accepted,
    work: &mut [u32],
    t: Tables,
    i: usize,
    at: Here,
    st: &mut State,
) -> Result<u32, Refusal>
    requires i_bound { (i < record_count forest.now.formed.laid) × ((rec_at forest.now.formed.laid i).shape ≡ 12) }
    requires stands_at { StandsAt forest.now.formed.laid work.old t st.old i at }
    requires counted_at { CountedAt forest.now.formed.laid work.old t st.old i at }
    ensures { LambdaRead forest.now.formed.laid work.old t st.old i at work.new (step_of st.new result) }
{
    let inside = enter_lambda(&forest.formed, work, t, i, at, st)?;
    let inner = inside.at;
    let op = forest.formed.laid.opcode(i);
    operands(forest, work, t, i + 1, 1, op, inner, st)?;
    concluding::lambda(
        &forest.formed,
        work,
        t,
        st,
        i,
        at.scope,
        at.held,
        inside.first,
        inner.scope,
    )
}

// A SelectField. A Tuple's input is read again; where that gives the same, its readings are only counted again. Rules
// out: the input of a Tuple's field counted once; any other input read twice.
#[cycle(interning)]
#[tactic(auto, using(walk::proofs::Bridge::records_few))]
fn field(
    forest: &Accepted,
    work: &mut [u32],
    t: Tables,
    i: usize,
    at: Here,
    st: &mut State,
) -> Result<Selected, Refusal>
    requires i_bound { i < record_count forest.now.formed.laid }
    requires i_value { ((rec_at forest.now.formed.laid i).shape ≡ SelectField) × ((rec_at forest.now.formed.laid i).opcode ≡ SelectFieldOp) }
    requires stands_at { StandsAt forest.now.formed.laid work.old t st.old i at }
    requires well_kids { WellKids forest.now.formed.laid work.old t st.old i at }
    ensures { SelectedRead forest.now.formed.laid work.old t st.old i at work.new st.new result }
{
    let before = *st;
    let op = forest.formed.laid.opcode(i);
    let b = operands(forest, work, t, i + 1, 1, op, at, st)?;
    let held = at.held;
    if !concluding::reads_again(&forest.formed, work, i, held) {
        let symbol = concluding::field(&forest.formed, work, t, st, i, at.scope, held)?;
        return Ok(Selected::Done(symbol));
    }
    if small::repeats(before, *st) {
        small::count_again(before, st);
        return Ok(Selected::Children(b));
    }
    let again = operands(forest, work, t, i + 1, 1, op, at, st)?;
    Ok(Selected::Children(again))
}

// The operands of an opcode, `count` of them from record i on: each next one is read where the subtree of the one before
// ends. Gives the scopes of the thunks among them; their symbols are pending. `subtree` is called here and nowhere else,
// and put in here (`inline`): a call of its own would copy the tables once more. Rules out: a symbol stored over an
// older pending one; a definition in force in its own value; the scope of a thunk not noted; the next operand read from
// the record after the root of the one before.
#[cycle(interning)]
fn operands(
    forest: &Accepted,
    work: &mut [u32],
    t: Tables,
    i: usize,
    count: usize,
    op: u8,
    at: Here,
    st: &mut State,
) -> Result<Branches, Refusal>
    requires operands { Operands forest.now.formed.laid work.old t st.old i count op at }
    ensures { ReadsAll forest.now.formed.laid work.old t st.old i count op at work.new (kids_step st.new result) }
{
    let held = at.held;
    let mut branches = Branches::Zero;
    let mut next = i;
    let mut top = at.top;
    for j in 0..count {
        let here = small::child_at(at, j, top);
        let r = if shape::is_thunked(op, j) {
            branches = small::one_more(branches, st.scopes as usize);
            in_thunk(forest, work, t, next, here, st)
        } else {
            subtree(forest, work, t, next, here, st)
        };
        let symbol = r?;
        work[regions::PENDING + held + j] = symbol;
        top = bindings::bind_def(&forest.formed, work, next, top, symbol);
        next = usize::from(forest.ends[next]);
    }
    Ok(branches)
}

// A child in a thunk of its own, read as the one operand of nothing: opcode 0 has no thunks. Rules out: a thunk's table
// left open; a symbol made in the thunk that is found after it.
#[cycle(interning)]
#[tactic(auto, using(walk::proofs::Bridge::records_few))]
fn in_thunk(
    forest: &Accepted,
    work: &mut [u32],
    t: Tables,
    i: usize,
    at: Here,
    st: &mut State,
) -> Result<u32, Refusal>
    requires i_bound { i < record_count forest.now.formed.laid }
    requires in_thunk { InThunk forest.now.formed.laid work.old t st.old i at }
    ensures { ThunkRead forest.now.formed.laid work.old t st.old i at work.new (step_of st.new result) }
{
    let scope = st.scopes as usize;
    let top = st.entries;
    let cur = at.scope;
    let held = at.held;
    opening::open_thunk(work, st, cur);
    let own = Here {
        scope,
        held,
        top: at.top,
    };
    let inner = t.push(top as usize);
    let r = operands(forest, work, inner, i, 1, 0, own, st);
    // after a refusal too
    opening::close_thunk(st, top);
    r?;
    Ok(work[regions::PENDING + held])
}

// ---- a forest

// Gives the symbol of the root, the last tree, with the state after the whole forest; or the definition's refusal, of
// readings or of symbols, and the state in which it was met. Either way the words hold the state that is given,
// region by region: symbols, slots, scopes, entries and remembered pairs, each up to its count (`Rep`); after a root's
// symbol that state stands for the definition's. What else interning may write (`INTERNING`) is left free: pending
// symbols, bindings, and words of a region past its count. All other words are as they were. Rules out: the first
// tree's symbol; a symbol with a refusal; words after the bindings changed.
pub fn forest(forest: &Accepted, work: &mut [u32]) -> Step
    requires { WORDS ≤ length work.old }
    ensures { Interned forest.now.formed.laid work.old work.new result }
{
    let mut st = interner::start(work);
    let count = forest.formed.laid.tree_count();
    let at = Here {
        scope: 0,
        held: 0,
        top: 0,
    };
    let t = Tables::new();
    let symbol = match operands(forest, work, t, 0, count, 0, at, &mut st) {
        Ok(_) => Ok(concluding::last(work, 0, count)),
        Err(e) => Err(e),
    };
    Step { st, symbol }
}
