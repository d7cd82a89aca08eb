// The main call (mod.rs): checks, interning, planning and writing, in their order; and the work memory cleared.
// In order: the words cleared; a planned tree written; a tree planned; an accepted forest; any forest, which is the
// stage that the call and the lister have in common; the call; the call as other programs make it. The check by itself is
// in checking.rt.
#![tactic(auto)]

mod checking;

ghost use Rattle.std.specs.Prelude.{◌≡◌, ℕ, ◌≤◌, length, IfSome};
ghost use Rattle.model.specs.Answer.{good};
ghost use Rattle.model.specs.Call.{call_of, tree_of, interned, measured, written, numbers, out_after, work_after};
ghost use Rattle.model.specs.Intern as intern;
ghost use Rattle.model.specs.Demand3.{Demanded, Demand3};
ghost use Rattle.regions.specs.Regions.{WORDS};
ghost use Rattle.tables.specs.Tables.{new_tables};
ghost use Rattle.interner.specs.State.{abs_of, Rep};
ghost use Rattle.cse.specs.Call.{five, numbers_in, Tells, cleared, LentOnly, PlanOf, PlanWritable, Planned};
ghost use Rattle.cse.specs.Call.{Held, Counts, HeldAfter};

pub use checking::{check, cse_check};
use codec::Accepted;
use interner::State;
use planner::Plan;
use record::Forest;
use refusal::{Check, Refusal};

// What the call gives for a tree that it wrote: how many bytes, and how many symbols and readings there were.
#[derive(Clone, Copy)]
pub struct Written {
    pub length: u32,
    pub symbols: u32,
    pub readings: u32,
}

// Fewer work words than are asked for.
const NO_WORDS: Refusal = Refusal {
    check: Check::Words,
    place: 0,
};

// The written tree has more than 256 records, more than 65,535 bytes, or more than the output has room for.
const NO_ROOM: Refusal = Refusal {
    check: Check::Room,
    place: 0,
};

// The first 16,384 words set to 0. Rules out: the last of them left; a later word touched.
fn clear(work: &mut [u32])
    requires { WORDS ≤ length work.old }
    ensures { work.new ≡ cleared WORDS work.old }
{
    work[..regions::WORDS].fill(0);
}

// The planned tree's bytes over the output's start, once it is known that they fit: 13 and 14 come before any byte.
// Rules out: 14 where 13 applies too; a byte written of a tree that is refused.
fn write(
    forest: &Forest,
    work: &[u32],
    p: Plan,
    st: State,
    out: &mut [u8],
) -> Result<Written, Refusal>
    requires plan_writable { PlanWritable forest.now work.now p }
    ensures by_index { (o : ℕ × intern.State) → PlanOf forest.now work.now (tree_of o) p
        → length o.1.syms ≡ st.symbols → o.1.readings ≡ st.readings
        → Tells (measured (length out.old) o) out.old result out.new }
    ensures counts { Counts st.symbols result }
{
    let size = serialise::tree_length(forest, work, regions::PLAN, p.rows);
    if 65535 < size || out.len() < size {
        return Err(NO_ROOM);
    }
    if 64 < p.deepest {
        return Err(Refusal {
            check: Check::Nesting,
            place: 0,
        });
    }
    serialise::write_tree(forest, work, regions::PLAN, p.rows, out);
    Ok(Written {
        length: size as u32,
        symbols: st.symbols,
        readings: st.readings,
    })
}

// The tree of the root's symbol planned, its uses counted first.
// Rules out: a plan by the uses of symbols that the root does not reach; the tree of another symbol.
fn planned(forest: &Accepted, work: &mut [u32], st: State, root: usize) -> Option<Plan>
    requires rep { Rep forest.now.formed.laid work.old st }
    requires root_made { interned forest.now.formed.laid ≡ good (root, abs_of forest.now.formed.laid work.old new_tables st) }
    ensures planned { Planned forest.now.formed.laid work.old work.new
        (root, abs_of forest.now.formed.laid work.old new_tables st) result }
    ensures held { IfSome result (λ p. Held forest.now.formed.laid work.new st.symbols) }
{
    let symbols = st.symbols as usize;
    gate::reach_and_count(work, symbols, root);
    let scopes = st.scopes as usize;
    materialize::materialize(&forest.formed.laid, work, symbols, scopes, root)
}

// An accepted forest: its symbols are made, then its tree is planned, then it is written.
// Rules out: 13 where interning meets 11; symbols or readings of the written tree instead of the forest's.
fn accepted(forest: &Accepted, out: &mut [u8], work: &mut [u32]) -> Result<Written, Refusal>
    requires in_bounds { WORDS ≤ length work.old }
    ensures tells { Tells (written (call_of forest.now.formed.laid out.old work.old))
        out.old result out.new }
    ensures lent_only { LentOnly work.old work.new }
    ensures held_after { HeldAfter forest.now.formed.laid work.new result }
{
    let step = intern::forest(forest, work);
    let root = step.symbol?;
    let st = step.st;
    match planned(forest, work, st, root as usize) {
        Some(p) => write(&forest.formed.laid, work, p, st, out),
        None => Err(NO_ROOM),
    }
}

// Any forest, once the work words suffice: the call, but that it leaves the words as they are, so that after a tree is
// written its symbols, scopes and uses, and of which symbols its definitions are, can still be read in them.
// Rules out: a forest interned that a check refuses; another place; symbols of another forest left in the words.
pub fn pass(forest: &[u8], out: &mut [u8], work: &mut [u32]) -> Result<Written, Refusal>
    requires { WORDS ≤ length work.old }
    ensures tells { Tells (written (call_of forest.now out.old work.old))
        out.old result out.new }
    ensures lent_only { LentOnly work.old work.new }
    ensures held_after { HeldAfter forest.now work.new result }
{
    let mut ends = [0; 256];
    let formed = codec::check(forest, work, &mut ends)?;
    let checked = Accepted {
        formed,
        ends: &ends,
    };
    accepted(&checked, out, work)
}

// The main call. On success the output begins with the bytes of the tree that the definitions give for the forest; on
// any refusal it is as it was. It has demand 3: it gives 0 exactly when no refusal applies, and then the written tree
// is accepted and unfolds to what the forest's root unfolds to. Where operations may fail, the tree read back from the
// written bytes has the root's value, if the root has one and the forest is one tree with no lambda and no SelectField:
// `CallKeepsValue` (model, Failing) says so of `numbers` and `out_after`, and theory proves it of values of any type,
// of which a promise can't speak.
// Rules out: a refusal where none applies; the root's own bytes; a byte past the written length touched; work words
// that keep what a refused call left there.
pub fn cse(forest: &[u8], out: &mut [u8], work: &mut [u32]) -> Result<Written, Refusal>
    ensures result_value { numbers_in result
        ≡ numbers (call_of forest.now out.old work.old) }
    ensures out_after { out.new
        ≡ out_after (call_of forest.now out.old work.old) out.old }
    ensures work_after { work.new ≡ work_after work.old }
    ensures demand3 { Demand3 (call_of forest.now out.old work.old) }
    ensures demanded { Demanded (call_of forest.now out.old work.old) out.old
        (numbers_in result) out.new }
{
    if work.len() < regions::WORDS {
        return Err(NO_WORDS);
    }
    let r = pass(forest, out, work);
    clear(work);
    r
}

// The call as C programs make it (crate exports has its twin, since exports are a crate of their own): the answer's
// numbers are stored one by one. It adds nothing to `cse`. Rules out: a number left as it was; symbols and readings
// swapped.
pub fn cse_call(
    forest: &[u8],
    out: &mut [u8],
    work: &mut [u32],
    number: &mut u32,
    place: &mut u32,
    len: &mut u32,
    symbols: &mut u32,
    readings: &mut u32,
)
    ensures numbers_after { five number.new place.new len.new symbols.new
        readings.new
        ≡ numbers (call_of forest.now out.old work.old) }
    ensures out_after { out.new
        ≡ out_after (call_of forest.now out.old work.old) out.old }
    ensures work_after { work.new ≡ work_after work.old }
    ensures demand3 { Demand3 (call_of forest.now out.old work.old) }
    ensures demanded { Demanded (call_of forest.now out.old work.old) out.old
        (five number.new place.new len.new symbols.new
        readings.new) out.new }
{
    match cse(forest, out, work) {
        Ok(w) => {
            *number = 0;
            *place = 0;
            *len = w.length;
            *symbols = w.symbols;
            *readings = w.readings;
        }
        Err(r) => {
            *number = r.check.number();
            *place = r.place;
            *len = 0;
            *symbols = 0;
            *readings = 0;
        }
    }
}
