// What a record gives once its children's symbols are pending (intern.rs): the symbol of its key, a lambda's, a
// projection's, a use's, or that of its last child. The pending symbols of the children start `held` words into their
// region. Those that may make a symbol give it, or a refusal at the record, where there is no room for one, as the
// definition has it. Then the words hold the state that is left (`Answers`), after a refusal the one in which it was
// met; the words of symbols, slots, entries and remembered pairs may have changed, and no others (`Leaves`). The others
// only read the words, and refuse nothing.
#![tactic(auto)]

ghost use Rattle.std.specs.Prelude.{◌≡◌, false, ◌||◌, [], ℕ, ◌+◌, ◌<◌, ◌≤◌, eqb, length, get_or};
ghost use Rattle.regions.specs.Regions.{PENDING, WORDS};
ghost use Rattle.model.specs.Lists.{last};
ghost use Rattle.model.specs.Forest.{record_count};
ghost use Rattle.model.specs.Binding.{args_of, id_of};
ghost use Rattle.model.specs.Intern.{finish, node_of, func, with_opts, intern_field, resolve, Env, Kids, sym_at};
ghost use Rattle.laws.specs.Range.{range};
ghost use Rattle.record.specs.Record.{row_at};
ghost use Rattle.tables.specs.Tables.{Open};
ghost use Rattle.symbols.specs.Words.{pending_from};
ghost use Rattle.symbols.specs.Symbols.{syms_of};
ghost use Rattle.bindings.specs.Bindings.{env_of};
ghost use Rattle.interner.specs.State.{abs_of, Rep};
ghost use Rattle.interner.specs.Step.{Answers, BodyOf, step_of};
ghost use Rattle.key.specs.Key.{branches_of};
ghost use Rattle.concluding.specs.Concluding.{general_node, field_at, reads_again};
ghost use Rattle.concluding.specs.Concluding.{Concludes, Branched, Selects, HasSymbol, Input, Uses};

use interner::State;
use key::{Branches, Func, Leaf, Node, Operation};
use record::Forest;
use refusal::Refusal;
use shape::{CONST, TUPLE, UNPARSED};
use tables::Tables;
use walk::Formed;

// The node of record i, which is no lambda.
#[tactic(auto, using(walk::proofs::Bridge::records_few))]
fn node_for(forest: &Formed, i: usize, b: Branches) -> Node
    requires i_bound { i < record_count forest.now.laid }
    ensures { result ≡ general_node (row_at forest.now.laid i).rec.shape i b }
{
    let source = i as u32;
    match forest.laid.shape(i) {
        CONST => Node::Const(Leaf { source }),
        UNPARSED => Node::Unparsed(Leaf { source }),
        _ => Node::Op(Operation {
            source,
            field: None,
            branches: b,
        }),
    }
}

// Gives the symbol of record i's key, whose thunks have the scopes b, or a refusal. Rules out: an unparsed record's
// symbol as a constant's; a symbol whose thunks are in the scope of its parent.
pub fn general(
    forest: &Formed,
    work: &mut [u32],
    t: Tables,
    st: &mut State,
    i: usize,
    cur: usize,
    held: usize,
    count: usize,
    b: Branches,
) -> Result<u32, Refusal>
    requires rep { Rep forest.now.laid work.old st.old }
    requires fact { Open t st.old.entries }
    requires concludes { Concludes forest.now.laid work.old st.old i cur cur held count }
    requires branched { Branched b }
    ensures { Answers forest.now.laid work.old t st.old
        (finish i cur (row_at forest.now.laid i).rec (pending_from work.old held count) []
        (node_of (row_at forest.now.laid i).rec (branches_of b))
        (abs_of forest.now.laid work.old t st.old)) work.new (step_of st.new result) }
{
    let node = node_for(forest, i, b);
    interner::finish(&forest.laid, work, t, st, cur, node, held, count)
}

// Gives the symbol of the lambda of record i, whose arguments are the symbols from `first` on, and whose body was read
// in scope `body`, or a refusal. Rules out: a lambda that depends on its own arguments; one whose body's scope is that
// of the record.
#[tactic(auto, using(walk::proofs::Bridge::records_few))]
pub fn lambda(
    forest: &Formed,
    work: &mut [u32],
    t: Tables,
    st: &mut State,
    i: usize,
    cur: usize,
    held: usize,
    first: u32,
    body: usize,
) -> Result<u32, Refusal>
    requires rep { Rep forest.now.laid work.old st.old }
    requires fact { Open t st.old.entries }
    requires concludes { Concludes forest.now.laid work.old st.old i cur body held 1 }
    requires i_value { ((row_at forest.now.laid i).rec.shape ≡ 12) × (first < 4096) }
    requires body_of { BodyOf work.old st.old.scopes cur body (range first (row_at forest.now.laid i).rec.aux) }
    ensures { Answers forest.now.laid work.old t st.old
        (finish i cur (row_at forest.now.laid i).rec (pending_from work.old held 1)
        (range first (row_at forest.now.laid i).rec.aux)
        (func (with_opts (args_of (row_at forest.now.laid i).rec.aux (row_at forest.now.laid i).rec.lit)
        (range first (row_at forest.now.laid i).rec.aux)) body)
        (abs_of forest.now.laid work.old t st.old)) work.new (step_of st.new result) }
{
    let node = Node::Lambda(Func {
        source: i as u32,
        first,
        body: body as u32,
    });
    interner::finish(&forest.laid, work, t, st, cur, node, held, 1)
}

// The field that record i selects.
fn field_of(forest: &Formed, i: usize) -> u32
    requires i_bound { (i < record_count forest.now.laid) × ((row_at forest.now.laid i).rec.shape ≡ 17) }
    ensures { result ≡ field_at forest.now.laid i }
{
    let lit = forest.laid.literal(i);
    u32::from(lit[0])
}

// Whether a field is one of a pair.
fn of_pair(field: u32) -> bool
    ensures { result ≡ (eqb field 1 || eqb field 2) }
{
    field == 1 || field == 2
}

// Whether symbol s is a Tuple.
fn is_tuple(forest: &Forest, work: &[u32], s: usize) -> bool
    requires has_symbol { HasSymbol forest.now work.now s }
    ensures { (n : ℕ) → s < n →
        result ≡ eqb (sym_at (syms_of forest.now work.now n) s).rec.shape 16 }
{
    let y = key::load(work, s);
    let p = key::parts_of(y.node);
    forest.shape(p.source as usize) == TUPLE
}

// Whether the input of the SelectField of record i, pending at `held`, is read a second time. Rules out: a Tuple read
// once; any other input read twice.
pub fn reads_again(forest: &Formed, work: &[u32], i: usize, held: usize) -> bool
    requires input { Input forest.now.laid work.now i held }
    ensures { (n : ℕ) → get_or work.now (PENDING.first + held) 0 < n →
        result ≡ reads_again forest.now.laid work.now n i held }
{
    let s = work[regions::PENDING + held] as usize;
    of_pair(field_of(forest, i)) && is_tuple(&forest.laid, work, s)
}

// Gives the symbol of the SelectField of record i, whose input is not read again, or a refusal. Rules out: field 1 of a
// pair made without field 2; the other field.
#[tactic(auto, using(walk::proofs::Bridge::records_few))]
pub fn field(
    forest: &Formed,
    work: &mut [u32],
    t: Tables,
    st: &mut State,
    i: usize,
    cur: usize,
    held: usize,
) -> Result<u32, Refusal>
    requires rep { Rep forest.now.laid work.old st.old }
    requires fact { Open t st.old.entries }
    requires selects { Selects forest.now.laid work.old st.old i cur held }
    requires held_value { reads_again forest.now.laid work.old st.old.symbols i held ≡ false }
    ensures { (env : Env) (kids : Kids) → Answers forest.now.laid work.old t st.old
        (intern_field i cur (row_at forest.now.laid i).rec env kids (pending_from work.old held 1)
        (abs_of forest.now.laid work.old t st.old)) work.new (step_of st.new result) }
{
    let f = field_of(forest, i);
    if of_pair(f) {
        return interner::pair_projection(&forest.laid, work, t, st, cur, i as u32, f, held);
    }
    general(forest, work, t, st, i, cur, held, 1, Branches::Zero)
}

// Gives the symbol of the last of `count` pending children. Rules out: that of a block's first definition; a new
// symbol.
pub fn last(work: &[u32], held: usize, count: usize) -> u32
    requires { (0 < count) × (held + count ≤ PENDING.size) × (WORDS ≤ length work.now) }
    ensures { result ≡ last (pending_from work.now held count) }
{
    work[regions::PENDING + held + count - 1]
}

// Gives the symbol of the id that record i uses, among `top` bindings. Rules out: an older binding's; the id itself.
pub fn value_use(forest: &Formed, work: &[u32], i: usize, top: usize) -> u32
    requires uses { Uses forest.now.laid work.now i top }
    ensures { result ≡ resolve (env_of work.now top) (id_of (row_at forest.now.laid i).rec) }
{
    let id = shape::id(forest.laid.literal(i));
    bindings::resolve(work, top, id)
}
