// Interning's state, and its symbols, new or found (interner.rs). In order: the state; a new symbol; the symbol of a
// key; a lambda's arguments; projections, the steps of which are in projections.rt.
// `Rep forest work st` stays a clause: a struct that lends its words as `&mut` is no plainer, since each function that
// takes one, here and above, would ensure in its place that it still holds the same words (tried on two methods).
#![tactic(auto)]

mod projections;

ghost use Rattle.std.specs.Prelude.{◌≡◌, true, ℕ, ◌+◌, ◌*◌, ◌<◌, ◌≤◌, eqb, length, get_or};
ghost use Rattle.regions.specs.Regions.{SLOTS, SCOPES, PENDING, WORDS};
ghost use Rattle.scopes.specs.Levels.{has};
ghost use Rattle.scopes.specs.Scopes.{scope_word, level_of};
ghost use Rattle.symbols.specs.Words.{pending_from};
ghost use Rattle.model.specs.Intern.{pair_projection};
ghost use Rattle.record.specs.Record.{row_at};
ghost use Rattle.tables.specs.declared.Tables.{Tables};
ghost use Rattle.tables.specs.Tables.{Open};
ghost use Rattle.key.specs.Key.{parts_of};
ghost use Rattle.interner.specs.State.{abs_of, Rep, Started};
ghost use Rattle.interner.specs.Step.{Fresh, Levels, Pushed, Answers, Ready, Binds, Bindings};
ghost use Rattle.interner.specs.Step.{Projects};
ghost use Rattle.interner.specs.Step.{new_deps, no_room, step_of, state_after, alloc_of, key_levels, finish_of};
ghost use Rattle.interner.specs.Levels.{any_has};

use key::{Leaf, Node, Symbol};
use record::Forest;
use refusal::{Check, Refusal};
use tables::Tables;

// How many entries the open tables have; how many symbols, child slots, scopes and projections there are; the readings
// so far. The stack of open tables goes beside it, and is handed down only: a thunk's table is dropped at its end.
// What it counts stands in the words up to PENDING. A function that makes symbols changes some of these words, though
// none of a scope, and no other words.
// The order of the fields matters for speed: those that are stored one by one are not loaded two at a time.
#[derive(Clone, Copy)]
pub struct State {
    pub readings: u32,
    pub entries: u32,
    pub symbols: u32,
    pub slots: u32,
    pub scopes: u32,
    pub memo: u32,
}

// A symbol and the state after it; or a refusal and the state in which it was met.
#[derive(Clone, Copy)]
pub struct Step {
    pub st: State,
    pub symbol: Result<u32, Refusal>,
}

// The state in which nothing is read yet and the outermost scope is open; its word is 0, the free lists end at 0, and
// no other word changes. Rules out: a scope's word left as it was; an entry.
pub fn start(work: &mut [u32]) -> State
    requires { WORDS ≤ length work.old }
    ensures { Started work.old work.new result }
{
    free_lists::start(work);
    scopes::open_outermost(work);
    State {
        entries: 0,
        symbols: 0,
        slots: 0,
        scopes: 1,
        memo: 0,
        readings: 0,
    }
}

// One symbol more, placed from scope `cur` outwards, with its free list; in no table.
fn push(
    forest: &Forest,
    work: &mut [u32],
    st: &mut State,
    cur: usize,
    node: Node,
    held: usize,
    count: usize,
    levels: u64,
)
    requires rep { Rep forest.now work.old st.old }
    requires symbols_bound { st.old.symbols < 512 }
    requires fresh { Fresh forest.now work.old st.old cur node held count }
    requires levels { Levels work.old st.old cur (new_deps forest.now work.old st.old node held count) levels }
    ensures { Pushed forest.now work.old st.old cur node held count levels work.new st.new }
{
    // its header stands, so a record's number fits a symbol's words
    let _ = forest.bytes();
    let n = st.symbols;
    let scope = scopes::placement(work, cur, levels);
    let y = Symbol {
        node,
        kids: st.slots,
        count: count as u32,
        scope: scope as u32,
        levels,
    };
    symbols::make(work, n as usize, held, y);
    free_lists::keep(forest, work, n as usize, st.scopes as usize, scope, count);
    st.symbols += 1;
    st.slots += count as u32;
}

// No room for a symbol, at the record of a node.
fn no_room(node: Node) -> Refusal
    ensures { result ≡ no_room node }
{
    let place = key::parts_of(node).source;
    Refusal {
        check: Check::Symbols,
        place,
    }
}

// A new symbol that can be found again, or a refusal where there is no room for one, which leaves the state as it was.
// Rules out: one that is in no table, or in the oldest; a 513th symbol.
fn alloc(
    forest: &Forest,
    work: &mut [u32],
    st: &mut State,
    cur: usize,
    node: Node,
    held: usize,
    count: usize,
    levels: u64,
) -> Result<u32, Refusal>
    requires rep { Rep forest.now work.old st.old }
    requires fresh { Fresh forest.now work.old st.old cur node held count }
    requires levels { Levels work.old st.old cur (new_deps forest.now work.old st.old node held count) levels }
    ensures answers { (t : Tables) → Open t st.old.entries → Answers forest.now work.old t st.old
        (alloc_of forest.now work.old t st.old cur node held count true) work.new (step_of st.new result) }
    ensures state { st.new ≡ state_after st.old count result }
{
    let n = st.symbols;
    if n >= 512 {
        return Err(no_room(node));
    }
    let p = key::parts_of(node);
    let hint = tables::hint_of(forest, work, p.source as usize, held, count);
    push(forest, work, st, cur, node, held, count, levels);
    tables::enter(work, st.entries as usize, n, hint);
    st.entries += 1;
    Ok(n)
}

// The levels of the pending children from `held` on.
fn levels_of(work: &[u32], held: usize, count: usize) -> u64
    requires count_bound { (held + count ≤ PENDING.size) × (WORDS ≤ length work.now) }
    requires by_index { (k : ℕ) → k < count → get_or work.now (PENDING.first + held + k) 0 < 512 }
    ensures { (j : ℕ) → has result j ≡ any_has work.now j (pending_from work.now held count) }
{
    let mut all = scopes::levels::empty();
    // by index: over a slice of the words it took 6 instructions a record more
    for k in 0..count {
        let s = work[regions::PENDING + held + k];
        let y = key::load(work, s as usize);
        all = scopes::levels::join(all, y.levels);
    }
    all
}

// The levels of the symbol of a key: a lambda's own is taken out.
fn key_levels(work: &[u32], node: Node, held: usize, count: usize) -> u64
    requires count_bound { (held + count ≤ PENDING.size) × (WORDS ≤ length work.now) }
    requires by_index { (k : ℕ) → k < count → get_or work.now (PENDING.first + held + k) 0 < 512 }
    requires node_bound { (parts_of node).second < 4096 }
    ensures { (j : ℕ) → has result j ≡ key_levels work.now node held count j }
{
    let all = levels_of(work, held, count);
    match node {
        Node::Lambda(f) => scopes::levels::without(all, scopes::level(work, f.body as usize)),
        _ => all,
    }
}

// The symbol of a node over the pending children from `held` on: the one that has its key, or a new one; or a refusal,
// where there is no room for a new one. Rules out: a second symbol for a key that an open table has; a symbol placed
// inside a lambda that it does not depend on; a refusal where the key is found and there are 512 symbols; a state that
// a symbol that is found, or a refusal, changes.
pub fn finish(
    forest: &Forest,
    work: &mut [u32],
    t: Tables,
    st: &mut State,
    cur: usize,
    node: Node,
    held: usize,
    count: usize,
) -> Result<u32, Refusal>
    requires rep { Rep forest.now work.old st.old }
    requires fact { Open t st.old.entries }
    requires ready { Ready forest.now work.old st.old cur node held count }
    ensures answers { Answers forest.now work.old t st.old
        (finish_of forest.now work.old t st.old cur node held count) work.new (step_of st.new result) }
    ensures state { st.new ≡ state_after st.old count result }
{
    let p = key::parts_of(node);
    let top = st.entries as usize;
    match tables::find(
        forest,
        work,
        t,
        top,
        p.source as usize,
        p.field,
        held,
        count,
    ) {
        Some(s) => Ok(s),
        None => {
            let levels = key_levels(work, node, held, count);
            alloc(forest, work, st, cur, node, held, count, levels)
        }
    }
}

// The level of the arguments of a lambda in scope `cur`, alone.
fn level_inside(work: &[u32], cur: usize) -> u64
    requires cur_in_bounds { SCOPES.first + cur < length work.now }
    requires cur_bound { level_of (scope_word work.now cur) < 63 }
    ensures { (j : ℕ) → has result j ≡ eqb j (level_of (scope_word work.now cur) + 1) }
{
    let depth = scopes::level(work, cur);
    scopes::levels::with(scopes::levels::empty(), depth + 1)
}

// `count` argument symbols for the lambda of record `at`, made in scope `cur`: the first of them, or a refusal. Rules
// out: an argument in a table, where it could be found again; arguments that count as those of the lambda around.
pub fn alloc_args(
    forest: &Forest,
    work: &mut [u32],
    st: &mut State,
    cur: usize,
    at: u32,
    count: usize,
) -> Result<u32, Refusal>
    requires rep { Rep forest.now work.old st.old }
    requires binds { Binds forest.now work.old st.old cur at count }
    ensures { Bindings forest.now work.old st.old cur at count work.new (step_of st.new result) }
{
    let n = st.symbols;
    let node = Node::Arg(Leaf { source: at });
    if 512 < n as usize + count {
        return Err(no_room(node));
    }
    let levels = level_inside(work, cur);
    for _ in 0..count {
        push(forest, work, st, cur, node, 0, 0, levels);
    }
    Ok(n)
}

// Field `field` of the pending symbol at `held`, for record `at`; or a refusal. Rules out: the other field; a
// projection that is not remembered, and would be made again after its thunk.
pub fn pair_projection(
    forest: &Forest,
    work: &mut [u32],
    t: Tables,
    st: &mut State,
    cur: usize,
    at: u32,
    field: u32,
    held: usize,
) -> Result<u32, Refusal>
    requires rep { Rep forest.now work.old st.old }
    requires fact { Open t st.old.entries }
    requires projects { Projects forest.now work.old st.old cur at held 2 }
    ensures { Answers forest.now work.old t st.old
        (pair_projection at cur (row_at forest.now at).rec field (get_or work.old (PENDING.first + held) 0)
        (abs_of forest.now work.old t st.old)) work.new (step_of st.new result) }
{
    let p = work[regions::PENDING + held];
    match memo::recall(work, st.memo as usize, p) {
        Some((a, b)) => Ok(projections::picked(field, a, b)),
        None => projections::new_projections(forest, work, t, st, cur, at, field, held),
    }
}
