// The plan of the written tree (materialize.rs), row by row from the front: a scope's block and definitions before its
// result, each record before its children. In order: a symbol; an operation and its operands; scopes; the root.
// A block of one definition that only renames its result would be written as that definition's value (`wrap_block`).
// Interning makes no symbol for a use, so no definition's value is one, and the case has no code.
// Where the plan has no room for a row, planning ends. Each function promises two things: which rows are planned, and of which
// symbols their definitions are, as labels say.
// There is one map of ids, lent to all. What a scope adds is taken back when it ends, whether or not there was room: each
// function but `definitions` and `definition` leaves the map as it was (`kept`), as if its scopes had been given copies.
// What nests: `build`, `fresh`, `operands`, `operand`, `lambda` once a symbol, with no array; `define`, with an order
// (1 KB), once a scope. `last`, `above` and `p` stay three parameters, and `Site` a clause over them: what comes back is the
// plan, or the plan and `last`, and in six of fourteen calls a struct of the three would be taken apart and made anew.
#![tactic(auto)]

ghost use Rattle.std.specs.Prelude.{◌≡◌, ◌∷◌, [], ℕ, ◌+◌, ◌<◌, ◌≤◌, length, get_or, Some, IfSome, MatchOption};
ghost use Rattle.model.specs.Materialize.{build_value, process_scope};
ghost use Rattle.model.specs.Labels.{l_build_value, l_process_scope, defined_of};
ghost use Rattle.key.specs.declared.Node.TheVariants.{Lambda, Op};
ghost use Rattle.key.specs.Key.{symbol_at};
ghost use Rattle.regions.specs.Regions.{PLAN, WORDS};
ghost use Rattle.planner.specs.Building.{Buildable, operand_tree, l_operand_tree};
ghost use Rattle.planner.specs.Planning.{fresh_tree, l_fresh_tree, order_symbols, Site, UpTo, Ids, Added, Plans, Labels, Defines, DefinesOver};
ghost use Rattle.planner.specs.Grew.{Defining, Grown};
ghost use Rattle.materialize.specs.Materialize.{CountedIn, Counted, no_rows, root_tree, root_symbols, Materialized};

use arrayvec::ArrayVec;
use key::{Func, Node, Operation};
use plan::Planned;
use planner::{Plan, Source};
use record::Forest;

// The definitions of a scope: the plan with them, and the last id given.
#[derive(Clone, Copy, Debug, PartialEq, Eq)]
struct Defined {
    plan: Plan,
    last: u32,
}

// ---- a symbol

// Symbol s, as a use where it has an id. Rules out: the value of a symbol that is defined; a use of another id.
#[cycle(building)]
fn build(
    source: &Source,
    plan: &mut [u32],
    s: usize,
    ids: &mut [u32; 512],
    last: u32,
    above: usize,
    p: Plan,
) -> Option<Plan>
    requires site { Site source.now.graph.symbols s 0 last above p plan.old }
    requires ids { Ids source.now ids.old s last }
    ensures plans { Plans source.now ids.old plan.old p above
        (λ gr sc env. build_value gr s sc env last) plan.new result }
    ensures labels { Labels source.now ids.old plan.old p
        (λ gr sc env. defined_of (l_build_value gr s sc env last)) plan.new result }
    ensures kept { ids.new ≡ ids.old }
{
    let id = ids[s];
    if id != 0 {
        return planner::put(plan, p, above, Planned::ValUse(id));
    }
    fresh(source, plan, s, ids, last, above, p)
}

// Symbol s, which has no id. An argument outside its lambda is never met; the definition writes a use of 0.
#[cycle(building)]
fn fresh(
    source: &Source,
    plan: &mut [u32],
    s: usize,
    ids: &mut [u32; 512],
    last: u32,
    above: usize,
    p: Plan,
) -> Option<Plan>
    requires site { Site source.now.graph.symbols s 0 last above p plan.old }
    requires ids { Ids source.now ids.old s last }
    ensures plans { Plans source.now ids.old plan.old p above
        (fresh_tree s last) plan.new result }
    ensures labels { Labels source.now ids.old plan.old p
        (λ gr sc env. defined_of (l_fresh_tree s last gr sc env)) plan.new result }
    ensures kept { ids.new ≡ ids.old }
{
    match key::load(source.graph.words, s).node {
        Node::Const(l) | Node::Unparsed(l) => {
            planner::put(plan, p, above, Planned::Copy(l.source))
        }
        Node::Arg(_) => planner::put(plan, p, above, Planned::ValUse(0)),
        Node::Lambda(f) => lambda(source, plan, s, f, ids, last, above, p),
        Node::Op(o) => operands(source, plan, s, o, ids, last, above, p),
    }
}

// ---- an operation

// Operation s with its operands.
#[cycle(building)]
fn operands(
    source: &Source,
    plan: &mut [u32],
    s: usize,
    o: Operation,
    ids: &mut [u32; 512],
    last: u32,
    above: usize,
    p: Plan,
) -> Option<Plan>
    requires site { Site source.now.graph.symbols s 0 last above p plan.old }
    requires s_value { (symbol_at source.now.graph.words.now s).node ≡ Op o }
    requires ids { Ids source.now ids.old s last }
    ensures plans { Plans source.now ids.old plan.old p above
        (fresh_tree s last) plan.new result }
    ensures labels { Labels source.now ids.old plan.old p
        (λ gr sc env. defined_of (l_fresh_tree s last gr sc env)) plan.new result }
    ensures kept { ids.new ≡ ids.old }
{
    let opcode = source.forest.opcode(o.source as usize);
    let kids = graph::children(source.graph.words, key::load(source.graph.words, s));
    let mut q = planner::put(plan, p, above, planner::row_of(o))?;
    for (j, &kid) in kids.iter().enumerate() {
        let scope = planner::operand_scope(opcode, o, j);
        q = operand(source, plan, kid as usize, scope, ids, last, above + 1, q)?;
    }
    Some(q)
}

// One operand, in its parent's scope or in a thunk of its own.
#[cycle(building)]
fn operand(
    source: &Source,
    plan: &mut [u32],
    s: usize,
    scope: Option<u32>,
    ids: &mut [u32; 512],
    last: u32,
    above: usize,
    p: Plan,
) -> Option<Plan>
    requires site { Site source.now.graph.symbols s 600 last above p plan.old }
    requires scope_low { IfSome scope (λ b. b < source.now.graph.scopes) }
    requires ids { Ids source.now ids.old s last }
    ensures plans { Plans source.now ids.old plan.old p above
        (λ gr sc env. operand_tree scope gr s sc env last) plan.new result }
    ensures labels { Labels source.now ids.old plan.old p
        (λ gr sc env. defined_of (l_operand_tree scope gr s sc env last)) plan.new result }
    ensures kept { ids.new ≡ ids.old }
{
    match scope {
        None => build(source, plan, s, ids, last, above, p),
        Some(sc) => define(source, plan, s, sc as usize, ids, last, above, p),
    }
}

// ---- scopes

// Lambda s. Its arguments get the ids after `last`, until its body is built; the first definition in its body gets the
// second after them. Rules out: the first definition numbered right after the arguments; an argument's id left in the map.
#[cycle(building)]
fn lambda(
    source: &Source,
    plan: &mut [u32],
    s: usize,
    f: Func,
    ids: &mut [u32; 512],
    last: u32,
    above: usize,
    p: Plan,
) -> Option<Plan>
    requires site { Site source.now.graph.symbols s 0 last above p plan.old }
    requires s_value { (symbol_at source.now.graph.words.now s).node ≡ Lambda f }
    requires ids { Ids source.now ids.old s last }
    ensures plans { Plans source.now ids.old plan.old p above
        (fresh_tree s last) plan.new result }
    ensures labels { Labels source.now ids.old plan.old p
        (λ gr sc env. defined_of (l_fresh_tree s last gr sc env)) plan.new result }
    ensures kept { ids.new ≡ ids.old }
{
    let count = source.forest.aux(f.source as usize);
    let root = graph::children(source.graph.words, key::load(source.graph.words, s))[0] as usize;
    let q = planner::put(plan, p, above, Planned::Lambda(f.source, last))?;
    let first = f.first as usize;
    let many = usize::from(count);
    planner::number(ids, first, many, last);
    let next = last + u32::from(count) + 1;
    let r = define(source, plan, root, f.body as usize, ids, next, above + 1, q);
    planner::take_back_from(ids, first, many);
    r
}

// A scope: its schedule, then its definitions and its result; at its end their ids are taken back. Where no symbol gets a
// definition, its result alone. Rules out: a block around a result without definitions; one definition left out of its
// block; an id of the scope around taken back too.
#[cycle(building)]
fn define(
    source: &Source,
    plan: &mut [u32],
    root: usize,
    sc: usize,
    ids: &mut [u32; 512],
    last: u32,
    above: usize,
    p: Plan,
) -> Option<Plan>
    requires site { Site source.now.graph.symbols root 600 last above p plan.old }
    requires sc_lt_scopes { sc < source.now.graph.scopes }
    requires ids { Ids source.now ids.old root last }
    ensures plans { Plans source.now ids.old plan.old p above
        (λ gr at env. process_scope gr (build_value gr) root sc env last) plan.new result }
    ensures labels { Labels source.now ids.old plan.old p
        (λ gr at env. defined_of (l_process_scope gr (l_build_value gr) root sc env last)) plan.new result }
    ensures kept { ids.new ≡ ids.old }
{
    if !source.any_member(root, sc, ids) {
        return build(source, plan, root, ids, last, above, p);
    }
    let mut order = ArrayVec::new();
    schedule::schedule(source.forest, &source.graph, root, sc, &mut order);
    let order = order.as_slice();
    let k = source.members(order, sc, ids);
    // a member need not stand in the order
    if k == 0 {
        return build(source, plan, root, ids, last, above, p);
    }
    let q = planner::put(plan, p, above, Planned::Block(k + 1))?;
    // no `?`: where there is no room, ids are taken back too
    let r = match definitions(source, plan, root, sc, order, ids, last, above + 1, q) {
        Some(d) => build(source, plan, root, ids, d.last, above + 1, d.plan),
        None => None,
    };
    planner::take_back(ids, order, last);
    r
}

// The definitions of the symbols of an order, none of which is higher than `root`. Where there is no room for one, the ids
// given before it stay in the map: `define` takes them back. Rules out: an id of a symbol outside the order changed; a last
// id below one in the map.
#[cycle(building)]
fn definitions(
    source: &Source,
    plan: &mut [u32],
    root: usize,
    sc: usize,
    order: &[u16],
    ids: &mut [u32; 512],
    last: u32,
    above: usize,
    p: Plan,
) -> Option<Defined>
    requires site { Site source.now.graph.symbols root 590 last above p plan.old }
    requires order_bound { length order.now ≤ 512 }
    requires by_index { (k : ℕ) → k < length order.now → get_or order.now k 0 ≤ root }
    requires ids { Ids source.now ids.old root last }
    ensures plans { MatchOption result
        (DefinesOver source.now ids.old p sc order.now last)
        (λ d. Defines source.now ids.old plan.old p above sc order.now last
        (length order.now) plan.new ids.new d.plan d.last) }
    ensures labels { IfSome result (λ d. Labels source.now ids.old plan.old p
        (order_symbols sc order.now last) plan.new (Some d.plan)) }
    ensures added { Added source.now ids.old order.now last ids.new }
    ensures rise { IfSome result (λ d. (last ≤ d.last) × UpTo ids.new d.last) }
{
    let mut d = Defined { plan: p, last };
    for &s in order {
        d = definition(source, plan, usize::from(s), sc, ids, d.last, above, d.plan)?;
    }
    Some(d)
}

// The definition of symbol s, if it gets one. Its value is built before its number is given.
// Rules out: a value that is a use of itself; a row of another symbol's definition.
#[cycle(building)]
fn definition(
    source: &Source,
    plan: &mut [u32],
    s: usize,
    sc: usize,
    ids: &mut [u32; 512],
    last: u32,
    above: usize,
    p: Plan,
) -> Option<Defined>
    requires site { Site source.now.graph.symbols s 10 last above p plan.old }
    requires ids { Ids source.now ids.old s last }
    ensures plans { MatchOption result
        (DefinesOver source.now ids.old p sc (s ∷ []) last)
        (λ d. Defines source.now ids.old plan.old p above sc (s ∷ []) last 1
        plan.new ids.new d.plan d.last) }
    ensures labels { IfSome result (λ d. Labels source.now ids.old plan.old p
        (order_symbols sc (s ∷ []) last) plan.new (Some d.plan)) }
    ensures added { Added source.now ids.old (s ∷ []) last ids.new }
    ensures rise { IfSome result (λ d. (last ≤ d.last) × UpTo ids.new d.last) }
{
    if source.member(s, sc, ids) {
        let id = last + 1;
        let q = planner::put(plan, p, above, Planned::ValDef(id, s as u32))?;
        let r = build(source, plan, s, ids, last, above + 1, q)?;
        ids[s] = id;
        return Some(Defined { plan: r, last: id });
    }
    Some(Defined { plan: p, last })
}

// ---- the root

// Plans the written tree of a root's symbol, in words apart from those of its graph and its counts.
fn plan_root<'a>(
    forest: &'a Forest<'a>,
    words: &'a [u32],
    symbols: usize,
    scopes: usize,
    uses: &'a [u32],
    plan: &mut [u32],
    root: usize,
) -> Option<Plan>
    requires buildable { Buildable forest.now words.now symbols scopes }
    requires long { (symbols ≤ length uses.now) × (PLAN.size ≤ length plan.old) }
    requires root_lt_symbols { root < symbols }
    requires counted { CountedIn forest.now words.now symbols scopes root uses.now }
    ensures plans { Grown forest.now plan.old no_rows 0 (root_tree forest.now words.now symbols scopes root) plan.new result }
    ensures labels { Defining plan.old no_rows (root_symbols forest.now words.now symbols scopes root) plan.new result }
{
    let source = Source::new(forest, words, symbols, scopes, uses);
    let mut ids = [0; 512];
    let p = Plan {
        rows: 0,
        deepest: 0,
    };
    define(&source, plan, root, 0, &mut ids, 0, 0, p)
}

// Plans the written tree of a root's symbol, in region PLAN; how many rows, and how deep, or none if it has more than
// 256 records. The uses are counted (gate).
// Rules out: a tree for a symbol that is used twice written twice; a plan of the rows past the 256th; a word of the
// region past the rows changed.
pub fn materialize(
    forest: &Forest,
    work: &mut [u32],
    symbols: usize,
    scopes: usize,
    root: usize,
) -> Option<Plan>
    requires buildable { Buildable forest.now work.old symbols scopes }
    requires long { WORDS ≤ length work.old }
    requires root_lt_symbols { root < symbols }
    requires counted { Counted forest.now work.old symbols scopes root }
    ensures { Materialized forest.now work.old symbols scopes root work.new result }
{
    let (made, rest) = work.split_at_mut(regions::PLAN);
    let (plan, counts) = rest.split_at_mut(planner::WORDS);
    let uses = &counts[regions::USES - regions::PLAN - planner::WORDS..];
    // the forest is lent again, for as long as the words
    plan_root(&*forest, made, symbols, scopes, uses, plan, root)
}
