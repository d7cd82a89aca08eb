// Free lists stored with the symbols (materialize.rs, `free_vars`): a symbol's list is made of those of its children
// when the symbol is made, and stands in the work words after those of the symbols before it, as long as there is room.
// In order: where lists stand; what the symbols of a body give; a list gathered; a list stored.
#![tactic(auto)]

ghost use Rattle.std.specs.Prelude.{◌≡◌, List, [], ◌∷◌, ℕ, ◌+◌, ◌<◌, ◌≤◌, length, set, MatchOption};
ghost use Rattle.model.specs.Schedule.{free_vars};
ghost use Rattle.laws.specs.Members.{Under};
ghost use Rattle.laws.specs.Gather.{gather_step};
ghost use Rattle.regions.specs.Regions.{FREE_ENDS, FREE_LISTS, WORDS, end};
ghost use Rattle.key.specs.Key.{symbol_at};
ghost use Rattle.graph.specs.Graph.{Arena, graph_of};
ghost use Rattle.graph.specs.Tests.{Over};
ghost use Rattle.outsiders.specs.Outsiders.{Held, Listed};
ghost use Rattle.free_lists.specs.FreeLists.{end_at, list_at, Lists, with_list, Filed, gives};

use arrayvec::ArrayVec;
use graph::Graph;
use record::Forest;
use scopes::Rel;

// The entries that are stored at most.
const LIMIT: usize = 4096;

// ---- where lists stand

// No list is stored yet. Rules out: an end left as it was; another word changed.
pub fn start(work: &mut [u32])
    requires { WORDS ≤ length work.old }
    ensures { work.new ≡ set work.old (FREE_ENDS).first 0 }
{
    work[regions::FREE_ENDS] = 0;
}

// Where the lists of the symbols below s end, counted in entries.
fn end_at(work: &[u32], s: usize) -> usize
    requires { (FREE_ENDS).first + s < length work.now }
    ensures { result ≡ end_at work.now s }
{
    work[regions::FREE_ENDS + s] as usize
}

// The free list of s, which is stored.
fn list_at(work: &[u32], s: usize) -> &[u32]
    requires in_bounds { (end FREE_LISTS ≤ length work.now) × (s < 512) }
    requires s_bound { (end_at work.now s ≤ end_at work.now (s + 1)) × (end_at work.now (s + 1) ≤ (FREE_LISTS).size) }
    ensures { result.now ≡ list_at work.now s }
{
    let first = end_at(work, s);
    let end = end_at(work, s + 1);
    graph::words(work, regions::FREE_LISTS + first, end - first)
}

// The free list of s, if it is stored.
// Rules out: the list of another symbol; an end past the last entry taken for a list's.
pub fn stored(work: &[u32], s: usize) -> Option<&[u32]>
    requires in_bounds { (end FREE_LISTS ≤ length work.now) × (s < 512) }
    requires s_bound { end_at work.now (s + 1) ≤ (FREE_LISTS).size → end_at work.now s ≤ end_at work.now (s + 1) }
    ensures { MatchOption result ((FREE_LISTS).size < end_at work.now (s + 1))
        (λ list. (end_at work.now (s + 1) ≤ (FREE_LISTS).size) × (list.now ≡ list_at work.now s)) }
{
    if LIMIT < end_at(work, s + 1) {
        return None;
    }
    Some(list_at(work, s))
}

// ---- what the symbols of a body give

// With what symbol d gives to the free list of a body in scope `cs`, if it is one of the body.
#[cycle(giving)]
fn give(g: &Graph, cs: usize, d: usize, list: &mut ArrayVec<u16, 512>)
    requires d_lt_symbols { (d < g.now.symbols) × Filed g.now.words.now (d + 1) }
    requires held { Held g.now.symbols list.old.items }
    ensures { (bs : List ℕ) → Listed bs g.now (gives g.now.words.now cs (d ∷ [])) list.old.items
        list.new.items }
{
    let own = list_at(g.words, d);
    // an empty list gives nothing, wherever the symbol lies
    if own.is_empty() || g.is_arg(d) {
        return;
    }
    match g.relation(d, cs) {
        Rel::Local => outsiders::add_run(own, list),
        Rel::Deeper => {
            give_run(g, cs, d, own, list);
            outsiders::offer_run(g, cs, own, list);
        }
        Rel::Outside => {}
    }
}

// With what the symbols of a run give, all of them below `top`.
#[cycle(giving)]
fn give_run(g: &Graph, cs: usize, top: usize, run: &[u32], list: &mut ArrayVec<u16, 512>)
    requires top_lt_symbols { (top < g.now.symbols) × Filed g.now.words.now top }
    requires below { Under top run.now }
    requires held { Held g.now.symbols list.old.items }
    ensures { (bs : List ℕ) → Listed bs g.now (gives g.now.words.now cs run.now) list.old.items
        list.new.items }
{
    for &d in run {
        give(g, cs, d as usize, list);
    }
}

// ---- a list gathered

// What the children of c give, then the outsiders among them, thunks first, into an empty list.
fn gather(forest: &Forest, g: &Graph, c: usize, list: &mut ArrayVec<u16, 512>)
    requires arena { Over forest.now g.now }
    requires c_lt_symbols { (c < g.now.symbols) × Filed g.now.words.now c }
    requires empty { list.old.items ≡ [] }
    ensures { Listed forest.now g.now (λ h _. gather_step h (list_at g.now.words.now) c) []
        list.new.items }
{
    let y = key::load(g.words, c);
    let cs = y.scope as usize;
    give_run(g, cs, c, graph::children(g.words, y), list);
    outsiders::offer_kids(forest, g, cs, c, list);
}

// ---- a list stored

// A list stored as that of symbol c, or that there is no room for it.
fn store(work: &mut [u32], c: usize, list: &[u16])
    requires { (end FREE_LISTS ≤ length work.old) × (c < 512) × (end_at work.old c ≤ (FREE_LISTS).size) }
    ensures { work.new ≡ with_list work.old c list.now }
{
    let first = end_at(work, c);
    // an end past the last entry says so: it is a word of fixed memory
    if LIMIT < first + list.len() {
        work[regions::FREE_ENDS + c + 1] = LIMIT as u32 + 1;
        return;
    }
    for (k, &d) in list.iter().enumerate() {
        work[regions::FREE_LISTS + first + k] = u32::from(d);
    }
    work[regions::FREE_ENDS + c + 1] = (first + list.len()) as u32;
}

// The free list of symbol c, the newest, worked out and stored.
fn work_out(forest: &Forest, work: &mut [u32], c: usize, scopes: usize)
    requires arena { Arena forest.now work.old (c + 1) scopes }
    requires lists { Lists (graph_of forest.now work.old (c + 1) scopes []) work.old c }
    requires c_bound { end_at work.old c ≤ (FREE_LISTS).size }
    ensures { work.new ≡ with_list work.old c
        (free_vars (graph_of forest.now work.old (c + 1) scopes []) c) }
{
    let g = Graph {
        words: work,
        symbols: c + 1,
        scopes,
    };
    let mut list = ArrayVec::new();
    gather(forest, &g, c, &mut list);
    store(work, c, &list);
}

// The free list of symbol c, the newest, stored where there is room for it: it lies in `scope` and has `count`
// children.
// Rules out: another symbol's list; a list over one that is stored; an entry past the last; a list stored after one
// that is not.
pub fn keep(forest: &Forest, work: &mut [u32], c: usize, scopes: usize, scope: usize, count: usize)
    requires arena { Arena forest.now work.old (c + 1) scopes }
    requires lists { Lists (graph_of forest.now work.old (c + 1) scopes []) work.old c }
    requires scope_value { (scope ≡ (symbol_at work.old c).scope) × (count ≡ (symbol_at work.old c).count) }
    ensures { work.new ≡ with_list work.old c
        (free_vars (graph_of forest.now work.old (c + 1) scopes []) c) }
{
    let first = end_at(work, c);
    // in the outermost scope nothing lies outside, and a leaf refers to nothing
    if scope != 0 && count != 0 && first <= LIMIT {
        work_out(forest, work, c, scopes);
        return;
    }
    work[regions::FREE_ENDS + c + 1] = first as u32;
}
