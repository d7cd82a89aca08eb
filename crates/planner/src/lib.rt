// What planning a tree is made of. In order: the plan so far, and one row more; ids given, and taken back; where an
// operand is built; what is planned from (source.rt), and the symbols that get a definition in a scope.
#![tactic(auto)]

mod source;

ghost use Rattle.std.specs.Prelude.{◌≡◌, ℕ, ◌+◌, ◌<◌, ◌≤◌, true, length, get_or, replicate};
ghost use Rattle.std.proofs.lemmas.List.Edits.{sets};
ghost use Rattle.laws.specs.Range.{range};
ghost use Rattle.regions.specs.Regions.{PLAN};
ghost use Rattle.key.specs.Key.{branches_of};
ghost use Rattle.planner.specs.Grew.{RowPut};
ghost use Rattle.planner.specs.Building.{Buildable, taken_back, row_of, opened_at};
ghost use Rattle.planner.specs.Sources.{New, Member, Members, AnyMember};

use graph::Graph;
use key::{Branches, Operation};
use plan::Planned;
use record::Forest;
pub use source::Source;

// The most rows that a plan has, and its words: three a row.
pub const ROWS: usize = 256;

pub const WORDS: usize = 3 * ROWS;

// The plan so far: how many rows, at most 256, and the greatest depth.
#[derive(Clone, Copy, Debug, PartialEq, Eq)]
pub struct Plan {
    pub rows: usize,
    pub deepest: usize,
}

// ---- the plan so far

// One row more, `above` levels below the root: the plan with it, or none where that has 256 rows.
// Rules out: a row over the one before it; a row at the depth of its parent; a row stored past the 256th.
pub fn put(plan: &mut [u32], p: Plan, above: usize, row: Planned) -> Option<Plan>
    requires { (PLAN.size ≤ length plan.old) × (above < 4294967296) }
    ensures { RowPut plan.old p row (above + 1) plan.new result }
{
    if ROWS <= p.rows {
        return None;
    }
    plan::store(plan, 3 * p.rows, row);
    Some(Plan {
        rows: p.rows + 1,
        deepest: p.deepest.max(above + 1),
    })
}

// An operation's row: its record as it stands, or a projection that no record of the forest has.
// Rules out: the record of the pair's other projection, copied; a record of the forest made anew as a projection.
pub fn row_of(o: Operation) -> Planned
    ensures { result ≡ row_of o }
{
    match o.field {
        None => Planned::Copy(o.source),
        Some(field) => Planned::Field(field),
    }
}

// ---- the ids of symbols: word s is the id of symbol s, 0 if it has none (`Option<u32>` would double these 2 KB). One map
// for the whole tree: what is given in a scope is taken back at its end. Ids rise, so these are the ids after the last one
// at its start

// The symbols from `first` on get the ids after `last`. Rules out: `last` itself; the same id for two.
pub fn number(ids: &mut [u32], first: usize, count: usize, last: u32)
    requires { (0 < count → first + count ≤ length ids.old) × (last + count < 4294967296) }
    ensures { ids.new ≡ sets ids.old first (range (last + 1) count) }
{
    // by index: with no argument to number, `first` may lie past the ids
    for j in 0..count {
        ids[first + j] = last + 1 + j as u32;
    }
}

// The ids of the symbols from `first` on are taken back. Rules out: that of the symbol after them taken back too; that of
// the first of them left.
pub fn take_back_from(ids: &mut [u32], first: usize, count: usize)
    requires { 0 < count → first + count ≤ length ids.old }
    ensures { ids.new ≡ sets ids.old first (replicate count 0) }
{
    // by index, as they are given
    for j in 0..count {
        ids[first + j] = 0;
    }
}

// The ids after `last` of an order's symbols are taken back. Rules out: an id up to `last` taken back; one after it left.
pub fn take_back(ids: &mut [u32; 512], order: &[u16], last: u32)
    requires { (k : ℕ) → k < length order.now → get_or order.now k 0 < 512 }
    ensures { ids.new ≡ taken_back ids.old order.now last }
{
    for &s in order {
        let s = usize::from(s);
        if last < ids[s] {
            ids[s] = 0;
        }
    }
}

// ---- where an operand is built

// Operand j of an operation: the scope of its thunk, or none where it is built in its parent's. Thunks are operands 1
// and 2, so the scopes are met in their order.
// Rules out: the second thunk's scope for the first; a scope for an operand that is no thunk.
pub fn operand_scope(opcode: u8, o: Operation, j: usize) -> Option<u32>
    ensures { result ≡ opened_at opcode (branches_of o.branches) j }
{
    if !shape::is_thunked(opcode, j) {
        return None;
    }
    match o.branches {
        Branches::Zero => None,
        Branches::One(first) => (j == 1).then_some(first),
        Branches::Two(first, second) => Some(if j == 1 { first } else { second }),
    }
}

// ---- what is planned from, and the symbols that get a definition

impl<'a> Source<'a> {
    // The forest, the graph in these words, and its counts. Rules out: other words; counts of other symbols.
    pub fn new(
        forest: &'a Forest<'a>,
        words: &'a [u32],
        symbols: usize,
        scopes: usize,
        uses: &'a [u32],
    ) -> Source<'a>
        requires buildable { Buildable forest.now words.now symbols scopes }
        requires counted { symbols ≤ length uses.now }
        ensures forest { result.forest.now ≡ forest.entry.now }
        ensures words { result.graph.words.now ≡ words.entry.now }
        ensures many { (result.graph.symbols ≡ symbols) × (result.graph.scopes ≡ scopes) }
        ensures uses { result.uses.now ≡ uses.entry.now }
    {
        let graph = Graph {
            words,
            symbols,
            scopes,
        };
        Source {
            forest,
            graph,
            uses,
        }
    }

    // Whether symbol s gets a definition in scope `sc`.
    // Rules out: one of another scope; a context property, however often it is used; a lambda's argument.
    pub fn member(&self, s: usize, sc: usize, ids: &[u32; 512]) -> bool
        requires s_lt_symbols { s < self.now.graph.symbols }
        ensures is { Member self.now ids.now sc s result }
        ensures new { result ≡ true → New self.now ids.now s }
    {
        let uses = self.uses[s];
        // asked first, since most symbols are used once
        1 < uses
            && ids[s] == 0
            && key::load(self.graph.words, s).scope as usize == sc
            && !self.graph.is_arg(s)
            && gate::should_hoist(self.forest, self.graph.words, s, uses)
    }

    // How many symbols of an order get a definition in scope `sc`, seen from before the first of them.
    // Rules out: symbols of other scopes counted too; one that has an id counted again.
    pub fn members(&self, order: &[u16], sc: usize, ids: &[u32; 512]) -> u32
        requires order_bound { length order.now ≤ 512 }
        requires by_index { (k : ℕ) → k < length order.now → get_or order.now k 0 < self.now.graph.symbols }
        ensures { (result ≤ 512) × Members self.now ids.now sc order.now result }
    {
        let mut k = 0;
        // counted by hand: `filter(..).count()` gives a usize, which a row would have to cast
        for &s in order {
            if self.member(usize::from(s), sc, ids) {
                k += 1;
            }
        }
        k
    }

    // Whether any symbol up to `root` gets a definition in scope `sc`. Where none does, the scope needs no order.
    // Rules out: false where `root` itself gets one; true for a symbol of another scope.
    pub fn any_member(&self, root: usize, sc: usize, ids: &[u32; 512]) -> bool
        requires root_lt_symbols { root < self.now.graph.symbols }
        ensures { AnyMember self.now ids.now sc root result }
    {
        (0..root + 1).any(|s| self.member(s, sc, ids))
    }
}
