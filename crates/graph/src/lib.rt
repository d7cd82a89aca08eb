// The graph in the work words (held.rt): symbols and scopes. In order: words in a row; the children of a symbol; tests
// of a symbol that hang on both.
#![tactic(auto)]

mod held;

ghost use Rattle.std.specs.Prelude.{◌≡◌, ◌+◌, ◌<◌, ◌≤◌, length};
ghost use Rattle.model.specs.Gate.{sym_of};
ghost use Rattle.model.specs.Schedule.{is_arg, is_outside};
ghost use Rattle.regions.specs.Regions.{SLOTS};
ghost use Rattle.symbols.specs.Words.{words_from, slots_from};
ghost use Rattle.scopes.specs.Relation.{rel_in};
ghost use Rattle.graph.specs.Tests.{Related, Tests, is_outsider};

pub use held::Graph;
use key::{Node, Symbol};
use scopes::Rel;

// `count` words from `from` on: the one place that makes a slice of what words tell by place and count (fixed memory).
// Rules out: one word less; those after them.
#[tactic(auto, using(symbols::proofs::Words::words_slice))]
pub fn words(work: &[u32], from: usize, count: usize) -> &[u32]
    requires { from + count ≤ length work.now }
    ensures { result.now ≡ words_from work.now from count }
{
    &work[from..from + count]
}

// The children of a symbol that was loaded. Rules out: those of the symbol after it; the slot after them.
pub fn children(work: &[u32], y: Symbol) -> &[u32]
    requires { SLOTS.first + y.kids + y.count ≤ length work.now }
    ensures { result.now ≡ slots_from work.now y.kids y.count }
{
    words(work, regions::SLOTS + y.kids as usize, y.count as usize)
}

// Whether that is outside. Rules out: true of deeper scopes; false of the scope around.
pub fn is_outside(rel: Rel) -> bool
    ensures { result ≡ is_outside (rel_in rel) }
{
    matches!(rel, Rel::Outside)
}

impl<'a> Graph<'a> {
    // Whether symbol s is a lambda's argument. Rules out: another leaf; a lambda that binds it.
    pub fn is_arg(&self, s: usize) -> bool
        requires s_lt_symbols { s < self.now.symbols }
        ensures { Tests self.now (λ h. is_arg (sym_of h s).node) result }
    {
        matches!(key::load(self.words, s).node, Node::Arg(_))
    }

    // Where symbol s lies, seen from scope `cur`. Rules out: where `cur` lies, seen from s; another symbol's place.
    pub fn relation(&self, s: usize, cur: usize) -> Rel
        requires s_lt_symbols { s < self.now.symbols }
        ensures { Related self.now s cur result }
    {
        let sc = key::load(self.words, s).scope as usize;
        scopes::classify(self.words, sc, cur)
    }

    // Whether symbol d is no argument, and lies outside scope `cs`. Rules out: an argument; a symbol of a deeper scope.
    pub fn is_outsider(&self, cs: usize, d: usize) -> bool
        requires d_lt_symbols { d < self.now.symbols }
        ensures { Tests self.now (is_outsider cs d) result }
    {
        !self.is_arg(d) && is_outside(self.relation(d, cs))
    }
}
