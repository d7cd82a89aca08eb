// What a tree is planned from, as a type: who is given one need not ask that a tree can be built.
ghost use Rattle.std.specs.Prelude.{◌≤◌, length};
ghost use Rattle.planner.specs.Building.{Buildable, Buildable-prop};

use graph::Graph;
use record::Forest;

// A forest, the graph of its symbols, and the words of the counts: word s is how often symbol s is used.
#[derive(Clone, Copy)]
pub struct Source<'a> {
    pub forest: &'a Forest<'a>,
    pub graph: Graph<'a>,
    pub uses: &'a [u32],
    pub ghost counted: { graph.symbols ≤ length uses.now },
    pub ghost buildable: { Buildable forest.now graph.words.now graph.symbols graph.scopes } by { Buildable-prop forest.now graph.words.now graph.symbols graph.scopes },
}
