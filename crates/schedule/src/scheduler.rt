// What stays the same while an order is walked, as a type: who is given one need not ask that free lists stand.
ghost use Rattle.std.proofs.Props.{props};
ghost use Rattle.free_lists.specs.FreeLists.{Stocked};

use graph::Graph;
use record::Forest;

// The order of a body in a scope, or the schedule of a scope: an enum, since contracts name the order, where closures
// would bring promises of their own into each function of the cycle.
#[derive(Clone, Copy)]
pub enum Order {
    Body(usize),
    Schedule(usize),
}

// An order, and the graph that it is of, over a forest, with the free lists of its symbols.
#[derive(Clone, Copy)]
pub struct Scheduler<'a> {
    pub forest: &'a Forest<'a>,
    pub graph: Graph<'a>,
    pub order: Order,
    pub ghost stocked: { Stocked forest.now graph } by { Prim.hlevel props },
}
