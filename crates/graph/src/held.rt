// The graph that work words hold, as a type: who is given one need not ask that its words stand. That a number is one
// of its symbols stays a clause: the number says nothing of the graph.
ghost use Rattle.std.proofs.Props.{props};
ghost use Rattle.graph.specs.Graph.{Scoped};

// How many symbols and scopes stand in the work words.
#[derive(Clone, Copy)]
pub struct Graph<'a> {
    pub words: &'a [u32],
    pub symbols: usize,
    pub scopes: usize,
    pub ghost scoped: { Scoped words.now symbols scopes } by { Prim.hlevel props },
}
