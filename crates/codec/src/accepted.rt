// An accepted forest, as those take it who go on with it.
ghost use Rattle.std.specs.Prelude.{◌≡◌};
ghost use Rattle.std.proofs.Props.{props};
ghost use Rattle.model.specs.Ends.{entries};
ghost use Rattle.codec.specs.Accepted.{Passes};

use walk::Formed;

// A forest that passes checks 2 to 10 and 16, and where its subtrees end.
#[derive(Drop)]
pub struct Accepted<'a> {
    pub formed: Formed<'a>,
    pub ends: &'a [u16; 256],
    pub ghost passes: { Passes formed.laid } by { Prim.hlevel props },
    pub ghost ended: { ends.now ≡ entries formed.laid } by { Prim.hlevel props },
}
