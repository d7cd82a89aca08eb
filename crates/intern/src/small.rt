// The small steps of the walk: where a child is read, thunks, children counted again, a lambda's first argument.
ghost use Rattle.std.specs.Prelude.{◌≡◌, ◌+◌, ◌-◌, ◌<◌, ◌≤◌};
ghost use Rattle.laws.specs.Range.{range};
ghost use Rattle.opening.specs.Opening.{with_readings};
ghost use Rattle.intern.specs.Steps.{child_at, one_more, repeats};

use crate::Here;
use interner::State;
use key::Branches;

// Where child j is read, with `top` ids bound. Rules out: the place of the child before it; its parent's ids alone.
pub fn child_at(at: Here, j: usize, top: usize) -> Here
    requires { at.held + j ≤ 256 }
    ensures { result ≡ child_at at j top }
{
    Here {
        scope: at.scope,
        held: at.held + j,
        top,
    }
}

// The scopes of thunks, with one more where there is one or none. Rules out: a second in place of the first; a third;
// the scope not noted.
pub fn one_more(b: Branches, scope: usize) -> Branches
    requires { scope ≤ 2049 }
    ensures { result ≡ one_more b scope }
{
    let scope = scope as u32;
    match b {
        Branches::Zero => Branches::One(scope),
        Branches::One(first) | Branches::Two(first, _) => Branches::Two(first, scope),
    }
}

// Whether to read again would only count: from `before` to `after` no scope was opened, and the readings suffice. Rules
// out: scopes that a second reading would open left out; more readings than there may be.
pub fn repeats(before: State, after: State) -> bool
    requires { (before.readings ≤ 2048) × (after.readings ≤ 2048) }
    ensures { result ≡ repeats before after }
{
    after.scopes == before.scopes && after.readings + after.readings <= 2048 + before.readings
}

// Children read from `before` on, counted again. Rules out: their readings counted once; other symbols, scopes or
// entries.
pub fn count_again(before: State, st: &mut State)
    requires readings_le_readings { before.readings ≤ st.old.readings }
    requires readings_bound { st.old.readings + st.old.readings ≤ 2048 + before.readings }
    ensures { st.new ≡ with_readings st.old (st.old.readings - before.readings) }
{
    let more = st.readings - before.readings;
    opening::count_readings(st, more);
}

// The first of a lambda's arguments; 0 where it has none, since a symbol's word (fixed memory) holds a number. Rules
// out: the last; 512, where there is no symbol.
pub fn first_of(symbol: u32, count: usize) -> u32
    requires { symbol + count ≤ 512 }
    ensures { (range result count ≡ range symbol count) × (result < 512) }
{
    if count == 0 { 0 } else { symbol }
}
