// What interning does to its state beside making symbols: readings counted, thunks opened and closed, bodies of lambdas
// opened (intern.rs). None refuses. Those that are lent the words write the word of the new scope, and no other.
#![tactic(auto)]

ghost use Rattle.std.specs.Prelude.{◌≡◌, ◌+◌, ◌<◌, ◌≤◌, length};
ghost use Rattle.regions.specs.Regions.{WORDS};
ghost use Rattle.scopes.specs.Scopes.{scope_word, level_of, with_thunk, with_lambda};
ghost use Rattle.opening.specs.Opening.{with_readings, with_reading, with_scope, thunk_closed};

use interner::State;

// n readings more. Rules out: one more; the count as it was.
pub fn count_readings(st: &mut State, n: u32)
    requires { st.old.readings + n ≤ 2048 }
    ensures { st.new ≡ with_readings st.old n }
{
    st.readings += n;
}

// One reading more. Rules out: the count as it was; a reading that counts twice.
pub fn count_reading(st: &mut State)
    requires { st.old.readings < 2048 }
    ensures { st.new ≡ with_reading st.old }
{
    count_readings(st, 1);
}

// A thunk inside scope `cur` is opened: counts its scope, and writes that scope's word. The table of its own is pushed
// by the caller. Rules out: a thunk inside another scope; a lambda's body.
pub fn open_thunk(work: &mut [u32], st: &mut State, cur: usize)
    requires in_bounds { WORDS ≤ length work.old }
    requires cur_lt_scopes { (cur < st.old.scopes) × (st.old.scopes ≤ 2048) }
    ensures { (work.new ≡ with_thunk work.old st.old.scopes cur) × (st.new ≡ with_scope st.old) }
{
    scopes::open_thunk(work, st.scopes as usize, cur);
    st.scopes += 1;
}

// A thunk's table is dropped: leaves the first `top` of the entries, those from before the thunk. Rules out: its
// symbols found after it; entries around it dropped too.
pub fn close_thunk(st: &mut State, top: u32)
    ensures { st.new ≡ thunk_closed st.old top }
{
    st.entries = top;
}

// The body of a lambda inside scope `cur` is opened, with `count` arguments from symbol `first` on: counts its scope,
// and writes that scope's word. Rules out: a thunk, out of which no symbol moves; a scope that is not counted.
pub fn open_body(work: &mut [u32], st: &mut State, cur: usize, first: u32, count: u32)
    requires in_bounds { WORDS ≤ length work.old }
    requires cur_lt_scopes { (cur < st.old.scopes) × (st.old.scopes ≤ 2048) }
    requires first_bound { (first < 512) × (count ≤ 15) }
    requires cur_bound { level_of (scope_word work.old cur) < 63 }
    ensures { (work.new ≡ with_lambda work.old st.old.scopes cur first count) × (st.new ≡ with_scope st.old) }
{
    scopes::open_lambda(work, st.scopes as usize, cur, first, count);
    st.scopes += 1;
}
