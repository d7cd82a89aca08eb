// Scopes in work words: opening one, its parts, where a new symbol is placed, where a scope lies seen from another.
// levels.rt has sets of nesting levels. A climb from scope to scope is a `while`: no range or list holds its
// steps, and `iter::successors` would put step and test into closures and the end into an `Option`, which is no
// plainer. That a scope's word is there, and its level below 63, stay clauses: they tie a number to words.
#![tactic(auto)]

pub mod levels;

ghost use Rattle.std.specs.Prelude.{◌≡◌, ℕ, ◌+◌, ◌<◌, ◌≤◌, length, set};
ghost use Rattle.model.specs.Lists.{is_in};
ghost use Rattle.model.specs.Intern.{scope_at};
ghost use Rattle.regions.specs.Regions.{SCOPES};
ghost use Rattle.scopes.specs.Scopes.{scope_word, packed_of, parent_of, level_of, with_thunk, with_lambda};
ghost use Rattle.scopes.specs.Scopes.{scopes_of, Nested, left_by, Placed};
ghost use Rattle.scopes.specs.Relation.{Classified};

// Where a scope lies, seen from another.
#[derive(Clone, Copy, Debug, PartialEq, Eq)]
pub enum Rel {
    Local,
    Deeper,
    Outside,
}

// ---- opening scopes

// The parts of a scope in one word, for a thunk and for a lambda: `code` is 0 for a thunk, else how many arguments and
// 1 more, since fixed memory holds no enum.
fn packed(parent: u32, first: u32, code: u32, level: u32) -> u32
    requires parent_bound { parent < 4096 }
    requires first_bound { first < 512 }
    requires code_bound { code < 32 }
    requires level_bound { level < 64 }
    ensures { result ≡ packed_of parent first code level }
{
    parent + 4096 * first + 2097152 * code + 67108864 * level
}

// The outermost scope is opened. Rules out: a word left as it was; a lambda.
pub fn open_outermost(work: &mut [u32])
    requires { SCOPES.first < length work.old }
    ensures { work.new ≡ set work.old SCOPES.first 0 }
{
    work[regions::SCOPES] = 0;
}

// Scope m is opened as a thunk inside `cur`. Rules out: a lambda without arguments; a scope one level deeper.
pub fn open_thunk(work: &mut [u32], m: usize, cur: usize)
    requires m_in_bounds { SCOPES.first + m < length work.old }
    requires cur_lt_m { (cur < m) × (m ≤ 4096) }
    ensures { work.new ≡ with_thunk work.old m cur }
{
    let depth = level(work, cur);
    work[regions::SCOPES + m] = packed(cur as u32, 0, 0, depth);
}

// Scope m is opened as the body of a lambda inside `cur`, with `count` arguments from symbol `first` on.
// Rules out: at the level of `cur`; with one argument more or less.
pub fn open_lambda(work: &mut [u32], m: usize, cur: usize, first: u32, count: u32)
    requires m_in_bounds { SCOPES.first + m < length work.old }
    requires cur_lt_m { (cur < m) × (m ≤ 4096) }
    requires first_bound { (first < 512) × (count < 31) }
    requires cur_bound { level_of (scope_word work.old cur) < 63 }
    ensures { work.new ≡ with_lambda work.old m cur first count }
{
    let depth = level(work, cur);
    work[regions::SCOPES + m] = packed(cur as u32, first, count + 1, depth + 1);
}

// ---- the parts of a scope

// The scope around scope k. Rules out: k itself; the outermost.
fn parent(work: &[u32], k: usize) -> usize
    requires { SCOPES.first + k < length work.now }
    ensures { result ≡ parent_of (scope_word work.now k) }
{
    (work[regions::SCOPES + k] % 4096) as usize
}

// The lambdas around scope k, its own among them. Rules out: those around its parent; the scopes around k.
pub fn level(work: &[u32], k: usize) -> u32
    requires { SCOPES.first + k < length work.now }
    ensures { (result ≡ level_of (scope_word work.now k)) × (result < 64) }
{
    work[regions::SCOPES + k] / 67108864
}

// ---- placement

// Whether a symbol with these levels moves out of scope k.
#[tactic(auto, unfolding(crate::specs::Scopes::left_by))]
fn leaves(work: &[u32], k: usize, levels: u64) -> bool
    requires { SCOPES.first + k < length work.now }
    ensures { result ≡ left_by levels (scope_word work.now k) }
{
    let w = work[regions::SCOPES + k];
    w / 2097152 % 32 != 0 && !levels::has(levels, w / 67108864)
}

// The scope that a symbol met in `cur` is placed in: out of each lambda whose level is not among `levels`, never out
// of a thunk.
// Rules out: the parent of a thunk; a lambda that the symbol does not depend on.
pub fn placement(work: &[u32], cur: usize, levels: u64) -> usize
    requires cur_in_bounds { SCOPES.first + cur < length work.now }
    requires nested { Nested work.now (cur + 1) }
    ensures { Placed work.now cur levels result }
{
    let mut k = cur;
    while leaves(work, k, levels) {
        k = parent(work, k);
    }
    k
}

// ---- where a scope lies

// Whether scope `ancestor` is around scope `sc`. Rules out: true of `sc` itself; true of a scope inside `sc`.
fn is_ancestor(work: &[u32], ancestor: usize, sc: usize) -> bool
    requires sc_in_bounds { SCOPES.first + sc < length work.now }
    requires nested { Nested work.now (sc + 1) }
    ensures { (m : ℕ) → sc < m → result ≡ is_in ancestor (scope_at (scopes_of work.now m) sc).around }
{
    let mut k = sc;
    while 0 < k {
        k = parent(work, k);
        // the climb ends where it is found
        if k == ancestor {
            return true;
        }
    }
    false
}

// Where scope `sc` lies, seen from `cur`. Rules out: where `cur` lies, seen from `sc`; deeper for `cur` itself.
#[tactic(auto, unfolding(model::specs::Schedule::classify))]
pub fn classify(work: &[u32], sc: usize, cur: usize) -> Rel
    requires sc_in_bounds { SCOPES.first + sc < length work.now }
    requires nested { Nested work.now (sc + 1) }
    ensures { Classified work.now sc cur result }
{
    if sc == cur {
        Rel::Local
    } else if is_ancestor(work, cur, sc) {
        Rel::Deeper
    } else {
        Rel::Outside
    }
}
