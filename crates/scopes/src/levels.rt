// A set of numbers below 64, as the bits of a word: the nesting levels of the lambdas that a symbol depends on.
// In order: the empty set, a test, a level put in and taken out, two sets joined.
// That a level is below 64 stays a clause: levels are read from scopes' words, where no type holds it.
ghost use Rattle.std.specs.Prelude.{◌≡◌, false, not, ◌&&◌, ◌||◌, ℕ, ◌<◌, ◌^◌, eqb};
ghost use Rattle.scopes.specs.Levels.{has};

// No level. Rules out: level 0; every level.
#[tactic(auto, using(crate::proofs::Bits::has_none))]
pub fn empty() -> u64
    ensures { (j : ℕ) → has result j ≡ false }
{
    0
}

// Whether level k is in the set. Rules out: whether a level above k is; whether the set is k alone.
#[tactic(auto, unfolding(crate::specs::Levels::has))]
pub fn has(levels: u64, k: u32) -> bool
    requires { k < 64 }
    ensures { result ≡ has levels k }
{
    (levels >> k) % 2 == 1
}

// The set with level k. Rules out: k alone; the set with k taken out where it was in.
#[tactic(auto, using(crate::proofs::Bits::has_with))]
pub fn with(levels: u64, k: u32) -> u64
    requires { k < 64 }
    ensures { (j : ℕ) → has result j ≡ (eqb j k || has levels j) }
{
    levels | 1 << k
}

// The set without level k. Rules out: the set with k put in where it was out; the set without the levels below k.
#[tactic(auto, using(crate::proofs::Bits::has_without))]
pub fn without(levels: u64, k: u32) -> u64
    requires { k < 64 }
    ensures { (j : ℕ) → has result j ≡ (not (eqb j k) && has levels j) }
{
    levels & !(1 << k)
}

// The levels of either set. Rules out: those of both; those of one of the two sets only.
#[tactic(auto, using(crate::proofs::Bits::has_join))]
pub fn join(a: u64, b: u64) -> u64
    ensures { (j : ℕ) → has result j ≡ (has a j || has b j) }
{
    a | b
}
