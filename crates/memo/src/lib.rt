// Projections remembered, in work words: a word to a pair, the newest last.
#![tactic(auto)]

ghost use Rattle.std.specs.Prelude.{◌≡◌, ◌+◌, ◌<◌, ◌≤◌, length};
ghost use Rattle.model.specs.Intern.{recall};
ghost use Rattle.regions.specs.Regions.{WORDS, MEMO};
ghost use Rattle.memo.specs.Memo.{memo_of, remembered};

// What is remembered of symbol p among the first n pairs: the symbols of its fields 1 and 2.
// Rules out: the pair of another symbol; the two fields exchanged.
pub fn recall(work: &[u32], n: usize, p: u32) -> Option<(u32, u32)>
    requires { (n ≤ MEMO.size) × (WORDS ≤ length work.now) }
    ensures { result ≡ recall (memo_of work.now n) p }
{
    let pairs = &work[regions::MEMO..regions::MEMO + n];
    let newest = pairs.iter().rev().find(|w| **w % 512 == p);
    newest.map(|w| (*w / 512 % 512, *w / 262144))
}

// Pair n: a and b are fields 1 and 2 of p. Rules out: b first; another pair changed.
pub fn remember(work: &mut [u32], n: usize, p: u32, a: u32, b: u32)
    requires n_bound { (n < MEMO.size) × (WORDS ≤ length work.old) }
    requires p_bound { (p < 512) × (a < 512) × (b < 512) }
    ensures { work.new ≡ remembered work.old n p a b }
{
    work[regions::MEMO + n] = p + 512 * a + 262144 * b;
}
