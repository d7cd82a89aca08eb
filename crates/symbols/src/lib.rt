// Symbols as model has them, over the work memory (key.rs, interner.rs). In order: records as keys have them, compared;
// one symbol more.
#![tactic(auto)]

ghost use Rattle.std.specs.Prelude.{◌≡◌, [], ◌∷◌, ◌+◌, ◌<◌, ◌≤◌, length};
ghost use Rattle.std.proofs.lemmas.List.Edits.{sets};
ghost use Rattle.model.specs.Lists.{same};
ghost use Rattle.model.specs.Tree.{same_rec};
ghost use Rattle.model.specs.Forest.{record_count};
ghost use Rattle.symbols.specs.Words.{words_from};
ghost use Rattle.symbols.specs.Symbols.{key_rec, made, RoomFor};

use key::Symbol;
use record::Forest;

// Whether the one byte of `a` is b.
#[tactic(auto, using(crate::proofs::Same::same_one, crate::proofs::Same::same_not_one))]
fn is_byte(a: &[u8], b: u32) -> bool
    ensures { result ≡ same a.now (b ∷ []) }
{
    match a {
        [x] => u32::from(*x) == b,
        _ => false,
    }
}

#[tactic(auto, unfolding(crate::specs::Symbols::key_rec))]
fn aux_of(forest: &Forest, i: usize, field: u32) -> u8
    requires i_bound { i < record_count forest.now }
    ensures { result ≡ (key_rec forest.now i field).aux }
{
    if field == 0 { forest.aux(i) } else { 0 }
}

// A projection's literal is one byte, its field.
#[tactic(auto, using(crate::proofs::Same::literals), unfolding(crate::specs::Symbols::key_rec))]
fn same_literal(forest: &Forest, i: usize, f: u32, j: usize, g: u32) -> bool
    requires i_bound { (i < record_count forest.now) × (j < record_count forest.now) }
    ensures { result ≡ same (key_rec forest.now i f).lit (key_rec forest.now j g).lit }
{
    match (f, g) {
        (0, 0) => forest.literal(i) == forest.literal(j),
        (0, _) => is_byte(forest.literal(i), g),
        (_, 0) => is_byte(forest.literal(j), f),
        _ => f == g,
    }
}

// Whether two records, as keys have them, are the same. Rules out: equal shapes and opcodes with other literals; a
// projection that is taken for the record that it was made for.
#[tactic(auto, using(crate::proofs::Same::heads), unfolding(model::specs::Tree::same_rec))]
pub fn same_rec(forest: &Forest, i: usize, f: u32, j: usize, g: u32) -> bool
    requires i_bound { (i < record_count forest.now) × (j < record_count forest.now) }
    ensures { result ≡ same_rec (key_rec forest.now i f) (key_rec forest.now j g) }
{
    forest.shape(i) == forest.shape(j)
        && forest.opcode(i) == forest.opcode(j)
        && aux_of(forest, i, f) == aux_of(forest, j, g)
        && same_literal(forest, i, f, j, g)
}

// y as symbol n: its children are the pending symbols from `held` on, copied to its slots.
// Rules out: another symbol's words; the slots left as they were.
#[tactic(auto, using(crate::proofs::Words::words_copied), unfolding(crate::specs::Symbols::made))]
pub fn make(work: &mut [u32], n: usize, held: usize, y: Symbol)
    requires { RoomFor work.old n held y }
    ensures { work.new ≡ made work.old n held y }
{
    let from = regions::PENDING + held;
    work.copy_within(
        from..from + y.count as usize,
        regions::SLOTS + y.kids as usize,
    );
    key::store(work, n, y)
}
