// Usage and the gate (gate.rs): how often a symbol is used, and whether it may be hoisted. Word s of region USES is the
// count of symbol s, word s of region REACHED is 1 if it is reached.
// In order: words cleared, uses noted; what is reached from the root, counted; the gate's tests; the gate.
// That a symbol is `Sound` stays a clause: the lister asks the gate too, and holds no graph.
#![tactic(auto)]

ghost use Rattle.std.specs.Prelude.{◌≡◌, ℕ, suc, ◌+◌, ◌*◌, ◌<◌, ◌≤◌, length};
ghost use Rattle.model.specs.Forest.{record_count};
ghost use Rattle.model.specs.Intern.{Sym, sym_at};
ghost use Rattle.model.specs.Gate.{is_context_property, is_internal, is_const, should_hoist};
ghost use Rattle.regions.specs.Regions.{SLOTS, WORDS};
ghost use Rattle.symbols.specs.Words.{words_from};
ghost use Rattle.symbols.specs.Symbols.{key_rec, kids_at, syms_of, Sound};
ghost use Rattle.gate.specs.Gate.{uses_at, cleared, noted, all_noted, visited, visited_down};
ghost use Rattle.gate.specs.Gate.{Lower, Countable, Small, Notable, Reached};

use record::Forest;
use shape::{CONST, GLOBAL_OP, HEIGHT_OP, INPUTS_OP, OUTPUTS_OP, SELF_BOX_OP};

fn clear(work: &mut [u32], n: usize)
    requires { (n ≤ 512) × (WORDS ≤ length work.old) }
    ensures { work.new ≡ cleared work.old n }
{
    work[regions::USES..regions::USES + n].fill(0);
    work[regions::REACHED..regions::REACHED + n].fill(0);
}

// One use more of symbol s.
#[tactic(auto, unfolding(crate::specs::Gate::noted))]
fn note(work: &mut [u32], s: usize)
    requires { (s < 512) × (WORDS ≤ length work.old) × (uses_at work.old s < 4000000000) }
    ensures { work.new ≡ noted work.old s }
{
    work[regions::USES + s] += 1;
    work[regions::REACHED + s] = 1;
}

// The symbols in the words from `at` on, by index: these words are lent with those that are written.
fn note_all(work: &mut [u32], at: usize, count: usize)
    requires { Notable work.old at count }
    ensures { work.new ≡ all_noted work.old (words_from work.old at count) }
{
    for k in 0..count {
        let kid = work[at + k] as usize;
        note(work, kid);
    }
}

// The children of symbol s.
fn note_kids(work: &mut [u32], s: usize)
    requires s_bound { (s < 512) × (WORDS ≤ length work.old) }
    requires lower { Lower work.old s }
    requires small { Small work.old s }
    ensures { work.new ≡ all_noted work.old (kids_at work.old s) }
{
    let y = key::load(work, s);
    note_all(work, regions::SLOTS + y.kids as usize, y.count as usize)
}

// The children of symbol s, if it is reached.
#[tactic(auto, unfolding(crate::specs::Gate::visited))]
fn visit_symbol(work: &mut [u32], s: usize)
    requires s_bound { (s < 512) × (WORDS ≤ length work.old) }
    requires lower { Lower work.old s }
    requires small { Small work.old s }
    ensures { work.new ≡ visited (kids_at work.old) work.old s }
{
    let reached = work[regions::REACHED + s];
    if reached == 1 {
        note_kids(work, s);
    }
}

// A child is lower than its parent, so each symbol is known as reached before its turn if it is reached at all.
fn visit(work: &mut [u32], root: usize)
    requires countable { Countable work.old (suc root) }
    requires by_index { (s : ℕ) → s < suc root → uses_at work.old s ≡ 0 }
    ensures { work.new ≡ visited_down (kids_at work.old) work.old (suc root) }
{
    for s in (0..=root).rev() {
        visit_symbol(work, s);
    }
}

// Finds the symbols that are reached from the root, and counts their uses (`flat_usage_reachable`), among n symbols.
// Rules out: the slots of a symbol that nothing reaches counted; one use for a symbol that is a child twice; a word of
// a symbol after the last changed.
pub fn reach_and_count(work: &mut [u32], n: usize, root: usize)
    requires countable { Countable work.old n }
    requires root_lt_n { root < n }
    ensures { Reached work.old work.new n root }
{
    clear(work, n);
    work[regions::REACHED + root] = 1;
    visit(work, root)
}

// Which symbols are context properties, by their records' opcodes. Rules out: GLOBAL; SELF left out.
#[tactic(auto, unfolding(model::specs::Gate::is_context_property, model::specs::Lists::is_in))]
pub fn is_context_property(opcode: u8) -> bool
    ensures { (y : Sym) → y.rec.opcode ≡ opcode → result ≡ is_context_property y }
{
    matches!(opcode, HEIGHT_OP | INPUTS_OP | OUTPUTS_OP | SELF_BOX_OP)
}

// Which are GLOBAL. Rules out: HEIGHT; another leaf.
#[tactic(auto, unfolding(model::specs::Gate::is_internal))]
pub fn is_internal(opcode: u8) -> bool
    ensures { (y : Sym) → y.rec.opcode ≡ opcode → result ≡ is_internal y }
{
    opcode == GLOBAL_OP
}

// Which are scalar constants: record i, or a projection of that field made beside it, whose record has no aux.
// Rules out: a constant of no primitive class; a scalar with a mark left out.
#[tactic(auto, using(crate::proofs::Gate::records), unfolding(model::specs::Gate::is_const))]
pub fn is_const(forest: &Forest, i: usize, field: u32) -> bool
    requires i_bound { i < record_count forest.now }
    ensures { (y : Sym) → y.rec ≡ key_rec forest.now i field → result ≡ is_const y }
{
    forest.shape(i) == CONST && (field != 0 || record::class(forest.aux(i)) < 6)
}

// The gate: whether symbol s, which is used `uses` times, becomes a definition.
// Rules out: a symbol that is used once; HEIGHT, however often it is used.
#[tactic(auto, using(crate::proofs::Gate::loaded), unfolding(model::specs::Gate::should_hoist))]
pub fn should_hoist(forest: &Forest, work: &[u32], s: usize, uses: u32) -> bool
    requires sound { Sound forest.now work.now SLOTS.size s }
    requires s_in_bounds { 5 * s + 5 ≤ length work.now }
    ensures { (n : ℕ) → s < n → result ≡ should_hoist (sym_at (syms_of forest.now work.now n) s) uses }
{
    // asked first, before anything is loaded: most symbols are used once
    if uses < 2 {
        return false;
    }
    let p = key::parts_of(key::load(work, s).node);
    let i = p.source as usize;
    let opcode = forest.opcode(i);
    !is_context_property(opcode) && !is_internal(opcode) && !is_const(forest, i, p.field)
}
