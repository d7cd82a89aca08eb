// Ids in force with their symbols, in work words: two words to an entry, the newest entry last.
// In order: the symbol of an id; one more entry; what a lambda and a definition bind.
#![tactic(auto)]

ghost use Rattle.std.specs.Prelude.{◌≡◌, ◌+◌, ◌*◌, ◌<◌, ◌≤◌, length};
ghost use Rattle.model.specs.Opcodes.{FuncValue};
ghost use Rattle.model.specs.Forest.{record_count};
ghost use Rattle.model.specs.Binding.{args_of};
ghost use Rattle.model.specs.Intern.{resolve};
ghost use Rattle.laws.specs.Range.{range};
ghost use Rattle.shape.specs.Reading.{AllArgs};
ghost use Rattle.walk.specs.Walk.{rec_at};
ghost use Rattle.regions.specs.Regions.{WORDS, BINDINGS};
ghost use Rattle.bindings.specs.Bindings.{env_of, bound, arg_bindings, bound_all};
ghost use Rattle.bindings.specs.Made.{ArgsBound, DefBound};

use shape::{Args, VAL_DEF};
use walk::Formed;

// The symbol of an id among the first n entries, by the newest that has it. Rules out: by the oldest; the id itself.
#[tactic(auto, using(crate::proofs::Laws::resolving))]
pub fn resolve(work: &[u32], n: usize, id: u32) -> u32
    requires { (2 * n ≤ BINDINGS.size) × (WORDS ≤ length work.now) }
    ensures { result ≡ resolve (env_of work.now n) id }
{
    // by index: pairs of words as slices would be taken apart by index again. 0 where no id is, as the definition gives
    for k in (0..n).rev() {
        if work[regions::BINDINGS + 2 * k] == id {
            return work[regions::BINDINGS + 2 * k + 1];
        }
    }
    0
}

// An id and its symbol become entry k.
// Rules out: the symbol under the next id; a word changed beside the entry's two.
fn bind(work: &mut [u32], k: usize, id: u32, symbol: u32)
    requires { BINDINGS.first + 2 * k + 1 < length work.old }
    ensures { work.new ≡ bound work.old k id symbol }
{
    work[regions::BINDINGS + 2 * k] = id;
    work[regions::BINDINGS + 2 * k + 1] = symbol;
}

// ---- what a lambda and a definition bind

// Binds the n arguments of a literal to the symbols from `first` on, above top entries.
#[tactic(auto, using(crate::proofs::Args::binding))]
fn bind_all(lit: &[u8], work: &mut [u32], n: u8, top: usize, first: u32)
    requires all { AllArgs n lit.now }
    requires n_bound { (n ≤ 15) × (top + n ≤ 1200) × (WORDS ≤ length work.old) × (first ≤ 512) }
    ensures { work.new
        ≡ bound_all work.old top (arg_bindings (args_of n lit.now) (range first n)) }
{
    // it goes up beside the loop: zipped in too, the arguments would come as pairs of pairs
    let mut symbol = first;
    for (k, arg) in (0..usize::from(n)).rev().zip(Args::new(lit, n)) {
        bind(work, top + k, arg.id, symbol);
        symbol += 1;
    }
}

// Binds the arguments of lambda i to the symbols from `first` on, above top entries, the first argument newest; gives
// how many entries there are then. Rules out: the last argument newest; every argument bound to the first symbol.
pub fn bind_args(forest: &Formed, work: &mut [u32], i: usize, top: usize, first: u32) -> usize
    requires i_bound { (i < record_count forest.now.laid) × ((rec_at forest.now.laid i).shape ≡ FuncValue) }
    requires top_bound { (top + 15 ≤ 1200) × (WORDS ≤ length work.old) × (first ≤ 512) }
    ensures { ArgsBound forest.now.laid i top first work.old work.new result }
{
    let n = forest.laid.aux(i);
    bind_all(forest.laid.literal(i), work, n, top, first);
    top + usize::from(n)
}

// Binds what record i's subtree, whose symbol is given, binds in its later siblings: a definition's id, above top
// entries, and otherwise nothing; gives how many entries there are then.
// Rules out: a lambda's arguments bound; the symbol under another record's id.
pub fn bind_def(forest: &Formed, work: &mut [u32], i: usize, top: usize, symbol: u32) -> usize
    requires i_bound { (i < record_count forest.now.laid) × (top < 1200) × (WORDS ≤ length work.old) }
    ensures { DefBound forest.now.laid i top symbol work.old work.new result }
{
    if forest.laid.shape(i) != VAL_DEF {
        return top;
    }
    bind(work, top, shape::id(forest.laid.literal(i)), symbol);
    top + 1
}
