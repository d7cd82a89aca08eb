// The stack of open tables (interner.rs), and the search through it. Entry k of the tables is word k of ENTRIES: a
// symbol, and above it a hint of its key, so that most entries are passed over by one comparison. In order: the stack;
// one entry more; hints; keys compared; the search. A symbol's children so far are told by place and count, here and in
// interning, and no slice: the words that hold them are lent `&mut` beside them. `Open` stays a clause: it ties the
// stack to a count of entries, which grows.
#![tactic(auto)]

ghost use Rattle.std.specs.Prelude.{◌≡◌, ℕ, ◌+◌, ◌*◌, ◌<◌, ◌≤◌, length, get_or, set, take};
ghost use Rattle.model.specs.Lists.{same};
ghost use Rattle.model.specs.Forest.{record_count};
ghost use Rattle.model.specs.Intern.{lookup};
ghost use Rattle.record.specs.Record.{row_at};
ghost use Rattle.regions.specs.Regions.{WORDS, SLOTS, ENTRIES, PENDING};
ghost use Rattle.symbols.specs.Words.{slots_from, pending_from};
ghost use Rattle.symbols.specs.Symbols.{key_rec, syms_of, Sound};
ghost use Rattle.tables.specs.Tables.{tables_of, new_tables, opened};
ghost use Rattle.tables.specs.Tables.{hint, Open, Entries, EntriesBelow, same_key};

use record::Forest;
use std::marker::Model;

// Where each open table's entries start, the oldest first; the newest table ends where the entries do. In contracts it
// is the list of these starts. A thunk's stack is a copy with one more, and `Tables` is `Copy`, which `ArrayVec` is
// not; so the starts that are not in use are 0, and the list says what the array holds.
#[derive(Clone, Copy)]
pub struct Tables {
    pub base: [u16; 64],
    pub depth: usize,
}

impl Model for Tables {
    ghost use Rattle.std.specs.Prelude.{ℕ, ◌-◌, ◌≤◌, ◌++◌, List, length, take, replicate};
    ghost use Rattle.std.proofs.Common.{sym, ap, subst, ◌∙◌, take-append-drop, length-take-le};
    ghost use Rattle.tables.specs.Starts.{Starts};

    ghost Value = { List ℕ };

    ghost view = { λ t. take t.depth t.base };

    ghost invariant = { λ t. Starts t.base t.depth };

    ghost inverse = { λ ts. record { base = ts ++ replicate (64 - length ts) 0; depth = length ts } };

    ghost inverse_ok = { λ t h.
        let depth_is = length-take-le t.depth t.base (subst (λ (n : ℕ). t.depth ≤ n) (sym h.long) h.few) in
        let starts_are =
        ap (λ (n : ℕ). take t.depth t.base ++ replicate (64 - n) 0) depth_is
        ∙ (ap (λ (ts : List ℕ). take t.depth t.base ++ ts) (sym h.free) ∙ take-append-drop t.depth t.base) in
        λ i. record { base = starts_are i; depth = depth_is i } };
}

impl Tables {
    // One open table. Rules out: no table, in which no symbol could be entered; 64 of them.
    pub fn new() -> Tables
        ensures { result ≡ new_tables }
    {
        Tables {
            base: [0; 64],
            depth: 1,
        }
    }

    // The tables that the first `depth` starts of an array give, whatever it holds after these: a stack need not begin at
    // entry 0. Rules out: the first table at entry 0; one table more.
    pub fn of(mut base: [u16; 64], depth: usize) -> Tables
        requires { depth ≤ 64 }
        ensures { result ≡ take depth base }
    {
        base[depth..].fill(0);
        Tables { base, depth }
    }

    // A new table, which starts at entry `top`. Rules out: one that takes over the entries of the newest; one that is
    // older than the others.
    pub fn push(mut self, top: usize) -> Tables
        requires { (length self < 64) × (top ≤ 512) }
        ensures { result ≡ opened self top }
    {
        self.base[self.depth] = top as u16;
        self.depth += 1;
        self
    }
}

// One entry more in the newest table, where there are `top`. Rules out: an entry in the oldest table; another symbol.
pub fn enter(work: &mut [u32], top: usize, symbol: u32, hint: u32)
    requires { (top < 512) × (symbol < 512) × (hint < 131072) × (WORDS ≤ length work.old) }
    ensures { work.new ≡ set work.old (ENTRIES.first + top) (symbol + 512 * hint) }
{
    work[regions::ENTRIES + top] = symbol + 512 * hint;
}

// The hint of the key of record i, or of a projection that it makes, over the pending children from `held` on.
// Rules out: the opcode alone where there are children; a hint by the last child.
#[tactic(auto, using(crate::proofs::Keys::hint_none, crate::proofs::Keys::hint_first))]
pub fn hint_of(forest: &Forest, work: &[u32], i: usize, held: usize, count: usize) -> u32
    requires i_bound { i < record_count forest.now }
    requires count_bound { (held + count ≤ 256) × (WORDS ≤ length work.now) }
    requires by_index { (k : ℕ) → k < count → get_or work.now (PENDING.first + held + k) 0 < 512 }
    ensures { (result ≡ hint (row_at forest.now i).rec.opcode (pending_from work.now held count))
        × (result < 131072) }
{
    let opcode = u32::from(forest.opcode(i));
    if count == 0 {
        return opcode;
    }
    opcode + 256 * work[regions::PENDING + held]
}

fn same_kids(work: &[u32], kids: usize, n: usize, held: usize, count: usize) -> bool
    requires { (kids + n ≤ SLOTS.size) × (held + count ≤ 256) × (WORDS ≤ length work.now) }
    ensures { result ≡ same (slots_from work.now kids n) (pending_from work.now held count) }
{
    let kids = regions::SLOTS + kids;
    let held = regions::PENDING + held;
    work[kids..kids + n] == work[held..held + count]
}

// Whether symbol s has the key of record i, or of its projection to `field`, over the pending children from `held` on.
fn same_key(
    forest: &Forest,
    work: &[u32],
    s: usize,
    i: usize,
    field: u32,
    held: usize,
    count: usize,
) -> bool
    requires i_bound { i < record_count forest.now }
    requires sound { Sound forest.now work.now SLOTS.size s }
    requires s_bound { (s < 512) × (held + count ≤ 256) × (WORDS ≤ length work.now) }
    ensures { result ≡ same_key forest.now work.now i field held count s }
{
    let y = key::load(work, s);
    same_kids(work, y.kids as usize, y.count as usize, held, count)
        && symbols::same_rec(forest, key::source(work, s), key::field(work, s), i, field)
}

// The symbol of a key, "sought in the newest open table first": of record i, or of its projection to `field`, over the
// pending children from `held` on. Rules out: an older table's symbol where a newer one has the key; a symbol over
// other children.
pub fn find(
    forest: &Forest,
    work: &[u32],
    t: Tables,
    top: usize,
    i: usize,
    field: u32,
    held: usize,
    count: usize,
) -> Option<u32>
    requires i_bound { i < record_count forest.now }
    requires fact { Open t top }
    requires entries { Entries forest.now work.now top }
    requires count_bound { (held + count ≤ 256) × (WORDS ≤ length work.now) }
    requires by_index { (k : ℕ) → k < count → get_or work.now (PENDING.first + held + k) 0 < 512 }
    ensures { (n : ℕ) → EntriesBelow work.now top n →
        result ≡ lookup (syms_of forest.now work.now n)
        (key_rec forest.now i field) (pending_from work.now held count)
        (tables_of work.now t top) }
{
    let hint = hint_of(forest, work, i, held, count);
    let first = 512 * hint;
    // the starts alone: they are copied without a call
    let base = t.base;
    let mut end = top;
    'tables: {
        for d in (0..t.depth).rev() {
            let start = usize::from(base[d]);
            // by index, as the loop around: between two ends that move from table to table
            for k in (start..end).rev() {
                // under the hint of the key what is left is the symbol, else 512 or more: one comparison an entry
                let s = work[regions::ENTRIES + k].wrapping_sub(first);
                if s < 512 {
                    if same_key(forest, work, s as usize, i, field, held, count) {
                        break 'tables Some(s);
                    }
                }
            }
            end = start;
        }
        None
    }
}
