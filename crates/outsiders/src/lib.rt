// Free lists as they grow (materialize.rs, `free_vars`): the outsiders among some symbols, each put at the end of a
// list that has it not.
// In order: entries; a search; one symbol, and a run of them, whether outsiders or not; one outsider; those of a run;
// those among operands, thunks or others; the children of a symbol.
#![tactic(auto)]

ghost use Rattle.std.specs.Prelude.{◌≡◌, List, [], ◌∷◌, ℕ, ◌<◌, length, slice_index, slice_index_or, refl, ◌==◌};
ghost use Rattle.std.specs.List.{list_any};
ghost use Rattle.model.specs.Lists.{add, union};
ghost use Rattle.model.specs.Gate.{sym_of};
ghost use Rattle.model.specs.Schedule.{operands, local_dep_order, outsiders};
ghost use Rattle.laws.specs.Members.{Under};
ghost use Rattle.graph.specs.Tests.{Over};
ghost use Rattle.outsiders.specs.Outsiders.{offered, Held, Listed};

use arrayvec::ArrayVec;
use graph::Graph;
use record::Forest;

// An entry of a run of symbols: a word of the work memory, or an entry of a list. `numbers` are the symbols of a run.
pub trait Entry: Copy {
    ghost numbers: { List Self → List ℕ };

    // The symbol. Rules out: that of another place; its low bytes alone.
    fn symbol(self) -> usize
        ensures { (run : List Self) (k : ℕ) → k < length run → self ≡ slice_index_or run k self
            → result ≡ slice_index (numbers run) k };

    ghost lengths: { (xs : List Self) → length (numbers xs) ≡ length xs };
}

impl Entry for u16 {
    ghost numbers = { λ xs. xs };

    fn symbol(self) -> usize {
        usize::from(self)
    }

    ghost lengths = { λ xs. refl };
}

impl Entry for u32 {
    ghost numbers = { λ xs. xs };

    fn symbol(self) -> usize {
        self as usize
    }

    ghost lengths = { λ xs. refl };
}

// Whether d is among the entries of a list. Most lists are short: `contains`, which compares many entries at a time,
// takes more instructions for them.
fn has(list: &[u16], d: usize) -> bool
    ensures { result ≡ list_any (λ entry. entry == d) list.now }
{
    list.iter().any(|&entry| usize::from(entry) == d)
}

// With d, unless the list has it.
fn add(d: usize, list: &mut ArrayVec<u16, 512>)
    requires { (d < 512) × Held 512 list.old.items }
    ensures { list.new.items ≡ add list.old.items d }
{
    if !has(list, d) {
        list.push(d as u16);
    }
}

// With the symbols of a run, each once. Rules out: one that the list has already, put there again; another order.
pub fn add_run(run: &[u32], list: &mut ArrayVec<u16, 512>)
    requires below { Under 512 run.now }
    requires held { Held 512 list.old.items }
    ensures { list.new.items ≡ union list.old.items run.now }
{
    for &d in run {
        add(d as usize, list);
    }
}

// With d, if it is an outsider that the list has not.
// `Held` stays a clause of lists: its bound is the graph's, so a type of such lists would have to carry the graph.
fn offer(g: &Graph, cs: usize, d: usize, list: &mut ArrayVec<u16, 512>)
    requires d_lt_symbols { d < g.now.symbols }
    requires held { Held g.now.symbols list.old.items }
    ensures { (bs : List ℕ) → Listed bs g.now (offered cs (d ∷ [])) list.old.items list.new.items }
{
    if g.is_outsider(cs, d) {
        add(d, list);
    }
}

// With the outsiders of scope `cs` among the symbols of a run, each once.
// Rules out: an argument among them; one that the list has already, put there again.
pub fn offer_run<T: Entry>(g: &Graph, cs: usize, run: &[T], list: &mut ArrayVec<u16, 512>)
    requires below { Under g.now.symbols (T.numbers run.now) }
    requires held { Held g.now.symbols list.old.items }
    ensures { (bs : List ℕ) → Listed bs g.now (offered cs (T.numbers run.now)) list.old.items list.new.items }
{
    for &d in run {
        offer(g, cs, d.symbol(), list);
    }
}

// With the outsiders among the operands of a record with this opcode that are thunks, or among those that are none:
// `thunks` says which, as in the definition (`operands`); a filter as a closure would bring its promise along.
fn offer_operands(
    g: &Graph,
    cs: usize,
    opcode: u8,
    thunks: bool,
    run: &[u32],
    list: &mut ArrayVec<u16, 512>,
)
    requires below { Under g.now.symbols run.now }
    requires held { Held g.now.symbols list.old.items }
    ensures { (bs : List ℕ) → Listed bs g.now (offered cs (operands thunks opcode 0 run.now)) list.old.items
        list.new.items }
{
    for (j, &d) in run.iter().enumerate() {
        if shape::is_thunked(opcode, j) == thunks {
            offer(g, cs, d as usize, list);
        }
    }
}

// With the outsiders of scope `cs` among the children of s, thunks first (`local_dep_order`).
// Rules out: the children in the order in which they stand; an argument among them.
pub fn offer_kids(forest: &Forest, g: &Graph, cs: usize, s: usize, list: &mut ArrayVec<u16, 512>)
    requires arena { Over forest.now g.now }
    requires s_lt_symbols { s < g.now.symbols }
    requires held { Held g.now.symbols list.old.items }
    ensures { Listed forest.now g.now (λ h. outsiders h cs (local_dep_order (sym_of h s))) list.old.items
        list.new.items }
{
    let opcode = forest.opcode(key::source(g.words, s));
    let run = graph::children(g.words, key::load(g.words, s));
    offer_operands(g, cs, opcode, true, run, list);
    offer_operands(g, cs, opcode, false, run, list);
}
