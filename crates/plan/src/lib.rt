// The plan of a written tree: one row for each record to be written, three work words a row. In order: a row; its words;
// rows stored and loaded; which symbols a plan defines.
#![tactic(auto)]

ghost use Rattle.std.specs.Prelude.{◌≡◌, ◌+◌, ◌*◌, ◌≤◌, length};
ghost use Rattle.model.specs.Lists.{is_in};
ghost use Rattle.plan.specs.Plan.{words_of, planned_at, store_planned, plan_from, symbol_of, symbols_in};

// A record to be written. Field is made beside a projection that was read, so no record of the forest has its
// literal.
#[derive(Clone, Copy, Debug, PartialEq, Eq)]
pub enum Planned {
    // the forest's record, as it stands
    Copy(u32),
    // a SelectField of this field
    Field(u32),
    // a use of this id
    ValUse(u32),
    // a definition of this id, without type, of this symbol
    ValDef(u32, u32),
    // a block of so many children
    Block(u32),
    // the forest's lambda, its arguments numbered after this id
    Lambda(u32, u32),
}

// The kinds of a row, by its first word: numbers, since fixed memory holds no enum.
const COPY: u32 = 0;

const FIELD: u32 = 1;

const VAL_USE: u32 = 2;

const VAL_DEF: u32 = 3;

const BLOCK: u32 = 4;

const LAMBDA: u32 = 5;

// A row's words: which kind it is, and its numbers.
fn words_of(p: Planned) -> [u32; 3]
    ensures { result ≡ words_of p }
{
    match p {
        Planned::Copy(i) => [COPY, i, 0],
        Planned::Field(f) => [FIELD, f, 0],
        Planned::ValUse(id) => [VAL_USE, id, 0],
        Planned::ValDef(id, symbol) => [VAL_DEF, id, symbol],
        Planned::Block(kids) => [BLOCK, kids, 0],
        Planned::Lambda(i, last) => [LAMBDA, i, last],
    }
}

// The row p at word `at`. Rules out: a definition stored as a use; a word outside the row touched.
pub fn store(words: &mut [u32], at: usize, p: Planned)
    requires { at + 3 ≤ length words.old }
    ensures { words.new ≡ store_planned words.old at p }
{
    // word by word: copied as an array, they cost some ten instructions a row more
    let [kind, a, b] = words_of(p);
    words[at] = kind;
    words[at + 1] = a;
    words[at + 2] = b;
}

// The row at word `at`. Rules out: the row after it; a use read as a definition.
#[tactic(auto, unfolding(crate::specs::Plan::planned_at, crate::specs::Plan::planned_of))]
pub fn load(words: &[u32], at: usize) -> Planned
    requires { at + 3 ≤ length words.now }
    ensures { result ≡ planned_at words.now at }
{
    let (a, b) = (words[at + 1], words[at + 2]);
    match words[at] {
        COPY => Planned::Copy(a),
        FIELD => Planned::Field(a),
        VAL_USE => Planned::ValUse(a),
        VAL_DEF => Planned::ValDef(a, b),
        BLOCK => Planned::Block(a),
        _ => Planned::Lambda(a, b),
    }
}

// Whether a row is a definition of symbol s.
#[tactic(auto, unfolding(model::specs::Lists::is_in))]
fn is_definition(p: Planned, s: u32) -> bool
    ensures { result ≡ is_in s (symbol_of p) }
{
    match p {
        Planned::ValDef(_, symbol) => s == symbol,
        Planned::Copy(_)
        | Planned::Field(_)
        | Planned::ValUse(_)
        | Planned::Block(_)
        | Planned::Lambda(_, _) => false,
    }
}

// Whether one of the n rows from word `at` on is a definition of symbol s.
// Rules out: true of an id that is s; the last row passed over.
pub fn defines(words: &[u32], at: usize, n: usize, s: u32) -> bool
    requires { at + 3 * n ≤ length words.now }
    ensures { result ≡ is_in s (symbols_in (plan_from words.now at n)) }
{
    (0..n).any(|k| is_definition(load(words, at + 3 * k), s))
}
