// Symbols (key.rs), and their five words each in the work memory: words 5s to 5s + 4 are symbol s's.
// In order: nodes and symbols; a node's parts; the words that they are packed into; a symbol stored, and loaded; its
// record, its field.
// That a symbol's words are there (`5 * s + 5 ≤ length work`), and that a number is a symbol's (`s < 512`), stay
// clauses: they tie a number to words, which a struct of both would only rename.
#![tactic(auto)]

ghost use Rattle.std.specs.Prelude.{◌≡◌, ◌+◌, ◌*◌, ◌<◌, ◌≤◌, ◌/◌, ◌%◌, length};
ghost use Rattle.key.specs.Key.{FitsWords, leaf_parts, op_parts, parts_of, branches_in, node_from, head, middle, tail};
ghost use Rattle.key.specs.Key.{parts_in, store_symbol, symbol_at};

// A constant, an unparsed node or an argument: the record that it was made for.
#[derive(Clone, Copy)]
pub struct Leaf {
    pub source: u32,
}

// A lambda: its arguments are the symbols from `first` on, as many as the record's aux; the scope of its body.
#[derive(Clone, Copy)]
pub struct Func {
    pub source: u32,
    pub first: u32,
    pub body: u32,
}

// The scopes of an operation's thunks, of which there are two at most.
#[derive(Clone, Copy)]
pub enum Branches {
    Zero,
    One(u32),
    Two(u32, u32),
}

// Any other record. `field` is 1 or 2 for that field of the projections that one record makes, and none for the record
// as it stands.
#[derive(Clone, Copy)]
pub struct Operation {
    pub source: u32,
    pub field: Option<u32>,
    pub branches: Branches,
}

#[derive(Clone, Copy)]
pub enum Node {
    Const(Leaf),
    Unparsed(Leaf),
    Arg(Leaf),
    Lambda(Func),
    Op(Operation),
}

// `kids` is the first of its child slots, `count` how many; `levels` has a bit for the nesting level of each lambda
// that the symbol depends on.
#[derive(Clone, Copy)]
pub struct Symbol {
    pub node: Node,
    pub kids: u32,
    pub count: u32,
    pub scope: u32,
    pub levels: u64,
}

// A node with all fields that any node has, as the words hold them: numbers, and 0 for none, since fixed memory holds
// no enum. Of `first` and `second` an operation has as many as `branches` says.
#[derive(Clone, Copy)]
pub struct Parts {
    pub tag: u32,
    pub source: u32,
    pub field: u32,
    pub branches: u32,
    pub first: u32,
    pub second: u32,
}

// The tags by which a word says what a node is: the layout of fixed memory, which holds no enum.
const CONST: u32 = 0;

const UNPARSED: u32 = 1;

const ARG: u32 = 2;

const LAMBDA: u32 = 3;

const OP: u32 = 4;

// A node's parts; 0 where it has none. They are another type's fields, so `parts_of` and `node_of` name each.
// Rules out: a lambda's body's scope as its first argument; another node's tag.
pub fn parts_of(node: Node) -> Parts
    ensures { result ≡ parts_of node }
{
    match node {
        Node::Const(l) => leaf_parts(CONST, l),
        Node::Unparsed(l) => leaf_parts(UNPARSED, l),
        Node::Arg(l) => leaf_parts(ARG, l),
        Node::Lambda(f) => Parts {
            tag: LAMBDA,
            source: f.source,
            field: 0,
            branches: 0,
            first: f.first,
            second: f.body,
        },
        Node::Op(o) => op_parts(o),
    }
}

fn op_parts(o: Operation) -> Parts
    ensures { result ≡ op_parts o }
{
    let (branches, first, second) = match o.branches {
        Branches::Zero => (0, 0, 0),
        Branches::One(first) => (1, first, 0),
        Branches::Two(first, second) => (2, first, second),
    };
    Parts {
        tag: OP,
        source: o.source,
        field: o.field.unwrap_or(0),
        branches,
        first,
        second,
    }
}

fn leaf_parts(tag: u32, l: Leaf) -> Parts
    ensures { result ≡ leaf_parts tag l }
{
    Parts {
        tag,
        source: l.source,
        field: 0,
        branches: 0,
        first: 0,
        second: 0,
    }
}

fn node_of(p: Parts) -> Node
    ensures { result ≡ node_from p }
{
    match p.tag {
        CONST => Node::Const(Leaf { source: p.source }),
        UNPARSED => Node::Unparsed(Leaf { source: p.source }),
        ARG => Node::Arg(Leaf { source: p.source }),
        LAMBDA => Node::Lambda(Func {
            source: p.source,
            first: p.first,
            body: p.second,
        }),
        _ => Node::Op(Operation {
            source: p.source,
            field: (p.field != 0).then_some(p.field),
            branches: branches_in(p),
        }),
    }
}

fn branches_in(p: Parts) -> Branches
    ensures { result ≡ branches_in p.branches p.first p.second }
{
    match p.branches {
        0 => Branches::Zero,
        1 => Branches::One(p.first),
        _ => Branches::Two(p.first, p.second),
    }
}

fn head_word(p: Parts, count: u32) -> u32
    requires { (p.tag < 8) × (p.source < 256) × (p.field < 4) × (count < 512) }
    ensures { result ≡ head p count }
{
    p.tag + 8 * p.source + 2048 * p.field + 8192 * count
}

fn middle_word(p: Parts, kids: u32) -> u32
    requires { (kids < 4096) × (p.second < 4096) × (p.branches < 4) }
    ensures { result ≡ middle p kids }
{
    kids + 4096 * p.second + 16777216 * p.branches
}

fn tail_word(p: Parts, scope: u32) -> u32
    requires { (scope < 4096) × (p.first < 4096) }
    ensures { result ≡ tail p scope }
{
    scope + 4096 * p.first
}

// y as symbol s. The words are written one by one, as `load` reads them: to copy an array of them takes more
// instructions, which ask whether the two overlap.
// Rules out: another symbol's words; one part packed over another, as the count over the field.
#[tactic(auto, unfolding(crate::specs::Key::store_symbol))]
pub fn store(work: &mut [u32], s: usize, y: Symbol)
    requires s_in_bounds { 5 * s + 5 ≤ length work.old }
    requires fits_words { FitsWords y }
    ensures { work.new ≡ store_symbol work.old s y }
{
    let p = parts_of(y.node);
    let at = 5 * s;
    work[at] = head_word(p, y.count);
    work[at + 1] = middle_word(p, y.kids);
    work[at + 2] = tail_word(p, y.scope);
    work[at + 3] = (y.levels & 0xFFFF_FFFF) as u32;
    work[at + 4] = (y.levels >> 32) as u32;
}

fn parts_in(a: u32, b: u32, c: u32) -> Parts
    ensures { result ≡ parts_in a b c }
{
    Parts {
        tag: a % 8,
        source: a / 8 % 256,
        field: a / 2048 % 4,
        branches: b / 16777216,
        first: c / 4096,
        second: b / 4096 % 4096,
    }
}

// Symbol s. Rules out: the symbol after it; the scope of its first thunk as its own.
#[tactic(auto, unfolding(crate::specs::Key::symbol_at))]
pub fn load(work: &[u32], s: usize) -> Symbol
    requires { 5 * s + 5 ≤ length work.now }
    ensures { result ≡ symbol_at work.now s }
{
    let at = 5 * s;
    let a = work[at];
    let b = work[at + 1];
    let c = work[at + 2];
    let node = node_of(parts_in(a, b, c));
    let levels = u64::from(work[at + 3]) | u64::from(work[at + 4]) << 32;
    Symbol {
        node,
        kids: b % 4096,
        count: a / 8192,
        scope: c % 4096,
        levels,
    }
}

// The record that symbol s was made for. Rules out: that of the symbol after it; a number with the field's bits in it.
#[tactic(auto, unfolding(crate::specs::Key::symbol_at))]
pub fn source(work: &[u32], s: usize) -> usize
    requires { 5 * s + 5 ≤ length work.now }
    ensures { result ≡ (parts_of (symbol_at work.now s).node).source }
{
    let a = work[5 * s];
    (a / 8 % 256) as usize
}

// The field of symbol s, 0 where it is no projection: the number as the word holds it (fixed memory), here and where
// keys are compared, record and field together; an `Option` would be made of it at each entry to be taken apart again.
// Rules out: a lambda's unused bits; how many children it has.
#[tactic(auto, unfolding(crate::specs::Key::symbol_at))]
pub fn field(work: &[u32], s: usize) -> u32
    requires { 5 * s + 5 ≤ length work.now }
    ensures { result ≡ (parts_of (symbol_at work.now s).node).field }
{
    let a = work[5 * s];
    if a % 8 < OP {
        return 0;
    }
    a / 2048 % 4
}
