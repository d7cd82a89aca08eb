// The lister's lines, written over an output, from its place on. In order: a number; a symbol's columns; its line; all
// symbols; the line of a definition; all definitions; the line of a symbol's rule; those of all that are reached. A
// refusal's line is written by `text`.
#![tactic(auto)]

ghost use Rattle.std.specs.Prelude.{◌≡◌, List, [], ◌∷◌, ◌++◌, ℕ, ◌+◌, ◌*◌, ◌<◌, ◌≤◌, length};
ghost use Rattle.model.specs.Forest.{record_count};
ghost use Rattle.model.specs.Intern.{sym_at};
ghost use Rattle.model.specs.Lister.{numeral, tag_of, opcode_shown, yes_no, line, symbol_lines};
ghost use Rattle.model.specs.Lister.{saving_line, saving_lines, rule_text, rule_line, rule_lines};
ghost use Rattle.regions.specs.Regions.{SLOTS, WORDS};
ghost use Rattle.key.specs.Key.{parts_of};
ghost use Rattle.symbols.specs.Symbols.{rec_of, model_node, syms_of, Sound};
ghost use Rattle.gate.specs.Gate.{uses_at};
ghost use Rattle.rules.specs.Rules.{rule_in, rules_to};
ghost use Rattle.output.specs.Output.{Room, Put};
ghost use Rattle.lines.specs.Lines.{columns, lines_to, Listable};

use key::Node;
use output::Output;
use record::Forest;
use rules::Rule;

// A number, of at most twenty digits, and the byte after it.
fn put_number(out: &mut Output, n: u32, after: u8)
    requires { Room out.old 21 }
    ensures { Put out.old (numeral n ++ (after ∷ [])) out.new }
{
    text::put_decimal(out, u64::from(n));
    out.put_byte(after);
}

// The letter of a node's kind.
#[tactic(auto, unfolding(model::specs::Lister::tag_of, model::specs::Text::text))]
fn tag(node: Node) -> u8
    ensures { (bs : List ℕ) → (result ∷ []) ≡ tag_of (model_node bs node) }
{
    match node {
        Node::Const(_) => b'C',
        Node::Unparsed(_) => b'U',
        Node::Arg(_) => b'A',
        Node::Lambda(_) | Node::Op(_) => b'O',
    }
}

// A node's opcode, where its line shows one.
#[tactic(auto, using(symbols::proofs::Same::key_opcode), unfolding(model::specs::Lister::opcode_shown))]
fn opcode_shown(forest: &Forest, node: Node) -> u8
    requires node_bound { (parts_of node).source < record_count forest.now }
    ensures { result ≡
        opcode_shown (model_node forest.now node) (rec_of forest.now node).opcode }
{
    match node {
        Node::Const(_) | Node::Unparsed(_) | Node::Arg(_) => 0,
        Node::Lambda(f) => forest.opcode(f.source as usize),
        Node::Op(o) => forest.opcode(o.source as usize),
    }
}

#[tactic(auto, unfolding(model::specs::Lister::yes_no, model::specs::Text::text))]
fn yes_no(b: bool) -> u8
    ensures { (result ∷ []) ≡ yes_no b }
{
    if b { b'y' } else { b'n' }
}

// The first columns of the line of symbol s, whose node this is.
fn put_columns(forest: &Forest, out: &mut Output, s: usize, node: Node)
    requires node_bound { (parts_of node).source < record_count forest.now }
    requires s_bound { s < 512 }
    requires room { Room out.old 26 }
    ensures { Put out.old (columns s (model_node forest.now node) (rec_of forest.now node).opcode) out.new }
{
    put_number(out, s as u32, b' ');
    text::put_two(out, tag(node), b' ');
    text::put_hex(out, opcode_shown(forest, node));
    out.put_byte(b' ');
}

// The line of symbol s, which is used `uses` times. Rules out: the scope as usage; the opcode of a constant shown.
fn put_line(forest: &Forest, work: &[u32], out: &mut Output, s: usize, uses: u32)
    requires sound { Sound forest.now work.now SLOTS.size s }
    requires s_bound { (s < 512) × (WORDS ≤ length work.now) }
    requires room { Room out.old 70 }
    ensures { (n : ℕ) → s < n → Put out.old (line s uses (sym_at (syms_of forest.now work.now n) s)) out.new }
{
    let y = key::load(work, s);
    let node = y.node;
    put_columns(forest, out, s, node);
    put_number(out, y.scope, b' ');
    put_number(out, uses, b' ');
    let hoisted = gate::should_hoist(forest, work, s, uses);
    text::put_two(out, yes_no(hoisted), b'\n');
}

// The lines of the first n symbols, one after the other, each with the uses that its word counts.
fn put_lines(forest: &Forest, work: &[u32], n: usize, out: &mut Output)
    requires listable { Listable forest.now work.now n }
    requires room { Room out.old (70 * n) }
    ensures { Put out.old (lines_to forest.now work.now n) out.new }
{
    for s in 0..n {
        put_line(forest, work, out, s, work[regions::USES + s]);
    }
}

// The count of n symbols, and their lines; the words count their uses.
// Rules out: that a symbol is reached as its usage; the count of symbols left out.
pub fn put_symbols(forest: &Forest, work: &[u32], n: usize, out: &mut Output)
    requires listable { Listable forest.now work.now n }
    requires room { Room out.old (70 * n + 30) }
    ensures { Put out.old (symbol_lines (uses_at work.now) (syms_of forest.now work.now n)) out.new }
{
    out.put_bytes(b"symbols ");
    put_number(out, n as u32, b'\n');
    put_lines(forest, work, n, out);
}

// The line of a definition. Rules out: the saving before the id; a saving below zero without its minus.
fn put_saving(out: &mut Output, id: u32, saving: i32)
    requires { Room out.old 43 }
    ensures { Put out.old (saving_line (id, saving)) out.new }
{
    put_number(out, id, b' ');
    text::put_signed(out, saving);
    out.put_byte(b'\n');
}

// The lines of definitions, each an id and a saving, in their order.
// Rules out: the last one left out; one line for an id that stands twice.
pub fn put_savings(savings: &[(u32, i32)], out: &mut Output)
    requires { Room out.old (43 * length savings.now) }
    ensures { Put out.old (saving_lines savings.now) out.new }
{
    for &(id, saving) in savings {
        put_saving(out, id, saving);
    }
}

// A rule in the paper's words. Rules out: GLOBAL said of a scalar constant; the scope left out.
fn put_rule_text(out: &mut Output, rule: Rule)
    requires { Room out.old 38 }
    ensures { Put out.old (rule_text (rule_in rule)) out.new }
{
    match rule {
        Rule::Argument => out.put_bytes(b"argument"),
        Rule::UsedAtMostOnce => out.put_bytes(b"used at most once"),
        Rule::ContextProperty => out.put_bytes(b"context property"),
        Rule::Global => out.put_bytes(b"GLOBAL"),
        Rule::ScalarConstant => out.put_bytes(b"scalar constant"),
        Rule::Hoisted(scope) => {
            out.put_bytes(b"hoisted in scope ");
            text::put_decimal(out, u64::from(scope));
        }
        Rule::NoDefinition => out.put_bytes(b"no definition written"),
    }
}

// The line of symbol s and its rule. Rules out: the rule before the symbol; the scope as the symbol.
fn put_rule(out: &mut Output, s: usize, rule: Rule)
    requires s_bound { s < 512 }
    requires room { Room out.old 64 }
    ensures { Put out.old (rule_line (s, rule_in rule)) out.new }
{
    put_number(out, s as u32, b' ');
    put_rule_text(out, rule);
    out.put_byte(b'\n');
}

// The lines of those of the first n symbols that the words call reached, the plan of the written tree having so many rows.
// Rules out: the line of a symbol that is not reached; the last symbol's left out.
pub fn put_rules(forest: &Forest, work: &[u32], n: usize, rows: usize, out: &mut Output)
    requires listable { Listable forest.now work.now n }
    requires rows_bound { rows ≤ 256 }
    requires room { Room out.old (32 * n + 64) }
    ensures { Put out.old (rule_lines (rules_to forest.now work.now n rows n)) out.new }
{
    for s in 0..n {
        let reached = work[regions::REACHED + s] == 1;
        if reached {
            put_rule(out, s, rules::rule_of(forest, work, s, rows));
        }
    }
}
