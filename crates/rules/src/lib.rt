// The rule beside a symbol: why it has no definition in the written tree, or for which scope it has one. In order: the
// rules; the first test; the rule of a symbol.
#![tactic(auto)]

ghost use Rattle.std.specs.Prelude.{◌≡◌, List, ℕ, ◌<◌, ◌≤◌, length};
ghost use Rattle.model.specs.Lists.{is_in};
ghost use Rattle.model.specs.Intern.{sym_at};
ghost use Rattle.model.specs.Schedule.{is_arg};
ghost use Rattle.regions.specs.Regions.{SLOTS, PLAN, WORDS};
ghost use Rattle.symbols.specs.Symbols.{model_node, syms_of, Sound};
ghost use Rattle.gate.specs.Gate.{uses_at};
ghost use Rattle.plan.specs.Plan.{plan_from, symbols_in};
ghost use Rattle.rules.specs.Rules.{rule_in, rule_at};

use key::Node;
use record::Forest;

#[derive(Clone, Copy, Debug, PartialEq, Eq)]
pub enum Rule {
    Argument,
    UsedAtMostOnce,
    ContextProperty,
    Global,
    ScalarConstant,
    // in a block of this scope
    Hoisted(u32),
    NoDefinition,
}

fn is_arg(node: Node) -> bool
    ensures { (bs : List ℕ) → result ≡ is_arg (model_node bs node) }
{
    match node {
        Node::Arg(_) => true,
        Node::Const(_) | Node::Unparsed(_) | Node::Lambda(_) | Node::Op(_) => false,
    }
}

// The rule of symbol s: the first that holds. The words hold its uses, and the plan of the written tree in so many rows.
// A symbol has definitions in its own scope alone (labels), so the plan tells that it has one, and the symbol where.
// Rules out: scalar constant said of a scalar that is used once; hoisted said because the gate lets the symbol.
pub fn rule_of(forest: &Forest, work: &[u32], s: usize, rows: usize) -> Rule
    requires sound { Sound forest.now work.now SLOTS.size s }
    requires in_bounds { (s < 512) × (rows ≤ 256) × (WORDS ≤ length work.now) }
    ensures { (n : ℕ) → s < n → rule_in result
        ≡ rule_at (sym_at (syms_of forest.now work.now n) s) (uses_at work.now s)
        (is_in s (symbols_in (plan_from work.now PLAN.first rows))) }
{
    let y = key::load(work, s);
    let parts = key::parts_of(y.node);
    let source = parts.source as usize;
    let opcode = forest.opcode(source);
    let few = work[regions::USES + s] < 2;
    if is_arg(y.node) {
        Rule::Argument
    } else if few {
        Rule::UsedAtMostOnce
    } else if gate::is_context_property(opcode) {
        Rule::ContextProperty
    } else if gate::is_internal(opcode) {
        Rule::Global
    } else if gate::is_const(forest, source, parts.field) {
        Rule::ScalarConstant
    } else {
        let defined = plan::defines(work, regions::PLAN, rows, s as u32);
        if defined {
            Rule::Hoisted(y.scope)
        } else {
            Rule::NoDefinition
        }
    }
}
