// Checks 4 and 5 of one record: its children, aux and literal against its shape, and its opcode against its shape.
// Then which operands are thunks. In order: names of shapes and opcodes; the table of shapes; opcodes. Ids and a
// lambda's arguments are in arguments.rt, the other parts of a literal in parts.rt.
#![tactic(auto)]

mod arguments;
mod parts;

ghost use Rattle.std.specs.Prelude.{◌≡◌, ◌&&◌, ℕ, List, leb};
ghost use Rattle.model.specs.Tree.{rec};
ghost use Rattle.model.specs.Shape as model;
ghost use Rattle.model.specs.Intern.{thunked};

pub use arguments::{Arg, Args, id, split_arg};
use parts::{
    all_bits, arg_part, args_part, byte_part, byte_type_part, id_part, is_whole, method_part,
    type_part,
};

// ---- shapes, by their numbers (a record's shape is its first byte: an enum would name these numbers once more, in
// the arms of a `TryFrom<u8>`, and other crates would convert what they now compare)

pub const CONST: u8 = 0;

pub const UNPARSED: u8 = 1;

const ZERO: u8 = 2;

const ONE: u8 = 3;

const TWO: u8 = 4;

const THREE: u8 = 5;

const FOUR: u8 = 6;

pub const VAL_USE: u8 = 7;

const CONST_PLACEHOLDER: u8 = 8;

const TAGGED_VAR: u8 = 9;

pub const VAL_DEF: u8 = 10;

pub const BLOCK_VALUE: u8 = 11;

pub const FUNC_VALUE: u8 = 12;

const METHOD_CALL: u8 = 13;

const CONCRETE_COLLECTION: u8 = 14;

const BOOL_COLLECTION: u8 = 15;

pub const TUPLE: u8 = 16;

pub const SELECT_FIELD: u8 = 17;

const EXTRACT_REGISTER_AS: u8 = 18;

const GET_VAR: u8 = 19;

const DESERIALIZE_CONTEXT: u8 = 20;

const DESERIALIZE_REGISTER: u8 = 21;

const SIGMA_COLLECTION: u8 = 22;

const NONE_VALUE: u8 = 23;

const BY_INDEX: u8 = 24;

const NUMERIC_CAST: u8 = 25;

const FUNC_APPLY: u8 = 26;

// ---- opcodes that code compares with, by their numbers (a record's opcode is any byte)

const NO_OP: u8 = 0;

pub const VAL_USE_OP: u8 = 0x72;

pub const VAL_DEF_OP: u8 = 0xD6;

pub const BLOCK_VALUE_OP: u8 = 0xD8;

pub const FUNC_VALUE_OP: u8 = 0xD9;

pub const SELECT_FIELD_OP: u8 = 0x8C;

const TUPLE_OP: u8 = 0x86;

pub const IF_OP: u8 = 0x95;

pub const AND_OP: u8 = 0xED;

pub const OR_OP: u8 = 0xEC;

pub const HEIGHT_OP: u8 = 0xA3;

pub const INPUTS_OP: u8 = 0xA4;

pub const OUTPUTS_OP: u8 = 0xA5;

pub const SELF_BOX_OP: u8 = 0xA7;

pub const GLOBAL_OP: u8 = 0xDD;

// ---- the table of shapes

// Whether a record has from `fewest` to `most` children, and an aux of at most `high`.
fn within(kids: usize, fewest: usize, most: usize, aux: u8, high: u8) -> bool
    ensures { result ≡ leb fewest kids && leb kids most && leb aux high }
{
    (fewest..=most).contains(&kids) && aux <= high
}

// Check 4: whether a record's children, aux and literal are those of its shape.
// Rules out: true of a literal with bytes left over; true of three children for Two.
#[tactic(auto, using(crate::proofs::Table::rows), unfolding(model::specs::Shape::shapes, model::specs::Shape::whole))]
pub fn fits(shape: u8, kids: usize, aux: u8, lit: &[u8]) -> bool
    ensures { (op : ℕ) → result ≡ model.fits (record { rec = rec shape op aux lit.now; kids = kids }) }
{
    match shape {
        CONST => within(kids, 0, 0, aux, 251) && !lit.is_empty(),
        UNPARSED => within(kids, 0, 0, aux, 0),
        ZERO => within(kids, 0, 0, aux, 0) && lit.is_empty(),
        ONE => within(kids, 1, 1, aux, 0) && lit.is_empty(),
        TWO => within(kids, 2, 2, aux, 0) && lit.is_empty(),
        THREE => within(kids, 3, 3, aux, 0) && lit.is_empty(),
        FOUR => within(kids, 4, 4, aux, 0) && lit.is_empty(),
        VAL_USE => within(kids, 0, 0, aux, 0) && is_whole(id_part(lit)),
        CONST_PLACEHOLDER => within(kids, 0, 0, aux, 0) && is_whole(id_part(lit)),
        TAGGED_VAR => within(kids, 0, 0, aux, 0) && is_whole(arg_part(lit)),
        VAL_DEF => within(kids, 1, 1, aux, 0) && is_whole(arg_part(lit)),
        BLOCK_VALUE => within(kids, 1, 65535, aux, 0) && lit.is_empty(),
        FUNC_VALUE => within(kids, 1, 1, aux, 15) && is_whole(args_part(lit, aux)),
        METHOD_CALL => within(kids, 1, 65535, aux, 0) && is_whole(method_part(lit)),
        CONCRETE_COLLECTION => within(kids, 0, 65535, aux, 0) && is_whole(type_part(lit)),
        BOOL_COLLECTION => within(kids, 0, 0, aux, 0) && all_bits(lit),
        TUPLE => within(kids, 0, 65535, aux, 0) && lit.is_empty(),
        SELECT_FIELD => within(kids, 1, 1, aux, 0) && is_whole(byte_part(lit)),
        EXTRACT_REGISTER_AS => within(kids, 1, 1, aux, 0) && is_whole(byte_type_part(lit)),
        GET_VAR => within(kids, 0, 0, aux, 0) && is_whole(byte_type_part(lit)),
        DESERIALIZE_CONTEXT => within(kids, 0, 0, aux, 0) && is_whole(byte_type_part(lit)),
        DESERIALIZE_REGISTER => within(kids, 0, 1, aux, 0) && is_whole(byte_type_part(lit)),
        SIGMA_COLLECTION => within(kids, 0, 65535, aux, 0) && lit.is_empty(),
        NONE_VALUE => within(kids, 0, 0, aux, 0) && is_whole(type_part(lit)),
        BY_INDEX => within(kids, 2, 3, aux, 0) && lit.is_empty(),
        NUMERIC_CAST => within(kids, 1, 1, aux, 0) && is_whole(type_part(lit)),
        FUNC_APPLY => within(kids, 1, 65535, aux, 0) && lit.is_empty(),
        _ => false,
    }
}

// ---- opcodes

// Check 5: whether an opcode may stand with a shape. First the opcodes that have a shape of their own (00 has two),
// then those that stand with one shape only, then all others. An arm for each: arms that are joined take more tests.
// Rules out: true of opcode 95 with Four; true of opcode 00 with Zero.
#[tactic(auto, unfolding(model::specs::Shape::agrees, model::specs::Shape::shape_of, model::specs::Shape::both_ways, model::specs::Shape::one_way, model::specs::Lists::is_in))]
pub fn agrees(shape: u8, opcode: u8) -> bool
    ensures { (aux : ℕ) (lit : List ℕ) → result ≡ model.agrees (rec shape opcode aux lit) }
{
    match opcode {
        NO_OP => matches!(shape, CONST | UNPARSED),
        VAL_USE_OP => shape == VAL_USE,
        VAL_DEF_OP => shape == VAL_DEF,
        BLOCK_VALUE_OP => shape == BLOCK_VALUE,
        FUNC_VALUE_OP => shape == FUNC_VALUE,
        SELECT_FIELD_OP => shape == SELECT_FIELD,
        TUPLE_OP => shape == TUPLE,
        IF_OP => shape == THREE,
        AND_OP => shape == TWO,
        OR_OP => shape == TWO,
        HEIGHT_OP => shape == ZERO,
        INPUTS_OP => shape == ZERO,
        OUTPUTS_OP => shape == ZERO,
        SELF_BOX_OP => shape == ZERO,
        GLOBAL_OP => shape == ZERO,
        _ => !matches!(
            shape,
            CONST | UNPARSED | VAL_USE | VAL_DEF | BLOCK_VALUE | FUNC_VALUE | SELECT_FIELD | TUPLE
        ),
    }
}

// Whether operand j (from 0) opens a thunk: operands 1 and 2 of IF, operand 1 of && and of ||.
// Rules out: the condition of an IF; an operand of another record.
#[tactic(auto, unfolding(model::specs::Intern::thunked))]
pub fn is_thunked(opcode: u8, j: usize) -> bool
    ensures { result ≡ thunked opcode j }
{
    match j {
        1 => matches!(opcode, IF_OP | AND_OP | OR_OP),
        2 => opcode == IF_OP,
        _ => false,
    }
}
