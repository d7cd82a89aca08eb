// Names, as model's `Sheet` has them, each behind what sets it off; put as far as there is room.
// In order: the names of shapes, classes and opcodes; each put. By bare numbers, as model's tables list them.
ghost use Rattle.std.specs.Prelude.{◌≡◌, []};
ghost use Rattle.model.specs.Text.{text};
ghost use Rattle.model.specs.Sheet.{named, shape_names, class_names, opcode_names, opcode_text};
ghost use Rattle.sheet.specs.Clip.{PutClipped};

use crate::clip::{put, put_hex, put_text};
use output::Output;

#[tactic(auto, unfolding(model::specs::Text::text, model::specs::Sheet::named, model::specs::Sheet::shape_names))]
fn shape_name(shape: u8) -> &'static [u8]
    ensures { result.now ≡ named [] shape_names shape }
{
    match shape {
        0 => b"Const",
        1 => b"Unparsed",
        2 => b"Zero",
        3 => b"One",
        4 => b"Two",
        5 => b"Three",
        6 => b"Four",
        7 => b"ValUse",
        8 => b"ConstPlaceholder",
        9 => b"TaggedVar",
        10 => b"ValDef",
        11 => b"BlockValue",
        12 => b"FuncValue",
        13 => b"MethodCall",
        14 => b"ConcreteCollection",
        15 => b"BoolCollection",
        16 => b"Tuple",
        17 => b"SelectField",
        18 => b"ExtractRegisterAs",
        19 => b"GetVar",
        20 => b"DeserializeContext",
        21 => b"DeserializeRegister",
        22 => b"SigmaCollection",
        23 => b"NoneValue",
        24 => b"ByIndex",
        25 => b"NumericCast",
        26 => b"FuncApply",
        _ => b"",
    }
}

#[tactic(auto, unfolding(model::specs::Text::text, model::specs::Sheet::named, model::specs::Sheet::class_names))]
fn class_name(class: u8) -> &'static [u8]
    ensures { result.now ≡ named (text "  ") class_names class }
{
    match class {
        0 => b"  SBoolean",
        1 => b"  SByte",
        2 => b"  SShort",
        3 => b"  SInt",
        4 => b"  SLong",
        5 => b"  SString",
        6 => b"  other",
        _ => b"",
    }
}

#[tactic(auto, unfolding(model::specs::Text::text, model::specs::Sheet::named, model::specs::Sheet::opcode_names))]
fn opcode_name(opcode: u8) -> &'static [u8]
    ensures { result.now ≡ named (text " ") opcode_names opcode }
{
    match opcode {
        0x7E => b" Upcast",
        0x7F => b" True",
        0x80 => b" False",
        0x82 => b" GroupGenerator",
        0x8F => b" LT",
        0x90 => b" LE",
        0x91 => b" GT",
        0x92 => b" GE",
        0x93 => b" EQ",
        0x94 => b" NEQ",
        0x95 => b" IF",
        0x96 => b" AND",
        0x97 => b" OR",
        0x99 => b" MINUS",
        0x9A => b" PLUS",
        0x9C => b" MULTIPLY",
        0x9D => b" DIVISION",
        0x9E => b" MODULO",
        0xA1 => b" MIN",
        0xA2 => b" MAX",
        0xA3 => b" HEIGHT",
        0xA4 => b" INPUTS",
        0xA5 => b" OUTPUTS",
        0xA6 => b" LastBlockUtxoRootHash",
        0xA7 => b" SELF_BOX",
        0xAC => b" MinerPubkey",
        0xB1 => b" SIZE_OF",
        0xDD => b" GLOBAL",
        0xE5 => b" OptionGetOrElse",
        0xEC => b" BIN_OR",
        0xED => b" BIN_AND",
        0xEF => b" LOGICAL_NOT",
        0xF0 => b" NEGATION",
        0xF4 => b" BIN_XOR",
        0xFE => b" Context",
        _ => b"",
    }
}

// A shape's name. Rules out: another shape's; a name for a shape over 26.
pub fn put_shape(out: &mut Output, shape: u8)
    ensures { PutClipped out.old (named [] shape_names shape) out.new }
{
    put_text(out, shape_name(shape));
}

// A constant's class. Rules out: another class; a name for a class over 6.
pub fn put_class(out: &mut Output, class: u8)
    ensures { PutClipped out.old (named (text "  ") class_names class) out.new }
{
    put_text(out, class_name(class));
}

// An opcode in hex, and its name. Rules out: another opcode's name; the name before the number.
pub fn put_opcode(out: &mut Output, opcode: u8)
    ensures { PutClipped out.old (opcode_text opcode) out.new }
{
    put(out, b' ');
    put_hex(out, opcode);
    put_text(out, opcode_name(opcode));
}
