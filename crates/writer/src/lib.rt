// Records written over an output, from its place on: a record's fixed bytes, a record of the forest, and the records
// that a plan makes. The rest of the output is as it was.
#![tactic(auto)]

ghost use Rattle.std.specs.Prelude.{ℕ, [], ◌<◌};
ghost use Rattle.model.specs.Tree.{row_bytes, row_len};
ghost use Rattle.model.specs.Forest.{record_count};
ghost use Rattle.plan.specs.declared.Planned.TheVariants.{Copy, Field, ValUse, ValDef, Block};
ghost use Rattle.plan.specs.Plan.{row_for};
ghost use Rattle.output.specs.Output.{Room, Put};
ghost use Rattle.writer.specs.Writer.{fixed};

use output::Output;
use record::Forest;
use shape::{
    BLOCK_VALUE, BLOCK_VALUE_OP, SELECT_FIELD, SELECT_FIELD_OP, VAL_DEF, VAL_DEF_OP, VAL_USE,
    VAL_USE_OP,
};

// A record's five fixed bytes: shape, opcode, 16-bit child count, aux.
// Rules out: opcode before shape; a child count of one byte.
pub fn put_fixed(out: &mut Output, shape: u8, opcode: u8, kids: usize, aux: u8)
    requires room { Room out.old 5 }
    requires kids_bound { kids < 65536 }
    ensures { Put out.old (fixed shape opcode kids aux) out.new }
{
    let [low, high] = (kids as u16).to_le_bytes();
    out.put_bytes(&[shape, opcode, low, high, aux]);
}

// The forest's record i, as it stands.
// Rules out: its literal alone; the record after it.
pub fn put_copy(forest: &Forest, out: &mut Output, i: u32)
    requires i_bound { i < record_count forest.now }
    requires room { Room out.old (row_len (row_for forest.now (Copy i))) }
    ensures { Put out.old (row_bytes (row_for forest.now (Copy i))) out.new }
{
    let j = i as usize;
    let shape = forest.shape(j);
    let opcode = forest.opcode(j);
    let kids = forest.kids(j);
    let aux = forest.aux(j);
    put_fixed(out, shape, opcode, kids, aux);
    let literal = forest.literal(j);
    // most records have none, and to copy nothing is a call too
    if literal.is_empty() {
        return;
    }
    out.put_bytes(literal);
}

// A SelectField of this field.
// Rules out: the field as aux; the record without a child.
#[tactic(auto, unfolding(crate::specs::Writer::fixed, model::specs::Bytes::put16))]
pub fn put_field(out: &mut Output, field: u8)
    requires { Room out.old 6 }
    ensures { Put out.old (row_bytes (row_for [] (Field field))) out.new }
{
    put_fixed(out, SELECT_FIELD, SELECT_FIELD_OP, 1, 0);
    out.put_byte(field);
}

// A use of this id. Rules out: a definition's shape; the id in two bytes.
#[tactic(auto, unfolding(crate::specs::Writer::fixed, model::specs::Bytes::put16))]
pub fn put_val_use(out: &mut Output, id: u32)
    requires { Room out.old 9 }
    ensures { Put out.old (row_bytes (row_for [] (ValUse id))) out.new }
{
    put_fixed(out, VAL_USE, VAL_USE_OP, 0, 0);
    out.put_32(id);
}

// A definition of this id, without type, whatever its symbol.
// Rules out: a use's shape; the byte of the absent type left out.
#[tactic(auto, unfolding(crate::specs::Writer::fixed, model::specs::Bytes::put16, model::specs::Bytes::put32))]
pub fn put_val_def(out: &mut Output, id: u32)
    requires { Room out.old 10 }
    ensures { (symbol : ℕ) → Put out.old (row_bytes (row_for [] (ValDef id symbol))) out.new }
{
    put_fixed(out, VAL_DEF, VAL_DEF_OP, 1, 0);
    out.put_32(id);
    out.put_byte(0);
}

// A block of so many children: its record alone.
// Rules out: the count as aux; a count of one child whatever is given.
pub fn put_block(out: &mut Output, kids: usize)
    requires room { Room out.old 5 }
    requires kids_bound { kids < 65536 }
    ensures { Put out.old (row_bytes (row_for [] (Block kids))) out.new }
{
    put_fixed(out, BLOCK_VALUE, BLOCK_VALUE_OP, kids, 0);
}
