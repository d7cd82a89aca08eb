// Ids, and the arguments that the literal of a lambda holds, one by one.
// In order: an id; an argument, and what is left after it; an iterator of arguments.
// That a literal is n arguments (`AllArgs`) stays a clause of those who walk one: they need its bytes or its count
// beside the arguments.
ghost use Rattle.std.specs.Prelude.{◌≡◌, ◌≤◌, length, drop, take, option_map, None};
ghost use Rattle.model.specs.Bytes.{u32};
ghost use Rattle.model.specs.Shape.{a_arg, times};
ghost use Rattle.model.specs.Binding.{args_of};
ghost use Rattle.shape.specs.Reading.{first_arg};
ghost use Rattle.shape.specs.Iterating.{arg_of, split_of, args_left};

use crate::parts::arg_part;

// The id that a literal begins with, little-endian.
// Rules out: the bytes the other way round; the id after it.
#[tactic(auto, using(crate::proofs::Reading::u32_at))]
pub fn id(lit: &[u8]) -> u32
    requires { 4 ≤ length lit.now }
    ensures { result ≡ u32 lit.now }
{
    u32::from_le_bytes([lit[0], lit[1], lit[2], lit[3]])
}

// An argument: its id, and the bytes of its opt.
#[derive(Clone, Copy)]
pub struct Arg<'a> {
    pub id: u32,
    pub opt: &'a [u8],
}

// The argument that a literal begins with, and what is left after it; None where none stands there.
// Rules out: the opt without its type; the opt's bytes left over.
#[tactic(auto, using(crate::proofs::Reading::splitting))]
pub fn split_arg(lit: &[u8]) -> Option<(Arg<'_>, &[u8])>
    ensures { option_map split_of result ≡ first_arg lit.now }
{
    let rest = arg_part(lit)?;
    let opt = &lit[4..lit.len() - rest.len()];
    Some((Arg { id: id(lit), opt }, rest))
}

// The arguments that are left of a literal: `left` of them, as far as they stand in `rest`.
#[derive(Clone, Copy)]
pub struct Args<'a> {
    left: u8,
    rest: &'a [u8],
}

impl<'a> Args<'a> {
    // The first n arguments of a literal.
    // Rules out: one fewer; those after the first.
    #[tactic(auto, using(crate::proofs::Reading::first_is))]
    pub fn new(lit: &'a [u8], n: u8) -> Args<'a>
        requires { times n a_arg lit.now ≡ None → ⊥ }
        ensures { args_left result ≡ args_of n lit.now }
    {
        Args { left: n, rest: lit }
    }
}

impl<'a> Iterator for Args<'a> {
    ghost use Rattle.std.specs.Iterator.{YieldsFirstBy, item_count};
    ghost use Rattle.shape.specs.Iterating.{arg_of, args_left};

    type Item = Arg<'a>;

    ghost next_gives = { YieldsFirstBy arg_of args_left };

    ghost remaining = { item_count args_left };

    #[tactic(auto, using(crate::proofs::Reading::taking))]
    fn next(&mut self) -> Option<Arg<'a>> {
        self.left = self.left.checked_sub(1)?;
        let (arg, rest) = split_arg(self.rest)?;
        self.rest = rest;
        Some(arg)
    }
}
