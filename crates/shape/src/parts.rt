// The parts of a literal, read from its front: each gives what is left after it, or None if it does not stand there.
// In order: a byte, an id, a type, an opt; an argument; parts of one kind: arguments, types; a byte and a type; a
// method call's parts; whether a part is the whole literal; bits.
ghost use Rattle.std.specs.Prelude.{◌≡◌, ℕ, List, option_copied};
ghost use Rattle.model.specs.Shape.{Reader, whole, a_byte, a_id, a_type, a_opt, a_arg, ◌then◌, times, a_counted, bits};
ghost use Rattle.shape.specs.Reading.{TakesOff};

// A byte, whatever it is.
#[tactic(auto, unfolding(model::specs::Shape::a_byte))]
pub fn byte_part(lit: &[u8]) -> Option<&[u8]>
    ensures { option_copied result ≡ a_byte lit.now }
{
    lit.get(1..)
}

// An id: four bytes. Rules out: None where just four bytes are left; what is left of a shorter literal.
#[tactic(auto, unfolding(model::specs::Shape::a_id))]
pub fn id_part(lit: &[u8]) -> Option<&[u8]>
    ensures { option_copied result ≡ a_id lit.now }
{
    lit.get(4..)
}

// A type: a byte from 1 on, and so many bytes. Rules out: a type of no bytes; an end that leaves its first byte out.
#[tactic(auto, unfolding(model::specs::Shape::a_type))]
pub fn type_part(lit: &[u8]) -> Option<&[u8]>
    ensures { option_copied result ≡ a_type lit.now }
{
    match lit {
        [n @ 1.., rest @ ..] => rest.get(usize::from(*n)..),
        _ => None,
    }
}

// An opt: 0, or 1 and a type. Rules out: 2 and a type; an end before the type.
#[tactic(auto, unfolding(model::specs::Shape::a_opt))]
pub fn opt_part(lit: &[u8]) -> Option<&[u8]>
    ensures { option_copied result ≡ a_opt lit.now }
{
    match lit {
        [0, rest @ ..] => Some(rest),
        [1, rest @ ..] => type_part(rest),
        _ => None,
    }
}

// An argument: an id and an opt. Rules out: an id alone; the opt first.
#[tactic(auto, using(crate::proofs::Part::then_is))]
pub fn arg_part(lit: &[u8]) -> Option<&[u8]>
    ensures { option_copied result ≡ a_arg lit.now }
{
    opt_part(id_part(lit)?)
}

// `n` parts of one kind, each taken off by `part`.
#[tactic(auto, using(crate::proofs::Part::turns))]
fn times_part<F: Fn(&[u8]) -> Option<&[u8]>>(part: F, lit: &[u8], n: u8) -> Option<&[u8]>
    requires { F.IsAlwaysCallable part }
    ensures { (f : Reader) → TakesOff (F.post part) f → option_copied result ≡ times n f lit.now }
{
    let mut rest = lit;
    for _ in 0..n {
        rest = part(rest)?;
    }
    Some(rest)
}

// `n` arguments. Rules out: one fewer; as many as stand there.
pub fn args_part(lit: &[u8], n: u8) -> Option<&[u8]>
    ensures { option_copied result ≡ times n a_arg lit.now }
{
    times_part(arg_part, lit, n)
}

// A count byte, and so many types.
#[tactic(auto, unfolding(model::specs::Shape::a_counted))]
fn types_part(lit: &[u8]) -> Option<&[u8]>
    ensures { option_copied result ≡ a_counted a_type lit.now }
{
    let (n, types) = lit.split_first()?;
    times_part(type_part, types, *n)
}

// A byte and a type. Rules out: a type alone; a byte and an opt.
#[tactic(auto, using(crate::proofs::Part::then_is))]
pub fn byte_type_part(lit: &[u8]) -> Option<&[u8]>
    ensures { option_copied result ≡ (a_byte then a_type) lit.now }
{
    type_part(byte_part(lit)?)
}

// What a method call's literal holds: two bytes, a count byte, types. Rules out: one type whatever the count; the count
// before the two bytes.
#[tactic(auto, using(crate::proofs::Part::then_is))]
pub fn method_part(lit: &[u8]) -> Option<&[u8]>
    ensures { option_copied result ≡ (a_byte then a_byte then a_counted a_type) lit.now }
{
    types_part(byte_part(byte_part(lit)?)?)
}

// Whether a part is there, with nothing left after it. Rules out: true with bytes left over; true of no part.
#[tactic(auto, unfolding(model::specs::Shape::whole))]
pub fn is_whole(rest: Option<&[u8]>) -> bool
    ensures { (f : Reader) (bs : List ℕ) → option_copied rest.entry ≡ f bs → result ≡ whole f bs }
{
    matches!(rest, Some([]))
}

// Whether each byte is 0 or 1. Rules out: true of a literal with a 2; false of one with no bytes.
pub fn all_bits(lit: &[u8]) -> bool
    ensures { result ≡ bits lit.now }
{
    lit.iter().all(|&b| b < 2)
}
