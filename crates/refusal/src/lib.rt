// Refusals: which check turned a forest away, and where.
// In order: the checks, with the numbers that they have outside; a refusal; the place at which a check fails, as one.
#![tactic(auto)]

ghost use Rattle.std.specs.Prelude.{◌≡◌, ◌<◌, ◌^◌, IfSome};
ghost use Rattle.refusal.specs.Refusal.{number_of, refused_at};

// The checks of a call, in their order, with the numbers that a refusal is told by.
#[derive(Clone, Copy, Debug, PartialEq, Eq)]
pub enum Check {
    // the work words suffice
    Words = 1,
    // the forest's length and the header's counts
    Header = 2,
    Directory = 3,
    Shapes = 4,
    Opcodes = 5,
    // the trees close
    Closing = 6,
    Depth = 7,
    // an opcode has one shape
    OneShape = 16,
    // definitions stand in blocks, before the result
    Definitions = 8,
    // an id is bound once
    Bindings = 9,
    // an id that is used is bound
    Uses = 10,
    // readings of records suffice
    Readings = 11,
    // symbols suffice
    Symbols = 12,
    // the written tree fits the output and the format
    Room = 13,
    // the written tree's depth
    Nesting = 14,
}

impl Check {
    // Its number outside: a method, and no `From`, so that a reader sees at the edge which number is meant. Rules out:
    // 8 for the check after 7; one number for two checks.
    pub fn number(self) -> u32
        ensures { result ≡ number_of self }
    {
        self as u32
    }
}

// The first check that fails, and the record, or 0, at which it does.
#[derive(Clone, Copy, Debug, PartialEq, Eq)]
pub struct Refusal {
    pub check: Check,
    pub place: u32,
}

impl Refusal {
    // Nothing where a check finds no place; else a refusal. Rules out: an error where there is no place; another place.
    pub fn at(check: Check, place: Option<usize>) -> Result<(), Refusal>
        requires { IfSome place (λ p. p < 2 ^ 32) }
        ensures { result ≡ refused_at check place }
    {
        match place {
            Some(p) => Err(Refusal {
                check,
                place: p as u32,
            }),
            None => Ok(()),
        }
    }
}
