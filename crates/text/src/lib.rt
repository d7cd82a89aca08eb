// Text written over an output, from its place on; the rest of the output is as it was.
// In order: two bytes; a number in decimal, also below zero; a byte in hexadecimal; lines with two numbers, that of a
// refusal among them.
#![tactic(auto)]

ghost use Rattle.std.specs.Prelude.{◌≡◌, [], ◌∷◌, ◌++◌, ◌+◌, ◌<◌, ◌≤◌, length};
ghost use Rattle.model.specs.Lister.{numeral, signed, hex_digit, hex_byte, refusal};
ghost use Rattle.output.specs.Output.{Wrote, Room, Put};

use output::Output;

// Two bytes. Rules out: the second first; the first alone.
pub fn put_two(out: &mut Output, first: u8, second: u8)
    requires { Room out.old 2 }
    ensures { Put out.old (first ∷ second ∷ []) out.new }
{
    out.put_bytes(&[first, second]);
}

// ---- a number in decimal

fn digit(n: u64) -> u8
    requires { n < 10 }
    ensures { result ≡ 48 + n }
{
    b'0' + n as u8
}

// n in decimal, without leading zeros. The digits before the last come first, so it calls itself for them: a loop would
// need a buffer of digits, put the other way round.
// Rules out: the lowest digit first; a number of one digit with a 0 before it.
pub fn put_decimal(out: &mut Output, n: u64)
    requires { Room out.old (length (numeral n)) }
    ensures { Put out.old (numeral n) out.new }
{
    if n < 10 {
        out.put_byte(digit(n));
        return;
    }
    put_decimal(out, n / 10);
    out.put_byte(digit(n % 10));
}

// n in decimal, with a minus where it is below zero.
// Rules out: a minus before 0; the sign lost at -1.
pub fn put_signed(out: &mut Output, n: i32)
    requires { Room out.old (length (signed n)) }
    ensures { Put out.old (signed n) out.new }
{
    let negative = n < 0;
    if negative {
        out.put_byte(b'-');
    }
    put_decimal(out, u64::from(n.unsigned_abs()));
}

// ---- a byte in hexadecimal

#[tactic(auto, unfolding(model::specs::Lister::hex_digit))]
fn hex_digit(n: u8) -> u8
    requires { n < 16 }
    ensures { result ≡ hex_digit n }
{
    if n < 10 { b'0' + n } else { b'A' + (n - 10) }
}

// A byte as two hexadecimal digits. Rules out: small letters; one digit for a byte below 16.
#[tactic(auto, unfolding(model::specs::Lister::hex_byte))]
pub fn put_hex(out: &mut Output, b: u8)
    requires { Room out.old 2 }
    ensures { Put out.old (hex_byte b) out.new }
{
    put_two(out, hex_digit(b / 16), hex_digit(b % 16));
}

// ---- lines with two numbers

// A line over an output's start: text, number, text, number, text; the answer is its length.
// Rules out: the second number first; the last text left out.
pub fn put_line(
    out: &mut [u8],
    before: &[u8],
    m: u64,
    between: &[u8],
    n: u64,
    after: &[u8],
) -> usize
    requires { length before.now + length between.now + length after.now + 40 ≤ length out.old }
    ensures { Wrote out.old 0 (before.now ++ numeral m ++ between.now ++ numeral n
        ++ after.now) out.new result }
{
    let mut line = Output::new(out);
    line.put_bytes(before);
    put_decimal(&mut line, m);
    line.put_bytes(between);
    put_decimal(&mut line, n);
    line.put_bytes(after);
    line.at
}

// The length of a refusal's longest line: its two numbers have twenty digits each.
pub const LINE: usize = 53;

// The line of a refusal, over the output's start; the answer is its length. Of any two numbers, since a `Refusal` would
// ask more of callers. No `impl Display` of a refusal: std promises
// the text of `write!` only where a `String` takes it, which needs a heap.
// Rules out: the place before the number; the newline left out.
#[tactic(auto, unfolding(model::specs::Lister::refusal, model::specs::Text::text))]
pub fn put_refusal(out: &mut [u8], number: u64, place: u64) -> usize
    requires { LINE ≤ length out.old }
    ensures { Wrote out.old 0 (refusal number place) out.new result }
{
    put_line(out, b"refused ", number, b" at ", place, b"\n")
}
