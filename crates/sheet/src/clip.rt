// Texts put into an output, as far as there is room: what would stand past its end is cut off, and the rest of it is as
// it was. In order: a text; a byte; spaces; a number; hex.
ghost use Rattle.std.specs.Prelude.{[], ◌∷◌, replicate};
ghost use Rattle.model.specs.Lister.{numeral, hex_byte};
ghost use Rattle.model.specs.Sheet.{hex_bytes};
ghost use Rattle.sheet.specs.Clip.{PutClipped};

use output::Output;

// Bytes in a row. Rules out: none of them where there is room for some; the last ones instead of the first.
pub fn put_text(out: &mut Output, text: &[u8])
    ensures { PutClipped out.old text.now out.new }
{
    let n = text.len().min(out.bytes.len() - out.at);
    out.put_bytes(&text[..n]);
}

// A byte. Rules out: the byte one place on; the byte twice.
pub fn put(out: &mut Output, b: u8)
    ensures { PutClipped out.old (b ∷ []) out.new }
{
    put_text(out, &[b]);
}

// So many spaces. Rules out: one fewer; tabs.
pub fn put_spaces(out: &mut Output, n: usize)
    ensures { PutClipped out.old (replicate n 32) out.new }
{
    let end = out.at + n.min(out.bytes.len() - out.at);
    out.bytes[out.at..end].fill(b' ');
    out.at = end;
}

// A number in decimal. It is put into a buffer of its own first, since it may be cut off.
// Rules out: its first digit cut off; zeros before it.
pub fn put_number(out: &mut Output, n: u64)
    ensures { PutClipped out.old (numeral n) out.new }
{
    let mut buffer = [0u8; 20];
    let mut digits = Output::new(&mut buffer);
    text::put_decimal(&mut digits, n);
    let Output { bytes, at } = digits;
    put_text(out, &bytes[..at]);
}

// A byte in hex. Rules out: the low digit first; one digit for a byte below 16.
pub fn put_hex(out: &mut Output, b: u8)
    ensures { PutClipped out.old (hex_byte b) out.new }
{
    // digits that fit need no buffer of their own, from which as many bytes as fit are copied by a call
    if 2 <= out.bytes.len() - out.at {
        return text::put_hex(out, b);
    }
    let mut buffer = [0u8; 2];
    let mut digits = Output::new(&mut buffer);
    text::put_hex(&mut digits, b);
    let Output { bytes, .. } = digits;
    put_text(out, bytes);
}

// Bytes in hex, in a row. Rules out: the last byte left out; the bytes the other way round.
pub fn put_hexes(out: &mut Output, bytes: &[u8])
    ensures { PutClipped out.old (hex_bytes bytes.now) out.new }
{
    for &b in bytes {
        put_hex(out, b);
    }
}
