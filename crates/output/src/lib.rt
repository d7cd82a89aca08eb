// Bytes put over an output, front to back. In order: an output with the place that it has come to; what is put there:
// one byte, a number, bytes in a row. The rest of the output is as it was.
// That the place lies in the output is its own fact. `Room` stays a clause: how much is asked differs from call to
// call.
#![tactic(auto)]

ghost use Rattle.std.specs.Prelude.{◌≡◌, [], ◌∷◌, ◌<◌, ◌≤◌, length};
ghost use Rattle.model.specs.Bytes.{put16, put32};

// An output, and the place at which the next byte goes: it lies in the output, or at its end.
#[derive(Drop)]
pub struct Output<'a> {
    pub bytes: &'a mut [u8],
    pub at: usize,
    pub ghost within: { at ≤ length bytes.now },
}

impl<'a> Output<'a> {
    ghost use Rattle.output.specs.Output.{Room, Put};

    // These bytes, from their start on. Rules out: other memory; a place past the start.
    pub fn new(bytes: &'a mut [u8]) -> Output<'a>
        ensures same { result.bytes.ghost_name ≡ bytes.entry.ghost_name }
        ensures start { (result.bytes.now ≡ bytes.old) × (result.at ≡ 0) }
    {
        Output { bytes, at: 0 }
    }

    // One byte. Rules out: the byte after it touched; the same place as the next.
    pub fn put_byte(&mut self, b: u8)
        requires { Room self.old 1 }
        ensures { Put self.old (b ∷ []) self.new }
    {
        self.bytes[self.at] = b;
        self.at += 1;
    }

    // A 16-bit number; `put_32` is its twin, since one for both sizes would ask for a trait with `to_le_bytes`.
    // Rules out: the high byte first; the byte after it touched.
    pub fn put_16(&mut self, n: usize)
        requires room { Room self.old 2 }
        requires n_bound { n < 65536 }
        ensures { Put self.old (put16 n) self.new }
    {
        self.put_bytes(&(n as u16).to_le_bytes());
    }

    // A 32-bit number. Rules out: the high byte first; the byte after it touched.
    pub fn put_32(&mut self, n: u32)
        requires { Room self.old 4 }
        ensures { Put self.old (put32 n) self.new }
    {
        self.put_bytes(&n.to_le_bytes());
    }

    // Bytes in a row. Rules out: the last one left out; a byte past their end touched.
    pub fn put_bytes(&mut self, bytes: &[u8])
        requires { Room self.old (length bytes.now) }
        ensures { Put self.old bytes.now self.new }
    {
        let next = self.at + bytes.len();
        let place = &mut self.bytes[self.at..next];
        // one by one: for `copy_from_slice` the archive for C would want `memmove` from outside
        for (k, &b) in bytes.iter().enumerate() {
            place[k] = b;
        }
        self.at = next;
    }
}
