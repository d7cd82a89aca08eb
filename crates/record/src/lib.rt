// Records by number (codec.rs). In order: a forest; numbers; the header; a constant's class and mark; what a forest
// says: its counts, where a record starts, its fields, its size, its literal, as a part of the forest.
// That a record is there (`i < record_count`) stays a clause, here and above: a struct of a forest and a number would
// be made at each step of a walk, and a clause would reach both through it. `shape`, `opcode` and `aux` stay three: one
// function of an offset would promise a field by cases of a number.
#![tactic(auto)]

ghost use Rattle.std.specs.Prelude.{◌≡◌, ◌+◌, ◌<◌, ◌≤◌, length, drop};
ghost use Rattle.model.specs.Bytes.{u16};
ghost use Rattle.model.specs.Tree.{row_len};
ghost use Rattle.model.specs.Tree as model;
ghost use Rattle.model.specs.Forest.{tree_count, record_count};
ghost use Rattle.record.specs.Record.{Laid, start_of, row_at};

use std::marker::Model;

// A forest whose header and directory stand: neither check 2 nor check 3 fails. It is seen as its bytes.
#[derive(Drop)]
pub struct Forest<'a> {
    bytes: &'a [u8],
}

impl<'a> Model for Forest<'a> {
    ghost use Rattle.std.specs.Prelude.{List, ℕ};
    ghost use Rattle.record.specs.Record.{Laid};

    ghost Value = { List ℕ };

    ghost view = { λ f. f.bytes.now };

    ghost invariant = { λ f. Laid f.bytes.now };
}

// The 16-bit number at `at`. Rules out: the bytes the other way round; the number one byte on.
#[tactic(auto, using(crate::proofs::Laws::u16_at))]
pub fn number16(s: &[u8], at: usize) -> usize
    requires { at + 1 < length s.now }
    ensures { (result ≡ u16 (drop at s.now)) × (result < 65536) }
{
    usize::from(u16::from_le_bytes([s[at], s[at + 1]]))
}

// How many trees the header counts. Rules out: the record count; its low byte alone.
#[tactic(auto, unfolding(model::specs::Forest::tree_count))]
pub fn tree_count(forest: &[u8]) -> usize
    requires { 4 ≤ length forest.now }
    ensures { (result ≡ tree_count forest.now) × (result < 65536) }
{
    number16(forest, 0)
}

// How many records the header counts. Rules out: the tree count; its low byte alone.
#[tactic(auto, unfolding(model::specs::Forest::record_count))]
pub fn record_count(forest: &[u8]) -> usize
    requires { 4 ≤ length forest.now }
    ensures { (result ≡ record_count forest.now) × (result < 65536) }
{
    number16(forest, 2)
}

// The class of a constant, by its aux. Rules out: the mark; the whole aux.
pub fn class(aux: u8) -> u8
    ensures { result ≡ model.class aux }
{
    aux % 7
}

// The mark of a constant, by its aux. Rules out: the class; the whole aux.
pub fn mark(aux: u8) -> u8
    ensures { result ≡ model.mark aux }
{
    aux / 7
}

impl<'a> Forest<'a> {
    // A forest of these bytes. Rules out: another forest's.
    pub fn new(bytes: &'a [u8]) -> Forest<'a>
        requires { Laid bytes.now }
        ensures { result ≡ bytes.entry.now }
    {
        Forest { bytes }
    }

    // Its bytes. Rules out: those of its first record alone.
    pub fn bytes(&self) -> &'a [u8]
        ensures bytes { result.now ≡ self.now }
        ensures laid { Laid self.now }
    {
        self.bytes
    }

    // How many trees the header counts. Rules out: the record count; the number one less.
    #[tactic(auto, using(crate::proofs::Laws::counts))]
    pub fn tree_count(&self) -> usize
        ensures { (result ≡ tree_count self.now) × (result ≤ 16) }
    {
        tree_count(self.bytes)
    }

    // How many records the header counts. Rules out: the tree count; a bound that no forest keeps.
    #[tactic(auto, using(crate::proofs::Laws::counts))]
    pub fn record_count(&self) -> usize
        ensures { (result ≡ record_count self.now) × (result ≤ 256) }
    {
        record_count(self.bytes)
    }

    // Where record i starts. Rules out: its length; the pair of the record after it.
    #[tactic(auto, using(crate::proofs::Laws::pairs), unfolding(crate::specs::Record::start_of))]
    fn start(&self, i: usize) -> usize
        requires { i < record_count self.now }
        ensures { (result ≡ start_of self.now i) × (result < 65536) }
    {
        number16(self.bytes, 4 + 4 * i)
    }

    // Record i's shape. Rules out: another record's; its opcode.
    #[tactic(auto, using(crate::proofs::Laws::fields))]
    pub fn shape(&self, i: usize) -> u8
        requires { i < record_count self.now }
        ensures { result ≡ (row_at self.now i).rec.shape }
    {
        self.bytes[self.start(i)]
    }

    // Record i's opcode. Rules out: another record's; its shape.
    #[tactic(auto, using(crate::proofs::Laws::fields))]
    pub fn opcode(&self, i: usize) -> u8
        requires { i < record_count self.now }
        ensures { result ≡ (row_at self.now i).rec.opcode }
    {
        self.bytes[self.start(i) + 1]
    }

    // How many children record i has. Rules out: the count's low byte alone; the number one byte on.
    #[tactic(auto, using(crate::proofs::Laws::fields))]
    pub fn kids(&self, i: usize) -> usize
        requires { i < record_count self.now }
        ensures { (result ≡ (row_at self.now i).kids) × (result < 65536) }
    {
        number16(self.bytes, self.start(i) + 2)
    }

    // Record i's aux. Rules out: the literal's first byte; the child count's high byte.
    #[tactic(auto, using(crate::proofs::Laws::fields))]
    pub fn aux(&self, i: usize) -> u8
        requires { i < record_count self.now }
        ensures { result ≡ (row_at self.now i).rec.aux }
    {
        self.bytes[self.start(i) + 4]
    }

    // How many bytes record i has. Rules out: where it starts; how long its literal is.
    #[tactic(auto, using(crate::proofs::Laws::lengths), unfolding(crate::specs::Record::size_of))]
    pub fn size(&self, i: usize) -> usize
        requires { i < record_count self.now }
        ensures { (result ≡ row_len (row_at self.now i)) × (result < 65536) }
    {
        number16(self.bytes, 6 + 4 * i)
    }

    // Record i's literal, as that part of the forest: what stands in the record after its five fixed bytes.
    // Rules out: a byte early (aux and the literal less its last byte); the next record's bytes too.
    #[tactic(auto, using(crate::proofs::Laws::part))]
    pub fn literal(&self, i: usize) -> &'a [u8]
        requires { i < record_count self.now }
        ensures { result.now ≡ (row_at self.now i).rec.lit }
    {
        let at = self.start(i);
        &self.bytes[at + 5..at + self.size(i)]
    }
}
