// A reader holds the forest and the record it has reached (codec.rs). In order: a reader is made; its record's number;
// the next record; its record's literal; the literal of a record by number, for callers that hold no reader.
// The work is done by crate `record`, on the forest and a number: these methods only take a reader apart.
#![tactic(auto)]

ghost use Rattle.std.specs.Prelude.{◌≡◌};
ghost use Rattle.reader.specs.Held.{Reached, reaching, onward, lit_at};

use record::Forest;

#[derive(Clone, Copy)]
pub struct Reader<'a> {
    forest: &'a [u8],
    at: usize,
}

impl<'a> Reader<'a> {
    // A reader of the forest that has reached record i. Rules out: a reader at record 0 whatever i is; of another
    // forest.
    pub fn open_at(forest: &'a [u8], i: usize) -> Reader<'a>
        ensures { result ≡ reaching forest.entry i }
    {
        Reader { forest, at: i }
    }

    // The number of the record it has reached. Rules out: how many records are left; the number of the next one.
    pub fn number(self) -> usize
        ensures { result ≡ self.entry.at }
    {
        self.at
    }

    // The reader at the next record: the first child of the one reached, or, where it has none, what follows its
    // subtree. Rules out: the same record again; the record after the next.
    #[tactic(auto, using(record::proofs::Laws::records_few))]
    pub fn next(self) -> Reader<'a>
        requires { Reached self.forest.now self.at }
        ensures { result ≡ onward self.entry }
    {
        Reader {
            at: self.at + 1,
            ..self
        }
    }

    // Its record's literal, as that part of the forest. Rules out: the next record's literal; the record's bytes whole.
    pub fn literal(self) -> &'a [u8]
        requires { Reached self.forest.now self.at }
        ensures { result.now ≡ lit_at self.entry.forest.now self.entry.at }
    {
        Forest::new(self.forest).literal(self.at)
    }
}

// Record i's literal, read by a reader that has reached it: a caller needs no reader of its own.
// Rules out: the next record's literal; the first record's whatever i is.
pub fn literal_at(forest: &[u8], i: usize) -> &[u8]
    requires { Reached forest.now i }
    ensures { result.now ≡ lit_at forest.now i }
{
    Reader::open_at(forest, i).literal()
}
