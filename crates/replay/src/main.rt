// Replays a list of calls. A row of standard input is eight 32-bit numbers (the forest's length, the output's length,
// the work words, and the five numbers of the answer), then the forest and the written tree. Each call is lent output
// and work words that are not zero, and everything that it may change is looked at afterwards. Printed is the number
// of each row that differs, from 1, and how many rows there were. A row that the list ends in, or that asks for more
// than 65,536 bytes or 16,400 words, differs. A read or a write that fails ends the program with its error.
// In order: the head of a row; what is looked at; rows.
#![tactic(auto)]

ghost use Rattle.std.specs.Prelude.{◌≡◌, ◌==◌, ◌↔◌, ◌+◌, ◌-◌, ◌*◌, ◌<◌, ◌≤◌, ◌++◌, if◌then◌else◌};
ghost use Rattle.std.specs.Prelude.{replicate, drop, length, IsTrue, MatchOption};
ghost use Rattle.std.specs.List.{list_all};
ghost use Rattle.model.specs.Bytes.{u32};
ghost use Rattle.model.specs.Call.{numbers, out_after};
ghost use Rattle.cse.specs.Call as call;
ghost use Rattle.replay.specs.Rows as rows;

use cse::Written;
use refusal::Refusal;
use std::io;
use std::io::Read;

// What the output and the words are filled with.
const BYTE: u8 = 165;

const WORD: u32 = 2779096485;

// The words that a call uses.
const USED: usize = 16384;

// The five numbers of an answer, as a row's format has them, a refusal's number among them.
#[derive(Clone, Copy, PartialEq, Eq)]
struct Numbers {
    number: u32,
    place: u32,
    written: u32,
    symbols: u32,
    readings: u32,
}

#[derive(Clone, Copy)]
struct Row {
    forest: usize,
    room: usize,
    words: usize,
    answer: Numbers,
}

// What a row is read into, and what its call is lent.
#[derive(Drop)]
struct Memory {
    forest: [u8; 65536],
    tree: [u8; 65536],
    out: [u8; 65536],
    work: [u32; 16400],
}

// ---- the head of a row

// Number i of a row's head: little-endian, as ids are.
fn number(head: &[u8], i: usize) -> u32
    requires { 4 * i + 4 ≤ length head.now }
    ensures { result ≡ u32 (drop (4 * i) head.now) }
{
    shape::id(&head[4 * i..])
}

// The row of a head, unless the list ends within it.
fn row_of(head: &[u8]) -> Option<Row>
    ensures { MatchOption result (length head.now < 32) (λ row. (32 ≤ length head.now) × (row ≡ rows.row_of head.now)) }
{
    if head.len() < 32 {
        return None;
    }
    Some(Row {
        forest: number(head, 0) as usize,
        room: number(head, 1) as usize,
        words: number(head, 2) as usize,
        answer: Numbers {
            number: number(head, 3),
            place: number(head, 4),
            written: number(head, 5),
            symbols: number(head, 6),
            readings: number(head, 7),
        },
    })
}

// ---- what is looked at

fn numbers_of(answer: Result<Written, Refusal>) -> Numbers
    ensures { rows.numbers_in result ≡ call.numbers_in answer }
{
    match answer {
        Ok(w) => Numbers {
            number: 0,
            place: 0,
            written: w.length,
            symbols: w.symbols,
            readings: w.readings,
        },
        Err(r) => Numbers {
            number: r.check.number(),
            place: r.place,
            written: 0,
            symbols: 0,
            readings: 0,
        },
    }
}

// Whether all items are x.
fn all_are<T: Copy + PartialEq>(xs: &[T], x: T) -> bool
    ensures { result ≡ list_all (λ y. T.eq y x) xs.now }
{
    xs.iter().all(|&y| y == x)
}

// Whether the output is the tree, and then the bytes that it was filled with. Here and below a shorter list is turned
// away first: `split_at` asks for the length, and one expression would nest a block.
fn is_output(out: &[u8], tree: &[u8]) -> bool
    ensures { IsTrue result ↔ (out.now ≡ rows.before tree.now (length out.now) BYTE) }
{
    let n = tree.len();
    if out.len() < n {
        return false;
    }
    let (front, rest) = out.split_at(n);
    front == tree && all_are(rest, BYTE)
}

// Whether the first `cleared` words are 0, and the others those that they were filled with.
fn is_work(work: &[u32], cleared: usize) -> bool
    ensures { IsTrue result ↔ (work.now ≡ rows.before (replicate cleared 0) (length work.now) WORD) }
{
    if work.len() < cleared {
        return false;
    }
    let (front, rest) = work.split_at(cleared);
    all_are(front, 0) && all_are(rest, WORD)
}

// How many words a call clears, by the number of its answer.
fn cleared(number: u32) -> usize
    ensures { result ≡ (if number == 1 then 0 else USED) }
{
    if number == 1 { 0 } else { USED }
}

// ---- rows

// One call, and all that it left. A row that agrees has the numbers that the definitions give for its forest, and the
// output that they leave is its tree, and then the bytes that it was filled with.
fn agrees(row: Row, forest: &[u8], tree: &[u8], out: &mut [u8], work: &mut [u32]) -> bool
    ensures numbers { IsTrue result → numbers (rows.call_in row forest.now) ≡ rows.numbers_in row.answer }
    ensures output { IsTrue result → out_after (rows.call_in row forest.now) (replicate row.room BYTE)
        ++ replicate (length out.old - row.room) BYTE ≡ rows.before tree.now (length out.old) BYTE }
{
    // a row that the memory has no room for is not run
    if out.len() < row.room || work.len() < row.words {
        return false;
    }
    out.fill(BYTE);
    work.fill(WORD);
    let answer = cse::cse(forest, &mut out[..row.room], &mut work[..row.words]);
    numbers_of(answer) == row.answer
        && is_output(out, tree)
        && is_work(work, cleared(row.answer.number))
}

// Reads the rest of a row, of whose head this was there, and makes its call; false if it differs, or if the list ends
// within it.
fn call<R: Read>(input: &mut R, head: &[u8], memory: &mut Memory) -> io::Result<bool> {
    let Some(row) = row_of(head) else {
        return Ok(false);
    };
    let n = row.forest;
    let m = row.answer.written as usize;
    if memory.forest.len() < n || memory.tree.len() < m {
        return Ok(false);
    }
    if streams::read_full(input, &mut memory.forest[..n])? < n {
        return Ok(false);
    }
    if streams::read_full(input, &mut memory.tree[..m])? < m {
        return Ok(false);
    }
    let forest = &memory.forest[..n];
    let tree = &memory.tree[..m];
    Ok(agrees(row, forest, tree, &mut memory.out, &mut memory.work))
}

fn main(rt: HostRuntime) -> io::Result<()> {
    let mut input = rt.stdin();
    let mut memory = Memory {
        forest: [0; 65536],
        tree: [0; 65536],
        out: [0; 65536],
        work: [0; 16400],
    };
    let mut head = [0u8; 32];
    let mut rows: u64 = 0;
    let mut differ: u64 = 0;
    for row in 1..=1_000_000 {
        let got = streams::read_full(&mut input, &mut head)?;
        if got == 0 {
            break;
        }
        rows = row;
        if !call(&mut input, &head[..got], &mut memory)? {
            println!(rt; "{row} differs")?;
            differ += 1;
        }
    }
    println!(rt; "{rows} rows, {differ} differ")
}
