// What C programs call (include/cse.h): every exported function, in one static library. They hand on what they are given.
#![tactic(auto)]

ghost use Rattle.std.specs.Prelude.{◌≡◌, length};
ghost use Rattle.model.specs.Call.{call_of, numbers, out_after, work_after};
ghost use Rattle.model.specs.Demand3.{Demanded, Demand3};
ghost use Rattle.model.specs.Ends.{entries_of, checking, told};
ghost use Rattle.cse.specs.Call.{five};

// The main call. It adds nothing to `cse::cse_call`.
// Rules out: a number left as it was; symbols and readings swapped.
#[unsafe(no_mangle)]
pub extern "C" fn cse_call(
    forest: &[u8],
    out: &mut [u8],
    work: &mut [u32],
    number: &mut u32,
    place: &mut u32,
    len: &mut u32,
    symbols: &mut u32,
    readings: &mut u32,
)
    ensures numbers_after { five number.new place.new len.new symbols.new
        readings.new
        ≡ numbers (call_of forest.now out.old work.old) }
    ensures out_after { out.new
        ≡ out_after (call_of forest.now out.old work.old) out.old }
    ensures work_after { work.new ≡ work_after work.old }
    ensures demand3 { Demand3 (call_of forest.now out.old work.old) }
    ensures demanded { Demanded (call_of forest.now out.old work.old) out.old
        (five number.new place.new len.new symbols.new
        readings.new) out.new }
{
    cse::cse_call(forest, out, work, number, place, len, symbols, readings)
}

// The check by itself, with where each subtree ends. It adds nothing to `cse::cse_check`.
// Rules out: the place left as it was; an entry past the last record left as it was.
#[unsafe(no_mangle)]
pub extern "C" fn cse_check(
    forest: &[u8],
    work: &mut [u32],
    ends: &mut [u16; 256],
    number: &mut u32,
    place: &mut u32,
)
    ensures told { (number.new, place.new) ≡ told (checking (length work.old) forest.now) }
    ensures ends { ends.new ≡ entries_of (checking (length work.old) forest.now) }
    ensures work_after { work.new ≡ work_after work.old }
{
    cse::cse_check(forest, work, ends, number, place)
}
