// The check by itself, of any forest: checks 1 to 10 and 16, and where each subtree ends.
// In order: the check; the check as other programs make it.
ghost use Rattle.std.specs.Prelude.{◌≡◌, length};
ghost use Rattle.model.specs.Call.{work_after};
ghost use Rattle.model.specs.Ends.{entries_of, checking, told};
ghost use Rattle.cse.specs.Check.{told_in};

use crate::{NO_WORDS, clear};
use refusal::Refusal;

// Whether a forest is accepted, or the first of checks 1 to 10 and 16 that fails with its place. Of an accepted forest `ends`
// has for each record the number of the first record after its subtree; its other entries are 0, whatever they held, and
// all are after a refusal. The words are as after the main call.
// Rules out: 11 or 13, which are no matter of it; an entry that was there left after 1; work words that keep ids.
pub fn check(forest: &[u8], work: &mut [u32], ends: &mut [u16; 256]) -> Result<(), Refusal>
    ensures told { told_in result ≡ told (checking (length work.old) forest.now) }
    ensures ends { ends.new ≡ entries_of (checking (length work.old) forest.now) }
    ensures work_after { work.new ≡ work_after work.old }
{
    if work.len() < regions::WORDS {
        ends.fill(0);
        return Err(NO_WORDS);
    }
    let checked = codec::check(forest, work, ends);
    clear(work);
    checked?;
    Ok(())
}

// The check as C programs make it (crate exports has its twin): number and place are stored. It adds nothing to `check`.
// Rules out: the number left as it was where the forest is accepted; place and number swapped.
pub fn cse_check(
    forest: &[u8],
    work: &mut [u32],
    ends: &mut [u16; 256],
    number: &mut u32,
    place: &mut u32,
)
    ensures told { (number.new, place.new) ≡ told (checking (length work.old) forest.now) }
    ensures ends { ends.new ≡ entries_of (checking (length work.old) forest.now) }
    ensures work_after { work.new ≡ work_after work.old }
{
    match check(forest, work, ends) {
        Ok(()) => {
            *number = 0;
            *place = 0;
        }
        Err(r) => {
            *number = r.check.number();
            *place = r.place;
        }
    }
}
