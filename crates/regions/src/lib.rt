// The regions of the work words: the first word of each. specs/Regions.antt has their first words and sizes and says
// what they hold; contracts cite those, so a constant that differs from its region is refused where it is used.
#![tactic(auto)]

// The words that the main call is lent at least. That they are there stays a clause where words are lent (here, and of
// IDS in the checks): an array of so many would ask more of callers, its length exactly, and a struct around the `&mut`
// would have to promise at each call that it still holds the same words.
pub const WORDS: usize = 16384;

// Of these the ids in force take, while checks run: a check by itself needs no more.
pub const IDS_WORDS: usize = 3840;

// While symbols are made. (The ids in force while checks run, and the symbols, begin at word 0.)
pub const SLOTS: usize = 2560;

pub const SCOPES: usize = 5120;

pub const FREE_ENDS: usize = 7176;

pub const FREE_LISTS: usize = 7689;

pub const ENTRIES: usize = 11785;

pub const MEMO: usize = 12297;

pub const PENDING: usize = 12809;

pub const BINDINGS: usize = 13065;

// Once the symbols are made.
pub const PLAN: usize = 11785;

pub const USES: usize = 13065;

pub const REACHED: usize = 13577;
