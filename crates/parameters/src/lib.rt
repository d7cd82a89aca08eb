// The parameters of a forest: its constants with a mark. In order: a record of a parameter; where one stands first; the
// first record with another value than its parameter's first; how many parameters; how many definitions a tree has.
#![tactic(auto)]

ghost use Rattle.std.specs.Prelude.{◌≡◌, ◌<◌, IfSome};
ghost use Rattle.model.specs.Forest.{record_count, rows_in};
ghost use Rattle.model.specs.Template.{is_parameter};
ghost use Rattle.model.specs.Template as template;
ghost use Rattle.model.specs.TemplateLine.{is_of, stands_at, has_another, two_values};
ghost use Rattle.model.specs.TemplateLine as line;
ghost use Rattle.record.specs.Record.{row_at};

use record::Forest;
use shape::{CONST, VAL_DEF};

// Whether record i is a parameter: a constant with a mark, that is, with an aux over 6.
// Rules out: true of a constant without a mark; true of a lambda with seven arguments.
#[tactic(auto, unfolding(model::specs::Template::is_parameter))]
fn is_parameter(forest: &Forest, i: usize) -> bool
    requires i_bound { i < record_count forest.now }
    ensures { result ≡ is_parameter (row_at forest.now i).rec }
{
    forest.shape(i) == CONST && 6 < forest.aux(i)
}

// Whether record i is of parameter a. Rules out: true for the same mark with another class; true of a constant whose
// aux is a, but at most 6.
#[tactic(auto, unfolding(model::specs::TemplateLine::is_of))]
fn is_of(forest: &Forest, i: usize, a: u8) -> bool
    requires i_bound { i < record_count forest.now }
    ensures { result ≡ is_of a (row_at forest.now i) }
{
    is_parameter(forest, i) && forest.aux(i) == a
}

// Where parameter a stands first. Rules out: its last record; nothing where only the last record is of it.
#[tactic(auto, using(codec::proofs::Rows::searching))]
fn stands_at(forest: &Forest, a: u8) -> Option<usize>
    ensures value { result ≡ stands_at a (rows_in forest.now) }
    ensures low { IfSome result (λ p. p < record_count forest.now) }
{
    (0..forest.record_count()).find(|&i| is_of(forest, i, a))
}

// Whether record i is a parameter with another literal than the first record of it.
// Rules out: true of the first record itself; true of an unmarked constant.
#[tactic(auto, using(crate::proofs::Values::another))]
fn has_another(forest: &Forest, i: usize) -> bool
    requires i_bound { i < record_count forest.now }
    ensures { result ≡ has_another (rows_in forest.now) (row_at forest.now i).rec }
{
    is_parameter(forest, i)
        && match stands_at(forest, forest.aux(i)) {
            Some(p) => forest.literal(i) != forest.literal(p),
            None => false,
        }
}

// The first record whose parameter had another literal earlier. Rules out: the earlier of the two; nothing where the
// two stand in different trees.
#[tactic(auto, using(codec::proofs::Rows::searching))]
pub fn two_values(forest: &Forest) -> Option<usize>
    ensures value { result ≡ two_values forest.now }
    ensures low { IfSome result (λ p. p < record_count forest.now) }
{
    (0..forest.record_count()).find(|&i| has_another(forest, i))
}

// How many parameters a forest has: the different aux over 6 of its constants. A `for`, since std has no law of what an
// inclusive range gives to `filter` and `count`, and a range to 256 would need a cast of each number.
// Rules out: a parameter that stands twice counted twice; two classes with one mark counted once.
#[tactic(auto, using(crate::proofs::Counts::counting))]
pub fn parameters(forest: &Forest) -> usize
    ensures { result ≡ line.parameters (rows_in forest.now) }
{
    let mut count = 0;
    for a in 0..=255 {
        if stands_at(forest, a).is_some() {
            count += 1;
        }
    }
    count
}

// How many definitions a tree has. Rules out: uses counted; blocks counted.
pub fn definitions(tree: &Forest) -> usize
    ensures { result ≡ template.definitions (rows_in tree.now) }
{
    (0..tree.record_count())
        .filter(|&i| tree.shape(i) == VAL_DEF)
        .count()
}
