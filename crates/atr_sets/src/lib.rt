// Sets of rules, a bit for each number and the lowest for 1: the first, whether one is in it, and where its character stands. Rules are
// numbers and their sets bits, and no enum, since the C interface's `lab_atr` hands them out so.
#![tactic(auto)]

ghost use Rattle.std.specs.Prelude.{◌≡◌};
ghost use Rattle.atr_rules.specs.Names.{numbers};
ghost use Rattle.atr_sets.specs.Sets.{lowest, has_rule, place_of};

use atr_characters::Located;
use atr_rules::LONG_PLACE;

// How many numbers there are: LONG, one of the twenty rules, has three.
pub const RULES: usize = 22;

// The first rule of a set; 0 where none is in it.
#[tactic(auto, using(crate::proofs::Firsts::lowest_on), unfolding(crate::specs::Sets::lowest, slices::specs::Choice::pick))]
pub fn first_rule(rules: usize) -> usize
    ensures { result ≡ lowest numbers 1 rules }
{
    let mut left = rules;
    for k in 1..=RULES {
        if left % 2 == 1 {
            return k;
        }
        left /= 2;
    }
    0
}

// Whether a rule is in a set.
#[tactic(auto, unfolding(crate::specs::Sets::has_rule, slices::specs::Choice::pick))]
pub fn has_rule(rules: usize, rule: usize) -> bool
    ensures { result ≡ has_rule rules rule }
{
    1 <= rule && rule <= RULES && (rules >> (rule - 1)) % 2 == 1
}

// The place of a rule's character, broken or not; 0 for a number that is none.
#[tactic(auto, using(crate::proofs::Rules::place_table), unfolding(slices::specs::Choice::pick, slices::specs::Tables::beside))]
pub fn place_of(l: Located, rule: usize) -> usize
    ensures { result ≡ place_of l rule }
{
    match rule {
        1 => 0,
        2 => l.first.a,
        3 => l.first.b,
        4 => l.first.b,
        5 => l.first.d,
        6 => l.second.a,
        7 => l.second.b,
        8 => l.second.c,
        9 => l.second.d,
        10 => l.third.a,
        11 => l.third.b,
        12 => l.third.b,
        13 => l.third.b,
        14 => l.third.b,
        15 => l.third.c,
        16 => LONG_PLACE,
        17 => l.size,
        18 => l.end,
        19 => l.end,
        20 => LONG_PLACE,
        21 => l.after,
        22 => LONG_PLACE,
        _ => 0,
    }
}
