// Selection at random for online processing.
ghost use Rattle.std.specs.Prelude.{◌≡◌, ◌<◌};
ghost use Rattle.decimal_dates.specs.Decimal.{six_bytes_limit};
ghost use Rattle.start_fields.specs.Reading.{reading_of};
ghost use Rattle.decide_tvr.specs.Selection.{biased as biased_of, selected as selected_of};

use start_fields::fields;

// Amounts are below six_bytes_limit, whatever START holds, so that no product leaves the range of an i64.
fn biased(random: u8, target: u8, maximum: u8, amount: u64, floor: u64, threshold: u64) -> bool
    requires { (amount < six_bytes_limit) × (floor < six_bytes_limit) × (threshold < six_bytes_limit) }
    ensures { result ≡ biased_of random target maximum amount floor threshold }
{
    let spread = maximum as i64 - target as i64;
    let above = amount as i64 - threshold as i64;
    let room = floor as i64 - threshold as i64;
    (random as i64 - target as i64) * room <= spread * above
}

// Whether a type 2 terminal sends an amount below its floor limit online.
#[tactic(auto, unfolding(crate::specs::Selection::selected, crate::specs::Selection::chosen, slices::specs::Choice::pick))]
pub fn selected(start: &[u8]) -> bool
    ensures { result ≡ selected_of (reading_of start.now) }
{
    let random = fields::random(start);
    let target = fields::target(start);
    let amount = fields::amount(start);
    let threshold = fields::threshold(start);
    if amount < threshold {
        return random <= target;
    }
    let maximum = fields::maximum(start);
    let floor = fields::floor_limit(start);
    biased(random, target, maximum, amount, floor, threshold)
}
