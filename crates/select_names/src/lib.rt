// Whether a card's application is one that the terminal supports.
#![tactic(auto)]

ghost use Rattle.std.specs.Prelude.{◌≡◌};
ghost use Rattle.start_list.specs.Listing.{applications_in, listed_at};
ghost use Rattle.select_names.specs.Names.{begins_with, matches as matches_of, supported};

use slices::{alike, part};
use start_list::listing::{is_partial, listed_aid, listed_count};

pub fn begins_with(aid: &[u8], name: &[u8]) -> bool
    ensures { result ≡ begins_with aid.now name.now }
{
    alike(aid, part(name, 0, aid.len()))
}

// Whether a name matches START's k-th AID; past the last one that is an empty AID, which only an empty name matches.
pub fn matches_listed(start: &[u8], k: usize, name: &[u8]) -> bool
    ensures { result ≡ matches_of name.now (listed_at (applications_in start.now) k) }
{
    let aid = listed_aid(start, k);
    if is_partial(start, k) {
        begins_with(aid, name)
    } else {
        alike(aid, name)
    }
}

// Whether it matches one of them.
pub fn is_supported(start: &[u8], name: &[u8]) -> bool
    ensures { result ≡ supported (applications_in start.now) name.now }
{
    for k in 0..listed_count(start) {
        if matches_listed(start, k, name) {
            return true;
        }
    }
    false
}
