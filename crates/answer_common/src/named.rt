// Named objects: what was found of them in a list, by place. Where it was looked up in bytes that were not checked, it is what stands
// before the break.
ghost use Rattle.std.specs.Prelude.{◌≡◌, [], ◌∷◌, map, eqb};
ghost use Rattle.slices.specs.Tables.{any_of};
ghost use Rattle.tlv_list.specs.Lookup.{found_value};
ghost use Rattle.answer_common.specs.Named.{listed, standing, times as times_of, found_times, value_of, wrong_value};

use crate::content::is_right;
use tlv_list::Found;
use tlv_list::lookup::find_in_checked;
use tlv_list::place::value;

// Whether a name is one of some names.
pub fn is_listed(name: usize, names: &[usize]) -> bool
    ensures { result ≡ listed name names.now }
{
    names.contains(&name)
}

// How often a name was found; 2 for twice and more.
#[tactic(auto, unfolding(crate::specs::Named::found_times))]
pub fn times_of(found: Found) -> usize
    ensures { result ≡ found_times found }
{
    match found {
        Found::Absent => 0,
        Found::Once { .. } => 1,
        Found::Twice => 2,
    }
}

// Whether one of four names was found n times.
pub fn any_times(n: usize, a: Found, b: Found, c: Found, d: Found) -> bool
    ensures { result ≡ any_of (map (λ found. eqb (found_times found) n) (a ∷ b ∷ c ∷ d ∷ [])) }
{
    [a, b, c, d].iter().any(|found| times_of(*found) == n)
}

// The value of what was found once; else nothing.
#[tactic(auto, unfolding(crate::specs::Named::value_of, crate::specs::Named::told, tlv_list::specs::Lookup::found_value))]
pub fn value_of(s: &[u8], found: Found) -> &[u8]
    ensures { result.now ≡ value_of (found_value s.now found) }
{
    match found {
        Found::Once { start, end } => value(s, start, end),
        Found::Absent | Found::Twice => &s[0..0],
    }
}

// How often a name stands there; 2 for twice and more.
#[tactic(auto, using(crate::proofs::Membered::times_found), unfolding(crate::specs::Named::standing))]
pub fn times_in_checked(s: &[u8], name: usize) -> usize
    ensures { result ≡ times_of (standing s.now name) }
{
    times_of(find_in_checked(s, name))
}

// The value under a name that stands there once; else nothing.
#[tactic(auto, unfolding(crate::specs::Named::standing))]
pub fn value_in_checked(s: &[u8], name: usize) -> &[u8]
    ensures { result.now ≡ value_of (standing s.now name) }
{
    value_of(s, find_in_checked(s, name))
}

// Whether what was found once has a wrong value for a name.
#[tactic(auto, unfolding(crate::specs::Named::wrong_value, tlv_list::specs::Lookup::found_value))]
pub fn is_wrong(s: &[u8], name: usize, found: Found) -> bool
    ensures { result ≡ wrong_value name (found_value s.now found) }
{
    matches!(found, Found::Once { start, end } if !is_right(name, value(s, start, end)))
}
