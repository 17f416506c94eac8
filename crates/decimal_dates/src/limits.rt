// A number between two limits.
ghost use Rattle.std.specs.Prelude.{◌≡◌};
ghost use Rattle.slices.specs.Tests.{between as between_of};

pub fn between(low: u64, high: u64, n: u64) -> bool
    ensures { result ≡ between_of low high n }
{
    low <= n && n <= high
}
