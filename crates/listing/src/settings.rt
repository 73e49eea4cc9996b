// Facts and settings: how many of each there may be.

ghost use Rattle.std.specs.Prelude.{◌≡◌, ◌^◌, ◌<◌, ◌≤◌, length, Decides, MatchOption};
ghost use Rattle.std.specs.Option.{SomeIff};
ghost use Rattle.listing.specs.Settings.{Facts, settings, Counted};

/// The most facts that a diagram may have.
pub const MOST_FACTS: u16 = 512;

/// Whether a diagram may have n facts.
pub fn facts_allowed(n: u16) -> bool
    ensures { Decides result (Facts n) }
{
    (1..=MOST_FACTS).contains(&n)
}

/// How many settings n facts have, where a `u64` holds it: 2 ^ n.
pub fn setting_count(n: u16) -> Option<u64>
    ensures count { MatchOption result (2 ^ 64 ≤ length (settings n)) (λ c. c ≡ length (settings n)) }
    ensures counted { Counted n }
{
    counted(n, 2u64.checked_pow(n as u32))
}

// Carries the theorem that n facts have 2 ^ n settings: `power` is 2 ^ n where that fits.
fn counted(n: u16, power: Option<u64>) -> Option<u64>
    requires { SomeIff power (2 ^ n < 2 ^ 64) (2 ^ n) }
    ensures power { result ≡ power }
    ensures count { MatchOption result (2 ^ 64 ≤ length (settings n)) (λ c. c ≡ length (settings n)) }
    ensures counted { Counted n }
{
    power
}
