// Whether two listings in the caller's slices are the same: the answer that "equal" rests on.

ghost use Rattle.std.specs.Prelude.{◌≡◌, ℕ, Decides};
ghost use Rattle.listing.specs.Meaning.{Canonical, Least, Decided};

use crate::{Record, Target};

/// Whether two lists of records are equal. Stops at the first difference.
#[tactic(auto, using(crate::proofs::Derived::records_eq))]
pub fn same_records(left: &[Record], right: &[Record]) -> bool
    ensures { Decides result (left.now ≡ right.now) }
{
    left == right
}

/// Whether two listings have equal roots and equal records. Where both are normal listings over the same n,
/// that is so exactly when their values agree at all 2 ^ n settings; and a normal listing has no more
/// records than any listing by the rules that agrees with it. Whether a listing keeps the rules, and whether it is
/// normal, is told by tests that compute.
// Roots and records, and no struct of both: a listing has n besides, which is not compared.
pub fn same_listing(
    left_root: Target,
    left: &[Record],
    right_root: Target,
    right: &[Record],
) -> bool
    ensures equal { Decides result ((left_root ≡ right_root) × (left.now ≡ right.now)) }
    ensures canonical { Canonical left_root left.now right_root right.now result }
    ensures least { Least left_root left.now }
    ensures decided { (n : ℕ) → Decided n left_root left.now }
{
    let equal = left_root.same(right_root) && same_records(left, right);
    canonical(left_root, left, right_root, right, equal)
}

// Carries the theorems of the normal form: `equal` tells whether the two listings are the same.
fn canonical(
    left_root: Target,
    left: &[Record],
    right_root: Target,
    right: &[Record],
    equal: bool,
) -> bool
    requires { Decides equal ((left_root ≡ right_root) × (left.now ≡ right.now)) }
    ensures equal { result ≡ equal }
    ensures canonical { Canonical left_root left.now right_root right.now result }
    ensures least { Least left_root left.now }
    ensures decided { (n : ℕ) → Decided n left_root left.now }
{
    equal
}
