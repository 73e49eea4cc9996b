// How many records each level of a source has.

ghost use Rattle.std.specs.Prelude.{◌≡◌, ℕ, ◌<◌, length, slice_index};
ghost use Rattle.source.specs.Counting.{on_level};

use crate::Source;
use crate::walking::each_record;

/// Writes at each place of `counts` how many of the source's records have that place as their level; levels
/// behind the last place are left out. One pass over the records.
pub fn count_levels<S: Source>(source: &S, counts: &mut [usize])
    ensures { (k : ℕ) → k < length counts.new → slice_index counts.new k ≡ on_level k (S.listed source.now) }
{
    counts.fill(0);
    for r in each_record(source) {
        let level = r.level as usize;
        if level < counts.len() {
            counts[level] += 1;
        }
    }
}
