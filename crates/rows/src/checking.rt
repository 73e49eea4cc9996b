// The rule check over any source: each rule in turn is tried over all records, from the first. The first is tried on the source,
// the second while the records are read into rows, the others over the rows. A node is found by halving, so the whole
// takes O(N log N).

ghost use Rattle.std.specs.Prelude.{◌≡◌, ℕ, List, Some, None, ◌^◌, ◌<◌, map, length, IfSome, MatchResult};
ghost use Rattle.listing.specs.declared.Record.{Record};
ghost use Rattle.listing.specs.declared.Target.{Target};
ghost use Rattle.listing.specs.Listing.{Rooted, Levelled, Numbered, Targeted, Aimed, Listing};
ghost use Rattle.rows.specs.Rows.{given, entry_of, row_of};
ghost use Rattle.rows.specs.Breaks.{First, TooHigh, Misnumbered, Mistargeted, Unaimed, Broken};
ghost use Rattle.rows.specs.Placing.{placed_row, Held, place_records};
ghost use Rattle.rows.specs.declared.faults.Rule.TheVariants as of_rule;

use crate::faults::{Break, Rule};
use crate::filling::fill;
use crate::marks::aim_break;
use crate::places::target_break;
use crate::row::Row;
use crate::rules::{is_rooted, number_break};
use source::Source;

// Refuses the place that breaks a rule, where there is one.
fn unbroken(rule: Rule, place: Option<usize>) -> Result<(), Break>
    requires { IfSome place (λ p. p < 2 ^ 32) }
    ensures { MatchResult result (λ _. place ≡ None) (λ b. (b.rule ≡ rule) × (place ≡ Some b.place)) }
{
    match place {
        Some(place) => Err(Break {
            rule,
            place: place as u32,
        }),
        None => Ok(()),
    }
}

// One function a rule: each ensures another fact, and with all of them in one body two of its exits did not prove.
// That rows are few, and hold records alone, is asked of each: see `places`.

// The first rule, of the root.
fn try_root<S: Source>(source: &S) -> Result<(), Break>
    ensures { MatchResult result (λ _. Rooted (S.top source.now) (S.listed source.now)) (λ b. (b.rule ≡ of_rule.Root) × (Rooted (S.top source.now) (S.listed source.now) → ⊥) × (b.place ≡ 0)) }
{
    let place = if is_rooted(source) { None } else { Some(0) };
    unbroken(Rule::Root, place)
}

// The second rule, of the levels; it fills the rows.
fn try_levels<S: Source>(source: &S, rows: &mut [Row]) -> Result<(), Break>
    requires few { length (S.listed source.now) < 2 ^ 32 }
    requires each { length rows.old ≡ length (S.listed source.now) }
    ensures { MatchResult result (λ _. Levelled (S.facts source.now) (S.listed source.now) × (map entry_of rows.new ≡ S.listed source.now) × (map row_of (map entry_of rows.new) ≡ rows.new)) (λ b. (b.rule ≡ of_rule.Level) × First (TooHigh (S.facts source.now) (S.listed source.now)) b.place) }
{
    unbroken(Rule::Level, fill(source, rows))
}

// The third rule, of the numbers.
fn try_numbers(rows: &[Row]) -> Result<(), Break>
    requires { length rows.now < 2 ^ 32 }
    ensures { MatchResult result (λ _. Numbered (map entry_of rows.now)) (λ b. (b.rule ≡ of_rule.Number) × First (Misnumbered (map entry_of rows.now)) b.place) }
{
    unbroken(Rule::Number, number_break(rows))
}

// The fourth rule, of the targets; it puts places in the arcs.
fn try_targets(rows: &mut [Row]) -> Result<(), Break>
    requires numbered { Numbered (map entry_of rows.old) }
    requires few { length rows.old < 2 ^ 32 }
    requires held { map row_of (map entry_of rows.old) ≡ rows.old }
    ensures { MatchResult result (λ _. Targeted (map entry_of rows.old) × (rows.new ≡ map (placed_row (map entry_of rows.old)) (map entry_of rows.old))) (λ b. (b.rule ≡ of_rule.Target) × First (Mistargeted (map entry_of rows.old)) b.place) }
{
    unbroken(Rule::Target, target_break(rows))
}

// The fifth rule, of the records that are targets; it marks the rows that arcs name.
fn try_aims(rows: &mut [Row]) -> Result<(), Break>
    requires few { length rows.old < 2 ^ 32 }
    requires held { (rs : List Record) × Held rs rows.old }
    ensures { (rs : List Record) → Held rs rows.old → MatchResult result (λ _. Aimed rs × (given 0 rows.new ≡ place_records rs 0 rs)) (λ b. (b.rule ≡ of_rule.Aim) × First (Unaimed rs) b.place) }
{
    unbroken(Rule::Aim, aim_break(rows))
}

// Tries the rules from the third on, on rows that hold records.
fn try_rest(rows: &mut [Row]) -> Result<(), Break>
    requires few { length rows.old < 2 ^ 32 }
    requires held { map row_of (map entry_of rows.old) ≡ rows.old }
    ensures { MatchResult result (λ _. Numbered (map entry_of rows.old) × Targeted (map entry_of rows.old) × Aimed (map entry_of rows.old) × (given 0 rows.new ≡ place_records (map entry_of rows.old) 0 (map entry_of rows.old))) (λ b. (n : ℕ) (root : Target) → Rooted root (map entry_of rows.old) → Levelled n (map entry_of rows.old) → Broken n root (map entry_of rows.old) b.rule b.place) }
{
    try_numbers(rows)?;
    try_targets(rows)?;
    try_aims(rows)
}

// The same, said of any listing whose records the rows hold and which keeps the first two rules.
fn check_rest(rows: &mut [Row]) -> Result<(), Break>
    requires few { length rows.old < 2 ^ 32 }
    requires held { map row_of (map entry_of rows.old) ≡ rows.old }
    ensures { (n : ℕ) (root : Target) (rs : List Record) → map entry_of rows.old ≡ rs → Rooted root rs → Levelled n rs → MatchResult result (λ _. Listing n root rs × (given 0 rows.new ≡ place_records rs 0 rs)) (λ b. Broken n root rs b.rule b.place) }
{
    try_rest(rows)
}

/// The first rule that a source breaks, with the record's place; else the source's listing keeps the rules, and
/// the rows, one a record, hold it with places for numbers. Where a rule is broken the rows hold what they hold: the
/// load clears them. It is public only for the crate above: it asks that the records are few enough for their places to
/// be numbers, and that there is one row for each, which that crate proves. Costs O(N log N): each record is read once, the
/// first one twice, and none behind the first that breaks the second rule.
pub fn check_rules<S: Source>(source: &S, rows: &mut [Row]) -> Result<(), Break>
    requires few { length (S.listed source.now) < 2 ^ 32 }
    requires each { length rows.old ≡ length (S.listed source.now) }
    ensures { MatchResult result (λ _. Listing (S.facts source.now) (S.top source.now) (S.listed source.now) × (given 0 rows.new ≡ place_records (S.listed source.now) 0 (S.listed source.now))) (λ b. Broken (S.facts source.now) (S.top source.now) (S.listed source.now) b.rule b.place) }
{
    try_root(source)?;
    try_levels(source, rows)?;
    check_rest(rows)
}
