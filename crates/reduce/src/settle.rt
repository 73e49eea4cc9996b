ghost use Rattle.std.specs.Prelude.{◌≡◌, ◌^◌, ◌<◌, ◌≤◌, length};
ghost use Rattle.reduce.specs.Passes.{image_of, outcome, write_back};
ghost use Rattle.rows.specs.Rows.{Inside, AllInside};
ghost use Rattle.reduce.specs.Settles.{OwnInside, part, mapped_level, Settled};

use crate::arrange::arrange_level;
use listing::Target;
use rows::row::Row;

// The image of a target: that of the row at its place.
pub fn image_at(rows: &[Row], t: Target) -> Target
    requires { Inside (length rows.now) t }
    ensures { result ≡ image_of rows.now t }
{
    match t {
        Target::Node { number, .. } => rows[number as usize].image,
        Target::False | Target::True => t,
    }
}

// Puts the images of their targets in the rows from a to b, and their places.
// A level is told by its two ends: a `Range` would be cloned at each call, and its order asked all the same.
pub fn map_level(rows: &mut [Row], a: usize, b: usize)
    requires order { a ≤ b }
    requires within { b ≤ length rows.old }
    requires small { length rows.old < 2 ^ 32 }
    requires inside { AllInside (length rows.old) (part a b rows.old) }
    ensures { rows.new ≡ mapped_level a b rows.old }
{
    // By index: each row reads images of rows behind the level. With these split off, each place that an arc names would be less by b.
    for k in a..b {
        let r = rows[k];
        let low = image_at(rows, r.low);
        let high = image_at(rows, r.high);
        rows[k] = Row {
            low,
            high,
            own: k as u32,
            ..r
        };
    }
}

// What a numbered row is replaced by.
fn outcome_of(t: Row) -> Target
    ensures { result ≡ outcome t }
{
    if t.low == t.high {
        t.low
    } else {
        Target::Node {
            level: t.level,
            number: t.number,
        }
    }
}

// Writes the outcome of each of the rows from a to b at the place that it stood at.
pub fn write_level(rows: &mut [Row], a: usize, b: usize)
    requires order { a ≤ b }
    requires within { b ≤ length rows.old }
    requires inside { OwnInside (length rows.old) (part a b rows.old) }
    ensures { rows.new ≡ write_back rows.old (part a b rows.old) }
{
    // By index: what stands at one place is written at another of the same slice.
    for k in a..b {
        let t = rows[k];
        let image = outcome_of(t);
        let at = t.own as usize;
        rows[at].image = image;
    }
}

// Settles the level that the rows from a to b are on.
pub fn settle_level(rows: &mut [Row], a: usize, b: usize)
    requires order { a ≤ b }
    requires within { b ≤ length rows.old }
    requires small { length rows.old < 2 ^ 32 }
    requires inside { AllInside (length rows.old) (part a b rows.old) }
    ensures { Settled a b rows.old rows.new }
{
    map_level(rows, a, b);
    arrange_level(&mut rows[a..b]);
    write_level(rows, a, b);
}
