// What a text has, in numbers.

ghost use Rattle.std.specs.Prelude.{◌≡◌, MatchResult};
ghost use Rattle.text.specs.Summary.{Summed, Refuses};

use crate::faults::TextFault;
use crate::opening::Text;
use listing::Target;
use source::Source;
use source::counting::count_levels;

/// A text's number of facts, its number of records and its root.
#[derive(Clone, Copy)]
pub struct Summary {
    pub facts: u16,
    pub records: usize,
    pub root: Target,
}

/// Opens a text and counts: its facts, its records, and, at each place of `counts`, the records on the level of
/// that number; levels behind the last place are left out. Where the text has a fault, that is told and `counts`
/// stays as it is. Two passes over the bytes.
pub fn summarize(bytes: &[u8], counts: &mut [usize]) -> Result<Summary, TextFault>
    ensures { MatchResult result (λ s. Summed bytes.now counts.new s) (λ f. Refuses bytes.now f × (counts.new ≡ counts.old)) }
{
    let text = Text::open(bytes)?;
    count_levels(&text, counts);
    Ok(Summary {
        facts: text.n(),
        records: text.count(),
        root: text.root(),
    })
}
