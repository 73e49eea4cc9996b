// The lines that are printed.

use listing::reports::Report;
use text::faults::TextFault;
use text::summary::Summary;

/// The fault in words, with its number, place and detail.
pub fn print_fault(rt: &HostRuntime, fault: TextFault) -> anyhow::Result<()> {
    let Report {
        number,
        place,
        detail,
    } = Report::from(fault);
    println!(rt; "fault {number}: {fault} (place {place}, detail {detail})")?;
    Ok(())
}

/// The numbers of a text, and the levels that have records.
pub fn print_summary(rt: &HostRuntime, summary: Summary, counts: &[usize]) -> anyhow::Result<()> {
    let Summary {
        facts,
        records,
        root,
    } = summary;
    println!(rt; "facts    {facts}")?;
    println!(rt; "records  {records}")?;
    println!(rt; "root     {root}")?;
    for (level, count) in counts.iter().enumerate() {
        match *count {
            0 => {}
            1 => println!(rt; "level {level}: 1 record")?,
            c => println!(rt; "level {level}: {c} records")?,
        }
    }
    Ok(())
}
