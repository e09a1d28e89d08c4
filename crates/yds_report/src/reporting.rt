ghost use Rattle.std.specs.Prelude.{◌<◌, ◌≤◌, IsErr};
ghost use Rattle.std.specs.List.{flat_map, enumerate_from};
ghost use Rattle.yds_model.specs.ReportAnswer.{level_row, report_text};
ghost use Rattle.yds_port.specs.Sink.{Puts};

use crate::report_lines::{idle_line, jobs_line, put_level};
use document_value::Document;
use text_line::LineBuffer;
use yds_certificate::{Certificate, Level};
use yds_port::{Sink, WriteFault, write_all};

/// Appends the report of the levels of a plan of the document's jobs, or after a fault a front of it: a line with the
/// number of the jobs, their work, the first release and the last deadline; for each level a line with its
/// number from 1, its work, its length and its speed in lowest terms, in work per time unit; and a line with
/// the time in which nothing runs, in time units. Takes no memory.
pub fn report<K: Sink>(
    document: &Document<'_>,
    certificate: &Certificate,
    sink: &mut K,
) -> Result<(), WriteFault>
    ensures puts { Puts K.written K.flushed K.flushes K.faults result (report_text document.now.instance.jobs certificate.now) sink.old sink.new }
    ensures later { K.faults sink.old ≤ K.faults sink.new }
    ensures counted { K.faults sink.old < K.faults sink.new → IsErr result }
{
    let rows = document.instance.rows();
    let levels = certificate.levels();
    write_all(sink, jobs_line(rows).as_bytes())?;
    write_levels(levels, sink)?;
    write_all(sink, idle_line(rows, levels).as_bytes())
}

/// A line for each level, in their order.
fn write_levels<K: Sink>(levels: &[Level], sink: &mut K) -> Result<(), WriteFault>
    ensures { Puts K.written K.flushed K.flushes K.faults result (flat_map level_row (enumerate_from 1 levels.now)) sink.old sink.new }
{
    let mut line = LineBuffer::new("");
    for (place, level) in levels.iter().enumerate() {
        put_level(&mut line, place as u64 + 1, level);
        write_all(sink, line.as_bytes())?;
    }
    Ok(())
}
