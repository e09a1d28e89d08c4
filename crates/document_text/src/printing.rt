//! Printing: some lines at a time are made on the stack, from the last to the first, in the place of those before them, and
//! written with one call.
ghost use Rattle.std.specs.Prelude.{◌<◌, ◌≤◌, ◌++◌, IsErr};
ghost use Rattle.std.specs.List.{flat_map};
ghost use Rattle.yds_model.specs.Text.{canonical_text, job_lines, point_line, slot_line, level_lines, fraction_text};
ghost use Rattle.yds_model.specs.Within.{IsDocument};
ghost use Rattle.yds_port.specs.Sink.{Puts};
ghost use Rattle.document_value.specs.Documents.{document_view, points_of};

use crate::{energy, grid, job, level, point, slot};
use document_value::{Document, points_in};
use text_line::LineBuffer;
use yds_fraction::Amount;
use yds_port::{Sink, WriteFault, write_all};

/// Appends the document's text, line by line, or after a fault a front of it. Takes no memory.
///
/// Every document is within the limits, so its text is read again as the same document.
pub fn print<K: Sink>(document: &Document<'_>, sink: &mut K) -> Result<(), WriteFault>
    ensures puts { Puts K.written K.flushed K.flushes K.faults result (canonical_text (document_view document.now)) sink.old sink.new }
    ensures later { K.faults sink.old ≤ K.faults sink.new }
    ensures counted { K.faults sink.old < K.faults sink.new → IsErr result }
    ensures possible { IsDocument (document_view document.now) }
{
    document.show_limits();
    print_plan(document, sink)?;
    grid::print(document.grid, sink)?;
    energy::print(document.energy, sink)
}

/// The jobs, the points, the slots and the levels.
fn print_plan<K: Sink>(document: &Document<'_>, sink: &mut K) -> Result<(), WriteFault>
    ensures { Puts K.written K.flushed K.flushes K.faults result (job_lines document.now.instance.names document.now.instance.jobs ++ flat_map point_line (points_of document.now.table)
        ++ flat_map (slot_line document.now.instance.names) document.now.schedule.slots ++ flat_map (level_lines document.now.instance.names) document.now.certificate) sink.old sink.new }
{
    print_rows(document, sink)?;
    slot::print(&document.instance, document.schedule.slots(), sink)?;
    level::print(&document.instance, document.certificate.levels(), sink)
}

/// The jobs and the points.
fn print_rows<K: Sink>(document: &Document<'_>, sink: &mut K) -> Result<(), WriteFault>
    ensures { Puts K.written K.flushed K.flushes K.faults result (job_lines document.now.instance.names document.now.instance.jobs ++ flat_map point_line (points_of document.now.table)) sink.old sink.new }
{
    job::print(&document.instance, sink)?;
    point::print(points_in(&document.table), sink)
}

/// Appends the fraction as it is written, `W`, or `W+N/D` where the numerator isn't 0, or after a fault a
/// front of that. It isn't reduced. Takes no memory.
pub fn write_mixed<K: Sink>(value: Amount, sink: &mut K) -> Result<(), WriteFault>
    ensures puts { Puts K.written K.flushed K.flushes K.faults result (fraction_text value) sink.old sink.new }
    ensures later { K.faults sink.old ≤ K.faults sink.new }
    ensures counted { K.faults sink.old < K.faults sink.new → IsErr result }
{
    write_all(sink, LineBuffer::new("").mixed(value).as_bytes())
}
