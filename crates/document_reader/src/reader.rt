ghost use Rattle.std.specs.Prelude.{ℕ, ◌≤◌, List, length, OnOk, IfOk};
ghost use Rattle.base.specs.declared.limits.TheConstants.{MAX_BYTES};
ghost use Rattle.yds_model.specs.Entry.{Entry};
ghost use Rattle.yds_model.specs.Reading.{reading};
ghost use Rattle.yds_model.specs.Within.{IsDocument};
ghost use Rattle.document_reader.specs.Draft.{IsDraft, Holds};
ghost use Rattle.document_value.specs.Documents.{document_view};
ghost use Rattle.document_reader.specs.Documents.{GivesDocument, TellsLine};

use crate::draft::Draft;
use crate::fault::DocFault;
use crate::line_fault::LineFault;
use document_value::Document;
use std::alloc::Global;
use std::hash::RandomState;
use yds_text::{Line, lines};

/// Reads the document that the bytes are, line by line. Names are looked up with the keys, on which no answer depends.
///
/// Fails as `At` exactly where a line has a fault, with the first fault of the first such line, or as
/// `Memory` for want of memory.
pub fn read_document<'a>(
    alloc: Global,
    keys: RandomState,
    bytes: &'a [u8],
) -> Result<Document<'a>, DocFault>
    requires { length bytes.now ≤ MAX_BYTES }
    ensures exact { GivesDocument result (reading bytes.now) }
    ensures possible { IfOk result (λ document. IsDocument (document_view document)) }
{
    let mut draft = match Draft::new(alloc, keys) {
        Ok(draft) => draft,
        Err(_) => return Err(DocFault::Memory),
    };
    for line in lines(bytes) {
        draft.read_line(alloc, line)?;
    }
    let document = Document {
        instance: draft.instance,
        table: draft.table,
        schedule: draft.schedule,
        certificate: draft.certificate,
        grid: draft.grid,
        energy: draft.energy,
    };
    document.show_limits();
    Ok(document)
}

impl<'a> Draft<'a> {
    /// What a line adds: nothing, where it has no field or begins with `#`.
    fn read_line(&mut self, alloc: Global, line: Line<'a>) -> Result<(), DocFault>
        requires kept { IsDraft self.old }
        ensures kept { OnOk result (IsDraft self.new) }
        ensures tells { (start : ℕ) (earlier : List Entry) → Holds self.old earlier
            → TellsLine result (record { number = line.entry.number; start = start; text = line.entry.text.now }) earlier self.new }
    {
        let mut fields = line.fields();
        let Some(first) = fields.next() else {
            return Ok(());
        };
        if first.text.first() == Some(&b'#') {
            return Ok(());
        }
        match self.read_fields(alloc, first, fields) {
            Ok(()) => Ok(()),
            Err(LineFault::At { column, reason }) => Err(DocFault::At {
                line: line.number,
                column,
                reason,
            }),
            Err(LineFault::Memory) => Err(DocFault::Memory),
        }
    }
}
