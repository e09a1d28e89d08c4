//! A line of whatever kind: whether it may stand there, and what it adds to a draft.

ghost use Rattle.std.specs.Prelude.{◌≡◌, ◌∷◌, List, OnOk, IsTrue};
ghost use Rattle.yds_model.specs.Entry.{Entry};
ghost use Rattle.yds_model.specs.Reading.{read_fields};
ghost use Rattle.yds_text.specs.Read.{field_read};
ghost use Rattle.document_reader.specs.Draft.{IsDraft, Holds, Tells, Reads};
ghost use Rattle.document_reader.specs.LineKinds.{line_kind, follows_draft, has_room_in};

use crate::draft::Draft;
use crate::line_fault::LineFault;
use crate::line_kind::LineKind;
use crate::{energy, grid, job, level, member, piece, point, run, slot, ticks};
use document_value::points_in;
use std::alloc::Global;
use yds_model::Reason;
use yds_model::limits::{MAX_JOBS, MAX_LEVELS, MAX_MEMBERS, MAX_PIECES, MAX_POINTS, MAX_SLOTS};
use yds_text::{Field, Fields};

impl<'a> Draft<'a> {
    /// Whether a line of this kind may stand after those before it.
    fn may_follow(&self, kind: LineKind) -> bool
        ensures { result ≡ follows_draft kind self.now }
    {
        match kind {
            LineKind::Piece | LineKind::Member => !self.certificate.levels().is_empty(),
            LineKind::Run => self.ticks.is_some(),
            LineKind::Ticks => self.ticks.is_none(),
            LineKind::Grid => self.grid.is_none(),
            LineKind::Energy => self.energy.is_none(),
            LineKind::Job | LineKind::Point | LineKind::Slot | LineKind::Level => true,
        }
    }

    /// Whether a document may have one more line of this kind.
    fn has_room(&self, kind: LineKind) -> bool
        ensures { result ≡ has_room_in kind self.now }
    {
        match kind {
            LineKind::Job => self.instance.rows().len() < MAX_JOBS,
            LineKind::Point => points_in(&self.table).len() < MAX_POINTS,
            LineKind::Slot | LineKind::Run => self.schedule.slots().len() < MAX_SLOTS,
            LineKind::Level => self.certificate.levels().len() < MAX_LEVELS,
            LineKind::Piece => self.pieces < MAX_PIECES,
            LineKind::Member => self.members < MAX_MEMBERS,
            LineKind::Ticks | LineKind::Grid | LineKind::Energy => true,
        }
    }

    /// What a line of this kind adds, where it may stand there.
    fn read_kind(
        &mut self,
        alloc: Global,
        kind: LineKind,
        first: Field<'a>,
        rest: Fields<'a>,
    ) -> Result<(), LineFault>
        requires kept { IsDraft self.old }
        requires follows { IsTrue (follows_draft kind self.old) }
        requires room { IsTrue (has_room_in kind self.old) }
        ensures kept { OnOk result (IsDraft self.new) }
        ensures reads { Reads (line_kind kind) (field_read first.entry ∷ rest.entry.fields) result self.old self.new }
    {
        match kind {
            LineKind::Job => job::read(self, first, rest),
            LineKind::Point => point::read(self, alloc, first, rest),
            LineKind::Slot => slot::read(self, first, rest),
            LineKind::Level => level::read(self, alloc, first, rest),
            LineKind::Piece => piece::read(self, first, rest),
            LineKind::Member => member::read(self, first, rest),
            LineKind::Ticks => Ok(ticks::read(self, first, rest)?),
            LineKind::Run => run::read(self, first, rest),
            LineKind::Grid => Ok(grid::read(self, first, rest)?),
            LineKind::Energy => Ok(energy::read(self, first, rest)?),
        }
    }

    /// What a line adds, by its first field and the rest of them.
    pub(crate) fn read_fields(
        &mut self,
        alloc: Global,
        first: Field<'a>,
        rest: Fields<'a>,
    ) -> Result<(), LineFault>
        requires kept { IsDraft self.old }
        ensures kept { OnOk result (IsDraft self.new) }
        ensures reads { (earlier : List Entry) → Holds self.old earlier → Tells result (read_fields earlier (field_read first.entry ∷ rest.entry.fields)) self.new earlier }
    {
        let Some(kind) = LineKind::of(first.text) else {
            return Err(LineFault::at(first.column, Reason::UnknownKind));
        };
        if !self.may_follow(kind) {
            return Err(LineFault::at(first.column, Reason::Misplaced));
        }
        if !self.has_room(kind) {
            return Err(LineFault::at(first.column, Reason::TooMany));
        }
        self.read_kind(alloc, kind, first, rest)
    }
}
