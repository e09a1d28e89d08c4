ghost use Rattle.std.specs.Prelude.{◌≡◌, ◌<◌, ◌≤◌, length};
ghost use Rattle.std.specs.List.{All};
ghost use Rattle.std.specs.Option.{ForSome};
ghost use Rattle.base.specs.declared.limits.TheConstants.{MAX_ENERGY};

use crate::grid::Grid;
use crate::point::points_in;
use crate::{energy, grid};
use std::alloc::Global;
use yds_certificate::Certificate;
use yds_fraction::Amount;
use yds_instance::Instance;
use yds_slots::Schedule;
use yds_table::Table;

/// A document: jobs with their names, operating points, the slots of a schedule, the levels of a
/// certificate, a grid and an energy.
///
/// The schedule is of as many jobs as the instance has, each member of a level is one of them, and the energy's
/// whole part is at most `MAX_ENERGY`. So a document is within the limits, and its text is read again as the same.
#[derive(Drop)]
pub struct Document<'a> {
    /// The jobs with their names.
    pub instance: Instance<'a>,
    /// The table of operating points, where there is one.
    pub table: Option<Table>,
    /// The slots.
    pub schedule: Schedule,
    /// The levels.
    pub certificate: Certificate,
    /// The grid of the policy that made the slots, where there is one.
    pub grid: Option<Grid>,
    /// The energy that the slots take, where it is said.
    pub energy: Option<Amount>,
    pub ghost scheduled: { schedule.jobs ≡ length instance.jobs },
    pub ghost members_known: { All (λ level. All (λ job. job < length instance.jobs) level.members) certificate },
    pub ghost energy_in_range: { ForSome energy (λ energy. energy.whole ≤ MAX_ENERGY) },
}

impl<'a> Document<'a> {
    ghost use Rattle.yds_model.specs.Document.{no_document, with_answer};
    ghost use Rattle.yds_model.specs.Within.{IsDocument};
    ghost use Rattle.document_value.specs.Documents.{document_view, points_of};

    /// Reading the parts shows that each is within its limits.
    pub fn show_limits(&self)
        ensures { IsDocument (document_view self.now) }
    {
        let _rows = self.instance.rows();
        let _points = points_in(&self.table);
        let _slots = self.schedule.slots();
        let _levels = self.certificate.levels();
        grid::show_limits(self.grid);
        energy::show_limits(self.energy);
    }

    /// The document of these jobs with this table and these slots, and with nothing else. Takes no memory.
    pub fn of_slots(
        alloc: Global,
        instance: Instance<'a>,
        table: Option<Table>,
        schedule: Schedule,
    ) -> Document<'a>
        requires scheduled { schedule.jobs ≡ length instance.jobs }
        ensures shown { document_view result ≡ record no_document {
          names = instance.entry.names;
          jobs = instance.entry.jobs;
          points = points_of table;
          slots = schedule.slots;
        } }
        ensures possible { IsDocument (document_view result) }
    {
        let document = Document {
            instance,
            table,
            schedule,
            certificate: Certificate::new(alloc),
            grid: None,
            energy: None,
        };
        document.show_limits();
        document
    }

    /// The document of the same jobs and table with these slots, levels, grid and energy. Takes no memory.
    pub fn with_answer(
        self,
        schedule: Schedule,
        certificate: Certificate,
        grid: Option<Grid>,
        energy: Option<Amount>,
    ) -> Document<'a>
        requires scheduled { schedule.jobs ≡ length self.instance.jobs }
        requires members_known { All (λ level. All (λ job. job < length self.instance.jobs) level.members) certificate }
        requires energy_in_range { ForSome energy (λ energy. energy.whole ≤ MAX_ENERGY) }
        ensures instance { result.instance ≡ self.entry.instance }
        ensures table { result.table ≡ self.entry.table }
        ensures schedule { result.schedule ≡ schedule }
        ensures certificate { result.certificate ≡ certificate }
        ensures grid { result.grid ≡ grid }
        ensures energy { result.energy ≡ energy }
        ensures shown { document_view result ≡ with_answer (document_view self.entry) schedule.slots certificate grid energy }
        ensures possible { IsDocument (document_view result) }
    {
        let document = Document {
            instance: self.instance,
            table: self.table,
            schedule,
            certificate,
            grid,
            energy,
        };
        document.show_limits();
        document
    }
}
