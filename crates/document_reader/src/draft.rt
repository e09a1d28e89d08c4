//! A document that is being read: what its lines said so far.

ghost use Rattle.std.specs.Prelude.{[], IfOk};
ghost use Rattle.document_reader.specs.Draft.{IsDraft, Holds};

use document_value::Grid;
use std::alloc::Global;
use std::hash::RandomState;
use yds_certificate::Certificate;
use yds_fraction::Amount;
use yds_instance::Instance;
use yds_model::Memory;
use yds_slots::Schedule;
use yds_table::Table;

/// What the lines that were read so far say.
#[derive(Drop)]
pub(crate) struct Draft<'a> {
    pub(crate) instance: Instance<'a>,
    pub(crate) table: Option<Table>,
    pub(crate) schedule: Schedule,
    pub(crate) certificate: Certificate,
    // How many pieces the levels have together.
    pub(crate) pieces: usize,
    // How many members they have together.
    pub(crate) members: usize,
    pub(crate) ticks: Option<u32>,
    pub(crate) grid: Option<Grid>,
    pub(crate) energy: Option<Amount>,
}

impl<'a> Draft<'a> {
    /// That before any line, whose names will be looked up with these keys.
    pub(crate) fn new(alloc: Global, keys: RandomState) -> Result<Draft<'a>, Memory>
        ensures kept { IfOk result (λ draft. IsDraft draft) }
        ensures holds { IfOk result (λ draft. Holds draft []) }
    {
        let schedule = Schedule::new(alloc, 0)?;
        Ok(Draft {
            instance: Instance::new(alloc, keys),
            table: None,
            schedule,
            certificate: Certificate::new(alloc),
            pieces: 0,
            members: 0,
            ticks: None,
            grid: None,
            energy: None,
        })
    }
}
