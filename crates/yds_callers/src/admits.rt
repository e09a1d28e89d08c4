//! Calls `yds_admit`.

ghost use Rattle.std.specs.Prelude.{◌≡◌, ◌≤◌, ℕ, List, length, IfOk};
ghost use Rattle.yds_model.specs.Admission.{Refusal, IsAdmission};

use std::alloc::Global;
use yds_admit::admit;
use yds_model::limits::{MAX_JOBS, MAX_TOP};
use yds_model::{JobRow, Memory};

/// How many of these jobs a processor serves that is never faster than the top speed, in work per time unit, where each is
/// taken that can be served beside those taken before it.
pub fn served_beside(alloc: Global, rows: &[JobRow], top: u32) -> Result<usize, Memory>
    requires few { length rows.now ≤ MAX_JOBS }
    requires some_top { 1 ≤ top }
    requires top_in_range { top ≤ MAX_TOP }
    ensures { IfOk result (λ count. (taken : List ℕ) × (refused : List Refusal) × IsAdmission rows.now top taken refused × (count ≡ length taken)) }
{
    let admission = admit(alloc, rows, top)?;
    Ok(admission.taken.len())
}
