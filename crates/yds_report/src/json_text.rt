//! The report of a plan as JSON.

ghost use Rattle.std.specs.Prelude.{◌≡◌, Some, map, IfOk, OnOk};
ghost use Rattle.std.specs.List.{All};
ghost use Rattle.serde_json.specs.Data.{array};
ghost use Rattle.serde_json.specs.Events.{SendsValue};
ghost use Rattle.serde_json.specs.Read.{read};
ghost use Rattle.serde_json.specs.View.{items_of};
ghost use Rattle.yds_model.specs.JsonAnswer.{report_json};
ghost use Rattle.yds_model.specs.Within.{IsLevel};
ghost use Rattle.yds_report.specs.JsonValue.{level_value, report_value, ReportsAreRead};
ghost use Rattle.yds_report.specs.JsonSent.{SendsNumber};

use crate::numbers::{idle_time, speed_of, total_work};
use document_value::Document;
use serde::{Described, Serialize, Serializer};
use std::alloc::Global;
use text_line::LineBuffer;
use yds_certificate::{Certificate, Level};
use yds_events::{first_release, last_deadline};
use yds_model::Memory;

/// The report of the levels of a plan of the document's jobs as one line of JSON, compact and with rising keys: the numbers of
/// `report`, in units of work and of time, and a level's speed in lowest terms as a string.
pub fn json(
    alloc: Global,
    document: &Document<'_>,
    certificate: &Certificate,
) -> Result<Vec<u8>, Memory>
    ensures text { IfOk result (λ text. text.items ≡ report_json document.now.instance.jobs certificate.now) }
    ensures levels { All IsLevel certificate.now }
    ensures read { IfOk result (λ text. read text.items ≡ Some (report_value document.now.instance.jobs certificate.now)) }
{
    let rows = document.instance.rows();
    let levels = certificate.levels();
    let report = Report {
        from: u64::from(first_release(rows)),
        idle: idle_time(rows, levels),
        jobs: rows.len() as u64,
        levels,
        to: u64::from(last_deadline(rows)),
        work: total_work(rows),
    };
    match serde_json::to_vec(alloc, &report) {
        Ok(mut text) => {
            text.push(b'\n')?;
            Ok(text)
        }
        Err(_) => Err(Memory),
    }
}

/// The numbers of a report, and its levels. They are written one by one, and no value is made of them.
#[derive(Drop)]
struct Report<'a> {
    /// The first release, in time units.
    from: u64,
    /// The time in which nothing runs, in time units.
    idle: u64,
    /// The number of the jobs.
    jobs: u64,
    /// The levels, the fastest first.
    levels: &'a [Level],
    /// The last deadline, in time units.
    to: u64,
    /// The works of the jobs together, in units of work.
    work: u64,
}

impl Described for Report<'_> {
    ghost use Rattle.serde_json.specs.Events.{SendsValue};
    ghost use Rattle.yds_report.specs.JsonValue.{numbers_value};

    ghost writes = { λ r. SendsValue (numbers_value r.from r.idle r.jobs r.levels.now r.to r.work) };
}

impl Serialize for Report<'_> {
    fn serialize<S: Serializer>(&self, out: &mut S) -> Result<(), S::Error> {
        out.begin_map(Some(6))?;
        write_number("from", self.from, out)?;
        write_number("idle", self.idle, out)?;
        write_number("jobs", self.jobs, out)?;
        out.key("levels")?;
        write_levels(self.levels, out)?;
        write_number("to", self.to, out)?;
        write_number("work", self.work, out)?;
        out.end_map()
    }
}

/// A member whose value is a number.
fn write_number<S: Serializer>(key: &str, number: u64, out: &mut S) -> Result<(), S::Error>
    ensures { OnOk result (SendsNumber key.now number (S.written out.old) (S.written out.new)) }
{
    out.key(key)?;
    out.u64(number)
}

/// An array with an object for each level, in their order.
fn write_levels<S: Serializer>(levels: &[Level], out: &mut S) -> Result<(), S::Error>
    ensures { OnOk result (SendsValue (array (items_of (map level_value levels.now))) (S.written out.old) (S.written out.new)) }
{
    out.begin_seq(Some(levels.len()))?;
    for level in levels {
        write_level(level, out)?;
    }
    out.end_seq()
}

/// An object of a level's length, its speed and its work.
fn write_level<S: Serializer>(level: &Level, out: &mut S) -> Result<(), S::Error>
    ensures { OnOk result (SendsValue (level_value level.now) (S.written out.old) (S.written out.new)) }
{
    // Reading a field shows that the level is within its limits.
    let (length, work) = (level.length, level.work);
    let speed = LineBuffer::new("").mixed(speed_of(level));
    out.begin_map(Some(3))?;
    write_number("length", length, out)?;
    out.key("speed")?;
    out.str(speed.as_str())?;
    write_number("work", work, out)?;
    out.end_map()
}

/// The text of a report is read by `serde_json` as the report: its members, and an object for each level.
#[tactic(auto, using(crate::proofs::JsonRead::reports_are_read))]
pub fn reports_are_read()
    ensures { ReportsAreRead }
{}
