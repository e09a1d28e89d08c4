//! `compare --grid G`: what the plan and the runs of both policies on the grid spend on the document's operating points, or the
//! level for which the points are too slow.
ghost use Rattle.std.specs.Prelude.{◌≡◌, ◌≤◌, ◌++◌, ◌∷◌, [], length, codes, decimal, flat_map, IfOk};
ghost use Rattle.std.specs.List.{zip};
ghost use Rattle.base.specs.declared.limits.TheConstants.{MAX_GRID};
ghost use Rattle.base.specs.Lines.{line};
ghost use Rattle.yds_model.specs.Text.{fraction_text};
ghost use Rattle.yds_model.specs.Rounding.{top_of};
ghost use Rattle.yds_model.specs.CompareAnswer.{spent_lines, side_lines, rounded_line};
ghost use Rattle.yds_model.specs.Answer.{AnswersQuestion};
ghost use Rattle.yds_model.specs.Request.{AskCompare};
ghost use Rattle.yds_compare.specs.Side.{side_view};
ghost use Rattle.yds_answer.specs.Endings.{Replies};
ghost use Rattle.document_value.specs.Documents.{document_view};
ghost use Rattle.yds_port.specs.Sink.{Puts};
ghost use Rattle.yds_answer_points.specs.Compare.{time_line, compared_text, compared_status, policy_text, sides_text};
ghost use Rattle.yds_answer.specs.WithPoints.{text_with_points, status_with_points};

use crate::round::too_slow_line;
use document_value::Document;
use std::alloc::Global;
use text_line::LineBuffer;
use yds_answer::{Answer, WithPoints, reply};
use yds_compare::{Comparison, Side, compare};
use yds_fraction::Amount;
use yds_model::limits::MAX_GRID;
use yds_model::{Memory, Status};
use yds_plan::plan_levels;
use yds_port::{Sink, WriteFault, write_all};
use yds_round::RoundFault;
use yds_spending::Spent;
use yds_table::Table;

/// What a plan and the runs of both policies spend on the points of a table.
#[derive(Drop)]
pub struct Sides {
    table: Table,
    comparison: Comparison,
}

/// The comparison of a document's plan with the policies.
#[derive(Drop)]
pub enum ComparedDocument {
    /// What each of them spends.
    Sides(Sides),
    /// The line of the plan's first level, which is faster than the last point.
    TooSlow(LineBuffer),
}

impl Answer for ComparedDocument {
    ghost use Rattle.yds_answer_points.specs.Compare.{compared_text, compared_status};

    ghost text = { compared_text };

    ghost ends = { compared_status };

    fn status(&self) -> Status {
        match self {
            ComparedDocument::Sides(_) => Status::Done,
            ComparedDocument::TooSlow(_) => Status::No,
        }
    }

    fn write<K: Sink>(&self, sink: &mut K) -> Result<(), WriteFault> {
        match self {
            ComparedDocument::Sides(sides) => write_sides(sides, sink),
            ComparedDocument::TooSlow(line) => write_all(sink, line.as_bytes()),
        }
    }
}

/// Appends the lines of the plan, of Average Rate and of Optimal Available.
fn write_sides<K: Sink>(sides: &Sides, sink: &mut K) -> Result<(), WriteFault>
    ensures { Puts K.written K.flushed K.flushes K.faults result (sides_text sides.now) sink.old sink.new }
{
    let (table, compared) = (&sides.table, &sides.comparison);
    write_spent("plan", table, &compared.plan, sink)?;
    write_policy("avr", table, &compared.avr, compared.avr_rounded, sink)?;
    write_policy("oa", table, &compared.oa, compared.oa_rounded, sink)
}

/// Appends the lines of a policy's side, and its count of event points at which it rounded.
fn write_policy<K: Sink>(
    name: &str,
    table: &Table,
    side: &Side,
    rounded: u32,
    sink: &mut K,
) -> Result<(), WriteFault>
    requires { length name.now ≤ 4 }
    ensures { Puts K.written K.flushed K.flushes K.faults result (policy_text name.now table.now (side_view side.now) rounded) sink.old sink.new }
{
    write_side(name, table, side, sink)?;
    write_all(sink, rounded_line(name, rounded).as_bytes())
}

/// Appends what a policy's run spends, or the line of the stretch for which the last point is too slow.
fn write_side<K: Sink>(
    name: &str,
    table: &Table,
    side: &Side,
    sink: &mut K,
) -> Result<(), WriteFault>
    requires { length name.now ≤ 4 }
    ensures { Puts K.written K.flushed K.flushes K.faults result (side_lines name.now table.now (side_view side.now)) sink.old sink.new }
{
    match side {
        Side::Spent(spent) => write_spent(name, table, spent, sink),
        Side::TooSlow { units, from, to } => {
            let line = too_slow_side(name, *units, *from, *to, table.top());
            write_all(sink, line.as_bytes())
        }
    }
}

/// Appends the line of the energy, and one for the time at each point.
fn write_spent<K: Sink>(
    name: &str,
    table: &Table,
    spent: &Spent,
    sink: &mut K,
) -> Result<(), WriteFault>
    requires { length name.now ≤ 4 }
    ensures { Puts K.written K.flushed K.flushes K.faults result (spent_lines name.now table.now spent.now) sink.old sink.new }
{
    write_all(sink, energy_line(name, spent.energy).as_bytes())?;
    write_times(name, table, &spent.times, sink)
}

/// Appends a line for the time at each point.
fn write_times<K: Sink>(
    name: &str,
    table: &Table,
    times: &[Amount],
    sink: &mut K,
) -> Result<(), WriteFault>
    requires { length name.now ≤ 4 }
    ensures { Puts K.written K.flushed K.flushes K.faults result (flat_map (time_line name.now) (zip table.now times.now)) sink.old sink.new }
{
    for (place, point) in table.points().iter().enumerate() {
        let Some(time) = times.get(place) else {
            return Ok(());
        };
        write_all(sink, time_line(name, point.speed, *time).as_bytes())?;
    }
    Ok(())
}

/// The line of an energy.
fn energy_line(name: &str, energy: Amount) -> LineBuffer
    requires { length name.now ≤ 4 }
    ensures { result ≡ line (name.now ∷ codes "energy" ∷ fraction_text energy ∷ []) }
{
    LineBuffer::new(name).field("energy").fraction(energy).end()
}

/// The line of the time at the point of this speed, in time units and in work per time unit.
fn time_line(name: &str, speed: u32, time: Amount) -> LineBuffer
    requires { length name.now ≤ 4 }
    ensures { result ≡ line (name.now ∷ codes "time" ∷ decimal speed ∷ fraction_text time ∷ []) }
{
    LineBuffer::new(name)
        .field("time")
        .number(u64::from(speed))
        .fraction(time)
        .end()
}

/// The line of a stretch that serves more units than the last point can.
fn too_slow_side(name: &str, units: u64, from: u32, to: u32, top: u32) -> LineBuffer
    requires { length name.now ≤ 4 }
    ensures { result ≡ line (name.now ∷ codes "too-slow" ∷ codes "units" ∷ decimal units ∷ codes "from" ∷ decimal from ∷ codes "to" ∷ decimal to
        ∷ codes "top" ∷ decimal top ∷ []) }
{
    LineBuffer::new(name)
        .field("too-slow")
        .field("units")
        .number(units)
        .field("from")
        .number(u64::from(from))
        .field("to")
        .number(u64::from(to))
        .field("top")
        .number(u64::from(top))
        .end()
}

/// The line of the number of event points at which a policy rounded.
fn rounded_line(name: &str, rounded: u32) -> LineBuffer
    requires { length name.now ≤ 4 }
    ensures { result ≡ rounded_line name.now rounded }
{
    LineBuffer::new(name)
        .field("rounded")
        .number(u64::from(rounded))
        .end()
}

/// Answers with what the plan and the policies' runs spend on the document's operating points.
pub fn answer_compare<K: Sink>(
    alloc: Global,
    document: Document<'_>,
    grid: u32,
    sink: &mut K,
) -> Status
    requires some_grid { 1 ≤ grid }
    requires grid_in_range { grid ≤ MAX_GRID }
    ensures { Replies K.written K.flushed K.flushes K.faults (AnswersQuestion (AskCompare grid) (document_view document.entry)) result sink.old sink.new }
{
    reply(compare_document(alloc, document, grid), sink)
}

/// Compares the plan of the document's jobs with the policies on the grid, on its operating points.
fn compare_document(
    alloc: Global,
    document: Document<'_>,
    grid: u32,
) -> Result<WithPoints<ComparedDocument>, Memory>
    requires some_grid { 1 ≤ grid }
    requires grid_in_range { grid ≤ MAX_GRID }
    ensures { IfOk result (λ answer. AnswersQuestion (AskCompare grid) (document_view document.entry)
        (text_with_points compared_text answer) (status_with_points compared_status answer)) }
{
    let Document {
        instance,
        table,
        ..
    } = document;
    let Some(table) = table else {
        return Ok(WithPoints::NoTable);
    };
    // A table has a point.
    let _points = table.points();
    let rows = instance.rows();
    let certificate = plan_levels(alloc, rows)?;
    match compare(alloc, rows, &certificate, &table, grid) {
        Ok(comparison) => {
            let sides = Sides { table, comparison };
            Ok(WithPoints::Answered(ComparedDocument::Sides(sides)))
        }
        Err(RoundFault::TooSlow { work, length, top }) => {
            let line = too_slow_line(work, length, top);
            Ok(WithPoints::Answered(ComparedDocument::TooSlow(line)))
        }
        Err(RoundFault::Memory) => Err(Memory),
    }
}
