//! The table's text.
ghost use Rattle.std.specs.Prelude.{◌≡◌, ◌++◌, ◌-◌, length, map, drop, decimal, OnOk, IfOk};
ghost use Rattle.std.specs.List.{flat_map};
ghost use Rattle.yds_trace.specs.Document.{in_order};
ghost use Rattle.yds_trace_threads.specs.Kept.{row_read};
ghost use Rattle.yds_trace_threads.specs.Table as spec;

use crate::kept::Kept;
use crate::limits::MOST_THREADS;
use crate::threads::Threads;
use base::Memory;
use itoa::Buffer;
use std::alloc::Global;
use yds_kernel::MAX_U64;

/// The table of these threads.
pub(crate) fn table_text(alloc: Global, threads: Threads) -> Result<Vec<u8>, Memory>
    ensures { IfOk result (λ text. text.items ≡ spec.text_of (spec.rows_in_order (map row_read threads.kept.items)) (length threads.pids.keys - MOST_THREADS)) }
{
    let others = threads.pids.len().saturating_sub(MOST_THREADS);
    let rows = in_order_of_time(threads.kept)?;
    text_of(alloc, &rows, others as u64)
}

/// The text of these rows, and of how many other threads there are.
fn text_of(alloc: Global, rows: &[Kept], others: u64) -> Result<Vec<u8>, Memory>
    ensures { IfOk result (λ text. text.items ≡ spec.text_of (map row_read rows.now) others) }
{
    let mut text = Vec::new(alloc);
    put_head(rows.len() as u64, &mut text)?;
    put_rows(rows, &mut text)?;
    put_others(others, &mut text)?;
    Ok(text)
}

/// Puts the first lines of a table with so many rows behind a text.
fn put_head(number: u64, text: &mut Vec<u8>) -> Result<(), Memory>
    ensures { OnOk result (text.new.items ≡ text.old.items ++ spec.head_of number) }
{
    put(b"threads ", text)?;
    put_number(number, text)?;
    put(b"\n# pid\tran_ms\twake_ups\tswitches\tname\n", text)?;
    Ok(())
}

/// These threads, who ran longest first, and of those that ran as long the lesser number first.
fn in_order_of_time(kept: Vec<Kept>) -> Result<Vec<Kept>, Memory>
    ensures { IfOk result (λ rows. map row_read rows.items ≡ spec.rows_in_order (map row_read kept.items)) }
{
    let mut rows = kept;
    rows.sort_by_key(|row| row.pid)?;
    rows.sort_by_key(|row| MAX_U64.saturating_sub(row.ran))?;
    Ok(rows)
}

/// Puts the lines of these threads behind a text.
fn put_rows(rows: &[Kept], text: &mut Vec<u8>) -> Result<(), Memory>
    ensures { OnOk result (text.new.items ≡ text.old.items ++ flat_map spec.row_line (map row_read rows.now)) }
{
    for row in rows {
        put_row(row, text)?;
    }
    Ok(())
}

/// Puts the line of a thread behind a text.
fn put_row(row: &Kept, text: &mut Vec<u8>) -> Result<(), Memory>
    ensures { OnOk result (text.new.items ≡ text.old.items ++ spec.row_line (row_read row.now)) }
{
    put_numbers(row, text)?;
    put_shown(&row.name, text)?;
    put(b"\n", text)
}

/// Puts the numbers in the line of a thread behind a text.
fn put_numbers(row: &Kept, text: &mut Vec<u8>) -> Result<(), Memory>
    ensures { OnOk result (text.new.items ≡ text.old.items ++ spec.numbers_of (row_read row.now)) }
{
    put_field(row.pid, text)?;
    put_milliseconds(row.ran, text)?;
    put(b"\t", text)?;
    put_field(row.wake_ups, text)?;
    put_field(row.switches, text)
}

/// Puts a field with this number behind a text.
fn put_field(number: u64, text: &mut Vec<u8>) -> Result<(), Memory>
    ensures { OnOk result (text.new.items ≡ text.old.items ++ spec.field (decimal number)) }
{
    put_number(number, text)?;
    put(b"\t", text)
}

/// Puts the line that tells how many other threads there are behind a text, if there are any.
fn put_others(others: u64, text: &mut Vec<u8>) -> Result<(), Memory>
    ensures { OnOk result (text.new.items ≡ text.old.items ++ spec.others_line others) }
{
    if others == 0 {
        return Ok(());
    }
    put(b"# and ", text)?;
    put_number(others, text)?;
    put(b" more threads\n", text)
}

/// Puts bytes behind a text.
fn put(bytes: &[u8], text: &mut Vec<u8>) -> Result<(), Memory>
    ensures { OnOk result (text.new.items ≡ text.old.items ++ bytes.now) }
{
    text.extend_from_slice(bytes)?;
    Ok(())
}

/// Puts the digits of a number behind a text.
fn put_number(number: u64, text: &mut Vec<u8>) -> Result<(), Memory>
    ensures { OnOk result (text.new.items ≡ text.old.items ++ decimal number) }
{
    put(Buffer::new().format(number).as_bytes(), text)
}

/// Puts nanoseconds behind a text, in milliseconds.
fn put_milliseconds(time: u64, text: &mut Vec<u8>) -> Result<(), Memory>
    ensures { OnOk result (text.new.items ≡ text.old.items ++ spec.in_milliseconds time) }
{
    put_number(time / 1_000_000, text)?;
    put(b".", text)?;
    put_behind_first(1_000_000 + time % 1_000_000, text)
}

/// Puts the digits of a number but for the first one behind a text.
fn put_behind_first(number: u64, text: &mut Vec<u8>) -> Result<(), Memory>
    ensures { OnOk result (text.new.items ≡ text.old.items ++ drop 1 (decimal number)) }
{
    let mut buffer = Buffer::new();
    if let [_, rest @ ..] = buffer.format(number).as_bytes() {
        text.extend_from_slice(rest)?;
    }
    Ok(())
}

/// Puts a name behind a text, as the table shows it.
fn put_shown(name: &[u8], text: &mut Vec<u8>) -> Result<(), Memory>
    ensures { OnOk result (text.new.items ≡ text.old.items ++ map spec.shown name.now) }
{
    for byte in name {
        text.push(shown(*byte))?;
    }
    Ok(())
}

/// A byte of a name as the table shows it.
fn shown(byte: u8) -> u8
    ensures { result ≡ spec.shown byte }
{
    if byte.is_ascii_graphic() || byte == b' ' {
        byte
    } else {
        b'?'
    }
}
