//! The names of a trace's jobs.
ghost use Rattle.std.specs.Prelude.{◌≡◌, ◌≤◌, ◌++◌, IfOk, OnOk, length, codes, decimal, nat_lt};
ghost use Rattle.base.specs.declared.limits.TheConstants.{MAX_NAME};
ghost use Rattle.yds_trace_document.specs.Kept as kept;
ghost use Rattle.yds_trace_document.specs.Views.{base_name, name_read};

use base::Memory;
use base::limits::MAX_NAME;
use itoa::Buffer;
use std::alloc::{AllocError, Global};

/// The name of a task's job: the task's, a dot and the job's number, counted from 0. Where the first job began before the
/// trace, it is called `before`, and the next one has the number 0. Behind it stands the processor of a job that moved, where
/// each processor has what it ran there.
#[derive(Clone, Copy, Debug, PartialEq, Eq)]
pub struct Name<'a> {
    /// The task's name.
    pub label: &'a [u8],
    /// Whether the task's first job began before the trace.
    pub before: bool,
    /// Its place among the task's jobs, counted from 0.
    pub number: u64,
    /// Of a job that moved, where each processor has what it ran there: this processor.
    pub part: Option<u64>,
}

impl Name<'_> {
    /// Its bytes. Of what a job ran on one of its processors they end with that one's number.
    pub fn text(self, alloc: Global) -> Result<Vec<u8>, Memory>
        ensures { IfOk result (λ text. text.items ≡ name_read self.entry) }
    {
        let mut text = self.job_text(alloc)?;
        if let Some(processor) = self.part {
            put_number(b"@", processor, &mut text)?;
        }
        Ok(text)
    }

    /// The bytes of the whole job's name.
    pub fn job_text(self, alloc: Global) -> Result<Vec<u8>, Memory>
        ensures { IfOk result (λ text. text.items ≡ base_name self.entry) }
    {
        let mut text = Vec::from_slice(alloc, self.label)?;
        if !self.before {
            put_number(b".", self.number, &mut text)?;
        } else if self.number == 0 {
            text.extend_from_slice(b".before")?;
        } else {
            put_number(b".", self.number - 1, &mut text)?;
        }
        Ok(text)
    }

    /// Whether it is longer than a name may be.
    pub(crate) fn is_long(self) -> bool
        ensures { result ≡ nat_lt MAX_NAME (length (name_read self.entry)) }
    {
        let behind = if !self.before {
            1 + number_len(self.number)
        } else if self.number == 0 {
            7
        } else {
            1 + number_len(self.number - 1)
        };
        self.label.len() > MAX_NAME || self.label.len() + behind + part_len(self.part) > MAX_NAME
    }
}

/// A mark and a number.
fn put_number(mark: &[u8], number: u64, text: &mut Vec<u8>) -> Result<(), AllocError>
    ensures { OnOk result (text.new.items ≡ text.old.items ++ mark.now ++ decimal number) }
{
    text.extend_from_slice(mark)?;
    text.extend_from_slice(Buffer::new().format(number).as_bytes())
}

/// How many bytes tell the processor.
fn part_len(part: Option<u64>) -> usize
    ensures len { result ≡ kept.part_len part }
    ensures few { result ≤ 21 }
{
    match part {
        Some(processor) => 1 + number_len(processor),
        None => 0,
    }
}

/// How many digits a number has.
fn number_len(number: u64) -> usize
    ensures len { result ≡ length (decimal number) }
    ensures few { result ≤ 20 }
{
    Buffer::new().format(number).len()
}
