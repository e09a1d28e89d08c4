//! The comment on a read that failed.
ghost use Rattle.std.specs.Prelude.{◌≡◌, ◌≤◌, ◌++◌, length};
ghost use Rattle.arrayvec.specs.ArrayString.{array_string_len};
ghost use Rattle.yds_trace_files.specs.Unread as spec;

use crate::unread::{FileFault, Unread};
use arrayvec::ArrayString;
use itoa::Buffer;
use yds_trace_words::{LINE_BYTES, push_shown};

/// The comment that tells what a read that failed was of, and the line that no reader of documents takes. It is made on the stack.
pub fn read_fault_line(unread: Unread<'_>) -> ArrayString<LINE_BYTES>
    ensures { result.bytes ≡ spec.read_fault_text (spec.unread_read unread.entry) }
{
    let mut line = ArrayString::new();
    line.push_str("# ");
    push_unread(unread, &mut line);
    line.push_str("\nfailed\n");
    line
}

/// What it was of, and what to do.
fn push_unread(unread: Unread<'_>, line: &mut ArrayString<LINE_BYTES>)
    requires { array_string_len line.old ≤ 2 }
    ensures text { line.new.bytes ≡ line.old.bytes ++ spec.unread_text (spec.unread_read unread.entry) }
    ensures short { array_string_len line.new ≤ 260 }
{
    match unread {
        Unread::Input => {
            line.push_str("the input couldn't be read to its end; give it anew");
        }
        Unread::File {
            number,
            name,
            fault,
        } => {
            line.push_str("file ");
            line.push_str(Buffer::new().format(number));
            line.push_str(" (");
            push_shown(name.as_bytes(), line);
            line.push_str("): ");
            line.push_str(file_fault_text(fault));
        }
    }
}

/// Why a file can't be read, and what to do.
fn file_fault_text(fault: FileFault) -> &'static str
    ensures text { result.now ≡ spec.file_fault_text fault }
    ensures short { length result.now ≤ 100 }
{
    match fault {
        FileFault::NotOpened => "it can't be opened; see that it is there and may be read",
        FileFault::NotRead => {
            "it couldn't be read to its end; give it anew, or leave it out if it is a folder"
        }
        FileFault::NoLineFeed => {
            "it ends within a line, and another file stands behind it; give whole files"
        }
    }
}
