//! Prints the lines of members.

ghost use Rattle.std.specs.Prelude.{◌≡◌, ◌+◌, ◌*◌, ◌<◌, ◌≤◌, ◌++◌, length};
ghost use Rattle.std.specs.List.{All, flat_map};
ghost use Rattle.yds_model.specs.Text.{member_line};
ghost use Rattle.yds_port.specs.Sink.{Puts};

use crate::job::name_of;
use crate::tail_buffer::{BATCH_BYTES, BATCH_LINES, Lines};
use text_line::line_buffer::LINE_BYTES;
use yds_instance::Instance;
use yds_port::{Sink, WriteFault, write_all};

/// Puts the line of a member before the text.
fn put(text: &mut Lines, instance: &Instance<'_>, job: u32)
    requires known { job < length instance.now.jobs }
    requires room { LINE_BYTES + length text.old ≤ BATCH_BYTES }
    ensures bytes { text.new ≡ member_line instance.now.names job ++ text.old }
    ensures short { length text.new ≤ LINE_BYTES + length text.old }
{
    text.put_byte(b'\n');
    text.put_field(name_of(instance, job));
    text.put_kind("member");
}

/// Puts the lines of these members before the text, from the last to the first.
pub(crate) fn put_all(text: &mut Lines, instance: &Instance<'_>, members: &[u32])
    requires known { All (λ job. job < length instance.now.jobs) members.now }
    requires room { LINE_BYTES * length members.now + length text.old ≤ BATCH_BYTES }
    ensures bytes { text.new ≡ flat_map (member_line instance.now.names) members.now ++ text.old }
    ensures short { length text.new ≤ LINE_BYTES * length members.now + length text.old }
{
    for place in (0..members.len()).rev() {
        put(text, instance, members[place]);
    }
}

/// Appends the lines of a level's members, in their order.
pub(crate) fn print<K: Sink>(
    instance: &Instance<'_>,
    members: &[u32],
    text: &mut Lines,
    sink: &mut K,
) -> Result<(), WriteFault>
    requires { All (λ job. job < length instance.now.jobs) members.now }
    ensures { Puts K.written K.flushed K.flushes K.faults result (flat_map (member_line instance.now.names) members.now) sink.old sink.new }
{
    let mut rest = members;
    while !rest.is_empty() {
        let (batch, others) = rest.split_at(rest.len().min(BATCH_LINES));
        text.clear();
        put_all(text, instance, batch);
        write_all(sink, text.as_bytes())?;
        rest = others;
    }
    Ok(())
}
