ghost use Rattle.yds_c.specs.Put.{IsPut};

/// Puts the text at the front of the room, where the room holds it, and tells how many bytes it has.
pub(crate) fn put(text: &[u8], room: &mut [u8]) -> usize
    ensures { IsPut text.now room.old room.new result }
{
    let needed = text.len();
    if needed <= room.len() {
        room[..needed].copy_from_slice(text);
    }
    needed
}
