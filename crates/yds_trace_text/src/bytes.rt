//! Pieces of text, one behind the other.
ghost use Rattle.std.specs.Prelude.{◌≡◌, ◌++◌, OnOk};
ghost use Rattle.yds_trace_text.specs.Text.{told, comment};
ghost use Rattle.yds_trace_text.specs.Views.{pieces};

use base::Memory;

/// Puts these texts behind the others.
pub(crate) fn put(texts: &[&[u8]], text: &mut Vec<u8>) -> Result<(), Memory>
    ensures { OnOk result (text.new.items ≡ text.old.items ++ told (pieces texts.now)) }
{
    for piece in texts {
        text.extend_from_slice(piece)?;
    }
    Ok(())
}

/// Puts a comment of these texts behind the others, on a line of its own.
#[tactic(auto, unfolding(crate::specs::Text::comment))]
pub(crate) fn put_comment(texts: &[&[u8]], text: &mut Vec<u8>) -> Result<(), Memory>
    ensures { OnOk result (text.new.items ≡ text.old.items ++ comment (pieces texts.now)) }
{
    text.extend_from_slice(b"# ")?;
    put(texts, text)?;
    text.extend_from_slice(b"\n")?;
    Ok(())
}
