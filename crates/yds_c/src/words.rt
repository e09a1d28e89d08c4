ghost use Rattle.std.specs.Prelude.{◌≡◌, ◌↔◌, IsTrue, IfOk};
ghost use Rattle.std.specs.Str.{IsUtf8};
ghost use Rattle.yds_words.specs.Words.{words_of};
ghost use Rattle.yds_c.specs.Given.{bytes_of, AreText};

use std::alloc::{AllocError, Global};
use std::str;

/// Whether each word is text. It takes no memory.
pub(crate) fn are_text(words: &[&[u8]]) -> bool
    ensures { IsTrue result ↔ AreText words.now }
{
    for word in words {
        if !is_text(word) {
            return false;
        }
    }
    true
}

/// Whether the bytes are UTF-8.
fn is_text(bytes: &[u8]) -> bool
    ensures { IsTrue result ↔ IsUtf8 bytes.now }
{
    str::from_utf8(bytes).is_ok()
}

/// The words as strings.
pub(crate) fn owned(alloc: Global, words: &[&[u8]]) -> Result<Vec<String>, AllocError>
    requires { AreText words.now }
    ensures { IfOk result (λ owned. words_of owned.items ≡ bytes_of words.now) }
{
    let mut owned = Vec::new(alloc);
    for word in words {
        let text = str::from_utf8(word).unwrap();
        owned.push(String::from_str(alloc, text)?)?;
    }
    Ok(owned)
}
