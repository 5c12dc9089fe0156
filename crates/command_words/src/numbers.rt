//! Numbers as texts. A number has one text: what std takes for one may also have a plus or leading zeros, so the
//! first byte is looked at before.
ghost use Rattle.std.specs.Prelude.{◌↔◌, IsTrue};
ghost use Rattle.command_words.specs.Written.{IsPlain, IsNumberFound};

/// The number of which this is the text; none where it is the text of none up to `most`.
pub(crate) fn number_of(text: &str, most: u64) -> Option<u64>
    ensures { IsNumberFound text.now most result }
{
    if !is_plain(text.as_bytes()) {
        return None;
    }
    match text.parse::<u64>() {
        Ok(number) if number <= most => Some(number),
        _ => None,
    }
}

// Whether the bytes begin with no plus, and with 0 only where this is all.
fn is_plain(bytes: &[u8]) -> bool
    ensures { IsTrue result ↔ IsPlain bytes.now }
{
    match bytes {
        [b'+', ..] => false,
        [b'0', _, ..] => false,
        _ => true,
    }
}
