//! Names of values.
ghost use Rattle.std.specs.Prelude.{◌≡◌, ◌↔◌, ◌<◌, IsTrue, MatchOption, length, true};
ghost use Rattle.std.specs.List.{AllByRecursion};
ghost use Rattle.line_grammar.specs.Spellable.{IsName, is_letter, is_name_byte};

// The name of these bytes; none where no line can have it.
pub(crate) fn name_of(bytes: &[u8]) -> Option<&str>
    ensures { MatchOption result (IsName bytes.now → ⊥) (λ name. (name.now ≡ bytes.now) × IsName bytes.now) }
{
    if !is_name(bytes) {
        return None;
    }
    match str::from_utf8(bytes) {
        Ok(name) => Some(name),
        Err(_) => unreachable!(),
    }
}

// Whether the bytes are a letter and at most 31 letters, digits and underscores.
fn is_name(bytes: &[u8]) -> bool
    ensures { IsTrue result ↔ IsName bytes.now }
{
    match bytes {
        [] => false,
        [first, rest @ ..] => is_letter(*first) && may_follow(rest),
    }
}

fn may_follow(rest: &[u8]) -> bool
    ensures { IsTrue result ↔ (AllByRecursion (λ b. is_name_byte b ≡ true) rest.now × (length rest.now < 32)) }
{
    are_name_bytes(rest) && rest.len() < 32
}

fn are_name_bytes(bytes: &[u8]) -> bool
    ensures { IsTrue result ↔ AllByRecursion (λ b. is_name_byte b ≡ true) bytes.now }
{
    bytes.iter().all(|b| is_name_byte(*b))
}

fn is_letter(b: u8) -> bool
    ensures { result ≡ is_letter b }
{
    b >= b'a' && b <= b'z'
}

fn is_name_byte(b: u8) -> bool
    ensures { result ≡ is_name_byte b }
{
    is_letter(b) || (b >= b'0' && b <= b'9') || b == b'_'
}
