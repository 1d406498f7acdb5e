//! Keys. It touches nothing and takes no memory.

ghost use Rattle.std.specs.Prelude.{◌≡◌};
ghost use Rattle.std.specs.List.{list_all};
ghost use Rattle.apt_conf.specs.Keys as keys;

fn is_key_character(byte: u8) -> bool
    ensures { result ≡ keys.is_key_character byte }
{
    byte.is_ascii_alphanumeric() || b"_-.:/+".contains(&byte)
}

fn all_key_characters(text: &[u8]) -> bool
    ensures { result ≡ list_all keys.is_key_character text.now }
{
    text.iter().all(|byte| is_key_character(*byte))
}

/// Whether a text is a key of apt.conf(5): letters, digits and `_-.:/+`, at least one.
pub fn is_key(text: &[u8]) -> bool
    ensures { result ≡ keys.is_key text.now }
{
    if text.is_empty() {
        return false;
    }
    all_key_characters(text)
}

fn is_parting(first: u8, second: u8) -> bool
    ensures { result ≡ keys.is_parting first second }
{
    first == b':' && second == b':'
}

/// Whether a part of a key between, before or after `::` is empty, as in the items of lists, `KEY::`.
#[tactic(auto, unfolding(crate::specs::Keys::empty_part))]
pub fn has_empty_part(key: &[u8]) -> bool
    ensures { result ≡ keys.has_empty_part key.now }
{
    let mut begins = true;
    let mut rest = key;
    while let [first, second, behind @ ..] = rest {
        if is_parting(*first, *second) {
            if begins {
                return true;
            }
            begins = true;
            rest = behind;
        } else {
            begins = false;
            rest = &rest[1..];
        }
    }
    begins && rest.is_empty()
}
