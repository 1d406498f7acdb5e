//! Bytes of names and of values, and the line in which a text stops.

ghost use Rattle.std.specs.Prelude.{◌≡◌, ◌≤◌, ◌++◌, List, ℕ, length, take, true, false};
ghost use Rattle.std.specs.List.{list_all};
ghost use Rattle.httparse.specs.Grammar.{is_token_byte, is_value_byte};
ghost use Rattle.http_wire.specs.Plain.{IsPlain, StartsLine};

/// How many bytes a line has at least of which more may be taken without reading it: one more than `HTTP/1.1 200`.
const LONG: usize = 13;

/// Whether a byte may stand in a field's name (RFC 9110, section 5.6.2).
#[tactic(auto, unfolding(httparse::specs::Grammar::is_token_byte))]
fn is_name_byte(byte: u8) -> bool
    ensures { result ≡ is_token_byte byte }
{
    byte.is_ascii_alphanumeric() || b"!#$%&'*+-.^_`|~".contains(&byte)
}

/// Whether a byte may stand in a field's value or in a reason phrase (RFC 9110, section 5.5).
fn is_text_byte(byte: u8) -> bool
    ensures { result ≡ is_value_byte byte }
{
    byte == b'\t' || (byte >= b' ' && byte != 0x7f)
}

/// Whether all bytes may stand in a field's name.
pub fn are_name_bytes(bytes: &[u8]) -> bool
    ensures { result ≡ list_all is_token_byte bytes.now }
{
    bytes.iter().all(|b| is_name_byte(*b))
}

/// Whether all bytes may stand in a field's value or in a reason phrase.
pub fn are_value_bytes(bytes: &[u8]) -> bool
    ensures { result ≡ list_all is_value_byte bytes.now }
{
    bytes.iter().all(|b| is_text_byte(*b))
}

/// How many bytes stand up to the last line feed, it included.
fn lines_len(text: &[u8]) -> usize
    ensures within { result ≤ length text.now }
    ensures starts { StartsLine (take result text.now) }
{
    let mut len = 0;
    for (i, b) in text.iter().enumerate() {
        if *b == b'\n' {
            len = i + 1;
        }
    }
    len
}

/// What stands behind the last line feed.
fn last_line(text: &[u8]) -> &[u8]
    ensures { (lines : List ℕ) × (text.now ≡ lines ++ result.now) × StartsLine lines }
{
    let (_, line) = text.split_at(lines_len(text));
    line
}

/// Whether a line is long enough, and within a field's name, or within a value or a reason phrase.
fn plain_of(line: &[u8]) -> (bool, bool)
    ensures name { result.0 ≡ true → (result.1 ≡ false) × (list_all is_token_byte line.now ≡ true) × (13 ≤ length line.now) }
    ensures value { result.1 ≡ true → (list_all is_token_byte line.now ≡ false) × (list_all is_value_byte line.now ≡ true) × (13 ≤ length line.now) }
{
    if line.len() < LONG {
        return (false, false);
    }
    if are_name_bytes(line) {
        return (true, false);
    }
    (false, are_value_bytes(line))
}

/// Whether a text stops within a long name, or within a long value or reason phrase.
pub fn plain_in(text: &[u8]) -> (bool, bool)
    ensures { IsPlain result.0 result.1 text.now }
{
    plain_of(last_line(text))
}
