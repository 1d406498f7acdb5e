//! What a line says. It touches nothing and takes no memory.

ghost use Rattle.std.specs.Prelude.{◌≡◌, ℕ, List};
ghost use Rattle.std.specs.List.{list_all};
ghost use Rattle.method_messages.specs.Lines.{ended, digit as digit_of, is_first as first_line, number_in, text_in, is_field as field_line, field_in, is_name as name_of_field, is_name_character, may_begin_name, may_follow as follows};

use crate::cutting::cut_at;
use acq_base::trim_blanks_start;
use memchr::memchr;

/// Whether a line may stand behind the lines of a message that have ended, or begin a message where these are none.
pub fn may_follow(lines: &[u8], line: &[u8]) -> bool
    ensures { (before : List (List ℕ)) → lines.now ≡ ended before → result ≡ follows before line.now }
{
    if lines.is_empty() {
        is_first(line)
    } else {
        is_field(line)
    }
}

/// Whether a line can begin a message: three digits, a space and a text.
fn is_first(line: &[u8]) -> bool
    ensures { result ≡ first_line line.now }
{
    match line {
        [a, b, c, space, _, ..] => {
            a.is_ascii_digit() && (b.is_ascii_digit() && (c.is_ascii_digit() && *space == b' '))
        }
        _ => false,
    }
}

/// The number with which a first line begins.
pub fn number_of(line: &[u8]) -> u32
    ensures { result ≡ number_in line.now }
{
    match line {
        [a, b, c, ..] => 100 * digit(*a) + 10 * digit(*b) + digit(*c),
        _ => 0,
    }
}

/// What a digit stands for.
fn digit(byte: u8) -> u32
    ensures { result ≡ digit_of byte }
{
    u32::from(byte.saturating_sub(b'0'))
}

/// The text of a first line.
pub fn text_of(line: &[u8]) -> &[u8]
    ensures { result.now ≡ text_in line.now }
{
    match line {
        [_, _, _, _, text @ ..] => text,
        _ => &[],
    }
}

/// Whether a line is a field: a name, a colon and any value.
#[tactic(auto, using(crate::proofs::Cuts::colons))]
fn is_field(line: &[u8]) -> bool
    ensures { result ≡ field_line line.now }
{
    match memchr(b':', line) {
        Some(colon) => {
            let (name, _) = line.split_at(colon);
            is_name(name)
        }
        None => false,
    }
}

/// The name and the value of a field. Blanks at the value's front don't belong to it.
pub fn field_of(line: &[u8]) -> (&[u8], &[u8])
    ensures { (result.0.now ≡ (field_in line.now).0) × (result.1.now ≡ (field_in line.now).1) }
{
    let (name, value) = cut_at(b':', line);
    (name, trim_blanks_start(value))
}

/// Whether a text can name a field.
pub fn is_name(name: &[u8]) -> bool
    ensures { result ≡ name_of_field name.now }
{
    match name {
        [] => false,
        [first, ..] => begins_name(*first) && has_name_bytes(name),
    }
}

fn has_name_bytes(name: &[u8]) -> bool
    ensures { result ≡ list_all is_name_character name.now }
{
    name.iter().all(|byte| is_name_byte(*byte))
}

/// Whether a name can begin with a byte that can stand in one.
fn begins_name(byte: u8) -> bool
    ensures { result ≡ may_begin_name byte }
{
    byte != b'#' && byte != b'-'
}

/// Whether a byte can stand in a name: printable ASCII but space and colon.
fn is_name_byte(byte: u8) -> bool
    ensures { result ≡ is_name_character byte }
{
    33 <= byte && byte <= 126 && byte != b':'
}
