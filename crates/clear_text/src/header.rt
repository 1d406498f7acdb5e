//! Header lines of a frame. It touches nothing and takes no memory.

ghost use Rattle.std.specs.Prelude.{◌≡◌};
ghost use Rattle.std.specs.List.{list_all};
ghost use Rattle.clear_text.specs.Frame.{is_header as header, is_name as name_of_header, is_name_character, may_begin_name};

use bstr::ByteSlice;

/// Whether a line is a header: a name as in control text, a colon, and any text.
#[tactic(auto, using(crate::proofs::Headers::colons))]
pub fn is_header(line: &[u8]) -> bool
    ensures { result ≡ header line.now }
{
    match line.find_byte(b':') {
        Some(colon) => is_name(&line[..colon]),
        None => false,
    }
}

/// Whether a text can name a header.
fn is_name(name: &[u8]) -> bool
    ensures { result ≡ name_of_header name.now }
{
    match name {
        [] => false,
        [first, ..] => begins_name(*first) && is_name_text(name),
    }
}

fn is_name_text(name: &[u8]) -> bool
    ensures { result ≡ list_all is_name_character name.now }
{
    name.iter().all(|byte| is_name_byte(*byte))
}

/// Whether a name can begin with a byte that can stand in one.
fn begins_name(byte: u8) -> bool
    ensures { result ≡ may_begin_name byte }
{
    byte != b'#' && byte != b'-'
}

/// Whether a byte can stand in a name: printable ASCII but space and colon.
fn is_name_byte(byte: u8) -> bool
    ensures { result ≡ is_name_character byte }
{
    33 <= byte && byte <= 126 && byte != b':'
}
