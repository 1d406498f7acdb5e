//! What a line is by itself. It touches nothing and takes no memory.
ghost use Rattle.std.specs.Prelude.{◌≡◌};
ghost use Rattle.std.specs.List.{list_all};
ghost use Rattle.acq_base.specs.Words.{is_blank};
ghost use Rattle.deb822_text.specs.Control.{is_name, is_name_character, may_begin_name, line_of, field_line, named_line};
ghost use Rattle.deb822_text.specs.Seen.{seen};

use crate::cutting::place_of;
use acq_base::{is_blank, trim_blanks, trim_blanks_end};

/// What a line is by itself, with its number.
#[derive(Clone, Copy)]
pub enum Kind<'a> {
    Separator,
    Comment,
    Continuation(u64, &'a [u8]),
    Named(u64, &'a [u8], &'a [u8]),
    Unknown(u64),
}

/// The kind of a line, whose number is `at`.
#[tactic(auto, using(crate::proofs::Cuts::fronts), unfolding(crate::specs::Control::line_of))]
pub fn kind_of(line: &[u8], at: u64, comments: bool) -> Kind<'_>
    ensures { seen result ≡ line_of comments at line.now }
{
    if all_blank(line) {
        return Kind::Separator;
    }
    match line {
        [b'#', ..] if comments => Kind::Comment,
        [first, text @ ..] if is_blank(*first) => Kind::Continuation(at, trim_blanks_end(text)),
        _ => field_of(line, at),
    }
}

/// Whether a text has nothing but blanks.
pub fn all_blank(text: &[u8]) -> bool
    ensures { result ≡ list_all is_blank text.now }
{
    text.iter().all(|byte| is_blank(*byte))
}

/// A line that begins no other way: a field, or of no kind.
#[tactic(auto, using(crate::proofs::Cuts::cut_names))]
fn field_of(line: &[u8], at: u64) -> Kind<'_>
    ensures { seen result ≡ field_line at line.now }
{
    let (name, behind) = line.split_at(place_of(b':', line));
    if behind.is_empty() {
        return Kind::Unknown(at);
    }
    let (_, text) = behind.split_at(1);
    named(at, name, text)
}

/// A field, if the name is sound.
fn named<'a>(at: u64, name: &'a [u8], text: &'a [u8]) -> Kind<'a>
    ensures { seen result ≡ named_line at name.entry.now text.entry.now }
{
    if sound_name(name) {
        Kind::Named(at, name, trim_blanks(text))
    } else {
        Kind::Unknown(at)
    }
}

/// Whether a text can name a field.
#[tactic(auto, using(crate::proofs::Cuts::fronts))]
pub fn sound_name(name: &[u8]) -> bool
    ensures { result ≡ is_name name.now }
{
    match name {
        [] => false,
        [first, ..] => begins_name(*first) && name_bytes(name),
    }
}

/// Whether a name can begin with a byte that can stand in one.
fn begins_name(byte: u8) -> bool
    ensures { result ≡ may_begin_name byte }
{
    byte != b'#' && byte != b'-'
}

fn name_bytes(name: &[u8]) -> bool
    ensures { result ≡ list_all is_name_character name.now }
{
    name.iter().all(|byte| name_byte(*byte))
}

/// Whether a byte can stand in a name.
fn name_byte(byte: u8) -> bool
    ensures { result ≡ is_name_character byte }
{
    33 <= byte && byte <= 126 && byte != b':'
}
