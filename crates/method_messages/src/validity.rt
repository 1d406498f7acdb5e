//! Which messages can be written. It touches nothing and takes no memory.

ghost use Rattle.std.specs.Prelude.{◌≡◌, length};
ghost use Rattle.std.specs.List.{list_all, flat_map};
ghost use Rattle.acq_base.specs.Words.{is_blank as blank};
ghost use Rattle.method_messages.specs.Lines.{is_line as line_text, begins_with};
ghost use Rattle.method_messages.specs.Streams.{place};
ghost use Rattle.method_messages.specs.Written.{written, field_text, is_valid, is_valid_number as number_is_valid, is_valid_text as text_is_valid, is_valid_field as field_is_valid};

use crate::Message;
use crate::line::is_name;
use crate::step::MOST_BYTES;
use acq_base::{Text, is_blank};
use memchr::memchr;

/// Whether a message can be written, which is the condition of `encode`: a number of three digits from 100 to 999, a text
/// that isn't empty, names as in control text, values without a blank at their front, no line feed anywhere, and at most
/// 65,536 bytes in all.
#[tactic(auto, using(crate::proofs::Sizes::within), unfolding(crate::specs::Written::is_valid))]
pub fn valid(message: &Message) -> bool
    ensures { result ≡ is_valid message.now }
{
    is_valid_number(message.number)
        && (is_valid_text(message.text.as_bytes())
            && (are_valid_fields(message.fields.as_slice())
                && size_of(message) <= MOST_BYTES as u64))
}

fn is_valid_number(number: u32) -> bool
    ensures { result ≡ number_is_valid number }
{
    100 <= number && number <= 999
}

fn is_valid_text(text: &[u8]) -> bool
    ensures { result ≡ text_is_valid text.now }
{
    1 <= text.len() && is_line(text)
}

fn are_valid_fields(fields: &[(Text, Text)]) -> bool
    ensures { result ≡ list_all field_is_valid fields.now }
{
    fields.iter().all(|field| is_valid_field(field))
}

fn is_valid_field(field: &(Text, Text)) -> bool
    ensures { result ≡ field_is_valid field.now }
{
    let value = field.1.as_bytes();
    is_name(field.0.as_bytes()) && (is_line(value) && !begins_blank(value))
}

/// Whether a text has no line feed.
#[tactic(auto, using(crate::proofs::Cuts::lines))]
fn is_line(text: &[u8]) -> bool
    ensures { result ≡ line_text text.now }
{
    memchr(b'\n', text).is_none()
}

fn begins_blank(text: &[u8]) -> bool
    ensures { result ≡ begins_with blank text.now }
{
    match text {
        [] => false,
        [first, ..] => is_blank(*first),
    }
}

/// How many bytes a message has when it is written, up to the greatest `u64`.
#[tactic(auto, using(crate::proofs::Sizes::sizes), unfolding(crate::specs::Written::written))]
fn size_of(message: &Message) -> u64
    ensures { result ≡ place (length (written message.now)) }
{
    let fields = size_of_fields(message.fields.as_slice());
    fields
        .saturating_add(message.text.len() as u64)
        .saturating_add(6)
}

fn size_of_fields(fields: &[(Text, Text)]) -> u64
    ensures { result ≡ place (length (flat_map field_text fields.now)) }
{
    let mut size: u64 = 0;
    for field in fields {
        size = size.saturating_add(size_of_field(field));
    }
    size
}

#[tactic(auto, using(crate::proofs::Sizes::sizes))]
fn size_of_field(field: &(Text, Text)) -> u64
    ensures { result ≡ place (length (field_text field.now)) }
{
    let name = field.0.len() as u64;
    name.saturating_add(field.1.len() as u64).saturating_add(3)
}
