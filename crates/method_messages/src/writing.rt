//! Messages written. It may take memory, and touches nothing else.

ghost use Rattle.std.specs.Prelude.{◌≡◌, ◌<◌, ◌++◌, IfOk, OnOk, IsTrue};
ghost use Rattle.std.specs.List.{flat_map};
ghost use Rattle.method_messages.specs.Again.{ReadsAgain};
ghost use Rattle.method_messages.specs.Written.{written, field_text, three_digits, is_valid};

use crate::Message;
use acq_base::{Bytes, NoMemory, Text};
use std::alloc::Global;

/// The message as the bytes of a stream: its number, a space and its text, each field as `NAME: VALUE` with exactly one
/// space, each line ended by a line feed, and an empty line. Whatever follows in a stream, it is read as this message.
#[tactic(auto, using(crate::proofs::WrittenAgain::number_small, crate::proofs::WrittenAgain::read_again))]
pub fn encode(alloc: Global, message: &Message) -> Result<Bytes, NoMemory>
    requires { IsTrue (is_valid message.now) }
    ensures text { IfOk result (λ bytes. bytes ≡ written message.now) }
    ensures again { IfOk result (λ bytes. ReadsAgain bytes message.now) }
{
    let mut text = Text::new(alloc);
    put_message(&mut text, message)?;
    Ok(text.into_bytes())
}

#[tactic(auto, unfolding(crate::specs::Written::written))]
fn put_message(text: &mut Text, message: &Message) -> Result<(), NoMemory>
    requires { message.now.number < 1000 }
    ensures { OnOk result (text.new ≡ text.old ++ written message.now) }
{
    put_number(text, message.number)?;
    text.push(b' ')?;
    text.append(message.text.as_bytes())?;
    text.push(b'\n')?;
    put_fields(text, message.fields.as_slice())?;
    text.push(b'\n')
}

fn put_number(text: &mut Text, number: u32) -> Result<(), NoMemory>
    requires { number < 1000 }
    ensures { OnOk result (text.new ≡ text.old ++ three_digits number) }
{
    text.push(b'0' + (number / 100) as u8)?;
    text.push(b'0' + (number / 10 % 10) as u8)?;
    text.push(b'0' + (number % 10) as u8)
}

fn put_fields(text: &mut Text, fields: &[(Text, Text)]) -> Result<(), NoMemory>
    ensures { OnOk result (text.new ≡ text.old ++ flat_map field_text fields.now) }
{
    for field in fields {
        put_field(text, field)?;
    }
    Ok(())
}

fn put_field(text: &mut Text, field: &(Text, Text)) -> Result<(), NoMemory>
    ensures { OnOk result (text.new ≡ text.old ++ field_text field.now) }
{
    text.append(field.0.as_bytes())?;
    text.push(b':')?;
    text.push(b' ')?;
    text.append(field.1.as_bytes())?;
    text.push(b'\n')
}
