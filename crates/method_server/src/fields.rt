//! The fields of a message. They take memory.

ghost use Rattle.std.specs.Prelude.{◌≡◌, IfOk};
ghost use Rattle.method_server.specs.Asked as spec;

use acq_base::{NoMemory, Text, TryCopy};
use method_messages::Message;
use std::alloc::Global;

/// The first value under a name, the case of ASCII letters aside.
pub fn value_of(alloc: Global, message: &Message, name: &[u8]) -> Result<Option<Text>, NoMemory>
    ensures { IfOk result (λ value. value ≡ spec.value_of name.now message.now) }
{
    first_value(alloc, name, message.fields.as_slice())
}

fn first_value(
    alloc: Global,
    name: &[u8],
    fields: &[(Text, Text)],
) -> Result<Option<Text>, NoMemory>
    ensures { IfOk result (λ value. value ≡ spec.first_value name.now fields.now) }
{
    let mut rest = fields;
    while let Some((field, others)) = rest.split_first() {
        if same_name(field.0.as_bytes(), name) {
            return Ok(Some(field.1.copy(alloc)?));
        }
        rest = others;
    }
    Ok(None)
}

/// Whether two names differ at most in the case of ASCII letters.
fn same_name(a: &[u8], b: &[u8]) -> bool
    ensures { result ≡ spec.same_name a.now b.now }
{
    a.eq_ignore_ascii_case(b)
}
