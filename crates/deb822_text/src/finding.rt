//! Fields looked up by name. It touches nothing and takes no memory.
ghost use Rattle.std.specs.Prelude.{◌≡◌, option_copied, is_some};
ghost use Rattle.deb822_text.specs.Control.{field_named};

use crate::names::same_name;
use crate::{Field, Paragraph};

/// The first field of this name, ASCII case aside. It lends the field itself and takes no memory.
pub fn find<'a>(paragraph: &'a Paragraph, name: &[u8]) -> Option<&'a Field>
    ensures { option_copied result ≡ field_named paragraph.now.fields name.now }
{
    field_of(paragraph.fields.as_slice(), name)
}

/// The first of the fields that has this name.
pub fn field_of<'a>(fields: &'a [Field], name: &[u8]) -> Option<&'a Field>
    ensures { option_copied result ≡ field_named fields.now name.now }
{
    fields
        .iter()
        .find(|field| same_name(field.name.as_bytes(), name))
}

/// Whether one of the fields has this name.
#[tactic(auto, using(crate::proofs::Lookups::emptiness))]
pub fn names_field(fields: &[Field], name: &[u8]) -> bool
    ensures { result ≡ is_some (field_named fields.now name.now) }
{
    field_of(fields, name).is_some()
}
