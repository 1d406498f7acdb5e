//! Which files of sources.list.d count.

ghost use Rattle.std.specs.Prelude.{◌≡◌};
ghost use Rattle.std.specs.List.{list_all};
ghost use Rattle.source_lists.specs.Files as files;

use acq_base::Text;

/// The form of a sources list.
#[derive(Clone, Copy, Debug, PartialEq, Eq)]
pub enum Form {
    /// A line for each entry.
    List,
    /// A stanza for several, in the deb822 form.
    Sources,
}

/// The form of a file of sources.list.d with this name (sources.list(5)): `List` where it ends in `.list`, `Sources` where
/// it ends in `.sources`. None where the file is passed over: it ends otherwise, or its name has another character than
/// letters, digits, `_`, `-` and `.`.
#[tactic(auto, unfolding(crate::specs::Files::form_of))]
pub fn counts(name: &Text) -> Option<Form>
    ensures { result ≡ files.form_of name.now }
{
    if has_file_characters(name.as_bytes()) {
        form_by_ending(name.as_bytes())
    } else {
        None
    }
}

fn has_file_characters(name: &[u8]) -> bool
    ensures { result ≡ list_all files.is_file_character name.now }
{
    name.iter().all(|byte| is_file_character(*byte))
}

fn is_file_character(byte: u8) -> bool
    ensures { result ≡ files.is_file_character byte }
{
    byte.is_ascii_alphanumeric() || byte == b'_' || byte == b'-' || byte == b'.'
}

fn form_by_ending(name: &[u8]) -> Option<Form>
    ensures { result ≡ files.form_by_ending name.now }
{
    if name.ends_with(b".list") {
        Some(Form::List)
    } else if name.ends_with(b".sources") {
        Some(Form::Sources)
    } else {
        None
    }
}
