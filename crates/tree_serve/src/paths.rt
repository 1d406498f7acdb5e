//! Which paths are served. Nothing here takes memory.
ghost use Rattle.std.specs.Prelude.{◌≡◌};
ghost use Rattle.std.specs.List.{list_all, slice_split};
ghost use Rattle.uri_names.specs.Folder.{is_below_character};
ghost use Rattle.tree_serve.specs.Answers as spec;

/// Whether a path leads below the root: it is of names behind a slash each, of letters, digits and `._-+~:`, none of them
/// `.` or `..`.
#[tactic(auto, unfolding(crate::specs::Answers::is_below))]
pub fn is_below(path: &[u8]) -> bool
    ensures { result ≡ spec.is_below path.now }
{
    match path {
        [slash, names @ ..] => *slash == b'/' && have_characters(names) && are_names(names),
        [] => false,
    }
}

fn have_characters(names: &[u8]) -> bool
    ensures { result ≡ list_all is_below_character names.now }
{
    names.iter().all(|byte| is_below_character(*byte))
}

fn is_below_character(byte: u8) -> bool
    ensures { result ≡ is_below_character byte }
{
    byte.is_ascii_alphanumeric() || b"._-+~:/".contains(&byte)
}

/// Whether each segment is a name.
fn are_names(names: &[u8]) -> bool
    ensures { result ≡ list_all spec.is_name (slice_split spec.is_slash names.now) }
{
    names
        .split(|byte| *byte == b'/')
        .all(|segment| is_name(segment))
}

fn is_name(segment: &[u8]) -> bool
    ensures { result ≡ spec.is_name segment.now }
{
    !segment.is_empty() && !(segment == b".".as_slice() || segment == b"..".as_slice())
}
