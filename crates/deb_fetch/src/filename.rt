//! Paths of package files. It touches nothing and takes no memory.
ghost use Rattle.std.specs.Prelude.{◌≡◌, bytes_eq};
ghost use Rattle.std.specs.List.{list_all};
ghost use Rattle.uri_names.specs.Folder.{is_below_character as below_character, is_dot_dot as dot_dot};
ghost use Rattle.deb_fetch.specs.Filenames as spec;

/// Whether a list may name a package file by this path.
#[tactic(auto, unfolding(crate::specs::Filenames::is_deb_path))]
pub fn is_deb_path(path: &[u8]) -> bool
    ensures { result ≡ spec.is_deb_path path.now }
{
    1 <= path.len()
        && path.len() <= 1024
        && has_below_characters(path)
        && !leads_up(path)
        && may_name_file(file_name(path))
}

fn has_below_characters(path: &[u8]) -> bool
    ensures { result ≡ list_all below_character path.now }
{
    path.iter().all(|byte| is_below_character(*byte))
}

fn is_below_character(byte: u8) -> bool
    ensures { result ≡ below_character byte }
{
    byte.is_ascii_alphanumeric() || b"._-+~:/".contains(&byte)
}

/// Whether a segment of a path is `..`.
#[tactic(auto, unfolding(crate::specs::Filenames::leads_up))]
fn leads_up(path: &[u8]) -> bool
    ensures { result ≡ spec.leads_up path.now }
{
    path.split(|byte| *byte == b'/')
        .any(|segment| is_dot_dot(segment))
}

fn is_dot_dot(segment: &[u8]) -> bool
    ensures { result ≡ dot_dot segment.now }
{
    is_spelled(segment, b"..")
}

fn is_spelled(text: &[u8], word: &[u8]) -> bool
    ensures { result ≡ bytes_eq text.now word.now }
{
    text == word
}

/// The last segment of a path: what stands behind its last slash, or all of it.
pub fn file_name(path: &[u8]) -> &[u8]
    ensures { result.now ≡ spec.file_name_of path.now }
{
    let mut at = path.len();
    while at > 0 && path[at - 1] != b'/' {
        at -= 1;
    }
    &path[at..]
}

/// Whether a segment can name a file of a folder.
#[tactic(auto, unfolding(crate::specs::Filenames::may_name_file))]
fn may_name_file(name: &[u8]) -> bool
    ensures { result ≡ spec.may_name_file name.now }
{
    1 <= name.len() && name.len() <= 240 && !is_taken(name)
}

/// Whether a segment is the folder itself, or a name that a folder of lists has for its own.
fn is_taken(name: &[u8]) -> bool
    ensures { result ≡ spec.is_taken name.now }
{
    is_spelled(name, b".") || is_spelled(name, b"lock") || is_spelled(name, b"journal")
}
