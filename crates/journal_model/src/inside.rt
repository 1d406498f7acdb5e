//! Which names stay in the folder. It touches nothing.
ghost use Rattle.std.specs.Prelude.{◌≡◌, ◌&&◌, codes, not};
ghost use Rattle.std.specs.List.{list_any};
ghost use Rattle.acq_outside.specs.Disk.{same_name};
ghost use Rattle.journal_model.specs.Names.{ends_file_name, is_file_name, is_inside, stays_inside};

/// Whether a slash or a NUL stands in a name.
fn has_end(name: &[u8]) -> bool
    ensures { result ≡ list_any ends_file_name name.now }
{
    name.iter().any(|byte| *byte == b'/' || *byte == 0)
}

/// Whether it is neither of the names that each folder has, for itself and for the one above.
fn is_no_folder(name: &[u8]) -> bool
    ensures { result ≡ (not (same_name name.now (codes ".")) && not (same_name name.now (codes ".."))) }
{
    name != b".".as_slice() && name != b"..".as_slice()
}

/// Whether it is the name of a file in a folder: not empty, neither `.` nor `..`, with no slash and no NUL in it.
#[tactic(auto, unfolding(crate::specs::Names::is_file_name))]
pub fn is_file_name(name: &[u8]) -> bool
    ensures { result ≡ is_file_name name.now }
{
    name.len() != 0 && !has_end(name) && is_no_folder(name)
}

/// Whether it is the name of a file in the folder, or of one in its `partial`.
#[tactic(auto, using(crate::proofs::FolderNames::behind_front, crate::proofs::FolderNames::plain_inside))]
pub fn is_inside(name: &[u8]) -> bool
    ensures { result ≡ is_inside name.now }
{
    match name.strip_prefix(b"partial/") {
        Some(file) => is_file_name(file),
        None => is_file_name(name),
    }
}

/// Whether a record's step of this name stays in the folder.
pub fn stays_inside(put: bool, name: &[u8]) -> bool
    ensures { result ≡ stays_inside put name.now }
{
    if put {
        return is_file_name(name);
    }
    is_inside(name)
}
