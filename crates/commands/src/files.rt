//! Reads the files that a row names.

ghost use Rattle.std.specs.Prelude.{◌≡◌, ◌≤◌, ◌+◌, ◌++◌, ◌∷◌, [], length, map, string_bytes, OnOk, IfOk, IfErr};
ghost use Rattle.commands.specs.Files.{file_at};
ghost use Rattle.commands.specs.Reading.{AreRead};
ghost use Rattle.commands.specs.Outcomes.{HasMore, IsUnreadFor};

use edge::{Folder, ReadEnd, read_file};
use std::alloc::{AllocError, AllocError as NoMemory, Global};

/// Why the files of a row weren't read: the first cause, in the order of the words.
#[derive(Clone, Copy)]
pub enum Unread<'a> {
    /// The file of this name can't be read.
    Fault(&'a str),
    /// The file of this name has more bytes than it may have.
    TooLarge(&'a str),
    /// Memory was refused.
    NoMemory,
}

impl<'a> From<AllocError> for Unread<'a> {
    ghost use Rattle.std.specs.Prelude.{◌≡◌};
    ghost use Rattle.commands.specs.declared.files.Unread.TheVariants as unread;

    ghost from_gives = { λ _ e. e ≡ unread.NoMemory };

    fn from(_error: AllocError) -> Unread<'a> {
        Unread::NoMemory
    }
}

/// Puts the bytes of a file behind those of the files before.
fn keep(files: &mut Vec<Vec<u8>>, bytes: Vec<u8>) -> Result<(), NoMemory>
    ensures { OnOk result (map (λ file. file.items) files.new.items ≡ map (λ file. file.items) files.old.items ++ bytes.items ∷ []) }
{
    match files.push(bytes) {
        Ok(()) => Ok(()),
        Err(_) => Err(NoMemory),
    }
}

/// Reads the named files, each with its limit, and puts them behind those that were read before.
fn read_each<'a, F: Folder>(
    alloc: Global,
    folder: &mut F,
    limits: &[u32],
    names: &'a [String],
    files: &mut Vec<Vec<u8>>,
) -> Result<(), Unread<'a>>
    requires { length (map string_bytes names.now) ≡ length limits.now }
    ensures read { OnOk result (HasMore (F.told folder.old) (F.faults folder.old) (F.faults folder.new) limits.now (map string_bytes names.now)
        (map (λ file. file.items) files.old.items) (map (λ file. file.items) files.new.items)) }
    ensures end { IfErr result (IsUnreadFor limits.now (map string_bytes names.now) (F.told folder.old) (F.faults folder.old) (F.faults folder.new)) }
    ensures opened { F.opened folder.new ≤ F.opened folder.old + length names.now }
{
    let Some((limit, more)) = limits.split_first() else {
        return Ok(());
    };
    let Some((name, others)) = names.split_first() else {
        return Ok(());
    };
    let bytes = match read_file(alloc, folder, name.as_str(), *limit) {
        Ok(bytes) => bytes,
        Err(ReadEnd::Fault) => return Err(Unread::Fault(name.as_str())),
        Err(ReadEnd::TooLarge) => return Err(Unread::TooLarge(name.as_str())),
        Err(ReadEnd::NoMemory) => return Err(Unread::NoMemory),
    };
    keep(files, bytes)?;
    read_each(alloc, folder, more, others, files)
}

/// The bytes of the files of a row, each within its limit.
pub fn read_files<'a, F: Folder>(
    alloc: Global,
    folder: &mut F,
    limits: &[u32],
    names: &'a [String],
) -> Result<Vec<Vec<u8>>, Unread<'a>>
    requires { length (map string_bytes names.now) ≡ length limits.now }
    ensures read { IfOk result (λ files. AreRead (F.told folder.old) (F.faults folder.old) (F.faults folder.new) limits.now (map string_bytes names.now) (map (λ file. file.items) files.items)) }
    ensures end { IfErr result (IsUnreadFor limits.now (map string_bytes names.now) (F.told folder.old) (F.faults folder.old) (F.faults folder.new)) }
    ensures opened { F.opened folder.new ≤ F.opened folder.old + length names.now }
{
    let mut files = Vec::new(alloc);
    read_each(alloc, folder, limits, names, &mut files)?;
    Ok(files)
}

/// The bytes of the file at this place of a row; none where there is no such file.
pub fn file_at(files: &[Vec<u8>], place: usize) -> &[u8]
    ensures { result.now ≡ file_at (map (λ file. file.items) files.now) place }
{
    match files.get(place) {
        Some(file) => file.as_slice(),
        None => &[],
    }
}
