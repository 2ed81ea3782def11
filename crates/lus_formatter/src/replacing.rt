//! Files that are replaced.

use lus_devices::{Disk, Folder};
use std::alloc::Global;
use std::fs::{Metadata, OpenFile, OpenOptions, Permissions};
use std::io::{ErrorKind, Write};
use std::os::unix::fs::{MetadataExt, OpenOptionsExt};
use std::random::RandomSource;
use std::rt::Files;
use std::{fs, io};

/// Why a file isn't replaced.
#[derive(Debug, Drop)]
pub enum Unreplaced {
    /// It may not be written, and stays as it is.
    Locked,
    /// It is no plain file, or a write failed. It stays as it is.
    Failed,
    /// It is written where it stands, and a write failed. The file of this name has the whole new text.
    Begun(String),
}

impl From<io::Error> for Unreplaced {
    fn from(_error: io::Error) -> Unreplaced {
        Unreplaced::Failed
    }
}

/// A folder whose files can be replaced.
pub trait Replace: Folder {
    /// Puts a text in place of what a file has, or of what the file has that a symbolic link leads to. The file has all of the one or all
    /// of the other, even where this fails or is cut short, except where it has other names or another owner than a new file would: then
    /// it is written where it stands, and until it is whole another file beside it has all of the text.
    fn replace(&self, alloc: Global, name: &str, text: &[u8]) -> Result<(), Unreplaced>;
}

/// How many names are tried for a new file.
const MOST_TRIES: u32 = 64;

/// A name in the folder of a file that can't be foreseen.
fn name_beside<R: RandomSource>(rt: &R, alloc: Global, path: &str) -> io::Result<String> {
    let folder = match path.rsplit_once('/') {
        Some((folder, _name)) => folder,
        None => ".",
    };
    let mut bytes = [0; 8];
    rt.fill_bytes(&mut bytes)?;
    let number = u64::from_ne_bytes(bytes);
    Ok(format!(in alloc; "{folder}/.lus_format.{number:016x}")?)
}

/// Makes a file beside one, where no file and no link has its name. Only its owner may read it yet.
fn create_beside<R: Files + RandomSource>(
    rt: &R,
    alloc: Global,
    path: &str,
) -> io::Result<(String, R::File)> {
    let mut how = OpenOptions::new();
    how.write(true).create_new(true).mode(0o600);
    for _ in 0..MOST_TRIES {
        let name = name_beside(rt, alloc, path)?;
        match how.open(rt, name.as_str()) {
            Ok(file) => return Ok((name, file)),
            Err(error) if error.kind() == ErrorKind::AlreadyExists => {}
            Err(error) => return Err(error),
        }
    }
    Err(io::Error::from(ErrorKind::AlreadyExists))
}

/// Writes a new file, which may be read and written by whom the other may, and says what it is then.
fn fill<F: Write + OpenFile>(
    file: &mut F,
    permissions: Permissions,
    text: &[u8],
) -> io::Result<Metadata> {
    file.set_permissions(permissions)?;
    file.write_all(text)?;
    file.sync_all()?;
    file.metadata()
}

/// Writes a text over what a file has.
fn overwrite<F: Write + OpenFile>(file: &mut F, text: &[u8]) -> io::Result<()> {
    file.write_all(text)?;
    file.set_len(text.len() as u64)?;
    file.sync_all()
}

/// Whether a new file may take the place of an old one: that has no other name, and the same owner and group.
fn may_replace(new: &Metadata, old: &Metadata) -> bool {
    old.nlink() == 1 && new.uid() == old.uid() && new.gid() == old.gid()
}

/// Opens a file to write over what it has, and says what it is. It has to be a plain file that may be written, also where the system lets
/// its caller write any.
fn open_writable<R: Files>(rt: &R, path: &str) -> Result<(R::File, Metadata), Unreplaced> {
    let known = fs::metadata(rt, path)?;
    if !known.is_file() {
        return Err(Unreplaced::Failed);
    }
    if known.permissions().readonly() {
        return Err(Unreplaced::Locked);
    }
    match OpenOptions::new().write(true).open(rt, path) {
        Ok(file) => Ok((file, known)),
        Err(error) if error.kind() == ErrorKind::PermissionDenied => Err(Unreplaced::Locked),
        Err(_) => Err(Unreplaced::Failed),
    }
}

/// Gives a new file the name of an old one, or removes it.
fn move_over<R: Files>(rt: &R, beside: &str, path: &str) -> Result<(), Unreplaced> {
    if fs::rename(rt, beside, path).is_ok() {
        return Ok(());
    }
    let _ = fs::remove_file(rt, beside);
    Err(Unreplaced::Failed)
}

/// Writes a text into a file. A new file has it until then.
fn write_over<R: Files>(
    rt: &R,
    beside: String,
    old: &mut R::File,
    text: &[u8],
) -> Result<(), Unreplaced> {
    if overwrite(old, text).is_err() {
        return Err(Unreplaced::Begun(beside));
    }
    let _ = fs::remove_file(rt, beside.as_str());
    Ok(())
}

impl<R: Files + RandomSource> Replace for Disk<'_, R> {
    fn replace(&self, alloc: Global, name: &str, text: &[u8]) -> Result<(), Unreplaced> {
        let path = self.0.canonicalize(alloc, name)?;
        let path = path.as_str();
        let (mut old, known) = open_writable(self.0, path)?;
        let (beside, mut new) = create_beside(self.0, alloc, path)?;
        let Ok(made) = fill(&mut new, known.permissions(), text) else {
            let _ = fs::remove_file(self.0, beside.as_str());
            return Err(Unreplaced::Failed);
        };
        if may_replace(&made, &known) {
            move_over(self.0, beside.as_str(), path)
        } else {
            write_over(self.0, beside, &mut old, text)
        }
    }
}
