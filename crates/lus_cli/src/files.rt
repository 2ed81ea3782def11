//! Files, read whole or up to a limit.

ghost use Rattle.std.specs.Prelude.{◌≡◌, Err, IfErr, IfOk, None, Some, take};
ghost use Rattle.lus_devices.specs.Folders.{WithFile};
ghost use Rattle.lus_cli.specs.Ends.{IsLost, IsReadingFault, ReadFails};

use crate::fault::Fault;
use lus_devices::{Folder, ReadError, read_at_most};
use std::alloc::Global;

/// The bytes of the file of this name, or the first `most` of them where it has more.
pub fn read_file<D: Folder>(
    alloc: Global,
    folder: &D,
    name: &str,
    most: usize,
) -> Result<Vec<u8>, Fault>
    ensures bytes { IfOk result (λ v. WithFile (D.known folder.now name.now) (λ bs. v.items ≡ take most bs)) }
    ensures fault { IfErr result (λ f. IsReadingFault
        (IsLost (ReadFails D.File D.File.left D.File.failures) (D.known folder.now name.now)) f) }
    ensures missing { D.known folder.now name.now ≡ Some None → result ≡ Err Fault.File }
{
    let Ok(mut file) = folder.open(name) else {
        return Err(Fault::File);
    };
    match read_at_most(alloc, &mut file, most) {
        Ok(bytes) => Ok(bytes),
        Err(ReadError::Read) => Err(Fault::File),
        Err(ReadError::Memory) => Err(Fault::Memory),
    }
}
