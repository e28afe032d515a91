//! A file's bytes, read to the end in pieces. At the head of the loop what was got is the front of the
//! file, and nothing but its name was read.

ghost use Rattle.std.specs.Prelude.{◌≡◌, ◌≤◌, ◌<◌, ◌+◌, ◌^◌, ℕ, List, IfOk, IfSome, IsErrOf, IsTrue, length};
ghost use Rattle.isel_base.specs.Outside.{Rose, GotMore, ReadsOnly};

use crate::traits::Files;
use std::alloc::{AllocError, Global};

/// Why a file's bytes were not got.
#[derive(Clone, Copy, Debug, PartialEq, Eq)]
pub enum ReadAllFault {
    /// A read failed.
    ReadFault,
    /// The file has more than 2^20 bytes.
    TooLong,
    /// Memory ran out.
    NoMemory,
}

impl From<AllocError> for ReadAllFault {
    ghost use Rattle.isel_base.specs.declared.reading.ReadAllFault.TheVariants.{NoMemory};

    ghost from_gives = { λ _ e. e ≡ NoMemory };

    fn from(_e: AllocError) -> ReadAllFault {
        ReadAllFault::NoMemory
    }
}

/// The most bytes that a file may have.
pub const FILE_LIMIT: usize = 1 << 20;

/// How many bytes are asked for at a time.
const CHUNK: usize = 1 << 16;

/// A buffer to read into.
fn buffer(alloc: Global, size: usize) -> Result<Vec<u8>, AllocError>
    requires { 0 < size }
    ensures { IfOk result (λ v. 0 < length v.items) }
{
    vec![in alloc; 0u8; size]
}

/// Reads the next bytes of a file to the end of those that were got, and answers how many they are:
/// 0 at the end of the file.
fn read_next<F: Files>(
    files: &mut F,
    name: &str,
    chunk: &mut [u8],
    got: &mut Vec<u8>,
) -> Result<usize, ReadAllFault>
    requires { 0 < length chunk.old }
    ensures told { IfSome (F.bytes files.old name.now) (λ all. GotMore all got.old.items result got.new.items) }
    ensures grows { IfOk result (λ n. length got.new.items ≡ length got.old.items + n) }
    ensures read { ¬ IsErrOf result ReadAllFault.TooLong }
    ensures cause { IsErrOf result ReadAllFault.ReadFault →
        Rose (F.faults files.old name.now) (F.faults files.new name.now) }
    ensures counts { (other : List ℕ) → F.faults files.old other ≤ F.faults files.new other }
    ensures same { (other : List ℕ) → F.bytes files.new other ≡ F.bytes files.old other }
    ensures leaves { F.read_leaves files.old name.now files.new }
    ensures steady { IsTrue (F.never_fails files.old name.now) → ¬ IsErrOf result ReadAllFault.ReadFault }
    ensures stays { (other : List ℕ) → IsTrue (F.never_fails files.old other) →
        IsTrue (F.never_fails files.new other) }
{
    let place = got.len() as u64;
    let Ok(count) = files.read(name, place, chunk) else {
        return Err(ReadAllFault::ReadFault);
    };
    got.extend_from_slice(&chunk[..count])?;
    Ok(count)
}

/// All bytes of a file, if there are at most 2^20. It reads until a read answers that none are left.
pub fn read_all<F: Files>(alloc: Global, files: &mut F, name: &str) -> Result<Vec<u8>, ReadAllFault>
    ensures bytes { IfSome (F.bytes files.old name.now) (λ all. IfOk result (λ v. v.items ≡ all)) }
    ensures short { IfOk result (λ v. length v.items ≤ 2 ^ 20) }
    ensures long { IfSome (F.bytes files.old name.now) (λ all. IsErrOf result ReadAllFault.TooLong →
        2 ^ 20 < length all) }
    ensures cause { IsErrOf result ReadAllFault.ReadFault →
        Rose (F.faults files.old name.now) (F.faults files.new name.now) }
    ensures counts { (other : List ℕ) → F.faults files.old other ≤ F.faults files.new other }
    ensures same { (other : List ℕ) → F.bytes files.new other ≡ F.bytes files.old other }

    // Nothing but this name was read, and a name that never fails gives no `ReadFault`.
    ensures only { ReadsOnly F.read_leaves name.now files.old files.new }
    ensures steady { IsTrue (F.never_fails files.old name.now) → ¬ IsErrOf result ReadAllFault.ReadFault }
    ensures stays { (other : List ℕ) → IsTrue (F.never_fails files.old other) →
        IsTrue (F.never_fails files.new other) }
{
    let mut chunk = buffer(alloc, CHUNK)?;
    let mut got = Vec::new(alloc);
    while got.len() <= FILE_LIMIT {
        if read_next(files, name, &mut chunk, &mut got)? == 0 {
            return Ok(got);
        }
    }
    Err(ReadAllFault::TooLong)
}
