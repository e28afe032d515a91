//! A fault of a text's lists as a fault of the file.

ghost use Rattle.std.specs.Prelude.{◌≡◌, ◌+◌, ◌<◌, ◌⊎◌, length};
ghost use Rattle.sexp_read.specs.declared.fault.SexpFault.TheVariants.{NoMemory};
ghost use Rattle.sexp_read.specs.Fault.{IsFault};
ghost use Rattle.spec_reader.specs.Walk.{fault_at};
ghost use Rattle.spec_reader.specs.Outcome.{text_fault};

use crate::fault::{SpecFault, SpecKind, fault_at};
use sexp_read::SexpFault;

/// A fault of a kind at one byte.
fn byte_fault(bytes: &[u8], kind: SpecKind, place: usize) -> SpecFault
    requires { place < length bytes.now }
    ensures { result ≡ fault_at kind (place, place + 1) }
{
    let _ = bytes;
    fault_at(kind, (place, place + 1))
}

/// A fault of a text's lists, which stands at one byte.
pub(crate) fn text_fault(bytes: &[u8], fault: SexpFault) -> SpecFault
    requires { (fault ≡ NoMemory) ⊎ IsFault bytes.now fault }
    ensures { result ≡ text_fault fault }
{
    match fault {
        SexpFault::NotText(place) => byte_fault(bytes, SpecKind::NotText, place),
        SexpFault::Unclosed(place) => byte_fault(bytes, SpecKind::Unclosed, place),
        SexpFault::Stray(place) => byte_fault(bytes, SpecKind::Stray, place),
        SexpFault::Deep(place) => byte_fault(bytes, SpecKind::Deep, place),
        SexpFault::NoMemory => fault_at(SpecKind::NoMemory, (0, 0)),
    }
}
