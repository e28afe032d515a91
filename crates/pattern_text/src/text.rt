//! A fault of a text's lists as a fault of the library.

ghost use Rattle.std.specs.Prelude.{◌≡◌, ◌+◌, ◌<◌, ◌⊎◌, length};
ghost use Rattle.sexp_read.specs.declared.fault.SexpFault.TheVariants.{NoMemory};
ghost use Rattle.sexp_read.specs.Fault.{IsFault};
ghost use Rattle.pattern_text.specs.Steps.{fault_at};
ghost use Rattle.pattern_text.specs.Outcome.{text_fault};

use crate::fault::{LibFault, LibKind, fault_at};
use sexp_read::SexpFault;

/// A fault of a kind at one byte.
fn byte_fault(bytes: &[u8], kind: LibKind, place: usize) -> LibFault
    requires { place < length bytes.now }
    ensures { result ≡ fault_at kind (place, place + 1) }
{
    let _ = bytes;
    fault_at(kind, (place, place + 1))
}

/// A fault of a text's lists, which stands at one byte.
pub(crate) fn text_fault(bytes: &[u8], fault: SexpFault) -> LibFault
    requires { (fault ≡ NoMemory) ⊎ IsFault bytes.now fault }
    ensures { result ≡ text_fault fault }
{
    match fault {
        SexpFault::NotText(place) => byte_fault(bytes, LibKind::NotText, place),
        SexpFault::Unclosed(place) => byte_fault(bytes, LibKind::Unclosed, place),
        SexpFault::Stray(place) => byte_fault(bytes, LibKind::Stray, place),
        SexpFault::Deep(place) => byte_fault(bytes, LibKind::Deep, place),
        SexpFault::NoMemory => fault_at(LibKind::NoMemory, (0, 0)),
    }
}
