// Trees that are held while more is read.
//
// A tree that a function holds over a `?` is dropped there, and that drop is proved again for each such place. Here the type is a parameter, so that a drop is one call.

ghost use Rattle.std.specs.Prelude.{◌≡◌};

use svr_reader::ReadFault;

/// The fault, where what was read before it is let go.
pub(crate) fn let_go<T: Drop>(_held: T, fault: ReadFault) -> ReadFault
    ensures { result ≡ fault }
{
    fault
}
