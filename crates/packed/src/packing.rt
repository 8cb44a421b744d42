// From a meaning to its bytes, or to the reason why they would be refused.
ghost use Rattle.std.specs.Prelude.{◌≡◌};
ghost use Rattle.packed.specs.Packing.{packed, pack_of};

use crate::{Transaction, encode, unpacking};
use terms::{Refusal, Verdict, refuse_if};

// Writes the bytes of a meaning for a store of n records into a lent buffer; refused, it writes nothing.
pub fn pack(meaning: Transaction, n: usize, buffer: &mut [u8]) -> Verdict
    ensures { packed result buffer.new ≡ pack_of n meaning buffer.old }
{
    refuse_if(
        unpacking::is_wrong_record_count(n),
        Refusal::WrongParameter,
        0,
    )?;
    refuse_if(buffer.len() != 88, Refusal::WrongLength, 0)?;
    let b = encode::encoded(meaning);
    unpacking::checked(&b, n, 0)?;
    buffer.copy_from_slice(&b);
    Ok(())
}
