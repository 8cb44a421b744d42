// From bytes to their meaning or to the reason why they have none.
ghost use Rattle.std.specs.Prelude.{◌≡◌};
ghost use Rattle.packed.specs.Checks.{entry_verdict, wrong_record_count};
ghost use Rattle.packed.specs.Decode.{decode};
ghost use Rattle.packed.specs.LawsVerdict.{read_where, read_in};
ghost use Rattle.packed.specs.Unpacking.{answered, unpack_of, unpack_at_of};

use crate::{Entry, Transaction, Unpacked, decode, form, records};
use terms::{Refusal, Refused, Verdict, refuse_if};

// Checks 4 to 8 of one entry. An action whose records are all declared in proper sets uses none that is N or more:
// where nothing is undeclared, check 5 is not made of the actions.
pub(crate) fn checked(b: &Entry, n: usize, index: usize) -> Verdict
    ensures { result ≡ entry_verdict n index b.now }
{
    refuse_if(form::is_malformed(b), Refusal::Malformed, index)?;
    if !records::sets_proper(b, n) {
        refuse_if(
            records::has_no_such_record(b, n),
            Refusal::NoSuchRecord,
            index,
        )?;
        return Err(Refusal::NotAscending.at(index));
    }
    if let Some(refusal) = records::undeclared(b) {
        refuse_if(
            records::action_too_large(b, n),
            Refusal::NoSuchRecord,
            index,
        )?;
        return Err(refusal.at(index));
    }
    Ok(())
}

// What one entry means, where checks 4 to 8 accept it.
fn entry(b: &Entry, n: usize, index: usize) -> Result<Transaction, Refused>
    ensures { result ≡ read_where (entry_verdict n index b.now) (decode b.now) }
{
    checked(b, n, index)?;
    Ok(decode::decoded(b))
}

// "N from 1 to 1,024": it is not.
pub(crate) fn is_wrong_record_count(n: usize) -> bool
    ensures { result ≡ wrong_record_count n }
{
    !(1..=1024).contains(&n)
}

// The meaning of an entry, or of none where a length is wrong: checks 1, 2, 4 to 8.
fn meaning(found: Option<&Entry>, n: usize, index: usize) -> Result<Transaction, Refused>
    ensures { result ≡ read_in n index found.entry }
{
    refuse_if(is_wrong_record_count(n), Refusal::WrongParameter, index)?;
    let b = found.ok_or(Refusal::WrongLength.at(index))?;
    entry(b, n, index)
}

impl From<Result<Transaction, Refused>> for Unpacked {
    ghost from_gives = { λ read unpacked. unpacked ≡ answered read };

    fn from(read: Result<Transaction, Refused>) -> Unpacked {
        match read {
            Ok(meaning) => Unpacked {
                verdict: Ok(()),
                meaning,
            },
            Err(refused) => Unpacked {
                verdict: Err(refused),
                meaning: decode::no_meaning(),
            },
        }
    }
}

// What one entry means in a store of n records.
pub fn unpack(bytes: &[u8], n: usize) -> Unpacked
    ensures { result ≡ unpack_of n bytes.now }
{
    Unpacked::from(meaning(bytes.as_array(), n, 0))
}

// What the entry of one transaction of a log means in a store of n records.
pub fn unpack_at(log: &[u8], index: usize, n: usize) -> Unpacked
    ensures { result ≡ unpack_at_of n log.now index }
{
    let (entries, _) = log.as_chunks();
    Unpacked::from(meaning(entries.get(index), n, index))
}
