// The exports for C, as include/uxoladun.h declares them: each calls the function of its name in `capi` and promises
// the same. A slice is a pointer and a length there.
#![tactic(auto)]

ghost use Rattle.std.specs.Prelude.{◌≡◌};
ghost use Rattle.terms.specs.Refusals.{verdict_number, verdict_place};
ghost use Rattle.packed.specs.Unpacking.{unpack_of};
ghost use Rattle.capi.specs.Running.{ran_of};

// "Unpacking one entry is given N and checks 1, 2 (length not 88), 4 to 8".
#[unsafe(no_mangle)]
pub extern "C" fn uxoladun_check(bytes: &[u8], records: usize, place: &mut u64) -> u32
    ensures { (result ≡ verdict_number (unpack_of records bytes.now).verdict)
        × (place.new ≡ verdict_place (unpack_of records bytes.now).verdict) }
{
    capi::uxoladun_check(bytes, records, place)
}

// A store is made, the batch opened, and every step offered.
#[unsafe(no_mangle)]
pub extern "C" fn uxoladun_run(
    records: &mut [u64],
    log: &[u8],
    steps: &[u8],
    partitions: usize,
    workers: usize,
    first: u64,
    results: &mut [u64],
    outcomes: &mut [u8],
    counts: &mut [u64],
) -> u32
    ensures { (result ≡ (ran_of partitions workers first log.now steps.now records.old
        results.old outcomes.old counts.old).number)
        × ((records.new ≡ (ran_of partitions workers first log.now steps.now
        records.old results.old outcomes.old counts.old).records)
        × ((results.new ≡ (ran_of partitions workers first log.now steps.now
        records.old results.old outcomes.old counts.old).results)
        × ((outcomes.new ≡ (ran_of partitions workers first log.now steps.now
        records.old results.old outcomes.old counts.old).outcomes)
        × (counts.new ≡ (ran_of partitions workers first log.now steps.now
        records.old results.old outcomes.old counts.old).counts)))) }
{
    capi::uxoladun_run(
        records, log, steps, partitions, workers, first, results, outcomes, counts,
    )
}
