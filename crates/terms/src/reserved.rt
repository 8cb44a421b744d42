// Two numbers of document 01 that stand for something absent. Numbers and no Option: they stand in the lent tables,
// whose form document 01 gives.
ghost use Rattle.std.specs.Prelude.{◌≡◌, eqb};
ghost use Rattle.terms.specs.Reserved.{no_slot, no_end};

// "a slot or 65,535 for none"
pub const NO_SLOT: u16 = 65535;

// "2^64 − 1 stands for 'no end'"
pub const NO_END: u64 = 18446744073709551615;

pub fn is_no_slot(slot: u16) -> bool
    ensures { result ≡ eqb slot no_slot }
{
    slot == NO_SLOT
}

pub fn is_no_end(end: u64) -> bool
    ensures { result ≡ eqb end no_end }
{
    end == NO_END
}
