// What a step is to write into the table, decided before it is touched.

// The entry to link: its slot, the position that writes it, and the slot that was the newest: the lent table's number,
// 65,535 for none.
#[derive(Clone, Copy, Debug, PartialEq, Eq)]
pub struct Link {
    pub slot: usize,
    pub position: u64,
    pub previous: u16,
}

// The entry to fill, and its contents.
#[derive(Clone, Copy, Debug, PartialEq, Eq)]
pub struct Fill {
    pub slot: usize,
    pub contents: u64,
}
