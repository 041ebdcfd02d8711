use act1_base::{Items, Name};

// What a document has at the keys of a device file, each value of the kind that its key asks for.
// Whether it is in range isn't known yet.
#[derive(Drop)]
pub struct Values {
    pub format: i64,
    pub name: Name,
    pub rows: i64,
    pub columns: i64,
    pub pins: Name,
    pub below: i64,
    pub above: i64,
    pub tracks: Items<Items<Items<i64>>>,
    pub longs: Items<(i64, i64)>,
    pub pads: Items<(i64, i64)>,
}

// The numbers and the letters of a device, in range.
#[derive(Clone, Copy)]
pub struct Sizes {
    pub rows: u8,
    pub columns: u8,
    pub pins: [bool; 8],
    pub below: u8,
    pub above: u8,
}
