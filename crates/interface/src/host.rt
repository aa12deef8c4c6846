// What a host holds of a part and lends to each call: the record, cells and lines, which calls change in place, the timings, and the scrap for
// what a reset cuts. Lines are all free while the record is fresh: their tags are 0.
use lined::lent::Lines;
use part::{CellsMut, Record};

#[derive(Drop)]
pub struct Host<'a> {
    pub rec: &'a mut Record,
    pub cells: CellsMut<'a>,
    pub lines: Lines<'a>,
    pub timings: &'a [u32],
    pub scrap: &'a [u8],
}
