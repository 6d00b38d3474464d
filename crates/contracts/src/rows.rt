/// A row of a contract table: a segment of a transmission contract, from a receipt node to a delivery node, which is
/// settled with the billing party.
/// `capacity` is in thousandths of a MW. `next` is the place, in the table, of the segment that follows this one: a place
/// and no reference, since a table is handed in as its file has it, and may name rows that are not there.
#[derive(Clone, Copy, PartialEq, Eq, Debug)]
pub struct ContractRow {
    pub party: usize,
    pub capacity: u32,
    pub receipt: usize,
    pub delivery: usize,
    pub next: Option<usize>,
}
