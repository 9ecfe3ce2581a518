// Where a table's parts stand.

/// The outline of a table: for each node where its NODE stands and how much it has, for each equation where its head stands.
/// The head of equation `e` of node `k` stands at `heads[64 * k + e]`.
#[derive(Clone, Copy)]
pub struct Outline {
    pub nodes: u8,
    pub starts: [u16; 32],
    pub inputs: [u8; 32],
    pub outputs: [u8; 32],
    pub equations: [u8; 32],
    pub heads: [u16; 2048],
}
