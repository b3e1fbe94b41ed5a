// The needed miniblocks of a block that was judged.

// The smallest delta's zigzag number, the places of their width bytes and of their bodies, how many they
// are, and how many entries each holds.
#[derive(Clone, Copy)]
pub struct Miniblocks {
    pub least: u64,
    pub widths: usize,
    pub bodies: usize,
    pub need: usize,
    pub size: usize,
}
