// Index pages of dictionary columns: judged, and scanned by a range of indexes. Indexes that are too large
// are looked for while the stream is judged, by one sum in slots for several (`windows`), or counted in a
// bitmap (`large`); where the width cannot spell one, none is looked for.
#![tactic(auto)]

pub mod index_page;
mod large;
mod windows;
