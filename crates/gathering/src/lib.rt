// Shares: Gather puts a node (the scheme: box) of a share into an archive; Sizes and Rows tell what an archive is and which rows a node holds.
#![tactic(auto)]

mod copying;
mod telling;

pub use copying::gather;
pub use telling::{rows, sizes};
