// The archive's bytes: header, fill marks and records; Open, Lose and Inventory. The definitions of all its operations are in specs/.
#![tactic(auto)]

mod layout;
mod listing;
mod losing;
mod marks;
mod opening;

ghost use Rattle.archive.specs.Repaired.{RepairedRows};

pub use layout::{Records, any_place, bad_archive, id_in, marked, sizes_in};
pub use listing::inventory;
pub use losing::lose;
pub use marks::set_marks;
pub use opening::open;

// Carries the law of rows under Repair: without its proof the crate is not proved.
pub fn repaired_rows()
    ensures { RepairedRows }
{}
