// A box's places filled by combinations: Encode and Repair.
#![tactic(auto)]

mod encoding;
mod repairing;

pub use encoding::encode;
pub use repairing::{any_helper_empty, any_missing, repair};
