// The two messages (NC-Audit): challenge and response, their bytes both ways; Challenge and Unmask.
#![tactic(auto)]

mod asked;
mod asking;
mod response;
mod unmasking;

ghost use Rattle.message.specs.Laws.{Unmasks};

pub use asked::{ChallengeMessage, coefficient_in, malformed, place_in};
pub use asking::challenge;
pub use response::head_byte;
pub use unmasking::unmask;

// Carries the law of unmasking: without its proof the crate is not proved.
pub fn unmasks()
    ensures { Unmasks }
{}
