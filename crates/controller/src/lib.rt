//! The controller: parked or live, with six calls.
#![tactic(auto)]

mod live_calls;
mod obeying;
mod parked_calls;
mod setup;
mod states;

pub use live_calls::ANSWER;
pub use states::{Live, Parked};
