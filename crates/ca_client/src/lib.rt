//! A client of Channel Access for many threads.
#![tactic(auto)]

mod answer;
mod ask;
mod caller;
mod filling;
mod issuing;
mod socket;
mod state;
mod stepping;
mod turning;

pub use answer::{Answer, Steps};
pub use ask::{CoreCall, RequestCall};
pub use caller::Caller;
pub use issuing::issue_under_lock;
pub use socket::{Moved, Socket};
pub use state::ClientState;
pub use stepping::{step_all, step_under_lock};
pub use turning::turn_over;
