//! A client's subscriptions: which are there, whose wire ids drain, and when the client asks
//! for a pause of updates.
#![tactic(auto)]

mod drops;
mod monitors;
mod read_run;
mod stage;
mod subscription;

pub use monitors::Monitors;
pub use read_run::ReadRun;
pub use stage::SubscriptionStage;
pub use subscription::Subscription;
