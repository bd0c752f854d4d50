//! The subscriptions of one circuit at a server, each in the queue that it was given, and the
//! updates that wait for it.
//!
//! The server's core holds one for each open end. It takes memory from the first EVENT_ADD on.
#![tactic(auto)]

mod at_need;
mod by_channel;
mod by_record;
mod image;
mod order;
mod posted;
mod queued_subscription;
mod receiver;
mod record_subscriptions;
mod shared_update;
mod subscriptions;
mod update;
mod waiting;

pub use at_need::SubscriptionsAtNeed;
pub use image::write_image;
pub use posted::Posted;
pub use shared_update::{SHARED_COUNT, SharedUpdate};
pub use update::Update;
