//! A client of Channel Access that threads share: its circuits, searches and datagrams are moved by
//! one thread of input and output. A caller that waits alone moves what is on the circuits itself.
//!
//! ```rust
//! fn main(rt: HostRuntime) -> Result<(), Refusal> {
//!     let alloc = rt.alloc();
//!     let server = Address { host: 0x7f00_0001, port: 5064 };
//!     let setting = Setting {
//!         user: Vec::from_slice(alloc, b"ca")?,
//!         host: Vec::from_slice(alloc, b"localhost")?,
//!         servers: Vec::from_slice(alloc, &[server])?,
//!         names: Vec::new(alloc),
//!         repeater: None,
//!     };
//!     let (context, engine) = Context::<Nobody>::new(rt, alloc, setting)?;
//!     let thread = start(rt, engine)?;
//!     let mut caller = context.caller(&rt)?;
//!     let channel = context.open(&rt, b"TEMP", 0)?;
//!     if context.wait_live(&rt, channel, 500) {
//!         let ticket = context.get(&rt, channel, 5, 1)?;
//!         let outcome = context.wait(&rt, &mut caller, ticket, 500);
//!         let _ = println!(&rt, "{:?}", outcome);
//!     }
//!     context.end(&rt);
//!     thread.join(&rt);
//!     Ok(())
//! }
//! ```
//!
//! Contracts say of it only that a caller's `collect` and `give_up` do what the board's do. What
//! lies under its lock is `ca_client`'s, with its contracts. No contract says that a wait wakes,
//! or that threads run.
#![tactic(auto)]

mod addresses;
mod circuit_stream;
mod circuits;
mod context;
mod deadline;
mod engine;
mod lead;
mod listener;
mod shared;
mod spread;

pub use context::{Context, Setting, Waited};
pub use engine::{Engine, Work, start};
pub use listener::{Listener, Nobody};
