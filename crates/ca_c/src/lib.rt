//! `libcuvezhin`: the cores of a server, a client and a repeater for C, each call of a core as one
//! exported function. `include/cuvezhin.h` is what C sees of it.
//!
//! C holds an object as a struct of one pointer (`CvzServer`), which is null if there is none. Each
//! export takes the object out of the struct, makes its call, and puts it back. An export for an
//! object that is not there answers so.
#![tactic(auto)]

mod answers;
mod client;
mod client_object;
mod client_structs;
mod cvz_client;
mod cvz_repeater;
mod cvz_server;
mod repeater;
mod repeater_object;
mod server;
mod server_object;
mod step;
mod version;

pub use client_structs::{CvzAddress, CvzChannel, CvzNotice, CvzWanted};
pub use cvz_client::CvzClient;
pub use cvz_repeater::CvzRepeater;
pub use cvz_server::CvzServer;
pub use step::CvzStep;
