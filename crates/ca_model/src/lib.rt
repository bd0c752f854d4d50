//! The statement: what clients, servers and their circuits are, what may happen to them, and when
//! that is safe and legal.
//!
//! From below: histories, messages and due replies; what each call of a client and of a server
//! leaves (both cores' contracts cite it); the events of a world and its runs, whatever datagrams
//! come, whenever circuits are cut and whoever restarts; and the promise itself. They are
//! definitions alone. One law is here, since the client's core is built on it: in a client, by the
//! definitions of its calls, requests and subscriptions are where its channels were live, and its
//! channels are on circuits that are connected or wanted.
#![tactic(auto)]

mod laws;

pub use laws::a_client_stays_placed;
