//! A client in a world: its setting, its core, and the handles for the numbers of its channels,
//! requests and subscriptions.
use crate::history::Intent;
use crate::settings::ClientSetting;
use ca_arena::Handle;
use ca_client_core::ClientCore;

/// What a client's handles name, by number: its channels; its requests and its subscriptions, each
/// with its intent; and how many plain writes it accepted.
#[derive(Drop)]
pub struct Names {
    pub channels: Vec<Handle>,
    pub requests: Vec<(Handle, Intent)>,
    pub subscriptions: Vec<(Handle, Intent)>,
    pub writes: usize,
}

/// A client: as it was given, its core, which life of all this is, and what its handles name.
///
/// By the index of the handle under which its core knows a circuit, it has that circuit's number.
#[derive(Drop)]
pub struct ClientSide {
    pub setting: ClientSetting,
    pub core: ClientCore,
    pub life: usize,
    pub names: Names,
    pub circuits: Vec<usize>,
}
