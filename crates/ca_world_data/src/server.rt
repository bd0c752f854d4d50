//! A server in a world: its setting, its core, and its records with the places where their busy and
//! waiting puts came from.
use crate::settings::ServerSetting;
use ca_server_core::ServerCore;

/// Where a put with notification came: its circuit, and its place among the messages there.
#[derive(Clone, Copy)]
pub struct PutPlace {
    pub circuit: usize,
    pub place: usize,
}

/// A record of a server: its name, its number among all records that this life had, and where its
/// busy and its waiting puts came.
#[derive(Drop)]
pub struct RecordSide {
    pub name: Vec<u8>,
    pub number: usize,
    pub busy: Option<PutPlace>,
    pub waiting: Vec<PutPlace>,
}

/// A server: as it was given, its core, which life of all this is, its records, and
/// how many its life had.
///
/// By the index of the handle under which its core knows a circuit, it has that circuit's number.
#[derive(Drop)]
pub struct ServerSide {
    pub setting: ServerSetting,
    pub core: ServerCore,
    pub life: usize,
    pub records: Vec<RecordSide>,
    pub added: usize,
    pub circuits: Vec<usize>,
}
