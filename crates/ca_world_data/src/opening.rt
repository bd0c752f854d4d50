//! How clients and servers begin, at the start of a world and after a restart: the core, the first
//! log entries, and the records.
ghost use Rattle.std.specs.Prelude.{◌≡◌, [], IfOk, OnOk, length, map, option_map};
ghost use Rattle.ca_model.specs.World.{client_begun, no_names, numbered, record_begun};
ghost use Rattle.ca_model.specs.World.{server_begun};
ghost use Rattle.ca_model.specs.ClientEnds.{new_client};
ghost use Rattle.ca_model.specs.History.{Added};
ghost use Rattle.ca_model.specs.Server.{new_server};
ghost use Rattle.ca_world_data.specs.Opening.{BeginClients, BeginServers, HasClients, HasServers};
ghost use Rattle.ca_world_data.specs.Restarts.{BeginsServer, address_of};
ghost use Rattle.ca_world_data.specs.Seen.{client_of, entry_of, names_of, record_of, recorded_of};
ghost use Rattle.ca_world_data.specs.Seen.{server_of};
ghost use Rattle.ca_world_data.specs.Settings.{rule_of};

use crate::client::{ClientSide, Names};
use crate::history::{Line, LogEntry, Recorded};
use crate::server::{RecordSide, ServerSide};
use crate::settings::{ClientSetting, RuleSetting, ServerSetting};
use ca_client_core::{Address, ClientCore};
use ca_records::{Record, Records, Rule};
use ca_server_core::ServerCore;
use std::alloc::{AllocError, Global};

/// All clients, with their logs.
pub fn begin_clients(
    alloc: Global,
    settings: Vec<ClientSetting>,
    servers: &[Address],
) -> Result<(Vec<ClientSide>, Vec<Vec<Line>>), AllocError>
    ensures { IfOk result (λ all.
        BeginClients servers.now settings.items all.0.items all.1.items) }
{
    let mut clients = Vec::new(alloc);
    let mut logs = Vec::new(alloc);
    for setting in settings {
        put_client(alloc, &mut clients, &mut logs, setting, servers)?;
    }
    Ok((clients, logs))
}

/// All servers, with their logs.
pub fn begin_servers(
    alloc: Global,
    settings: Vec<ServerSetting>,
) -> Result<(Vec<ServerSide>, Vec<Vec<LogEntry>>), AllocError>
    ensures { IfOk result (λ all. BeginServers settings.items all.0.items all.1.items) }
{
    let mut servers = Vec::new(alloc);
    let mut logs = Vec::new(alloc);
    for setting in settings {
        put_server(alloc, &mut servers, &mut logs, setting)?;
    }
    Ok((servers, logs))
}

/// A client more, with its log.
fn put_client(
    alloc: Global,
    clients: &mut Vec<ClientSide>,
    logs: &mut Vec<Vec<Line>>,
    setting: ClientSetting,
    servers: &[Address],
) -> Result<(), AllocError>
    ensures { OnOk result (HasClients
        servers.now
        setting
        clients.old.items
        logs.old.items
        clients.new.items
        logs.new.items) }
{
    let life = clients.len();
    let side = begin_client(alloc, setting, servers, 0, life)?;
    clients.push(side)?;
    logs.push(Vec::new(alloc))?;
    Ok(())
}

/// A client that begins this life now.
pub fn begin_client(
    alloc: Global,
    setting: ClientSetting,
    servers: &[Address],
    moment: u64,
    life: usize,
) -> Result<ClientSide, AllocError>
    ensures { IfOk result (λ x. client_of x ≡ client_begun servers.now moment life setting) }
{
    let core = begin_client_core(alloc, &setting, servers, moment)?;
    Ok(ClientSide {
        setting,
        core,
        life,
        names: no_names(alloc),
        circuits: Vec::new(alloc),
    })
}

/// The core of a client that begins now.
pub fn begin_client_core(
    alloc: Global,
    setting: &ClientSetting,
    servers: &[Address],
    moment: u64,
) -> Result<ClientCore, AllocError>
    ensures { IfOk result (λ core.
        core
        ≡ new_client (record {
          peer = setting.now.peer;
          servers = servers.now;
          names = setting.now.name_servers;
          now = moment;
        })) }
{
    let user = Vec::from_slice(alloc, &setting.user)?;
    let host = Vec::from_slice(alloc, &setting.host)?;
    let known = Vec::from_slice(alloc, servers)?;
    match ClientCore::new(alloc, user, host, known, &setting.name_servers, moment) {
        Ok(core) => Ok(core),
        Err(_) => Err(AllocError),
    }
}

/// No handle names anything yet.
pub fn no_names(alloc: Global) -> Names
    ensures { names_of result ≡ no_names }
{
    Names {
        channels: Vec::new(alloc),
        requests: Vec::new(alloc),
        subscriptions: Vec::new(alloc),
        writes: 0,
    }
}

/// A server more, with its log.
fn put_server(
    alloc: Global,
    servers: &mut Vec<ServerSide>,
    logs: &mut Vec<Vec<LogEntry>>,
    setting: ServerSetting,
) -> Result<(), AllocError>
    ensures { OnOk result (HasServers
        setting
        servers.old.items
        logs.old.items
        servers.new.items
        logs.new.items) }
{
    let life = servers.len();
    let log = begin_log(alloc, &setting.records)?;
    let side = begin_server(alloc, setting, 0, life)?;
    servers.push(side)?;
    logs.push(log)?;
    Ok(())
}

/// The log with which a server's life begins: the records that it was given.
pub fn begin_log(alloc: Global, records: &Records) -> Result<Vec<LogEntry>, AllocError>
    ensures { IfOk result (λ log. map entry_of log.items ≡ numbered 0 Added records.now) }
{
    let mut log = Vec::new(alloc);
    for number in 0..records.len() {
        let added = record_again(alloc, records.at(number))?;
        log.push(LogEntry::Added(number, added))?;
    }
    Ok(log)
}

/// A record as it is.
fn record_again(alloc: Global, known: &Record) -> Result<Recorded, AllocError>
    ensures { IfOk result (λ r. recorded_of r ≡ known.now) }
{
    let held = known.held().copy(alloc)?;
    let name = Vec::from_slice(alloc, known.name())?;
    Ok(Recorded {
        name,
        count: known.count(),
        slow: known.is_slow(),
        held,
        meta: *known.meta(),
    })
}

/// A server that begins this life now.
pub fn begin_server(
    alloc: Global,
    setting: ServerSetting,
    moment: u64,
    life: usize,
) -> Result<ServerSide, AllocError>
    ensures { IfOk result (λ y. server_of y ≡ server_begun moment life setting) }
{
    let core = begin_server_core(alloc, &setting, moment)?;
    let records = begin_records(alloc, &setting.records)?;
    let added = setting.records.len();
    Ok(ServerSide {
        setting,
        core,
        life,
        records,
        added,
        circuits: Vec::new(alloc),
    })
}

/// The core of a server that begins now.
pub fn begin_server_core(
    alloc: Global,
    setting: &ServerSetting,
    moment: u64,
) -> Result<ServerCore, AllocError>
    ensures { IfOk result (λ core.
        core
        ≡ new_server setting.now.address.port moment setting.now.rules setting.now.records) }
{
    let rules = copy_rules(alloc, &setting.rules)?;
    let core = ServerCore::new(setting.address.port, moment, &setting.records, rules)?;
    Ok(core)
}

/// The records that a server begins with, by number.
pub fn begin_records(alloc: Global, records: &Records) -> Result<Vec<RecordSide>, AllocError>
    ensures { IfOk result (λ sides.
        map record_of sides.items ≡ numbered 0 record_begun records.now) }
{
    let mut sides = Vec::new(alloc);
    for number in 0..records.len() {
        let name = Vec::from_slice(alloc, records.at(number).name())?;
        sides.push(RecordSide {
            name,
            number,
            busy: None,
            waiting: Vec::new(alloc),
        })?;
    }
    Ok(sides)
}

/// The rules of access, as a server takes them.
fn copy_rules(alloc: Global, rules: &[RuleSetting]) -> Result<Vec<Rule>, AllocError>
    ensures { IfOk result (λ copy. copy.items ≡ map rule_of rules.now) }
{
    let mut copy = Vec::new(alloc);
    for rule in rules {
        copy.push(rule_again(alloc, rule)?)?;
    }
    Ok(copy)
}

/// A rule, as a server takes it.
fn rule_again(alloc: Global, rule: &RuleSetting) -> Result<Rule, AllocError>
    ensures { IfOk result (λ r. r ≡ rule_of rule.now) }
{
    let user = word_again(alloc, &rule.user)?;
    let host = word_again(alloc, &rule.host)?;
    let record_name = word_again(alloc, &rule.record_name)?;
    Ok(Rule::new(user, host, record_name, rule.reads, rule.writes))
}

/// A word, if there is one.
pub fn word_again(alloc: Global, word: &Option<Vec<u8>>) -> Result<Option<Vec<u8>>, AllocError>
    ensures { IfOk result (λ copy.
        option_map (λ v. v.items) copy ≡ option_map (λ v. v.items) word.now) }
{
    match word {
        None => Ok(None),
        Some(word) => {
            let copy = Vec::from_slice(alloc, word)?;
            Ok(Some(copy))
        }
    }
}

/// The addresses of all servers, in order.
pub fn server_addresses(alloc: Global, servers: &[ServerSide]) -> Result<Vec<Address>, AllocError>
    ensures { IfOk result (λ all. all.items ≡ map address_of servers.now) }
{
    let mut all = Vec::new(alloc);
    for server in servers {
        all.push(server.setting.address)?;
    }
    Ok(all)
}

/// The core, the records and the log with which a server begins now.
pub fn begin_parts(
    alloc: Global,
    setting: &ServerSetting,
    moment: u64,
) -> Result<(ServerCore, Vec<RecordSide>, Vec<LogEntry>), AllocError>
    ensures { IfOk result (λ b. BeginsServer
        moment
        setting.now
        b.0
        (map record_of b.1.items)
        (map entry_of b.2.items)) }
{
    let core = begin_server_core(alloc, setting, moment)?;
    let records = begin_records(alloc, &setting.records)?;
    let log = begin_log(alloc, &setting.records)?;
    Ok((core, records, log))
}

/// The server goes on with this core and these records, in this life.
pub fn begin_again(
    alloc: Global,
    side: &mut ServerSide,
    core: ServerCore,
    records: Vec<RecordSide>,
    life: usize,
)
    ensures side { server_of side.new
        ≡ record {
          setting = side.old.setting;
          core = core;
          life = life;
          records = map record_of records.items;
          added = length side.old.setting.records;
        } }
    ensures circuits { side.new.circuits.items ≡ [] }
{
    side.core = core;
    side.life = life;
    side.added = side.setting.records.len();
    side.records = records;
    side.circuits = Vec::new(alloc);
}
