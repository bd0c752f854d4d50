//! Copies of the clients and servers of a script: drawing events needs a world of its own, before
//! the world of the run.
ghost use Rattle.std.specs.Prelude.{◌≡◌, IfOk, map};
ghost use Rattle.ca_world_data.specs.Settings.{rule_of};

use ca_world::{ClientSetting, RuleSetting, ServerSetting};
use ca_world_data::opening::word_again;
use std::alloc::{AllocError, Global};

// These clients again.
pub(crate) fn clients_again(
    alloc: Global,
    clients: &[ClientSetting],
) -> Result<Vec<ClientSetting>, AllocError>
    ensures { IfOk result (λ all. all.items ≡ clients.now) }
{
    let mut all = Vec::new(alloc);
    for client in clients {
        all.push(client_again(alloc, client)?)?;
    }
    Ok(all)
}

// This client again.
fn client_again(alloc: Global, client: &ClientSetting) -> Result<ClientSetting, AllocError>
    ensures { IfOk result (λ c. c ≡ client.now) }
{
    let user = Vec::from_slice(alloc, &client.user)?;
    let host = Vec::from_slice(alloc, &client.host)?;
    let name_servers = Vec::from_slice(alloc, &client.name_servers)?;
    match ClientSetting::new(user, host, name_servers) {
        Ok(again) => Ok(again),
        Err(_) => Err(AllocError),
    }
}

// These servers again.
pub(crate) fn servers_again(
    alloc: Global,
    servers: &[ServerSetting],
) -> Result<Vec<ServerSetting>, AllocError>
    ensures { IfOk result (λ all. all.items ≡ servers.now) }
{
    let mut all = Vec::new(alloc);
    for server in servers {
        all.push(server_again(alloc, server)?)?;
    }
    Ok(all)
}

// This server again.
fn server_again(alloc: Global, server: &ServerSetting) -> Result<ServerSetting, AllocError>
    ensures { IfOk result (λ y. y ≡ server.now) }
{
    let rules = rules_again(alloc, &server.rules)?;
    let records = server.records.copy()?;
    Ok(ServerSetting::new(server.address, rules, records))
}

// These rules again.
fn rules_again(alloc: Global, rules: &[RuleSetting]) -> Result<Vec<RuleSetting>, AllocError>
    ensures { IfOk result (λ all. map rule_of all.items ≡ map rule_of rules.now) }
{
    let mut all = Vec::new(alloc);
    for rule in rules {
        all.push(rule_again(alloc, rule)?)?;
    }
    Ok(all)
}

// This rule again.
fn rule_again(alloc: Global, rule: &RuleSetting) -> Result<RuleSetting, AllocError>
    ensures { IfOk result (λ r. rule_of r ≡ rule_of rule.now) }
{
    let user = word_again(alloc, &rule.user)?;
    let host = word_again(alloc, &rule.host)?;
    let record_name = word_again(alloc, &rule.record_name)?;
    Ok(RuleSetting {
        user,
        host,
        record_name,
        reads: rule.reads,
        writes: rule.writes,
    })
}
