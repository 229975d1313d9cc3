//! The JSON report.
ghost use Rattle.std.specs.Prelude.{◌≡◌, ◌++◌, map, nat_lt, true, OnOk, IfOk};
ghost use Rattle.dpc_lists.specs.Lists.{list_all};
ghost use Rattle.dpc_model.specs.declared.plans.ClientSpec.{ClientSpec};
ghost use Rattle.std.specs.Str.{IsUtf8};
ghost use Rattle.serde_json.specs.Data.{array};
ghost use Rattle.serde_json.specs.View.{view, items_of};
ghost use Rattle.dpc_model.specs.declared.tuples.Item.TheVariants.{Stable, Tentative};
ghost use Rattle.client_fold.specs.Folding.{StandForClients, all_taken};
ghost use Rattle.client_reports.specs.Json.{HasPlainNames, values_data, item_data, client_object, clients_data, report_json};
ghost use Rattle.client_reports.specs.Telling.{named, data_by};
ghost use Rattle.world_model.specs.Worlds.{World};

use crate::text::summary;
use client_fold::client::Client;
use dpc_lists::faults::NoMemory;
use dpc_lists::shared::Shared;
use dpc_model::plans::{ClientSpec, Plan};
use dpc_model::tuples::{Item, Tuple};
use report::text::Summary;
use serde_json::{Map, Value, json, put};
use std::alloc::Global;

/// A tuple's values as a list.
fn values_value(alloc: Global, vals: &[i64]) -> Result<Value, NoMemory>
    ensures { IfOk result (λ value. view value ≡ values_data vals.now) }
{
    let mut list = Vec::with_capacity(alloc, vals.len())?;
    for value in vals.iter() {
        list.push(Value::from(*value))?;
    }
    Ok(Value::from(list))
}

fn stable_value(alloc: Global, number: u64, tuple: &Tuple) -> Result<Value, NoMemory>
    ensures { IfOk result (λ value. view value ≡ item_data (Stable number tuple.now)) }
{
    let values = values_value(alloc, tuple.vals.as_slice())?;
    Ok(json!(in alloc; ["stable", number, tuple.stime, values])?)
}

fn tentative_value(alloc: Global, tuple: &Tuple) -> Result<Value, NoMemory>
    ensures { IfOk result (λ value. view value ≡ item_data (Tentative tuple.now)) }
{
    let values = values_value(alloc, tuple.vals.as_slice())?;
    Ok(json!(in alloc; ["tentative", tuple.stime, values])?)
}

/// An item as a list of its word and its numbers.
fn item_value(alloc: Global, item: &Item) -> Result<Value, NoMemory>
    ensures { IfOk result (λ value. view value ≡ item_data item.now) }
{
    match item {
        Item::Stable(number, tuple) => stable_value(alloc, *number, tuple),
        Item::Tentative(tuple) => tentative_value(alloc, tuple),
        Item::Passed(upto) => Ok(json!(in alloc; ["passed", *upto])?),
        Item::Boundary(bound, count) => Ok(json!(in alloc; ["boundary", *bound, *count])?),
        Item::Undo(number) => Ok(json!(in alloc; ["undo", *number])?),
        Item::RecDone => Ok(json!(in alloc; ["rec_done"])?),
    }
}

/// One value for each item of a batch.
fn push_items(alloc: Global, list: &mut Vec<Value>, items: &[Item]) -> Result<(), NoMemory>
    ensures { OnOk result (map view list.new.items ≡ map view list.old.items ++ map item_data items.now) }
{
    for item in items.iter() {
        list.push(item_value(alloc, item)?)?;
    }
    Ok(())
}

/// The items of these batches as a list.
fn items_value(alloc: Global, taken: &[Shared<Item>]) -> Result<Value, NoMemory>
    ensures { IfOk result (λ value. view value ≡ array (items_of (map item_data (all_taken taken.now)))) }
{
    let mut list = Vec::new(alloc);
    for items in taken.iter() {
        push_items(alloc, &mut list, items.as_slice())?;
    }
    Ok(Value::from(list))
}

/// What is told of a client with these items.
fn client_object(alloc: Global, name: &str, items: Value, told: &Summary) -> Result<Value, NoMemory>
    ensures { IfOk result (λ value. view value ≡ client_object name.now (view items) told.now) }
{
    // not by `json!`: what that builds of six members isn't proved by itself
    let name = Value::String(String::from_str(alloc, name)?);
    let mut map = Map::new(alloc);
    put(&mut map, alloc, "bound", Value::from(told.bound))?;
    put(&mut map, alloc, "items", items)?;
    put(&mut map, alloc, "name", name)?;
    put(&mut map, alloc, "settled", Value::Bool(told.settled))?;
    put(&mut map, alloc, "stable", Value::from(told.stable))?;
    put(&mut map, alloc, "tentative", Value::from(told.tentative))?;
    Ok(Value::Object(map))
}

/// One client under this name.
fn client_value(alloc: Global, name: &[u8], client: &Client) -> Result<Value, NoMemory>
    requires { IsUtf8 name.now }
    ensures { IfOk result (λ value. view value ≡ data_by (name.now, client.now)) }
{
    let Ok(name) = str::from_utf8(name) else {
        unreachable!()
    };
    let items = items_value(alloc, client.taken())?;
    client_object(alloc, name, items, &summary(client))
}

/// The clients, under the names that the plan gives them.
fn client_values(
    alloc: Global,
    specs: &[ClientSpec],
    clients: &[Client],
) -> Result<Vec<Value>, NoMemory>
    requires { list_all (λ (c : ClientSpec). list_all (λ b. nat_lt b 128) c.name) specs.now ≡ true }
    ensures { IfOk result (λ list. map view list.items ≡ map data_by (named specs.now clients.now)) }
{
    let mut list = Vec::new(alloc);
    for i in 0..specs.len().min(clients.len()) {
        list.push(client_value(alloc, specs[i].name.as_slice(), &clients[i])?)?;
    }
    Ok(list)
}

/// One object with a list of the clients: for each its items and its summary. It is compact, with keys in
/// order of bytes and a line feed at the end. The only error is want of memory.
pub fn report_json(alloc: Global, plan: &Plan, clients: &[Client]) -> Result<Vec<u8>, NoMemory>
    requires { HasPlainNames plan.now }
    ensures { IfOk result (λ text. (w : World) → w.plan ≡ plan.now → StandForClients plan.now 0 clients.now w.clients
        → text.items ≡ report_json w) }
{
    let list = client_values(alloc, plan.clients.as_slice(), clients)?;
    let value = json!(in alloc; {"clients": list})?;
    let mut text = value.to_string(alloc)?.into_bytes();
    text.push(b'\n')?;
    Ok(text)
}
