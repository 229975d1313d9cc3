//! What no clause says: the reports as the formats' descriptions show them.
ghost use Rattle.std.specs.Prelude.{◌≡◌, [], ◌∷◌, length, IfOk};
ghost use Rattle.dpc_model.specs.Actors.{senders_of};
ghost use Rattle.node_model.specs.Clients.{client_stream};
ghost use Rattle.dpc_model.specs.declared.plans.StreamRef.TheVariants.{Source};
ghost use Rattle.client_reports.specs.Json.{HasPlainNames};

use client_fold::client::Client;
use client_reports::json::report_json;
use client_reports::text::{report_short, report_text};
use dpc_lists::lists::{Listed, Name};
use dpc_lists::shared::Shared;
use dpc_model::messages::{Message, Sess};
use dpc_model::plans::{ClientSpec, Plan, SourceSpec, StreamRef};
use dpc_model::tuples::{Item, Tuple, Vals};
use std::alloc::{AllocError, Global};
use std::test::Fail;

fn name(alloc: Global, byte: u8) -> Result<Name, AllocError>
    ensures { IfOk result (λ name. name ≡ byte ∷ []) }
{
    Ok(Listed::from_vec(vec![in alloc; byte]?))
}

fn client_spec(alloc: Global, byte: u8) -> Result<ClientSpec, AllocError>
    ensures { IfOk result (λ c. c ≡ record { name = byte ∷ []; input = Source 0 }) }
{
    Ok(ClientSpec {
        name: name(alloc, byte)?,
        input: StreamRef::Source(0),
    })
}

/// A source, and its clients `c` and `d`.
fn plan(alloc: Global) -> Result<Plan, AllocError>
    ensures names { IfOk result (λ p. HasPlainNames p) }
    ensures two { IfOk result (λ p. length p.clients ≡ 2) }
    ensures first { IfOk result (λ p. senders_of p (client_stream p 0) ≡ 0 ∷ []) }
    ensures second { IfOk result (λ p. senders_of p (client_stream p 1) ≡ 0 ∷ []) }
{
    let source = SourceSpec {
        name: name(alloc, b's')?,
        columns: 1,
        log: Listed::from_vec(Vec::new(alloc)),
    };
    let clients = vec![in alloc; client_spec(alloc, b'c')?, client_spec(alloc, b'd')?]?;
    Ok(Plan {
        version: 1,
        passing: true,
        width: 10,
        delay: 20,
        end: 10,
        sources: Listed::from_vec(vec![in alloc; source]?),
        frags: Listed::from_vec(Vec::new(alloc)),
        clients: Listed::from_vec(clients),
    })
}

fn tuple(alloc: Global, stime: u64, value: i64) -> Result<Tuple, AllocError> {
    let vals = Vals::from_slice(alloc, &[value])?;
    Ok(Tuple { stime, vals })
}

/// The first batch that the source sends.
fn batch(alloc: Global) -> Result<Message, Fail> {
    let items = vec![in alloc;
        Item::Stable(0, tuple(alloc, 1, 7)?),
        Item::Boundary(5, 1),
        Item::Tentative(tuple(alloc, 6, -9)?),
    ]?;
    let sess = Sess { inc: 1, number: 1 };
    Ok(Message::Batch(sess, 0, Shared::from_vec(items)?))
}

#[test]
fn two_clients_are_reported(rt: HostRuntime) -> Result<(), Fail> {
    let alloc = rt.alloc();
    let plan = plan(alloc)?;
    let mut first = Client::new(alloc, &plan, 0)?;
    let second = Client::new(alloc, &plan, 1)?;
    first.deliver(alloc, 0, &batch(alloc)?)?;
    let clients = vec![in alloc; first, second]?;
    let text = report_text(alloc, &plan, clients.as_slice())?;
    let wanted = "client c
stable 0 1 7
boundary 5 1
tentative 6 -9
summary c stable 1 bound 5 tentative 1 open
client d
summary d stable 0 bound 0 tentative 0 open
";
    assert_eq!(rt; text.as_slice(), wanted.as_bytes());
    let text = report_short(alloc, &plan, clients.as_slice())?;
    let wanted = "summary c stable 1 bound 5 tentative 1 open
summary d stable 0 bound 0 tentative 0 open
";
    assert_eq!(rt; text.as_slice(), wanted.as_bytes());
    let text = report_json(alloc, &plan, clients.as_slice())?;
    let wanted =
        r#"{"clients":[{"bound":5,"items":[["stable",0,1,[7]],["boundary",5,1],["tentative",6,[-9]]],"name":"c","settled":false,"stable":1,"tentative":1},{"bound":0,"items":[],"name":"d","settled":false,"stable":0,"tentative":0}]}
"#;
    assert_eq!(rt; text.as_slice(), wanted.as_bytes());
    Ok(())
}
