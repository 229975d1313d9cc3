//! What no clause says: that journals are printed and read where there is memory, and the text as the format's description
//! shows it.
use crate::faults::JournalFault;
use crate::{print_journal, read_journal};
use dpc_lists::lists::{Listed, Name};
use dpc_model::messages::Event;
use dpc_model::plans::{ClientSpec, FragSpec, Plan, SourceSpec, StreamRef};
use std::alloc::{AllocError, Global};
use std::test::Fail;

fn name(alloc: Global, byte: u8) -> Result<Name, AllocError> {
    Ok(Listed::from_vec(vec![in alloc; byte]?))
}

/// Source `s`, replicas `f.0` and `f.1`, and client `c`: actors 0 to 3.
fn plan(alloc: Global, version: u64) -> Result<Plan, AllocError> {
    let source = SourceSpec {
        name: name(alloc, b's')?,
        columns: 1,
        log: Listed::from_vec(Vec::new(alloc)),
    };
    let frag = FragSpec {
        name: name(alloc, b'f')?,
        replicas: 2,
        delay: None,
        inputs: Listed::from_vec(vec![in alloc; StreamRef::Source(0)]?),
        ops: Listed::from_vec(Vec::new(alloc)),
    };
    let client = ClientSpec {
        name: name(alloc, b'c')?,
        input: StreamRef::Frag(0),
    };
    Ok(Plan {
        version,
        passing: false,
        width: 10,
        delay: 5,
        end: 20,
        sources: Listed::from_vec(vec![in alloc; source]?),
        frags: Listed::from_vec(vec![in alloc; frag]?),
        clients: Listed::from_vec(vec![in alloc; client]?),
    })
}

const ALL: [Event; 10] = [
    Event::Phase(1),
    Event::Emit(0, 10),
    Event::Release(0, 20),
    Event::Cut(1, 2),
    Event::Heal(2, 1),
    Event::Crash(1),
    Event::Restart(1, 2),
    Event::Deliver(u64::MAX),
    Event::Tick(3, 0),
    Event::Mill(2, 1),
];

const TEXT: &str = "journal
phase 1
emit s 10
release s 20
cut f.0 f.1
heal f.1 f.0
crash f.0
restart f.0 2
deliver 18446744073709551615
tick c 0
mill f.1 1
journal end
";

#[test]
fn each_entry_has_its_line(rt: HostRuntime) -> Result<(), Fail> {
    let alloc = rt.alloc();
    let plan = plan(alloc, 1)?;
    let text = print_journal(alloc, &plan, &ALL, true)?;
    assert_eq!(rt; text.as_slice(), TEXT.as_bytes());
    let Ok(events) = read_journal(alloc, &plan, text.as_slice()) else {
        return Err(Fail::new("the journal is refused"));
    };
    assert!(rt; events.as_slice() == ALL.as_slice());
    Ok(())
}

/// The entry and the reason of a refusal.
fn refusal(alloc: Global, plan: &Plan, text: &str) -> Option<(u64, u64)> {
    match read_journal(alloc, plan, text.as_bytes()) {
        Ok(_) => None,
        Err(JournalFault::NoMemory) => Some((0, 0)),
        Err(JournalFault::Refused { entry, reason }) => Some((entry, reason)),
    }
}

#[test]
fn a_text_is_refused_at_its_first_place(rt: HostRuntime) -> Result<(), Fail> {
    let alloc = rt.alloc();
    let old = plan(alloc, 1)?;
    assert_eq!(rt;
        refusal(alloc, &old, "journal\ndeliver 0\njournal end"),
        None
    );
    assert_eq!(rt; refusal(alloc, &old, ""), Some((0, 3)));
    assert_eq!(rt;
        refusal(alloc, &old, "journal 3 0\njournal end\n"),
        Some((0, 1))
    );
    assert_eq!(rt;
        refusal(alloc, &old, "journal\ndeliver 0\ndeliver  1\ndeliver 02\n"),
        Some((1, 1))
    );
    assert_eq!(rt;
        refusal(alloc, &old, "journal\ncrash s\njournal end\n"),
        Some((0, 1))
    );
    assert_eq!(rt;
        refusal(alloc, &old, "journal\ndeliver 0\njournal end\n\n"),
        Some((1, 1))
    );
    assert_eq!(rt; refusal(alloc, &old, "journal\ndeliver 0\n"), Some((1, 3)));
    let new = plan(alloc, 3)?;
    assert_eq!(rt;
        refusal(alloc, &new, "journal 3 1\ndeliver 0\njournal end\n"),
        None
    );
    assert_eq!(rt;
        refusal(alloc, &new, "journal 3 2\ndeliver 0\njournal end\n"),
        Some((1, 4))
    );
    assert_eq!(rt;
        refusal(alloc, &new, "journal 3 2\ndeliver 0\n"),
        Some((1, 3))
    );
    assert_eq!(rt;
        refusal(alloc, &new, "journal\njournal end\n"),
        Some((0, 1))
    );
    Ok(())
}
