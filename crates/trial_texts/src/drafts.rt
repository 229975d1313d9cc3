//! What no clause says: that calls succeed where there is memory, and answer a small script as counted by a person.
use dpc_lists::faults::NoMemory;
use dpc_model::operators::OpKind;
use dpc_model::scripts::Directive;
use dpc_model::tuples::Vals;
use script_draft::draft::Draft;
use script_draft::name_list::NameList;
use script_draft::shape::Shape;
use script_rules::keywords::Keyword;
use script_rules::reasons::Reason;
use script_words::words::Words;
use std::alloc::Global;
use std::test::Fail;

/// The first names of a line, so many.
fn names(line: &[u8], left: u64) -> NameList<'_> {
    NameList {
        words: Words::of(line),
        left,
    }
}

/// A header, and a source with an entry.
fn add_source(alloc: Global, draft: &mut Draft) -> Result<(), NoMemory> {
    for number in [1, 10, 0, 100] {
        draft.add_header(number)?;
    }
    if draft.is_its_part(Keyword::Source) && draft.fault_of_source(b"s").is_none() {
        draft.add_source(alloc, b"s", 1)?;
    }
    let vals = Vals::from_slice(alloc, &[7])?;
    if let Ok(source) = draft.source_of_log(b"s", Some(5), 1) {
        draft.add_log(source, 5, vals)?;
    }
    Ok(())
}

/// A fragment of two replicas with one operator.
fn add_fragment(alloc: Global, draft: &mut Draft) -> Result<(), NoMemory> {
    let streams = names(b"s", 1);
    let None = draft.fault_of_fragment(b"f", streams) else {
        return Ok(());
    };
    draft.add_fragment(alloc, b"f", 2, streams)?;
    draft.add_patience(3);
    add_operator(alloc, draft)
}

/// A union of a port with itself.
fn add_operator(alloc: Global, draft: &mut Draft) -> Result<(), NoMemory> {
    let inputs = names(b"s s", 2);
    if !draft.is_its_part(Keyword::Union) {
        return Ok(());
    }
    let None = draft.fault_of_operator(b"u", inputs, Shape::Union) else {
        return Ok(());
    };
    draft.add_operator(alloc, b"u", inputs, OpKind::Union)
}

/// A crash, a tick, and the end.
fn add_phase(alloc: Global, draft: &mut Draft) -> Result<(), NoMemory> {
    draft.add_begin();
    if let Ok(node) = draft.node_of_line(true, b"f.1") {
        draft.add_directive(Directive::Crash(node))?;
    }
    if let Ok((a, b)) = draft.link_of_line(b"s", b"f.0") {
        draft.add_directive(Directive::Cut(a, b))?;
    }
    draft.add_tick(alloc, 4)?;
    draft.add_settle();
    Ok(())
}

#[test]
fn a_small_script(rt: HostRuntime) -> Result<(), Fail> {
    let alloc = rt.alloc();
    let mut draft = Draft::new(alloc);
    add_source(alloc, &mut draft)?;
    add_fragment(alloc, &mut draft)?;
    draft.add_client(alloc, b"c", b"f")?;
    assert_eq!(rt; draft.fault_of_begin(), None);
    add_phase(alloc, &mut draft)?;
    assert_eq!(rt; draft.actor_named(b"f.1"), Some(2));
    assert_eq!(rt; draft.actor_named(b"c"), Some(3));
    assert_eq!(rt; draft.node_of_line(true, b"f.1"), Err(Reason::AgainstState));
    assert_eq!(rt; draft.link_of_line(b"s", b"c"), Err(Reason::Unknown));
    assert_eq!(rt;
        draft.source_of_log(b"s", Some(4), 1),
        Err(Reason::OutOfTime)
    );
    assert_eq!(rt; draft.fault_of_end(), None);
    let script = draft.into_script();
    assert_eq!(rt; script.phases.len(), 1);
    assert_eq!(rt; script.plan.end, 100);
    Ok(())
}
