//! What no clause says: that scripts are judged as a person counted their lines.
use dpc_lists::faults::NoMemory;
use dpc_lists::lists::{Listed, Name};
use dpc_model::expressions::{Expr, ExprNode};
use dpc_model::operators::{OpKind, OpSpec, Wire};
use dpc_model::plans::{ClientSpec, FragSpec, Plan, SourceSpec, StreamRef};
use dpc_model::scripts::{Directive, Phase, Script};
use dpc_model::tuples::{Tuple, Vals};
use script_check::{check, is_in_range};
use script_rules::reasons::{PlanFault, Reason};
use std::alloc::Global;
use std::test::Fail;

/// The name of these bytes.
fn name(alloc: Global, bytes: &[u8]) -> Result<Name, NoMemory> {
    Ok(Listed::from_vec(Vec::from_slice(alloc, bytes)?))
}

/// A list of one element.
fn lone<T: Drop>(alloc: Global, element: T) -> Result<Listed<T>, NoMemory> {
    let mut elements = Vec::new(alloc);
    elements.push(element)?;
    Ok(Listed::from_vec(elements))
}

/// A source `s` of one column, with an entry.
fn source(alloc: Global) -> Result<SourceSpec, NoMemory> {
    let vals = Vals::from_slice(alloc, &[7])?;
    let name = name(alloc, b"s")?;
    let log = lone(alloc, Tuple { stime: 5, vals })?;
    Ok(SourceSpec {
        name,
        columns: 1,
        log,
    })
}

/// A fragment `f` of two replicas: a filter `k` of the source by a column.
fn fragment(alloc: Global, column: u64) -> Result<FragSpec, NoMemory> {
    let op = OpSpec {
        name: name(alloc, b"k")?,
        kind: OpKind::Filter(Expr {
            node: ExprNode::Col(column),
        }),
        reads: lone(alloc, Wire::Port(0))?,
    };
    let inputs = lone(alloc, StreamRef::Source(0))?;
    let ops = lone(alloc, op)?;
    Ok(FragSpec {
        name: name(alloc, b"f")?,
        replicas: 2,
        delay: None,
        inputs,
        ops,
    })
}

/// Lines 1 to 4 are the header, 5 and 6 the source and its entry, 7 the fragment, 8 its filter, 9 the client, 10 `begin`; 11 and 12
/// are directives, and 13 the tick.
fn script(
    alloc: Global,
    column: u64,
    first: Directive,
    second: Directive,
) -> Result<Script, NoMemory> {
    let client = ClientSpec {
        name: name(alloc, b"c")?,
        input: StreamRef::Frag(0),
    };
    let mut directives = lone(alloc, first)?;
    directives.push(second)?;
    let phase = Phase { directives, now: 4 };
    let sources = lone(alloc, source(alloc)?)?;
    let frags = lone(alloc, fragment(alloc, column)?)?;
    let clients = lone(alloc, client)?;
    let plan = Plan {
        version: 1,
        passing: false,
        width: 10,
        delay: 5,
        end: 100,
        sources,
        frags,
        clients,
    };
    Ok(Script {
        plan,
        phases: lone(alloc, phase)?,
        settle: true,
    })
}

/// The first fault of a script, and that of line 0 where it isn't in range.
fn fault_of(script: &Script) -> Option<PlanFault> {
    if !is_in_range(script) {
        return Some(PlanFault {
            line: 0,
            reason: Reason::OutOfRange,
        });
    }
    match check(script) {
        Ok(()) => None,
        Err(fault) => Some(fault),
    }
}

#[test]
fn small_scripts(rt: HostRuntime) -> Result<(), Fail> {
    let alloc = rt.alloc();
    let crash = Directive::Crash(1);
    let good = script(alloc, 0, crash, Directive::Restart(1))?;
    let no_column = script(alloc, 1, crash, Directive::Restart(1))?;
    let no_link = script(alloc, 0, Directive::Cut(0, 3), crash)?;
    let crashed_twice = script(alloc, 0, crash, crash)?;
    assert_eq!(rt; fault_of(&good), None);
    assert_eq!(rt;
        fault_of(&no_column),
        Some(PlanFault {
            line: 8,
            reason: Reason::NoSuchColumn
        })
    );
    assert_eq!(rt;
        fault_of(&no_link),
        Some(PlanFault {
            line: 11,
            reason: Reason::Unknown
        })
    );
    assert_eq!(rt;
        fault_of(&crashed_twice),
        Some(PlanFault {
            line: 12,
            reason: Reason::AgainstState
        })
    );
    Ok(())
}
