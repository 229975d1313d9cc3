//! The lines of a script.
ghost use Rattle.std.specs.Prelude.{◌≡◌, ◌∷◌, [], ◌++◌, OnOk, IfOk, flat_map, map, codes, decimal};
ghost use Rattle.dpc_model.specs.Words.{line_of, text_of};
ghost use Rattle.dpc_model.specs.ScriptText.{number_line, passing_lines, header_lines, log_line, source_lines, patience_lines, operator_line, frag_lines, client_line, plan_lines, directive_line, phase_lines, settle_lines, script_text, stream_name, actor_name, source_name};
ghost use Rattle.dpc_model.specs.declared.scripts.Directive.{Directive};
ghost use Rattle.line_writer.specs.Spaces.{behind_spaces};

use crate::names::{put_actor, source_name, stream_name};
use crate::operators::put_operator;
use dpc_lists::faults::NoMemory;
use dpc_model::operators::OpSpec;
use dpc_model::plans::{ClientSpec, FragSpec, Plan, SourceSpec, StreamRef};
use dpc_model::scripts::{Directive, Phase, Script};
use dpc_model::tuples::Tuple;
use line_writer::{end_line, put_first, put_number, put_values, put_word};
use std::alloc::Global;

/// A line of one word.
fn put_alone(text: &mut Vec<u8>, word: &[u8]) -> Result<(), NoMemory>
    ensures { OnOk result (text.new.items ≡ text.old.items ++ line_of (word.now ∷ [])) }
{
    put_first(text, word)?;
    end_line(text)
}

/// A line of a word and a number.
fn put_numbered(text: &mut Vec<u8>, word: &[u8], number: u64) -> Result<(), NoMemory>
    ensures { OnOk result (text.new.items ≡ text.old.items ++ line_of (number_line word.now number)) }
{
    put_first(text, word)?;
    put_number(text, number)?;
    end_line(text)
}

/// Whether tuples are passed on, where the version says it by a line.
fn put_passing(text: &mut Vec<u8>, plan: &Plan) -> Result<(), NoMemory>
    ensures { OnOk result (text.new.items ≡ text.old.items ++ text_of (passing_lines plan.now)) }
{
    if plan.version != 3 {
        return Ok(());
    }
    put_numbered(text, b"passing", u64::from(plan.passing))
}

/// The header.
fn put_header(text: &mut Vec<u8>, plan: &Plan) -> Result<(), NoMemory>
    ensures { OnOk result (text.new.items ≡ text.old.items ++ text_of (header_lines plan.now)) }
{
    put_numbered(text, b"borealis", plan.version)?;
    put_numbered(text, b"width", plan.width)?;
    put_numbered(text, b"delay", plan.delay)?;
    put_numbered(text, b"end", plan.end)?;
    put_passing(text, plan)
}

/// The line of an entry of a source's log.
fn put_entry(text: &mut Vec<u8>, name: &[u8], tuple: &Tuple) -> Result<(), NoMemory>
    ensures { OnOk result (text.new.items ≡ text.old.items ++ line_of (log_line name.now tuple.now)) }
{
    put_first(text, b"log")?;
    put_word(text, name)?;
    put_number(text, tuple.stime)?;
    put_values(text, tuple.vals.as_slice())?;
    end_line(text)?;
    Ok(())
}

/// The lines of a source's log.
fn put_log(text: &mut Vec<u8>, name: &[u8], log: &[Tuple]) -> Result<(), NoMemory>
    ensures { OnOk result (text.new.items ≡ text.old.items ++ text_of (map (log_line name.now) log.now)) }
{
    for tuple in log {
        put_entry(text, name, tuple)?;
    }
    Ok(())
}

/// A source, and its log.
fn put_source(text: &mut Vec<u8>, source: &SourceSpec) -> Result<(), NoMemory>
    ensures { OnOk result (text.new.items ≡ text.old.items ++ text_of (source_lines source.now)) }
{
    put_first(text, b"source")?;
    put_word(text, source.name.as_slice())?;
    put_number(text, source.columns)?;
    end_line(text)?;
    put_log(text, source.name.as_slice(), source.log.as_slice())
}

/// All sources.
fn put_sources(text: &mut Vec<u8>, sources: &[SourceSpec]) -> Result<(), NoMemory>
    ensures { OnOk result (text.new.items ≡ text.old.items ++ text_of (flat_map source_lines sources.now)) }
{
    for source in sources {
        put_source(text, source)?;
    }
    Ok(())
}

/// The names of streams, each behind a space.
fn put_streams(text: &mut Vec<u8>, plan: &Plan, streams: &[StreamRef]) -> Result<(), NoMemory>
    ensures { OnOk result (text.new.items ≡ text.old.items ++ behind_spaces (map (stream_name plan.now) streams.now)) }
{
    for stream in streams {
        put_word(text, stream_name(plan, *stream))?;
    }
    Ok(())
}

/// The line of a fragment's own delay, where it has one.
fn put_patience(text: &mut Vec<u8>, delay: Option<u64>) -> Result<(), NoMemory>
    ensures { OnOk result (text.new.items ≡ text.old.items ++ text_of (patience_lines delay)) }
{
    match delay {
        None => Ok(()),
        Some(delay) => put_numbered(text, b"patience", delay),
    }
}

/// The lines of operators.
fn put_operators(
    text: &mut Vec<u8>,
    plan: &Plan,
    frag: &FragSpec,
    ops: &[OpSpec],
) -> Result<(), NoMemory>
    ensures { OnOk result (text.new.items ≡ text.old.items ++ text_of (map (operator_line plan.now frag.now) ops.now)) }
{
    for op in ops {
        put_operator(text, plan, frag, op)?;
    }
    Ok(())
}

/// The line of a fragment.
fn put_fragment_line(text: &mut Vec<u8>, plan: &Plan, frag: &FragSpec) -> Result<(), NoMemory>
    ensures { OnOk result (text.new.items
        ≡ text.old.items ++ line_of (codes "fragment" ∷ frag.now.name ∷ decimal frag.now.replicas ∷
        map (stream_name plan.now) frag.now.inputs)) }
{
    put_first(text, b"fragment")?;
    put_word(text, frag.name.as_slice())?;
    put_number(text, frag.replicas)?;
    put_streams(text, plan, frag.inputs.as_slice())?;
    end_line(text)?;
    Ok(())
}

/// A fragment, and its operators.
fn put_fragment(text: &mut Vec<u8>, plan: &Plan, frag: &FragSpec) -> Result<(), NoMemory>
    ensures { OnOk result (text.new.items ≡ text.old.items ++ text_of (frag_lines plan.now frag.now)) }
{
    put_fragment_line(text, plan, frag)?;
    put_patience(text, frag.delay)?;
    put_operators(text, plan, frag, frag.ops.as_slice())?;
    Ok(())
}

/// All fragments.
fn put_fragments(text: &mut Vec<u8>, plan: &Plan) -> Result<(), NoMemory>
    ensures { OnOk result (text.new.items ≡ text.old.items ++ text_of (flat_map (frag_lines plan.now) plan.now.frags)) }
{
    for frag in plan.frags.as_slice() {
        put_fragment(text, plan, frag)?;
    }
    Ok(())
}

/// The line of a client.
fn put_client(text: &mut Vec<u8>, plan: &Plan, client: &ClientSpec) -> Result<(), NoMemory>
    ensures { OnOk result (text.new.items ≡ text.old.items ++ line_of (client_line plan.now client.now)) }
{
    put_first(text, b"client")?;
    put_word(text, client.name.as_slice())?;
    put_word(text, stream_name(plan, client.input))?;
    end_line(text)
}

/// All clients.
fn put_clients(text: &mut Vec<u8>, plan: &Plan) -> Result<(), NoMemory>
    ensures { OnOk result (text.new.items ≡ text.old.items ++ text_of (map (client_line plan.now) plan.now.clients)) }
{
    for client in plan.clients.as_slice() {
        put_client(text, plan, client)?;
    }
    Ok(())
}

/// The plan.
fn put_plan(text: &mut Vec<u8>, plan: &Plan) -> Result<(), NoMemory>
    ensures { OnOk result (text.new.items ≡ text.old.items ++ text_of (plan_lines plan.now)) }
{
    put_header(text, plan)?;
    put_sources(text, plan.sources.as_slice())?;
    put_fragments(text, plan)?;
    put_clients(text, plan)
}

/// A line by which a source sends what lies below a time.
fn put_sending(
    text: &mut Vec<u8>,
    plan: &Plan,
    word: &[u8],
    source: u64,
    time: u64,
) -> Result<(), NoMemory>
    ensures { OnOk result (text.new.items ≡ text.old.items ++ line_of (word.now ∷ source_name plan.now source ∷ decimal time ∷ [])) }
{
    put_first(text, word)?;
    put_word(text, source_name(plan, source))?;
    put_number(text, time)?;
    end_line(text)
}

/// A line on the link from one actor to another.
fn put_link(
    text: &mut Vec<u8>,
    plan: &Plan,
    word: &[u8],
    from: u64,
    to: u64,
) -> Result<(), NoMemory>
    ensures { OnOk result (text.new.items ≡ text.old.items ++ line_of (word.now ∷ actor_name plan.now from ∷ actor_name plan.now to ∷ [])) }
{
    put_first(text, word)?;
    put_actor(text, plan, from)?;
    put_actor(text, plan, to)?;
    end_line(text)
}

/// A line on one actor.
fn put_single(text: &mut Vec<u8>, plan: &Plan, word: &[u8], actor: u64) -> Result<(), NoMemory>
    ensures { OnOk result (text.new.items ≡ text.old.items ++ line_of (word.now ∷ actor_name plan.now actor ∷ [])) }
{
    put_first(text, word)?;
    put_actor(text, plan, actor)?;
    end_line(text)
}

/// The line of a directive.
fn put_directive(text: &mut Vec<u8>, plan: &Plan, directive: Directive) -> Result<(), NoMemory>
    ensures { OnOk result (text.new.items ≡ text.old.items ++ line_of (directive_line plan.now directive)) }
{
    match directive {
        Directive::Emit(source, time) => put_sending(text, plan, b"emit", source, time),
        Directive::Release(source, time) => put_sending(text, plan, b"release", source, time),
        Directive::Cut(from, to) => put_link(text, plan, b"cut", from, to),
        Directive::Heal(from, to) => put_link(text, plan, b"heal", from, to),
        Directive::Lose(from, to) => put_link(text, plan, b"lose", from, to),
        Directive::Repeat(from, to) => put_link(text, plan, b"repeat", from, to),
        Directive::Crash(node) => put_single(text, plan, b"crash", node),
        Directive::Restart(node) => put_single(text, plan, b"restart", node),
    }
}

/// The directives of a phase.
fn put_directives(text: &mut Vec<u8>, plan: &Plan, directives: &[Directive]) -> Result<(), NoMemory>
    ensures { OnOk result (text.new.items ≡ text.old.items ++ text_of (map (directive_line plan.now) directives.now)) }
{
    for directive in directives {
        put_directive(text, plan, *directive)?;
    }
    Ok(())
}

/// A phase: its directives, and its tick.
fn put_phase(text: &mut Vec<u8>, plan: &Plan, phase: &Phase) -> Result<(), NoMemory>
    ensures { OnOk result (text.new.items ≡ text.old.items ++ text_of (phase_lines plan.now phase.entry.now)) }
{
    put_directives(text, plan, phase.directives.as_slice())?;
    put_numbered(text, b"tick", phase.now)
}

/// All phases.
fn put_phases(text: &mut Vec<u8>, plan: &Plan, phases: &[Phase]) -> Result<(), NoMemory>
    ensures { OnOk result (text.new.items ≡ text.old.items ++ text_of (flat_map (phase_lines plan.now) phases.now)) }
{
    for phase in phases {
        put_phase(text, plan, phase)?;
    }
    Ok(())
}

/// The last line of a script that ends by settling.
fn put_settle(text: &mut Vec<u8>, settle: bool) -> Result<(), NoMemory>
    ensures { OnOk result (text.new.items ≡ text.old.items ++ text_of (settle_lines settle)) }
{
    if settle {
        put_alone(text, b"settle")
    } else {
        Ok(())
    }
}

/// The canonical text of a script. It is linear in the text; the only error is want of memory.
pub fn print_script(alloc: Global, script: &Script) -> Result<Vec<u8>, NoMemory>
    ensures { IfOk result (λ text. text.items ≡ script_text script.now) }
{
    let mut text = Vec::new(alloc);
    put_plan(&mut text, &script.plan)?;
    put_alone(&mut text, b"begin")?;
    put_phases(&mut text, &script.plan, script.phases.as_slice())?;
    put_settle(&mut text, script.settle)?;
    Ok(text)
}
