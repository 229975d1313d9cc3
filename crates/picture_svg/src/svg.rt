//! The whole picture.
ghost use Rattle.std.specs.Prelude.{◌≡◌, ◌<◌, ◌++◌, ◌^◌, length, flat_map, IfOk, OnOk};
ghost use Rattle.dpc_model.specs.Words.{spaced};
ghost use Rattle.picture_text.specs.Text.{title_words};
ghost use Rattle.picture_svg.specs.Svg.{line_text, size_text, style_text, title_text, desc_text, head_text, width_of, legend_top, legend_text, node_labels, source_lanes, replica_lanes, client_lanes, all_lanes, picture_svg};

use crate::axis::{put_all_marks, put_axis, step_of};
use crate::lanes::{put_client, put_links, put_replica, put_source};
use crate::layout::{client_top, count_of, left_at, replica_top, source_top};
use crate::marks::told_of;
use crate::shapes::{put_decimal, put_escaped, put_text};
use diagram_printer::names::source_name;
use dpc_lists::faults::NoMemory;
use dpc_lists::lists::Name;
use dpc_model::plans::Plan;
use line_writer::{end_line, put_first};
use picture_model::columns::Column;
use picture_text::labels::put_frags;
use picture_text::text::{client_name, put_title_words};
use std::alloc::Global;

/// How wide and how high the picture is.
fn put_size(text: &mut Vec<u8>, width: u128, height: u128) -> Result<(), NoMemory>
    ensures { OnOk result (text.new.items ≡ text.old.items ++ size_text width height) }
{
    put_first(text, b" width='")?;
    put_decimal(text, width)?;
    put_first(text, b"' height='")?;
    put_decimal(text, height)?;
    put_first(text, b"' viewBox='0 0 ")?;
    put_decimal(text, width)?;
    put_first(text, b" ")?;
    put_decimal(text, height)?;
    put_first(text, b"'")?;
    Ok(())
}

/// A line of the colours.
fn put_style_line(text: &mut Vec<u8>, line: &[u8]) -> Result<(), NoMemory>
    ensures { OnOk result (text.new.items ≡ text.old.items ++ line_text line.now) }
{
    put_first(text, line)?;
    end_line(text)?;
    Ok(())
}

/// The colours.
fn put_style(text: &mut Vec<u8>) -> Result<(), NoMemory>
    ensures { OnOk result (text.new.items ≡ text.old.items ++ style_text) }
{
    put_style_line(
        text,
        b"<style>svg{background:#fff}text{fill:#222}path{fill:none;stroke-width:16}.b{fill:#bcd}.e,.t,.f{stroke-width:2}.e{stroke:#468}",
    )?;
    put_style_line(
        text,
        b".S{stroke:#9d9}.U{stroke:#fb4}.C{stroke:#d9d}.R{stroke:#9bf}.x{stroke:#ccc}.k{stroke:#bdb}.f{stroke:#262}.t{stroke:#e80;stroke-dasharray:3 2}.m{stroke:#d44;stroke-width:1}",
    )?;
    put_style_line(
        text,
        b"@media(prefers-color-scheme:dark){svg{background:#181a1b}text{fill:#ddd}.b{fill:#245}.e{stroke:#9bc}.S{stroke:#263}.U{stroke:#840}.C{stroke:#636}",
    )?;
    put_style_line(
        text,
        b".R{stroke:#246}.x{stroke:#444}.k{stroke:#253}.f{stroke:#8d8}}</style>",
    )?;
    Ok(())
}

/// The title.
fn put_title(text: &mut Vec<u8>, title: &[u8]) -> Result<(), NoMemory>
    ensures { OnOk result (text.new.items ≡ text.old.items ++ title_text title.now) }
{
    put_first(text, b"<title>")?;
    put_first(text, title)?;
    put_first(text, b"</title>")?;
    end_line(text)?;
    Ok(())
}

/// What is told to who can't see it.
fn put_desc(text: &mut Vec<u8>, told: &[u8]) -> Result<(), NoMemory>
    ensures { OnOk result (text.new.items ≡ text.old.items ++ desc_text told.now) }
{
    put_first(text, b"<desc>")?;
    put_escaped(text, told)?;
    put_first(text, b"</desc>")?;
    end_line(text)?;
    Ok(())
}

/// The head, with the title twice.
fn put_head(
    text: &mut Vec<u8>,
    width: u128,
    height: u128,
    title: &[u8],
    told: &[u8],
) -> Result<(), NoMemory>
    ensures { OnOk result (text.new.items ≡ text.old.items ++ head_text width height title.now told.now) }
{
    put_first(
        text,
        b"<svg xmlns='http://www.w3.org/2000/svg' role='img' font-family='sans-serif' font-size='12'",
    )?;
    put_size(text, width, height)?;
    put_first(text, b">")?;
    put_title(text, title)?;
    put_desc(text, told)?;
    put_style(text)?;
    put_text(text, 10, 20, title)?;
    Ok(())
}

/// The lanes of all sources.
fn put_sources(
    text: &mut Vec<u8>,
    alloc: Global,
    plan: &Plan,
    columns: &[Column],
) -> Result<(), NoMemory>
    ensures { OnOk result (text.new.items ≡ text.old.items ++ source_lanes plan.now columns.now) }
{
    let step = step_of(columns);
    for s in 0..plan.sources.len() {
        put_source(
            text,
            alloc,
            step,
            plan.end,
            columns,
            source_name(plan, s as u64),
            source_top(s),
            s as u64,
        )?;
    }
    Ok(())
}

/// The lanes of all replicas, which have these names, below so many sources.
fn put_replicas(
    text: &mut Vec<u8>,
    alloc: Global,
    sources: usize,
    labels: &[Name],
    columns: &[Column],
) -> Result<(), NoMemory>
    ensures { OnOk result (text.new.items ≡ text.old.items ++ replica_lanes sources labels.now columns.now) }
{
    let step = step_of(columns);
    for r in 0..labels.len() {
        put_replica(
            text,
            alloc,
            step,
            columns,
            labels[r].as_slice(),
            replica_top(sources, r),
            r as u64,
        )?;
    }
    Ok(())
}

/// The lanes of all clients, below so many replicas.
fn put_clients(
    text: &mut Vec<u8>,
    alloc: Global,
    replicas: usize,
    plan: &Plan,
    columns: &[Column],
) -> Result<(), NoMemory>
    ensures { OnOk result (text.new.items ≡ text.old.items ++ client_lanes replicas plan.now columns.now) }
{
    let step = step_of(columns);
    let sources = plan.sources.len();
    for c in 0..plan.clients.len() {
        put_client(
            text,
            alloc,
            step,
            columns,
            client_name(plan, c),
            client_top(sources, replicas, c),
            c as u64,
        )?;
    }
    Ok(())
}

/// All lanes, where the replicas have these names.
fn put_lanes(
    text: &mut Vec<u8>,
    alloc: Global,
    plan: &Plan,
    labels: &[Name],
    columns: &[Column],
) -> Result<(), NoMemory>
    ensures { OnOk result (text.new.items ≡ text.old.items ++ all_lanes plan.now labels.now columns.now) }
{
    let sources = plan.sources.len();
    put_sources(text, alloc, plan, columns)?;
    put_links(text, alloc, step_of(columns), columns, source_top(sources))?;
    put_replicas(text, alloc, sources, labels, columns)?;
    put_clients(text, alloc, labels.len(), plan, columns)?;
    Ok(())
}

/// What it all means, from this height on.
fn put_legend(text: &mut Vec<u8>, y: u128) -> Result<(), NoMemory>
    requires { y < 2 ^ 100 }
    ensures { OnOk result (text.new.items ≡ text.old.items ++ legend_text y) }
{
    put_text(
        text,
        10,
        y + 24,
        b"events: c cut, h heal, l lose, 2 repeat, x crash, r restart, g grant; the line below tells which",
    )?;
    put_text(
        text,
        10,
        y + 42,
        b"sources: area, how far all is released; line, how far it is sent; the height is the whole time",
    )?;
    put_text(text, 10, y + 60, b"cut links: how many, # ten or more")?;
    put_text(
        text,
        10,
        y + 78,
        b"replicas: S STABLE, U UP_FAILURE, C STABILIZATION, R recovering, x down",
    )?;
    put_text(
        text,
        10,
        y + 96,
        b"clients: solid, stable tuples, with their number at the end; dashed, with the tentative ones; u undo, d rec_done",
    )?;
    put_text(
        text,
        10,
        y + 114,
        b"reads: the number of the replica that the client reads",
    )?;
    Ok(())
}

/// The names of all replicas.
fn node_labels(alloc: Global, plan: &Plan) -> Result<Vec<Name>, NoMemory>
    ensures { IfOk result (λ labels. labels.items ≡ node_labels plan.now) }
{
    let mut labels = Vec::new(alloc);
    put_frags(alloc, &mut labels, plan.frags.as_slice())?;
    Ok(labels)
}

/// The words of the title.
fn title(alloc: Global, columns: &[Column]) -> Result<Vec<u8>, NoMemory>
    ensures { IfOk result (λ title. title.items ≡ spaced (title_words columns.now)) }
{
    let mut title = Vec::new(alloc);
    put_title_words(&mut title, columns)?;
    Ok(title)
}

/// How wide the picture is.
fn width_of(columns: &[Column]) -> u128
    ensures { result ≡ width_of columns.now }
{
    (left_at(step_of(columns), count_of(columns)) + 60).max(780)
}

/// The picture of a run of this plan. It stands alone: no script, and nothing from outside. The only error is want of
/// memory; a number of tuples out of range counts as that.
pub fn picture_svg(alloc: Global, plan: &Plan, columns: &[Column]) -> Result<Vec<u8>, NoMemory>
    ensures { IfOk result (λ text. text.items ≡ picture_svg plan.now columns.now) }
{
    let labels = node_labels(alloc, plan)?;
    let title = title(alloc, columns)?;
    let told = told_of(alloc, plan, columns)?;
    let low = client_top(plan.sources.len(), labels.len(), plan.clients.len());
    let mut text = Vec::new(alloc);
    put_head(
        &mut text,
        width_of(columns),
        low + 130,
        title.as_slice(),
        told.as_slice(),
    )?;
    put_axis(&mut text, columns)?;
    put_lanes(&mut text, alloc, plan, labels.as_slice(), columns)?;
    put_all_marks(&mut text, alloc, plan, columns, low)?;
    put_legend(&mut text, low)?;
    put_first(&mut text, b"</svg>")?;
    end_line(&mut text)?;
    Ok(text)
}
