//! The commands that wait for nobody, which are all but `live`.
ghost use Rattle.std.specs.Prelude.{◌≡◌, ◌⊎◌, ℕ, List, IfOk, Some, None, map, string_bytes};
ghost use Rattle.dpc_edge.specs.Edges.{Stays};
ghost use Rattle.dpc_model.specs.ScriptText.{script_text};
ghost use Rattle.report.specs.Text.{ideal_text};
ghost use Rattle.ideal_run.specs.IdealPlans.{IsIdealPlan};
ghost use Rattle.load_gen.specs.Generated.{generated};
ghost use Rattle.script_rules.specs.ReasonTable.{reasons_text};
ghost use Rattle.journal_commands.specs.declared.outcome.JournalCommand as journal;
ghost use Rattle.picture_commands.specs.declared.form.PictureForm as drawn;
ghost use Rattle.status_lines.specs.Lines as lines;
ghost use Rattle.borealis_top.specs.Commands.{command_of, pair_of};
ghost use Rattle.borealis_top.specs.InputEnds.{EndsBy, IsWholeFor};
ghost use Rattle.borealis_top.specs.Questions.{journal_question, pair_question, saves_question, picture_question, replay_picture_question};
ghost use Rattle.borealis_top.specs.Texts.{help_text, version_text, unknown_words_line};
ghost use Rattle.borealis_top.specs.Ends.{IsTold, IsToldBoth, IsToldOpen, IsToldAlong, ReadEnds, ReadIsWhole, GenEnds};
ghost use Rattle.borealis_top.specs.declared.command.Reading as reading;

use crate::answer::{Answer, answer_script};
use crate::asking::{NodeSaves, ReplayPicture, ask};
use crate::command::{Command, Reading, command_in, pair_in};
use crate::status::Status;
use crate::transfer::{InputFault, MOST_INPUT, read_whole};
use diagram_printer::print_script;
use diagram_reader::faults::ScriptFault;
use diagram_reader::read_script;
use dpc_edge::sink::Sink;
use dpc_edge::source::Source;
use dpc_edge::whole::write_whole;
use dpc_lists::faults::NoMemory;
use dpc_model::plans::Plan;
use ideal_run::faults::WriteFault;
use ideal_run::write_ideal;
use load_gen::generate;
use script_rules::reasons::{PlanFault, Reason};
use status_lines::fault_line;
use std::alloc::Global;

/// What `--help` writes.
const HELP: &[u8] = b"\
borealis run < SCRIPT             runs a script, and writes what each client received
borealis run short < SCRIPT       the summary lines alone
borealis run json < SCRIPT        the same as JSON
borealis run frames < SCRIPT      the same as frames of bytes
borealis check < SCRIPT           tells whether a script is right, or its first faulty line and why
borealis print < SCRIPT           writes a script in canonical form
borealis ideal < SCRIPT           writes the failure-free stream of each client
borealis replay < BOTH            runs the journal behind a script, and writes what each client received
borealis replay frames < BOTH     the same of a journal in frames
borealis audit < BOTH             compares the recorded stream behind a script with the failure-free one
borealis audit frames < BOTH      the same of a stream in frames
borealis upgrade < BOTH           writes a script, and the journal behind it if there is one, in the newest form
borealis live N < SCRIPT          runs a script by N threads, 1 to 16, and writes the journal and what each client received
borealis live N frames < SCRIPT   the same as frames
borealis live N pool M < SCRIPT   the same as live N, with M threads more, 1 to 16, that process what the N put into a pool
borealis live N watch R < SCRIPT  the same as live N, with R threads more, 1 to 8, that read what the clients take, and what they saw
borealis pair X Y < SCRIPT        runs a script, and writes one stream made of what clients X and Y of one stream received
borealis saves < SCRIPT           runs a script where each node saves its state at the end of each phase, and tells what each has saved
borealis picture < SCRIPT         runs a script, and draws what happened, as SVG for a browser
borealis picture text < SCRIPT    the same as text in at most 100 columns
borealis picture replay < BOTH    runs the journal behind a script, and draws what happened, as SVG for a browser
borealis picture replay text < BOTH  the same as text in at most 100 columns
borealis gen N                    writes the generated script of a number, 1 to 1000
borealis reasons                  writes the reasons to refuse a line, each with its number
borealis --help                   writes these lines
borealis --version                writes the version
The script language, and the reasons: docs/SCRIPT.md
";

/// What `reasons` writes: each reason's number, and what it says.
const REASONS: &[u8] = b"\
1  a byte that is neither printable ASCII nor a line feed
2  a first word that begins no line, or a word that can't stand at its place
3  too few or too many words, also of an expression
4  no number where one must stand
5  a number out of its range, or an end that is no multiple of the width
6  a line in the wrong part
7  a name that is taken, or a stream twice in one fragment
8  an unknown source, operator input, actor or node, or two actors without a link
9  a log time below the one before, or not below the end
10  a column that is not there, a wrong number of values, unequal columns in a union, or more than 8 columns in a result
11  a fragment or client that reads what was not declared before it
12  a part that is missing at begin, or at the end of input no begin, or directives without a tick
13  a clock below the one before, a crash of a node that is down, or a restart of one that is up
14  past a limit
";

/// What `--version` writes.
const VERSION: &[u8] = b"borealis 0.1\n";

/// The line for words that are no command.
const UNKNOWN_WORDS: &[u8] = b"borealis: unknown words\n";

/// The refusal of an input that is longer than the longest.
pub(crate) const TOO_LONG: PlanFault = PlanFault {
    line: 0,
    reason: Reason::PastLimit,
};

/// The line on clients that are not settled after all quiet phases.
const NOT_SETTLED: &[u8] = b"not settled\n";

/// Does what the words say, over any input and any sinks for the text and for one line on what is
/// wrong. It waits for nobody.
pub fn plain<S: Source, O: Sink, E: Sink>(
    alloc: Global,
    words: &[String],
    input: &mut S,
    out: &mut O,
    err: &mut E,
) -> Status
    ensures words { command_of (map string_bytes words.now) ≡ None → pair_of (map string_bytes words.now) ≡ None
        → IsTold (E.edge err.old) (E.edge err.new) unknown_words_line Status.Words result
        × (out.new ≡ out.old) × (input.new ≡ input.old) }
    ensures help { command_of (map string_bytes words.now) ≡ Some Command.Help
        → IsTold (O.edge out.old) (O.edge out.new) help_text Status.Done result
        × (err.new ≡ err.old) × (input.new ≡ input.old) }
    ensures reasons { command_of (map string_bytes words.now) ≡ Some Command.Reasons
        → IsTold (O.edge out.old) (O.edge out.new) reasons_text Status.Done result
        × (err.new ≡ err.old) × (input.new ≡ input.old) }
    ensures version { command_of (map string_bytes words.now) ≡ Some Command.Version
        → IsTold (O.edge out.old) (O.edge out.new) version_text Status.Done result
        × (err.new ≡ err.old) × (input.new ≡ input.old) }
    ensures made { (seed : ℕ) → command_of (map string_bytes words.now) ≡ Some (Command.Gen seed)
        → GenEnds seed (O.edge out.old) (O.edge out.new) result
        × (err.new ≡ err.old) × (input.new ≡ input.old) }
    ensures read { (what : reading.Reading) → command_of (map string_bytes words.now) ≡ Some (Command.Read what)
        → ReadEnds what (S.edge input.old) (S.edge input.new) (O.edge out.old) (O.edge out.new) (E.edge err.old) (E.edge err.new) result }
    ensures complete { (what : reading.Reading) → command_of (map string_bytes words.now) ≡ Some (Command.Read what)
        → ReadIsWhole what (S.edge input.old) (S.edge input.new) (O.edge out.old) (O.edge out.new) (E.edge err.old)
        (E.edge err.new) result }
    ensures journal { (what : journal.JournalCommand) → command_of (map string_bytes words.now) ≡ Some (Command.Journal what)
        → EndsBy (journal_question what) (S.edge input.old) (S.edge input.new) (O.edge out.old) (O.edge out.new) (E.edge err.old) (E.edge err.new) result }
    ensures answered { (what : journal.JournalCommand) → command_of (map string_bytes words.now) ≡ Some (Command.Journal what)
        → IsWholeFor (journal_question what) (S.edge input.old) (S.edge input.new) (O.edge out.old) (O.edge out.new) (E.edge err.old)
        (E.edge err.new) result }
    ensures saves { command_of (map string_bytes words.now) ≡ Some Command.Saves
        → EndsBy saves_question (S.edge input.old) (S.edge input.new) (O.edge out.old) (O.edge out.new) (E.edge err.old) (E.edge err.new) result }
    ensures saved { command_of (map string_bytes words.now) ≡ Some Command.Saves
        → IsWholeFor saves_question (S.edge input.old) (S.edge input.new) (O.edge out.old) (O.edge out.new) (E.edge err.old)
        (E.edge err.new) result }
    ensures picture { (form : drawn.PictureForm) → command_of (map string_bytes words.now) ≡ Some (Command.Picture form)
        → EndsBy (picture_question form) (S.edge input.old) (S.edge input.new) (O.edge out.old) (O.edge out.new) (E.edge err.old) (E.edge err.new) result }
    ensures pictured { (form : drawn.PictureForm) → command_of (map string_bytes words.now) ≡ Some (Command.Picture form)
        → IsWholeFor (picture_question form) (S.edge input.old) (S.edge input.new) (O.edge out.old) (O.edge out.new) (E.edge err.old)
        (E.edge err.new) result }
    ensures replay_picture { (form : drawn.PictureForm) → command_of (map string_bytes words.now) ≡ Some (Command.PictureReplay form)
        → EndsBy (replay_picture_question form) (S.edge input.old) (S.edge input.new) (O.edge out.old) (O.edge out.new) (E.edge err.old)
        (E.edge err.new) result }
    ensures replay_pictured { (form : drawn.PictureForm) → command_of (map string_bytes words.now) ≡ Some (Command.PictureReplay form)
        → IsWholeFor (replay_picture_question form) (S.edge input.old) (S.edge input.new) (O.edge out.old) (O.edge out.new) (E.edge err.old)
        (E.edge err.new) result }
    ensures pair { (first second : List ℕ) → pair_of (map string_bytes words.now) ≡ Some (first, second)
        → EndsBy (pair_question first second) (S.edge input.old) (S.edge input.new) (O.edge out.old) (O.edge out.new)
        (E.edge err.old) (E.edge err.new) result }
    ensures paired { (first second : List ℕ) → pair_of (map string_bytes words.now) ≡ Some (first, second)
        → IsWholeFor (pair_question first second) (S.edge input.old) (S.edge input.new) (O.edge out.old) (O.edge out.new)
        (E.edge err.old) (E.edge err.new) result }
{
    if let Some(names) = pair_in(words) {
        return ask(alloc, &names, input, out, err);
    }
    match command_in(words) {
        None => told(err, UNKNOWN_WORDS, Status::Words),
        Some(Command::Help) => told(out, HELP, Status::Done),
        Some(Command::Reasons) => tell_reasons(out),
        Some(Command::Version) => told(out, VERSION, Status::Done),
        Some(Command::Gen(seed)) => gen_script(alloc, seed, out),
        Some(Command::Read(reading)) => read(alloc, reading, input, out, err),
        Some(Command::Journal(what)) => ask(alloc, &what, input, out, err),
        Some(Command::Saves) => ask(alloc, &NodeSaves, input, out, err),
        Some(Command::Picture(form)) => ask(alloc, &form, input, out, err),
        Some(Command::PictureReplay(form)) => {
            ask(alloc, &ReplayPicture { form }, input, out, err)
        }
    }
}

/// Writes a text or a line: the status is this one, or that of a failed write.
pub(crate) fn told<K: Sink>(sink: &mut K, text: &[u8], status: Status) -> Status
    ensures { IsTold (K.edge sink.old) (K.edge sink.new) text.now status result }
{
    match write_whole(sink, text) {
        Ok(()) => status,
        Err(_) => Status::WriteFault,
    }
}

/// Writes the table of reasons.
fn tell_reasons<O: Sink>(out: &mut O) -> Status
    ensures { IsTold (O.edge out.old) (O.edge out.new) reasons_text Status.Done result }
{
    told(out, REASONS, Status::Done)
}

/// The text of the generated script of a number.
fn generated_text(alloc: Global, seed: u64) -> Result<Vec<u8>, NoMemory>
    ensures { IfOk result (λ text. text.items ≡ script_text (generated seed)) }
{
    let script = generate(alloc, seed)?;
    print_script(alloc, &script)
}

/// Writes the generated script of a number.
fn gen_script<O: Sink>(alloc: Global, seed: u64, out: &mut O) -> Status
    ensures { GenEnds seed (O.edge out.old) (O.edge out.new) result }
{
    match generated_text(alloc, seed) {
        Ok(text) => told(out, text.as_slice(), Status::Done),
        Err(NoMemory) => Status::NoMemory,
    }
}

/// Reads a script, and writes what is asked of it.
fn read<S: Source, O: Sink, E: Sink>(
    alloc: Global,
    reading: Reading,
    input: &mut S,
    out: &mut O,
    err: &mut E,
) -> Status
    ensures ends { ReadEnds reading (S.edge input.old) (S.edge input.new) (O.edge out.old) (O.edge out.new)
        (E.edge err.old) (E.edge err.new) result }
    ensures complete { ReadIsWhole reading (S.edge input.old) (S.edge input.new) (O.edge out.old) (O.edge out.new)
        (E.edge err.old) (E.edge err.new) result }
{
    let text = match read_whole(alloc, input, MOST_INPUT) {
        Ok(text) => text,
        Err(InputFault::NoMemory) => return Status::NoMemory,
        Err(InputFault::Failed) => return Status::ReadFault,
        Err(InputFault::TooLong) => return refused(alloc, err, TOO_LONG),
    };
    let script = read_script(alloc, text.as_slice());
    // a run takes long, and does not need the text
    drop(text);
    match script {
        Ok(script) => match answer_script(alloc, reading, script) {
            Ok(Answer::Text(text)) => told(out, text.as_slice(), Status::Done),
            Ok(Answer::Open(text)) => told_open(out, err, text.as_slice()),
            Ok(Answer::Ideal(plan)) => told_ideal(alloc, &plan, out),
            Ok(Answer::TooLong(line)) => told(err, line.as_slice(), Status::TooLong),
            Err(NoMemory) => Status::NoMemory,
        },
        Err(ScriptFault::NoMemory) => Status::NoMemory,
        Err(ScriptFault::Refused(fault)) => refused(alloc, err, fault),
    }
}

/// Writes the report of a run that left a client open, and then the line that says so.
pub(crate) fn told_open<O: Sink, E: Sink>(out: &mut O, err: &mut E, text: &[u8]) -> Status
    ensures { IsToldOpen (O.edge out.old) (O.edge out.new) (E.edge err.old) (E.edge err.new) text.now result }
{
    told_both(out, err, text, NOT_SETTLED, Status::NotSettled)
}

/// Writes a text, and then a line on what is wrong: the status is this one, or that of a failed write.
pub(crate) fn told_both<O: Sink, E: Sink>(
    out: &mut O,
    err: &mut E,
    text: &[u8],
    line: &[u8],
    status: Status,
) -> Status
    ensures { IsToldBoth (O.edge out.old) (O.edge out.new) (E.edge err.old) (E.edge err.new) text.now line.now status result }
{
    match write_whole(out, text) {
        Ok(()) => told(err, line, status),
        Err(_) => Status::WriteFault,
    }
}

/// Writes the failure-free streams of a plan as they are milled.
fn told_ideal<O: Sink>(alloc: Global, plan: &Plan, out: &mut O) -> Status
    requires { IsIdealPlan plan.now }
    ensures { IsToldAlong (O.edge out.old) (O.edge out.new) (ideal_text plan.now) result }
{
    match write_ideal(alloc, plan, out) {
        Ok(()) => Status::Done,
        Err(WriteFault::NoMemory) => Status::NoMemory,
        Err(WriteFault::Failed) => Status::WriteFault,
    }
}

/// Tells the first faulty line and the reason.
fn refused<K: Sink>(alloc: Global, err: &mut K, fault: PlanFault) -> Status
    ensures { IsTold (K.edge err.old) (K.edge err.new) (lines.fault_line fault) Status.Refused result
        ⊎ ((result ≡ Status.NoMemory) × Stays (K.edge err.old) (K.edge err.new)) }
{
    match fault_line(alloc, fault) {
        Ok(text) => told(err, text.as_slice(), Status::Refused),
        Err(_) => Status::NoMemory,
    }
}
