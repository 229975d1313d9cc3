//! The commands that ask something of a whole input.
ghost use Rattle.std.specs.Prelude.{◌≡◌, ◌+◌, ◌<◌, ◌≤◌, ◌^◌, vec_len, IfOk, IfErr};
ghost use Rattle.borealis_top.specs.InputEnds.{Question, IsSound, IsOutcome, FailsSo, IsToldBy, EndsBy, IsWholeFor};
ghost use Rattle.journal_commands.specs.Endings.{Ending, IsEnding};

use crate::command::PairNames;
use crate::plain::{TOO_LONG, told, told_open};
use crate::status::Status;
use crate::transfer::{InputFault, MOST_INPUT, MOST_JOURNAL_INPUT, read_whole};
use dpc_edge::sink::Sink;
use dpc_edge::source::Source;
use dpc_lists::faults::NoMemory;
use journal_commands::outcome::{JournalCommand, Outcome};
use picture_commands::form::PictureForm;
use status_lines::fault_line;
use std::alloc::Global;

/// What is asked of a whole input.
pub(crate) trait Inquiry {
    ghost question: { Self → Question };

    /// An input that is longer than the longest is refused, and what is promised of an input holds. It does nothing.
    fn is_sound(&self)
        ensures { IsSound (question self.now) };

    /// How many bytes an input may have.
    fn most_input(&self) -> usize
        ensures most { result ≡ (question self.now).most }
        ensures small { result + 1 < 2 ^ 62 };

    /// What an input comes to.
    fn answer(&self, alloc: Global, input: Vec<u8>) -> Result<Outcome, NoMemory>
        requires { vec_len input ≤ (question self.now).most }
        ensures { IfOk result (λ outcome. (ending : Ending) × (question self.now).comes input.items ending × IsEnding ending outcome) };
}

impl Inquiry for JournalCommand {
    ghost use Rattle.borealis_top.specs.Questions.{journal_question};

    ghost question = { λ what. journal_question what };

    fn is_sound(&self) {}

    fn most_input(&self) -> usize {
        MOST_JOURNAL_INPUT
    }

    fn answer(&self, alloc: Global, input: Vec<u8>) -> Result<Outcome, NoMemory> {
        journal_commands::answer(alloc, *self, input)
    }
}

impl Inquiry for PairNames<'_> {
    ghost use Rattle.borealis_top.specs.Questions.{pair_question};

    ghost question = { λ names. pair_question names.first.now names.second.now };

    fn is_sound(&self) {}

    fn most_input(&self) -> usize {
        MOST_INPUT
    }

    fn answer(&self, alloc: Global, input: Vec<u8>) -> Result<Outcome, NoMemory> {
        pair_commands::answer(alloc, self.first, self.second, input)
    }
}

/// What nodes save in a script's run.
#[derive(Clone, Copy)]
pub struct NodeSaves;

impl Inquiry for NodeSaves {
    ghost use Rattle.borealis_top.specs.Questions.{saves_question};

    ghost question = { λ _. saves_question };

    fn is_sound(&self) {}

    fn most_input(&self) -> usize {
        MOST_INPUT
    }

    fn answer(&self, alloc: Global, input: Vec<u8>) -> Result<Outcome, NoMemory> {
        saves_commands::answer(alloc, input)
    }
}

impl Inquiry for PictureForm {
    ghost use Rattle.borealis_top.specs.Questions.{picture_question};

    ghost question = { λ form. picture_question form };

    fn is_sound(&self) {}

    fn most_input(&self) -> usize {
        MOST_INPUT
    }

    fn answer(&self, alloc: Global, input: Vec<u8>) -> Result<Outcome, NoMemory> {
        picture_commands::answer(alloc, *self, input)
    }
}

/// The picture of the run of the journal behind a script, in a form.
#[derive(Clone, Copy)]
pub struct ReplayPicture {
    pub form: PictureForm,
}

impl Inquiry for ReplayPicture {
    ghost use Rattle.borealis_top.specs.Questions.{replay_picture_question};

    ghost question = { λ asked. replay_picture_question asked.form };

    fn is_sound(&self) {}

    fn most_input(&self) -> usize {
        MOST_JOURNAL_INPUT
    }

    fn answer(&self, alloc: Global, input: Vec<u8>) -> Result<Outcome, NoMemory> {
        picture_commands::answer_replay(alloc, self.form, input)
    }
}

/// Reads a whole input, and tells what it comes to.
fn outcome_of<S: Source, A: Inquiry>(
    alloc: Global,
    what: &A,
    input: &mut S,
) -> Result<Outcome, InputFault>
    ensures ok { IfOk result (IsOutcome (A.question what.now) (S.edge input.old) (S.edge input.new)) }
    ensures err { IfErr result (FailsSo (A.question what.now) (S.edge input.old) (S.edge input.new)) }
{
    what.is_sound();
    match read_whole(alloc, input, what.most_input()) {
        Ok(text) => match what.answer(alloc, text) {
            Ok(outcome) => Ok(outcome),
            Err(_) => Err(InputFault::NoMemory),
        },
        Err(InputFault::TooLong) => match fault_line(alloc, TOO_LONG) {
            Ok(line) => Ok(Outcome::Refused(line)),
            Err(_) => Err(InputFault::NoMemory),
        },
        Err(InputFault::NoMemory) => Err(InputFault::NoMemory),
        Err(InputFault::Failed) => Err(InputFault::Failed),
    }
}

/// Writes what an input comes to.
fn tell<O: Sink, E: Sink>(out: &mut O, err: &mut E, outcome: Outcome) -> Status
    ensures { (ending : Ending) → IsEnding ending outcome
        → IsToldBy ending (O.edge out.old) (O.edge out.new) (E.edge err.old) (E.edge err.new) result }
{
    match outcome {
        Outcome::Text(text) => told(out, text.as_slice(), Status::Done),
        Outcome::Open(text) => told_open(out, err, text.as_slice()),
        Outcome::TooLong(line) => told(err, line.as_slice(), Status::TooLong),
        Outcome::Refused(line) => told(err, line.as_slice(), Status::Refused),
    }
}

/// Reads a whole input, and writes what is asked of it.
pub(crate) fn ask<S: Source, O: Sink, E: Sink, A: Inquiry>(
    alloc: Global,
    what: &A,
    input: &mut S,
    out: &mut O,
    err: &mut E,
) -> Status
    ensures ends { EndsBy (A.question what.now) (S.edge input.old) (S.edge input.new) (O.edge out.old) (O.edge out.new)
        (E.edge err.old) (E.edge err.new) result }
    ensures complete { IsWholeFor (A.question what.now) (S.edge input.old) (S.edge input.new) (O.edge out.old) (O.edge out.new)
        (E.edge err.old) (E.edge err.new) result }
{
    what.is_sound();
    match outcome_of(alloc, what, input) {
        Ok(outcome) => tell(out, err, outcome),
        Err(InputFault::Failed) => Status::ReadFault,
        Err(_) => Status::NoMemory,
    }
}
