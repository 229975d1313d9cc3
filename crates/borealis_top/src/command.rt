//! What the words of the command line ask for.
ghost use Rattle.std.specs.Prelude.{◌≡◌, None, Some, map, string_bytes, bytes_eq, MatchOption};
ghost use Rattle.borealis_top.specs.Commands.{reading_word, told_word, journal_word, input_word, form_word, picture_word, drawn_word, seed_of, command_word, two_words, three_words, command_of, threads_of, readers_of, live_by, pool_by, watch_by, live_of, pair_of};

use input_parts::notation::Notation;
use journal_commands::outcome::JournalCommand;
use live_commands::beside::Beside;
use picture_commands::form::PictureForm;
use script_words::spelling::number;

/// How a run is reported.
#[derive(Clone, Copy, PartialEq, Eq, Debug)]
pub enum Form {
    /// What each client took, and its summary.
    Text,
    /// The summaries alone.
    Short,
    /// Both as JSON.
    Json,
    /// Both as frames.
    Frames,
}

/// What is to be done with a script that is read.
#[derive(Clone, Copy, PartialEq, Eq, Debug)]
pub enum Reading {
    /// Runs it, and writes a report.
    Run(Form),
    /// Writes `ok`.
    Check,
    /// Writes it in canonical form.
    Print,
    /// Writes the failure-free stream of each client.
    Ideal,
}

/// A run by several threads.
#[derive(Clone, Copy, PartialEq, Eq, Debug)]
pub struct LiveCommand {
    /// How many workers it has: 1 to 16.
    pub workers: u64,
    /// Who is there beside them.
    pub beside: Beside,
    /// How its journal and its report are told.
    pub notation: Notation,
}

/// Two clients whose one stream is asked for, by their names.
#[derive(Clone, Copy)]
pub struct PairNames<'a> {
    pub first: &'a [u8],
    pub second: &'a [u8],
}

/// What the program is to do.
#[derive(Clone, Copy, PartialEq, Eq, Debug)]
pub enum Command {
    /// Reads a script, and answers.
    Read(Reading),
    /// Reads a script and what stands behind it, and answers.
    Journal(JournalCommand),
    /// Reads a script, and tells what its nodes save.
    Saves,
    /// Reads a script, and draws its run.
    Picture(PictureForm),
    /// Reads a script and the journal behind it, and draws that journal's run.
    PictureReplay(PictureForm),
    /// Writes the generated script of a number.
    Gen(u64),
    /// Writes which words there are.
    Help,
    /// Writes the reasons to refuse a line.
    Reasons,
    /// Writes the version.
    Version,
}

/// The greatest number of a generated script.
const MOST_SEED: u64 = 1000;

/// The most threads of a kind that run a script.
const MOST_THREADS: u64 = 16;

/// The most readers of what clients take.
const MOST_READERS: u64 = 8;

/// Whether an argument is this word.
fn is_word(argument: &String, word: &[u8]) -> bool
    ensures { result ≡ bytes_eq (string_bytes argument.now) word.now }
{
    argument.as_bytes() == word
}

/// The reading that a word asks for.
fn reading_in(word: &String) -> Option<Reading>
    ensures { result ≡ reading_word (string_bytes word.now) }
{
    if is_word(word, b"run") {
        Some(Reading::Run(Form::Text))
    } else if is_word(word, b"check") {
        Some(Reading::Check)
    } else if is_word(word, b"print") {
        Some(Reading::Print)
    } else if is_word(word, b"ideal") {
        Some(Reading::Ideal)
    } else {
        None
    }
}

/// What is done with a script and a journal or stream behind it that is told in this way, where a word asks for that.
fn told_command_in(word: &String, notation: Notation) -> Option<JournalCommand>
    ensures { result ≡ told_word notation (string_bytes word.now) }
{
    if is_word(word, b"replay") {
        Some(JournalCommand::Replay(notation))
    } else if is_word(word, b"audit") {
        Some(JournalCommand::Audit(notation))
    } else {
        None
    }
}

/// What is done with a script and what stands behind it, where a word asks for that.
fn journal_command_in(word: &String) -> Option<JournalCommand>
    ensures { result ≡ journal_word (string_bytes word.now) }
{
    if is_word(word, b"upgrade") {
        Some(JournalCommand::Upgrade)
    } else {
        told_command_in(word, Notation::Lines)
    }
}

/// What is done with an input, where a word asks for that.
fn input_command(word: &String) -> Option<Command>
    ensures { result ≡ input_word (string_bytes word.now) }
{
    match reading_in(word) {
        Some(reading) => Some(Command::Read(reading)),
        None => Some(Command::Journal(journal_command_in(word)?)),
    }
}

/// The command that one word is.
fn lone_command(word: &String) -> Option<Command>
    ensures { result ≡ command_word (string_bytes word.now) }
{
    if is_word(word, b"--help") {
        Some(Command::Help)
    } else if is_word(word, b"--version") {
        Some(Command::Version)
    } else if is_word(word, b"reasons") {
        Some(Command::Reasons)
    } else if is_word(word, b"saves") {
        Some(Command::Saves)
    } else if is_word(word, b"picture") {
        Some(Command::Picture(PictureForm::Svg))
    } else {
        input_command(word)
    }
}

/// The form of a report other than the text.
fn form_in(word: &String) -> Option<Form>
    ensures { result ≡ form_word (string_bytes word.now) }
{
    if is_word(word, b"short") {
        Some(Form::Short)
    } else if is_word(word, b"json") {
        Some(Form::Json)
    } else if is_word(word, b"frames") {
        Some(Form::Frames)
    } else {
        None
    }
}

/// The form of a picture other than SVG.
fn picture_form_in(word: &String) -> Option<PictureForm>
    ensures { result ≡ picture_word (string_bytes word.now) }
{
    if is_word(word, b"text") {
        Some(PictureForm::Text)
    } else {
        None
    }
}

/// What is drawn of an input by a word behind `picture`.
fn drawing_in(word: &String) -> Option<Command>
    ensures { result ≡ drawn_word (string_bytes word.now) }
{
    if is_word(word, b"replay") {
        Some(Command::PictureReplay(PictureForm::Svg))
    } else {
        Some(Command::Picture(picture_form_in(word)?))
    }
}

/// The command that two words are.
fn command_of_two(first: &String, second: &String) -> Option<Command>
    ensures { result ≡ two_words (string_bytes first.now) (string_bytes second.now) }
{
    if is_word(first, b"gen") {
        Some(Command::Gen(seed_in(second)?))
    } else if is_word(first, b"run") {
        Some(Command::Read(Reading::Run(form_in(second)?)))
    } else if is_word(first, b"picture") {
        drawing_in(second)
    } else if is_word(second, b"frames") {
        Some(Command::Journal(told_command_in(first, Notation::Frames)?))
    } else {
        None
    }
}

/// The command that three words are, which is a journal's run drawn in another form.
fn command_of_three(first: &String, second: &String, third: &String) -> Option<Command>
    ensures { result ≡ three_words (string_bytes first.now) (string_bytes second.now) (string_bytes third.now) }
{
    if is_word(first, b"picture") && is_word(second, b"replay") {
        Some(Command::PictureReplay(picture_form_in(third)?))
    } else {
        None
    }
}

/// The number of a generated script.
fn seed_in(word: &String) -> Option<u64>
    ensures { result ≡ seed_of (string_bytes word.now) }
{
    number(word.as_bytes()).filter(|n| 1 <= *n && *n <= MOST_SEED)
}

/// How many threads of a kind run a script.
fn threads_of(word: &String) -> Option<u64>
    ensures { result ≡ threads_of (string_bytes word.now) }
{
    number(word.as_bytes()).filter(|n| 1 <= *n && *n <= MOST_THREADS)
}

/// How many readers watch a run.
fn readers_of(word: &String) -> Option<u64>
    ensures { result ≡ readers_of (string_bytes word.now) }
{
    number(word.as_bytes()).filter(|n| 1 <= *n && *n <= MOST_READERS)
}

/// The run by several threads that two words ask for, with these beside them, and how it is told.
fn live_by(
    notation: Notation,
    beside: Beside,
    first: &String,
    second: &String,
) -> Option<LiveCommand>
    ensures { result ≡ live_by notation beside (string_bytes first.now) (string_bytes second.now) }
{
    if is_word(first, b"live") {
        Some(LiveCommand {
            workers: threads_of(second)?,
            beside,
            notation,
        })
    } else {
        None
    }
}

/// The run through a pool that four words ask for, and how it is told.
fn pool_by(
    notation: Notation,
    first: &String,
    second: &String,
    third: &String,
    fourth: &String,
) -> Option<LiveCommand>
    ensures { result ≡ pool_by notation (string_bytes first.now) (string_bytes second.now) (string_bytes third.now) (string_bytes fourth.now) }
{
    if is_word(third, b"pool") {
        let millers = threads_of(fourth)?;
        live_by(notation, Beside::Millers(millers), first, second)
    } else {
        None
    }
}

/// The run that is watched, or through a pool, that four words ask for.
fn watch_by(first: &String, second: &String, third: &String, fourth: &String) -> Option<LiveCommand>
    ensures { result ≡ watch_by (string_bytes first.now) (string_bytes second.now) (string_bytes third.now) (string_bytes fourth.now) }
{
    if is_word(third, b"watch") {
        let readers = readers_of(fourth)?;
        live_by(Notation::Lines, Beside::Readers(readers), first, second)
    } else {
        pool_by(Notation::Lines, first, second, third, fourth)
    }
}

/// The run by several threads that the words ask for.
pub fn live_in(words: &[String]) -> Option<LiveCommand>
    ensures { result ≡ live_of (map string_bytes words.now) }
{
    match words {
        [first, second] => live_by(Notation::Lines, Beside::Nobody, first, second),
        [first, second, third] => {
            if is_word(third, b"frames") {
                live_by(Notation::Frames, Beside::Nobody, first, second)
            } else {
                None
            }
        }
        [first, second, third, fourth] => { watch_by(first, second, third, fourth) }
        [first, second, third, fourth, fifth] => {
            if is_word(fifth, b"frames") {
                pool_by(Notation::Frames, first, second, third, fourth)
            } else {
                None
            }
        }
        _ => None,
    }
}

/// The two clients whose one stream the words ask for.
pub fn pair_in(words: &[String]) -> Option<PairNames<'_>>
    ensures { MatchOption result (pair_of (map string_bytes words.now) ≡ None)
        (λ names. pair_of (map string_bytes words.now) ≡ Some (names.first.now, names.second.now)) }
{
    match words {
        [word, first, second] => {
            if is_word(word, b"pair") {
                Some(PairNames {
                    first: first.as_bytes(),
                    second: second.as_bytes(),
                })
            } else {
                None
            }
        }
        _ => None,
    }
}

/// The command that the words are, of those that wait for nobody and have no names in them.
pub fn command_in(words: &[String]) -> Option<Command>
    ensures { result ≡ command_of (map string_bytes words.now) }
{
    match words {
        [word] => lone_command(word),
        [first, second] => command_of_two(first, second),
        [first, second, third] => command_of_three(first, second, third),
        _ => None,
    }
}
