//! The command line: the one reading of its words.

ghost use Rattle.std.specs.Prelude.{◌≡◌, ◌+◌, ◌-◌, map, option_copied, unwrap_or, IfOk, IfErr};
ghost use Rattle.std.specs.String.{string_bytes};
ghost use Rattle.gate_model.specs.Setup.{IsInForm};
ghost use Rattle.gate_command.specs.Command.{asked_of, nothing_given, setup_of, AreInForm, Asks};
ghost use Rattle.gate_command.specs.Command.{CeasesAt};
ghost use Rattle.gate_command.specs.Reading.{asked_by, between, command_in, last_in, shown_in};
ghost use Rattle.gate_command.specs.Reading.{words_in, format_named};
ghost use Rattle.gate_command.specs.declared.words.Asked.{Asked};
ghost use Rattle.gate_command.specs.View.{answer_of, reply_of, request_of, settings_of};

use crate::exchanges::routes_for;
use crate::options::{Gathered, MOST_TURNS, Progress};
use gate_model::Setup;
use gate_runs::Limits;
use std::alloc::Global;
use wire_base::{ByteText, Memory};

/// The bytes that the words after the first may have together.
const MOST_BYTES: usize = 65_536;

/// Where to listen, where no address is given.
const DEFAULT_LISTEN: &str = "127.0.0.1:5672";

/// Where containers are, where no address is given.
const DEFAULT_UPSTREAM: &str = "127.0.0.1:5673";

/// The gateway's name, where none is given.
const DEFAULT_NAME: &str = "amqp-gate";

/// The virtual host that clients may open, where none is given.
const DEFAULT_VHOST: &str = "/";

/// What the command line asks for.
#[derive(Drop)]
pub enum Asked {
    /// To serve: for how long, what all pairs share, where to listen and where containers are, and
    /// the path of the capture, where one is asked for.
    Serve {
        limits: Limits,
        setup: Setup,
        listen: ByteText,
        upstream: ByteText,
        capture: Option<ByteText>,
    },
    /// To make the run again whose capture is the input.
    Replay,
    /// To list the units of the byte stream of AMQP 0-9-1 that is the input.
    Show091,
    /// The same of AMQP 1.0.
    Show10,
    /// To list the capture that is the input.
    ShowCapture,
}

/// The format of an input that is listed.
#[derive(Clone, Copy, Debug, PartialEq, Eq)]
pub enum Format {
    Amqp091,
    Amqp10,
    Capture,
}

/// A command, with its options.
#[derive(Clone, Copy, Debug)]
pub enum Command<'a> {
    Serve(Gathered<'a>),
    Replay,
    Show(Format),
}

/// Where the words cease to be a command line.
#[derive(Clone, Copy, Debug, PartialEq, Eq)]
pub enum Misplaced {
    /// The first word that can't stand, counted from 1.
    Word(u32),
    /// Each word can stand, and more are wanted.
    End,
}

/// The options of `serve`: the words from the second on.
fn options_of(words: &[String]) -> Result<Gathered<'_>, Misplaced>
    ensures { answer_of result ≡ words_in 2 65536 (between nothing_given)
        (map string_bytes words.now) }
{
    let mut progress = Progress::Between(Gathered::none());
    let mut room = MOST_BYTES;
    let mut place = 2;
    for word in words {
        let text = word.as_str();
        progress = match progress.after(text, room) {
            Some(next) => next,
            None => return Err(Misplaced::Word(place)),
        };
        room -= text.len();
        place += 1;
    }
    progress.ended()
}

/// A command that no word follows; `place` is the next word's.
fn last<'a>(command: Command<'a>, place: u32, rest: &[String]) -> Result<Command<'a>, Misplaced>
    ensures { reply_of result ≡ last_in place (request_of command.entry)
        (map string_bytes rest.now) }
{
    if rest.is_empty() {
        Ok(command)
    } else {
        Err(Misplaced::Word(place))
    }
}

/// The format with this name.
#[tactic(auto, unfolding(crate::specs::Reading::format_named))]
fn format_of(text: &str) -> Option<Format>
    ensures { result ≡ format_named text.now }
{
    if text == "091" {
        Some(Format::Amqp091)
    } else if text == "10" {
        Some(Format::Amqp10)
    } else if text == "capture" {
        Some(Format::Capture)
    } else {
        None
    }
}

/// The words after `show`.
fn show_of(words: &[String]) -> Result<Command<'_>, Misplaced>
    ensures { reply_of result ≡ shown_in (map string_bytes words.now) }
{
    match words {
        [] => Err(Misplaced::End),
        [what, rest @ ..] => match format_of(what.as_str()) {
            Some(format) => last(Command::Show(format), 3, rest),
            None => Err(Misplaced::Word(2)),
        },
    }
}

/// All words: a command and its options.
#[tactic(auto, unfolding(crate::specs::Reading::command_in))]
fn command_of(words: &[String]) -> Result<Command<'_>, Misplaced>
    ensures { reply_of result ≡ command_in (map string_bytes words.now) }
{
    match words {
        [] => Err(Misplaced::End),
        [first, rest @ ..] => {
            if first.as_str() == "serve" {
                Ok(Command::Serve(options_of(rest)?))
            } else if first.as_str() == "replay" {
                last(Command::Replay, 2, rest)
            } else if first.as_str() == "show" {
                show_of(rest)
            } else {
                Err(Misplaced::Word(1))
            }
        }
    }
}

/// A copy of the text, where there is one.
fn copied(alloc: Global, text: Option<&str>) -> Result<Option<ByteText>, Memory>
    ensures { IfOk result (λ copy. copy ≡ option_copied text.entry) }
{
    match text {
        Some(text) => Ok(Some(ByteText::copy_of(alloc, text.as_bytes())?)),
        None => Ok(None),
    }
}

/// The same, or of another text where there is none.
fn copied_or(alloc: Global, text: Option<&str>, other: &str) -> Result<ByteText, Memory>
    ensures { IfOk result (λ copy. copy ≡ unwrap_or (option_copied text.entry) other.now) }
{
    ByteText::copy_of(alloc, text.unwrap_or(other).as_bytes())
}

/// What all pairs share, with the defaults of what isn't given.
fn setup_for(alloc: Global, gathered: Gathered) -> Result<Setup, Memory>
    requires { IsInForm (setup_of (settings_of gathered)) }
    ensures { IfOk result (λ setup. setup ≡ setup_of (settings_of gathered.entry)) }
{
    let name = copied_or(alloc, gathered.name, DEFAULT_NAME)?;
    let host = copied(alloc, gathered.host)?;
    let vhost = copied_or(alloc, gathered.vhost, DEFAULT_VHOST)?;
    let routes = routes_for(alloc, gathered.exchange)?;
    Ok(Setup::new(name, host, vhost, routes))
}

/// What these options ask for, with the defaults of what isn't given.
fn service_for(alloc: Global, gathered: Gathered) -> Result<Asked, Memory>
    requires { IsInForm (setup_of (settings_of gathered)) }
    ensures { IfOk result (λ asked. asked ≡ asked_of (settings_of gathered.entry)) }
{
    let limits = Limits {
        pairs: gathered.pairs,
        turns: gathered.turns.unwrap_or(MOST_TURNS),
    };
    Ok(Asked::Serve {
        limits,
        setup: setup_for(alloc, gathered)?,
        listen: copied_or(alloc, gathered.listen, DEFAULT_LISTEN)?,
        upstream: copied_or(alloc, gathered.upstream, DEFAULT_UPSTREAM)?,
        capture: copied(alloc, gathered.capture)?,
    })
}

/// What a command asks for.
fn asked_for(alloc: Global, command: Command) -> Result<Asked, Memory>
    requires { AreInForm (asked_by (request_of command)) }
    ensures { IfOk result (λ asked. asked ≡ asked_by (request_of command.entry)) }
{
    match command {
        Command::Serve(gathered) => service_for(alloc, gathered),
        Command::Replay => Ok(Asked::Replay),
        Command::Show(Format::Amqp091) => Ok(Asked::Show091),
        Command::Show(Format::Amqp10) => Ok(Asked::Show10),
        Command::Show(Format::Capture) => Ok(Asked::ShowCapture),
    }
}

/// Reads the words of the command line, which are those after the program's name.
///
/// Only copies of the options' texts take memory; `Err(Memory)` where there is none for them.
pub fn read_words(alloc: Global, words: &Vec<String>) -> Result<Result<Asked, Misplaced>, Memory>
    ensures found { IfOk result (λ answer. IfOk answer (λ asked. Asks
        (map string_bytes words.now.items) asked)) }
    ensures only { (asked : Asked) → Asks (map string_bytes words.now.items) asked
        → IfOk result (λ answer. answer ≡ Ok asked) }
    ensures place { IfOk result (λ answer. IfErr answer (CeasesAt
        (map string_bytes words.now.items))) }
    ensures in_form { IfOk result (λ answer. IfOk answer (λ asked. AreInForm asked)) }
{
    match command_of(words.as_slice()) {
        Ok(command) => Ok(Ok(asked_for(alloc, command)?)),
        Err(misplaced) => Ok(Err(misplaced)),
    }
}
