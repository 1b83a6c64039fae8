//! The gateway as a program: real ports, the standard input and output and a file for the top call,
//! and its status. Help is written without that call.
#![tactic(auto)]

mod capture_file;

use capture_file::CaptureFile;
use gate_command::{Asked, CaptureSink, Status, gateway, read_words};
use gate_edge::{
    Addresses, Outbox, OutboxSink, ReaderSource, RealPorts, StandardOut, WriterSink, tell,
};
use gate_words::{Said, said_of};
use std::io;
use std::process::ExitCode;
use wire_base::{ByteText, Memory};

/// The words after the program's name.
fn words_of(rt: &HostRuntime) -> io::Result<Vec<String>> {
    let words = std::env::args(rt)?.skip(1).collect(rt.alloc())?;
    Ok(words)
}

/// The address to listen at, that of containers and the path of the capture, where the words are a
/// command line that gives them.
#[derive(Drop)]
struct Places {
    listen: Option<ByteText>,
    upstream: Option<ByteText>,
    capture: Option<ByteText>,
}

fn places_of(rt: &HostRuntime, words: &Vec<String>) -> Result<Places, Memory> {
    match read_words(rt.alloc(), words)? {
        Ok(
            Asked::Serve {
                limits: _,
                setup: _,
                listen,
                upstream,
                capture,
            },
        ) => Ok(Places {
            listen: Some(listen),
            upstream: Some(upstream),
            capture,
        }),
        Ok(Asked::Replay | Asked::Show091 | Asked::Show10 | Asked::ShowCapture) | Err(_) => Ok(
            Places {
                listen: None,
                upstream: None,
                capture: None,
            },
        ),
    }
}

/// The text of an address or a path, which came from words in UTF-8.
fn text_of(place: &Option<ByteText>) -> Option<&str> {
    place
        .as_ref()
        .and_then(|place| str::from_utf8(place.as_slice()).ok())
}

/// The addresses of the ports, where the words give them.
fn addresses_of(places: &Places) -> Option<Addresses<'_>> {
    Some(Addresses {
        listen: text_of(&places.listen)?,
        upstream: text_of(&places.upstream)?,
    })
}

/// Runs the top call over real ports; what it answers, or `Memory` where there is none to begin. A
/// report that the standard output doesn't take is a fault of the outside.
fn run(rt: &HostRuntime, words: &Vec<String>) -> Result<Status, Memory> {
    let places = places_of(rt, words)?;
    let outbox = Outbox::new(rt.alloc(), StandardOut::new(rt.stdout()))?;
    let addresses = addresses_of(&places);
    let mut ports = RealPorts::new(rt, rt.alloc(), &outbox, addresses)?;
    let mut out = OutboxSink::new(&outbox);
    let file = CaptureFile::create(rt, text_of(&places.capture));
    let mut capture = CaptureSink {
        sink: WriterSink::new(file),
    };
    let mut input = ReaderSource::new(rt.alloc(), rt.reader())?;
    let status = gateway(
        rt.alloc(),
        words,
        &mut ports,
        &mut input,
        &mut out,
        &mut capture,
    );
    ports.finish();
    if outbox.finish(rt) {
        Ok(status)
    } else {
        Ok(Status::Outside)
    }
}

/// The status for words that can't be read: one of them isn't UTF-8, or memory was wanted for them.
fn unread(error: io::Error) -> Status {
    match error.kind() {
        io::ErrorKind::OutOfMemory => Status::Memory,
        _ => Status::Usage,
    }
}

/// Where the words are no command line, and `clap` doesn't say why.
const NO_COMMAND_LINE: &str = "\
error: these words are no command line. Numbers are decimal, without sign or leading zero, and no
value is empty. `amqp_gate --help` has the commands, and `amqp_gate serve --help` the options.";

/// Why the program ends, where its status isn't 0 and nothing else says it.
fn reason(status: Status) -> Option<&'static str> {
    match status {
        // What a replay or a listing found stands on the standard output.
        Status::Ok | Status::Differs | Status::BadInput => None,
        Status::Usage => Some(NO_COMMAND_LINE),
        Status::Outside => Some(
            "ended: no client can be accepted, or the input, the output or the capture failed",
        ),
        Status::Memory => Some("ended: out of memory"),
        Status::TurnLimit => Some("ended: the turns asked for were made"),
    }
}

/// Whether the words ask for a text alone: `--help` or `--version`, or a command and `--help`.
fn ask_for_text(words: &Vec<String>) -> bool {
    match words.as_slice() {
        [word] => word.as_str() == "--help" || word.as_str() == "--version",
        [command, help] => help.as_str() == "--help" && !command.as_str().starts_with('-'),
        _ => false,
    }
}

/// Writes the text that the words ask for; `None` where they ask for none.
fn write_text(rt: &HostRuntime, words: &Vec<String>) -> Option<Status> {
    if !ask_for_text(words) {
        return None;
    }
    match said_of(rt.alloc(), words) {
        Ok(Said::Text(text)) => match print!(rt; "{text}") {
            Ok(()) => Some(Status::Ok),
            Err(_) => Some(Status::Outside),
        },
        Ok(Said::Reason(_) | Said::Nothing) => None,
        Err(_) => Some(Status::Memory),
    }
}

/// Tells why the program ends; where the words are no command line, in the words of `clap`.
fn tell_reason(rt: &HostRuntime, words: &Vec<String>, status: Status) {
    if status == Status::Usage {
        if let Ok(Said::Reason(text)) = said_of(rt.alloc(), words) {
            tell(rt, text.as_str().trim_end());
            return;
        }
    }
    if let Some(reason) = reason(status) {
        tell(rt, reason);
    }
}

/// Does what the words ask for.
fn answer(rt: &HostRuntime, words: &Vec<String>) -> Status {
    if let Some(status) = write_text(rt, words) {
        return status;
    }
    let status = run(rt, words).unwrap_or(Status::Memory);
    tell_reason(rt, words, status);
    status
}

fn main(rt: HostRuntime) -> ExitCode {
    let status = match words_of(&rt) {
        Ok(words) => answer(&rt, &words),
        Err(error) => {
            let status = unread(error);
            if let Some(reason) = reason(status) {
                tell(&rt, reason);
            }
            status
        }
    };
    ExitCode::from(status.number())
}
