//! What `clap` is told of the command line: the commands, the options of `serve`, and what help says
//! of each.

use clap::{Arg, ArgAction, Command, value_parser};
use std::alloc::{AllocError, Global};

/// The most turns, 2^47.
const MOST_TURNS: i64 = 140_737_488_355_328;

/// An option, which is given once and has one value.
fn option<'a>(alloc: Global, id: &'a str, value: &'a str, help: &'a str) -> Arg<'a> {
    Arg::new(alloc, id)
        .long(id)
        .value_name(value)
        .help(help)
        .action(ArgAction::Set)
}

/// A value in a place of its own, which must be there.
fn value<'a>(alloc: Global, id: &'a str, name: &'a str, help: &'a str) -> Arg<'a> {
    Arg::new(alloc, id)
        .value_name(name)
        .help(help)
        .required(true)
        .action(ArgAction::Set)
}

/// `serve` with the options that say where, and as what.
fn with_places<'a>(alloc: Global, serve: Command<'a>) -> Result<Command<'a>, AllocError> {
    serve
        .arg(option(
            alloc,
            "listen",
            "ADDRESS",
            "Where clients connect: an address or a name, with a port [default: 127.0.0.1:5672]",
        ))?
        .arg(option(
            alloc,
            "upstream",
            "ADDRESS",
            "Where the container listens, likewise [default: 127.0.0.1:5673]",
        ))?
        .arg(option(
            alloc,
            "name",
            "NAME",
            "What containers know the gateway as: pair K is NAME-K. ASCII, at most 100 bytes [default: amqp-gate]",
        ))?
        .arg(option(
            alloc,
            "host",
            "HOST",
            "The hostname that the container is asked for, at most 200 bytes [default: none]",
        ))?
        .arg(option(
            alloc,
            "vhost",
            "VHOST",
            "The virtual host that clients may open, at most 255 bytes [default: /]",
        ))?
        .arg(option(
            alloc,
            "exchange",
            "NAME=ADDRESS,..",
            "Exchanges to which clients may publish besides the default one, and the address of each [default: none]",
        ))
}

/// And with those that say for how long, and what is recorded.
fn with_limits<'a>(alloc: Global, serve: Command<'a>) -> Result<Command<'a>, AllocError> {
    serve
        .arg(option(
            alloc,
            "pairs",
            "N",
            "Ends once N clients have come and gone, 1 to 4294967295 [default: 4294967295]",
        )
        .value_parser(value_parser!(u32).range(1..)))?
        .arg(option(
            alloc,
            "turns",
            "N",
            "Ends after N turns of its loop, 1 to 140737488355328 [default: 140737488355328]",
        )
        .value_parser(value_parser!(u64).range(1..=MOST_TURNS)))?
        .arg(option(
            alloc,
            "capture",
            "FILE",
            "Writes each call of the run to FILE, for replay [default: none]",
        ))
}

fn serve<'a>(alloc: Global) -> Result<Command<'a>, AllocError> {
    let serve = Command::new(alloc, "serve").about(
        "Serves clients of AMQP 0-9-1 in front of a container of AMQP 1.0",
    );
    with_limits(alloc, with_places(alloc, serve)?)
}

fn show<'a>(alloc: Global) -> Result<Command<'a>, AllocError> {
    let format = value(alloc, "format", "FORMAT", "What the standard input holds").value_parser([
        "091", "10", "capture",
    ].as_slice());
    Command::new(alloc, "show")
        .about(
            "Lists the units of a byte stream or the calls of a capture, from the standard input",
        )
        .arg(format)
}

/// The whole command line.
pub fn command<'a>(alloc: Global) -> Result<Command<'a>, AllocError> {
    let replay = Command::new(alloc, "replay").about(
        "Makes the run of a capture again, from the standard input, and says whether it is the same",
    );
    Command::new(alloc, "amqp_gate")
        .about("A gateway for clients of AMQP 0-9-1 to a container of AMQP 1.0")
        .version("1")
        .no_binary_name(true)
        .disable_help_subcommand(true)
        .subcommand_required(true)
        .subcommand(serve(alloc)?)?
        .subcommand(replay)?
        .subcommand(show(alloc)?)
}
