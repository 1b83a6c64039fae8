//! Makes calls of the libraries. Each is told in a line, and what it returned is printed as a derived `Debug` prints it.
//! `tools/run_cases.py` tells the calls of the cases in `tools/cases`.
//!
//! A line is `KIND VERB A B C D BYTES`: two words, four numbers, and pairs of hexadecimal digits, of which there may be none. The
//! words are told by their numbers in `verbs.rt`. A number that a call doesn't take is 0. `=` stands for the bytes of the line
//! before.
//!
//! | Kind | Calls | Told by |
//! |---|---|---|
//! | `amqp_10` | AMQP 1.0, and messages of each protocol in the other (`amqp_10.rt`) | `tools/cases/amqp_10.py` |
//! | `amqp_091` | AMQP 0-9-1, and listings of both protocols (`amqp_091.rt`) | `tools/cases/amqp_091.py` |
//! | `sender`, `receiver`, `handles`, `publishes`, `deliveries` | what is kept of a session (`paths.rt`) | `tools/cases/paths.py` |
//! | `script` | what is told before a call of the gate (`scripted.rt`) | `tools/cases/turns.py`, `gateway.py` |
//! | `gate` | the gateway, the loop, ports, streams, the ends of pairs, and captures (`gate.rt`) | the same |
#![tactic(auto)]

mod amqp_091;
mod amqp_10;
mod call;
mod gate;
mod paths;
mod scripted;
mod verbs;

use amqp_10::call_10;
use amqp_091::Calls091;
use call::{Answer, Call, bytes_of, first_number, four_numbers};
use content_091::content_laws;
use frames_10::frame_laws10;
use frames_091::frame_laws;
use gate::{Edge, call_gate};
use gate_capture::{capture_laws, replay_laws};
use link_table::handle_laws;
use links_10::{link_laws, recv_link_laws};
use machine_091::connection_laws;
use methods_091::method_laws;
use paths::Paths;
use performatives_10::perf_laws;
use property_map::map_laws;
use scripted::Scripted;
use sections_10::message_laws;
use std::alloc::Global;
use std::io::{Input, Print, Write};
use std::{io, mem};
use tables_091::table_laws;
use types_10::{Value10, value_laws};
use verbs::{AMQP_10, AMQP_091, GATE, SCRIPT};
use wire_base::{ByteText, Memory};

/// What calls are made on.
#[derive(Drop)]
struct Program {
    /// Those of the last line.
    bytes: ByteText,
    values: Vec<Value10>,
    amqp_091: Calls091,
    paths: Paths,
    scripted: Scripted,
    edge: Edge,
}

impl Program {
    fn new(alloc: Global) -> Program {
        Program {
            bytes: ByteText::empty(alloc),
            values: Vec::new(alloc),
            amqp_091: Calls091::new(alloc),
            paths: Paths::new(alloc),
            scripted: Scripted::new(alloc),
            edge: Edge::new(),
        }
    }

    /// Makes the call that a line tells.
    fn answer(&mut self, alloc: Global, line: &str) -> Answer {
        let (kind, words) = first_number(line);
        let (verb, words) = first_number(words);
        let (numbers, digits) = four_numbers(words);
        if digits != "=" {
            drop(mem::replace(&mut self.bytes, bytes_of(alloc, digits)?));
        }
        let call = Call {
            verb,
            numbers,
            bytes: self.bytes.as_slice(),
        };
        match kind {
            AMQP_10 => call_10(alloc, &mut self.values, call),
            AMQP_091 => self.amqp_091.call(alloc, call),
            SCRIPT => self.scripted.tell(alloc, call),
            GATE => call_gate(alloc, &mut self.scripted, &mut self.edge, call),
            _ => self.paths.call(alloc, kind, call),
        }
    }

    /// What is printed for all lines.
    fn answers(&mut self, alloc: Global, lines: &str) -> Result<String, Memory> {
        let mut out = String::new(alloc);
        for line in lines.lines() {
            let text = self.answer(alloc, line)?;
            out.push_str(text.as_str())?;
        }
        Ok(out)
    }
}

/// Reads lines up to the end of the input, and prints the answer to each.
fn answer_lines<R: Input + Print + AllocGlobal>(rt: &R, program: &mut Program) -> io::Result<()> {
    let lines = io::read_to_string(rt.alloc(), rt.reader())?;
    match program.answers(rt.alloc(), lines.as_str()) {
        Ok(text) => io::writer(rt).write_all(text.as_bytes()),
        Err(Memory) => Err(io::Error::from(io::ErrorKind::OutOfMemory)),
    }
}

/// The laws of the libraries, each called once.
fn know_laws() {
    value_laws();
    perf_laws();
    message_laws();
    map_laws();
    frame_laws();
    frame_laws10();
    table_laws();
    method_laws();
    content_laws();
    connection_laws();
    link_laws();
    recv_link_laws();
    handle_laws();
    capture_laws();
    replay_laws();
}

fn main(rt: HostRuntime) -> io::Result<()> {
    know_laws();
    let mut program = Program::new(rt.alloc());
    let done = answer_lines(&rt, &mut program);
    drop(program);
    done
}
