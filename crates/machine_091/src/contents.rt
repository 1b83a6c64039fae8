//! The contents in progress of a connection (AMQP 0-9-1 4.2.6): at most one a channel, from the
//! method that begins it until it is whole.

ghost use Rattle.std.specs.Prelude.{◌≡◌, is_some, true, None, Some, Ok, Err, IfOk, IfErr, OnErr};
ghost use Rattle.content_091.specs.Assembling.{is_open};
ghost use Rattle.frames_091.specs.declared.frame.Kind91.TheVariants as frame;
ghost use Rattle.machine_091.specs.Contents.{begun, is_immediate, taken, IsFed};

use content_091::{Assembly, Content, ContentFault, Step};
use frames_091::Kind91;
use methods_091::Method91;
use std::alloc::Global;
use std::marker::Model;
use wire_base::{ByteText, Memory};

/// A content in progress.
#[derive(Debug, Drop)]
pub struct Incoming {
    /// The method that began it.
    pub(crate) method: Method91,
    /// Its header and its body, as far as they came.
    pub(crate) assembly: Assembly,
}

/// The content in progress on one channel, or none.
#[derive(Debug, Drop)]
pub struct ContentSlot {
    incoming: Option<Box<Incoming>>,
}

impl Model for ContentSlot {
    ghost use Rattle.std.specs.Prelude.{Option, option_map, box_value};
    ghost use Rattle.machine_091.specs.declared.contents.Incoming.{Incoming};

    ghost Value = { Option Incoming };

    ghost use Rattle.tables_091.specs.TreeCode.{tree_code};
    ghost use Rattle.std.specs.Coded.{codes};

    ghost coded = { Prim.hlevel (codes, tree_code) };

    ghost view = { λ a. option_map box_value a.incoming };
}

/// What a content header or a body frame made of a content in progress.
#[derive(Drop)]
pub(crate) enum Fed {
    /// More of it is to come.
    More,
    /// It is whole: the method that began it, and the content.
    Whole(Method91, Content),
}

/// Whether a basic.publish asks for a consumer that takes the content at once.
pub(crate) fn is_immediate(method: &Method91) -> bool
    ensures { result ≡ is_immediate method.now }
{
    match method {
        Method91::BasicPublish { immediate, .. } => *immediate,
        _ => false,
    }
}

impl Incoming {
    /// Takes a content header or the payload of a body frame.
    fn take(
        &mut self,
        alloc: Global,
        kind: Kind91,
        payload: ByteText,
    ) -> Result<Result<Step, ContentFault>, Memory>
        ensures method { self.new.method ≡ self.old.method }
        ensures taken { IfOk result (λ read. IfOk read (λ s. taken kind payload
            (Some self.old) ≡ Ok (self.new.assembly, s))) }
        ensures refused { IfOk result (λ read. IfErr read (λ fault. taken kind payload
            (Some self.old) ≡ Err fault)) }
        ensures kept { IfOk result (λ read. IfErr read (λ fault. self.new ≡ self.old)) }
        ensures err { OnErr result (self.new ≡ self.old) }
    {
        if !self.assembly.is_open() {
            return Ok(Err(ContentFault::Unexpected));
        }
        match kind {
            Kind91::Header => self.take_header(alloc, payload.as_slice()),
            Kind91::Body => self.assembly.body(payload),
            Kind91::Method | Kind91::Heartbeat => Ok(Err(ContentFault::Unexpected)),
        }
    }

    /// Takes a content header.
    fn take_header(
        &mut self,
        alloc: Global,
        payload: &[u8],
    ) -> Result<Result<Step, ContentFault>, Memory>
        requires { is_open self.old.assembly ≡ true }
        ensures method { self.new.method ≡ self.old.method }
        ensures taken { IfOk result (λ read. IfOk read (λ s. taken frame.Header payload.now
            (Some self.old) ≡ Ok (self.new.assembly, s))) }
        ensures refused { IfOk result (λ read. IfErr read (λ fault. taken frame.Header payload.now
            (Some self.old) ≡ Err fault)) }
        ensures kept { IfOk result (λ read. IfErr read (λ fault. self.new ≡ self.old)) }
        ensures err { OnErr result (self.new ≡ self.old) }
    {
        self.assembly.header(alloc, payload)
    }
}

impl ContentSlot {
    /// No content is in progress.
    pub(crate) fn empty() -> ContentSlot
        ensures { result ≡ None }
    {
        ContentSlot { incoming: None }
    }

    /// A method begins a content.
    pub(crate) fn begin(alloc: Global, method: Method91) -> Result<ContentSlot, Memory>
        ensures { IfOk result (λ slot. slot ≡ Some (begun method)) }
    {
        let incoming = Incoming {
            method,
            assembly: Assembly::begin(),
        };
        match Box::new(alloc, incoming) {
            Ok(incoming) => Ok(ContentSlot {
                incoming: Some(incoming),
            }),
            Err(_) => Err(Memory),
        }
    }

    /// Whether a content is in progress.
    pub(crate) fn is_some(&self) -> bool
        ensures { result ≡ is_some self.now }
    {
        self.incoming.is_some()
    }

    /// Takes a content header or the payload of a body frame. A content that is whole is handed
    /// out.
    pub(crate) fn take(
        &mut self,
        alloc: Global,
        kind: Kind91,
        payload: ByteText,
    ) -> Result<Result<Fed, ContentFault>, Memory>
        ensures taken { IfOk result (λ read. IfOk read (IsFed self.old self.new
            (taken kind payload self.old))) }
        ensures refused { IfOk result (λ read. IfErr read
            (λ fault. taken kind payload self.old ≡ Err fault)) }
        ensures kept { IfOk result (λ read. IfErr read (λ fault. self.new ≡ self.old)) }
        ensures err { OnErr result (self.new ≡ self.old) }
    {
        let Some(mut incoming) = self.incoming.take() else {
            return Ok(Err(ContentFault::Unexpected));
        };
        let read = incoming.take(alloc, kind, payload);
        match read {
            Ok(Ok(Step::Whole(content))) => {
                let incoming = Box::into_inner(incoming);
                Ok(Ok(Fed::Whole(incoming.method, content)))
            }
            Ok(Ok(Step::More)) => {
                self.incoming = Some(incoming);
                Ok(Ok(Fed::More))
            }
            Ok(Err(fault)) => {
                self.incoming = Some(incoming);
                Ok(Err(fault))
            }
            Err(memory) => {
                self.incoming = Some(incoming);
                Err(memory)
            }
        }
    }
}

impl Default for ContentSlot {
    ghost is_default = { λ slot. slot ≡ None };

    fn default() -> ContentSlot {
        ContentSlot::empty()
    }
}
