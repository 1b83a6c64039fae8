//! Putting a content together (AMQP 0-9-1 4.2.6): a content header, and body frames up to the size
//! that it tells.

ghost use Rattle.std.specs.Prelude.{◌≡◌, ℕ, List, [], ◌∷◌, ◌++◌, IfOk, IfErr, OnOk};
ghost use Rattle.std.specs.Prelude.{OnErr};
ghost use Rattle.content_091.specs.Assembling.{HasBegun, is_open, IsOpen, HasTaken, Joins, Starts};
ghost use Rattle.content_091.specs.Assembling.{Adds, Grows, IsTooMuch, IsHeaderRefusal};
ghost use Rattle.content_091.specs.Assembling.{IsBodyRefusal};
ghost use Rattle.content_091.specs.declared.assembly.Stage.TheVariants as stage;

use crate::header::{Header91, Props};
use crate::reading::{HeaderFault, read_header};
use std::alloc::Global;
use std::mem;
use wire_base::{At, ByteText, Memory};

/// How many bytes a body may have.
pub const BODY_MAX: u64 = 16_777_216;

/// A content: its properties and its body.
#[derive(Debug, Drop)]
pub struct Content {
    pub props: Props,
    pub body: ByteText,
}

/// What a frame of a content came to.
#[derive(Debug, Drop)]
pub enum Step {
    /// More of the body is to come.
    More,
    /// The content is whole.
    Whole(Content),
}

/// Why a frame of a content is refused.
#[derive(Clone, Copy, Debug, PartialEq, Eq)]
pub enum ContentFault {
    /// A header where one was taken, or a body before it.
    Unexpected,
    /// The header can't be read.
    Header(At<HeaderFault>),
    /// The size passes `BODY_MAX`.
    TooLarge,
    /// The body passes the size.
    Overrun,
}

/// A content of whose body so many bytes are to come.
#[derive(Debug, Drop)]
struct Partial {
    content: Content,
    left: u64,
}

/// How far a content has come.
#[derive(Debug, Drop)]
enum Stage {
    /// No header came.
    Begun,
    /// A header came, and the body isn't whole.
    Taking(Partial),
    /// The content was handed out.
    Whole,
}

/// A content that is put together from the frames behind its method. Its body begins as the first
/// payload that comes, which is moved there, and the bytes of further ones are copied.
#[derive(Debug, Drop)]
pub struct Assembly {
    stage: Stage,
}

impl Assembly {
    /// The content behind a method that has one: no frame of it came.
    pub fn begin() -> Assembly
        ensures { HasBegun result }
    {
        Assembly {
            stage: Stage::Begun,
        }
    }

    /// Whether frames are taken: until the content was handed out.
    pub fn is_open(&self) -> bool
        ensures { result ≡ is_open self.now }
    {
        !matches!(self.stage, Stage::Whole)
    }

    /// Takes the payload of a content header frame. A content whose size is 0 is whole with it.
    ///
    /// # Errors
    ///
    /// `Unexpected` where a header was taken. Else `Header` where it can't be read, and else
    /// `TooLarge` where its size passes `BODY_MAX`. A refusal leaves the content as it was, and so
    /// does `Memory`, where the allocator has no room.
    pub fn header(
        &mut self,
        alloc: Global,
        payload: &[u8],
    ) -> Result<Result<Step, ContentFault>, Memory>
        requires { IsOpen self.old }
        // A header is taken once, and the content is whole with it, or of so many bytes.
        ensures taken { IfOk result (λ read. IfOk read (λ step. HasBegun self.old)) }
        ensures joined { IfOk result (λ read. IfOk read (Joins self.new payload.now [])) }
        // Why a header is refused.
        ensures refused { IfOk result (λ read. IfErr read (IsHeaderRefusal self.old payload.now)) }
        ensures kept { IfOk result (λ read. IfErr read (λ fault. self.new ≡ self.old)) }
        ensures err { OnErr result (self.new ≡ self.old) }
    {
        let Stage::Begun = self.stage else {
            return Ok(Err(ContentFault::Unexpected));
        };
        let header = match read_header(alloc, payload)? {
            Ok(header) => header,
            Err(fault) => return Ok(Err(ContentFault::Header(fault))),
        };
        if header.size > BODY_MAX {
            return Ok(Err(ContentFault::TooLarge));
        }
        Ok(Ok(self.start(alloc, header)))
    }

    /// Begins the body of a header that was taken.
    fn start(&mut self, alloc: Global, header: Header91) -> Step
        ensures { Starts header self.new result }
    {
        let content = Content {
            props: header.props,
            body: ByteText::empty(alloc),
        };
        let left = header.size;
        if left == 0 {
            self.stage = Stage::Whole;
            return Step::Whole(content);
        }
        self.stage = Stage::Taking(Partial { content, left });
        Step::More
    }

    /// Takes the payload of a body frame. A payload without bytes adds nothing.
    ///
    /// # Errors
    ///
    /// `Unexpected` where no header was taken, and `Overrun` where the body would pass the size. A
    /// refusal leaves the content as it was, and so does `Memory`, where the allocator has no room.
    /// The payload is let go then.
    pub fn body(&mut self, payload: ByteText) -> Result<Result<Step, ContentFault>, Memory>
        requires { IsOpen self.old }
        // The body is longer by the payload, and the content is whole where nothing more is to
        // come.
        ensures taken { IfOk result (λ read. IfOk read (Grows self.old payload self.new)) }
        // So the body is all payloads that were given, one after another, and is whole where they
        // are as long as the header says.
        ensures joined { (header : List ℕ) (payloads : List (List ℕ))
            → HasTaken self.old header payloads
            → IfOk result (λ read.
            IfOk read (Joins self.new header (payloads ++ payload ∷ []))) }
        // Why a payload is refused.
        ensures refused { IfOk result (λ read. IfErr read (IsBodyRefusal self.old payload)) }
        ensures kept { IfOk result (λ read. IfErr read (λ fault. self.new ≡ self.old)) }
        ensures err { OnErr result (self.new ≡ self.old) }
    {
        match mem::replace(&mut self.stage, Stage::Whole) {
            Stage::Taking(partial) => self.grow(partial, payload),
            Stage::Begun | Stage::Whole => {
                self.stage = Stage::Begun;
                Ok(Err(ContentFault::Unexpected))
            }
        }
    }

    /// Goes on with a content whose body isn't whole.
    fn grow(
        &mut self,
        partial: Partial,
        payload: ByteText,
    ) -> Result<Result<Step, ContentFault>, Memory>
        ensures taken { IfOk result (λ read. IfOk read (Adds partial payload self.new)) }
        ensures refused { IfOk result (λ read. IfErr read (IsTooMuch partial payload)) }
        ensures kept { IfOk result (λ read.
            IfErr read (λ fault. self.new.stage ≡ stage.Taking partial)) }
        ensures err { OnErr result (self.new.stage ≡ stage.Taking partial) }
    {
        let mut partial = partial;
        let count = payload.as_slice().len() as u64;
        if count > partial.left {
            self.stage = Stage::Taking(partial);
            return Ok(Err(ContentFault::Overrun));
        }
        if add(&mut partial.content.body, payload).is_err() {
            self.stage = Stage::Taking(partial);
            return Err(Memory);
        }
        partial.left -= count;
        if partial.left == 0 {
            self.stage = Stage::Whole;
            return Ok(Ok(Step::Whole(partial.content)));
        }
        self.stage = Stage::Taking(partial);
        Ok(Ok(Step::More))
    }
}

/// Adds the bytes of a payload to a body, which becomes the payload where it has none.
fn add(body: &mut ByteText, payload: ByteText) -> Result<(), Memory>
    ensures ok { OnOk result (body.new ≡ body.old ++ payload) }
    ensures err { OnErr result (body.new ≡ body.old) }
{
    if body.as_slice().is_empty() {
        *body = payload;
        return Ok(());
    }
    body.append(payload.as_slice())
}
