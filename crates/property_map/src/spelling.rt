//! The bytes of the image of a message of AMQP 0-9-1.

ghost use Rattle.std.specs.Prelude.{◌≡◌, ◌++◌, None, IfOk, IfErr, OnOk};
ghost use Rattle.sections_10.specs.Writing.{body_bytes, message_text};
ghost use Rattle.property_map.specs.Image.{first_fault, IsFault10};
ghost use Rattle.property_map.specs.Spelling.{image_text};

use crate::fault::MapFault;
use crate::image::to_10;
use crate::message::Message091;
use sections_10::{Body10, Message10, can_be_written, put_before_body};
use std::alloc::Global;
use std::mem;
use wire_base::{ByteText, Memory};

/// The bytes of an image in two parts, which one behind the other are the payload of its transfers
/// (AMQP 1.0 2.6.14).
#[derive(Debug, Drop)]
pub struct ImageText {
    /// The sections, up to the bytes of the body
    pub front: ByteText,
    /// The bytes of the body
    pub body: ByteText,
}

/// The image of a message, to which the body is moved.
fn image_of(alloc: Global, message: Message091) -> Result<Message10, MapFault>
    ensures text { IfOk result (λ image. message_text image ≡ image_text message) }
    ensures right { OnOk result (first_fault message ≡ None) }
    ensures fault { IfErr result (IsFault10 message) }
{
    let mut message = message;
    let body = mem::replace(&mut message.body, ByteText::empty(alloc));
    let mut image = to_10(alloc, &message)?;
    image.body = Body10::Data(body);
    Ok(image)
}

/// The bytes of an image up to those of its body. `Memory` also where it has none, as a section is
/// too long.
fn front_of(alloc: Global, image: &Message10) -> Result<ByteText, Memory>
    ensures { IfOk result (λ front. front ++ body_bytes image.now.body ≡ message_text image.now) }
{
    if !can_be_written(alloc, image)? {
        return Err(Memory);
    }
    let mut out = ByteText::empty(alloc);
    put_before_body(alloc, &mut out, image)?;
    Ok(out)
}

/// The bytes of the body of an image, which are moved.
fn body_of(alloc: Global, image: Message10) -> ByteText
    ensures { result ≡ body_bytes image.body }
{
    let Message10 { body, .. } = image;
    match body {
        Body10::Data(bytes) => bytes,
        Body10::Text(_) | Body10::Binary(_) | Body10::Other => ByteText::empty(alloc),
    }
}

/// The bytes of the image of a message in AMQP 1.0, which are the payload of its transfers
/// (AMQP 1.0 2.6.14 and 3.2), in two parts. The body is moved, and not copied.
///
/// # Errors
///
/// The first fault of the message, as `to_10` answers it. `Memory` where the allocator has no room,
/// and where a section has 2^32 bytes or more, for which AMQP 1.0 has no spelling.
pub fn put_image(alloc: Global, message: Message091) -> Result<ImageText, MapFault>
    // One behind the other, the parts are the sections of the image, by the rows of the table.
    ensures bytes { IfOk result (λ image. image.front ++ image.body ≡ image_text message) }
    // No row is at fault.
    ensures right { OnOk result (first_fault message ≡ None) }
    // Else the first row at fault.
    ensures fault { IfErr result (IsFault10 message) }
{
    let image = image_of(alloc, message)?;
    match front_of(alloc, &image) {
        Ok(front) => Ok(ImageText {
            front,
            body: body_of(alloc, image),
        }),
        Err(_) => Err(MapFault::Memory),
    }
}
