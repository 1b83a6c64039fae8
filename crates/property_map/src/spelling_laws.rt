//! What holds of the bytes of images. Only laws stand here.

ghost use Rattle.std.specs.Prelude.{◌≡◌, ◌<◌, ◌^◌, length};
ghost use Rattle.sections_10.specs.Writing.{message_text, CanBeWritten};
ghost use Rattle.sections_10.specs.declared.message.Message10.{Message10};
ghost use Rattle.property_map.specs.Image.{IsImage10};
ghost use Rattle.property_map.specs.Spelling.{image_text};
ghost use Rattle.property_map.specs.declared.message.Message091.{Message091};

/// The laws of the bytes of images, for proofs to cite; the call does nothing.
pub fn images_are_spelled()
    // What is written of an image is what the rows say.
    ensures text { (m : Message091) (image : Message10) → IsImage10 m image
        → message_text image ≡ image_text m }
    // An image is written, unless it has 2^32 bytes or more.
    ensures short { (m : Message091) (image : Message10) → IsImage10 m image
        → length (image_text m) < 2 ^ 32 → CanBeWritten image }
{}
