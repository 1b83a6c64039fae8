//! What holds of images. Only laws stand here.

ghost use Rattle.std.specs.Prelude.{◌≡◌, ◌≤◌, ℕ, List, length, IfSome, None, Ok};
ghost use Rattle.content_091.specs.Writing.{header_text};
ghost use Rattle.sections_10.specs.View.{kept_of};
ghost use Rattle.sections_10.specs.declared.message.Message10.{Message10};
ghost use Rattle.property_map.specs.Image.{IsImage10, first_fault};
ghost use Rattle.property_map.specs.Image091.{image_in};
ghost use Rattle.property_map.specs.Back.{Fits, IsSame};
ghost use Rattle.property_map.specs.Received.{header_of, received_in};
ghost use Rattle.property_map.specs.declared.message.Message091.{Message091};

/// The laws of images, for proofs to cite; the call does nothing.
pub fn map_laws()
    // A message that has an image has no fault.
    ensures right { (m : Message091) (image : Message10)
        → IsImage10 m image → first_fault m ≡ None }
    // A message has one image at most, as far as its sections say something.
    ensures one { (m : Message091) (a b : Message10) → IsImage10 m a → IsImage10 m b
        → kept_of a ≡ kept_of b }
    // A message that has an image, and fits, comes back from it, with its headers in any order.
    ensures back { (m : Message091) (image : Message10) (queue : List ℕ) (room : ℕ)
        → IsImage10 m image → Fits room m
        → (out : Message091) × (image_in queue room image ≡ Ok out) × IsSame m out }
{}

/// The laws of what is received, by the bytes alone.
pub fn received_lawfully()
    // The exchange is a short string.
    ensures exchange { (queue : List ℕ) (room : ℕ) (bytes : List ℕ)
        → IfSome (received_in queue room bytes) (λ r. length r.message.exchange ≤ 255) }
    // So is the routing key.
    ensures key { (queue : List ℕ) (room : ℕ) (bytes : List ℕ)
        → IfSome (received_in queue room bytes) (λ r. length r.message.key ≤ 255) }
    // The content header fits the room.
    ensures header { (queue : List ℕ) (room : ℕ) (bytes : List ℕ)
        → IfSome (received_in queue room bytes) (λ r. length (header_text (header_of r.message))
        ≤ room) }
{}
