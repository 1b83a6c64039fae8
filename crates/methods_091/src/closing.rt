//! The frames that close a connection, and those that answer on a channel, written without memory.
//! Among the latter are the answers to what a publisher sends: exchange.declare-ok,
//! confirm.select-ok, basic.ack and basic.nack.

ghost use Rattle.std.specs.Prelude.{◌≡◌, ℕ, ◌+◌, ◌≤◌, List, ◌++◌, length, drop};
ghost use Rattle.methods_091.specs.Closing.{
  head_text,
  payload_text,
  closing_text,
  close_text,
  close_ok_text,
  channel_open_ok_text,
  flow_ok_text,
  channel_close_text,
  channel_close_ok_text,
  tagged_text,
  declare_ok_text,
  select_ok_text,
  ack_text,
  nack_text,
  IsWrittenOver,
};

use crate::arguments::{octet_of_1, octet_of_2};

/// The byte that ends each frame (AMQP 0-9-1 4.2.3).
const FRAME_END: u8 = 0xCE;

/// Writes bytes from a place on, and answers the place behind them.
fn write_at(out: &mut [u8; 512], at: usize, bytes: &[u8]) -> usize
    requires { at + length bytes.now ≤ 512 }
    ensures place { result ≡ at + length bytes.now }
    ensures bytes { (front old : List ℕ) → IsWrittenOver front old out.old at
        → IsWrittenOver (front ++ bytes.now) old out.new result }
{
    let end = at + bytes.len();
    out[at..end].copy_from_slice(bytes);
    end
}

/// Writes what stands before a method's payload of this length: the kind, the channel and the
/// length.
fn write_head(out: &mut [u8; 512], channel: u16, size: u32) -> usize
    ensures { IsWrittenOver (head_text channel size) out.old out.new result }
{
    let at = write_at(out, 0, &[1]);
    let at = write_at(out, at, &channel.to_be_bytes());
    write_at(out, at, &size.to_be_bytes())
}

/// Writes the frame of a method on a channel, given its payload of at most 255 bytes.
fn put_short(out: &mut [u8; 512], channel: u16, payload: &[u8]) -> usize
    requires { length payload.now ≤ 255 }
    ensures { IsWrittenOver (payload_text channel payload.now) out.old out.new result }
{
    let at = write_head(out, channel, payload.len() as u32);
    let at = write_at(out, at, payload);
    write_at(out, at, &[FRAME_END])
}

/// Writes the frame of a method that closes: the method's own ids, then a reply code, a reply text
/// of at most 255 bytes, and the ids of the method at fault.
fn put_closing(
    out: &mut [u8; 512],
    channel: u16,
    ids: &[u8; 4],
    code: u16,
    text: &[u8],
    class: u16,
    method: u16,
) -> usize
    requires { length text.now ≤ 255 }
    ensures { IsWrittenOver (closing_text channel ids.now code text.now class method) out.old
        out.new result }
{
    let size = 11 + text.len();
    let at = write_head(out, channel, size as u32);
    let at = write_at(out, at, ids);
    let at = write_at(out, at, &code.to_be_bytes());
    let at = write_at(out, at, &[text.len() as u8]);
    let at = write_at(out, at, text);
    let at = write_at(out, at, &class.to_be_bytes());
    let at = write_at(out, at, &method.to_be_bytes());
    write_at(out, at, &[FRAME_END])
}

/// Writes the frame of a method that confirms deliveries: the method's own ids, then a delivery tag
/// and flags.
fn put_tagged(out: &mut [u8; 512], channel: u16, ids: &[u8; 4], tag: u64, flags: u8) -> usize
    ensures { IsWrittenOver (tagged_text channel ids.now tag flags) out.old out.new result }
{
    let at = write_head(out, channel, 13);
    let at = write_at(out, at, ids);
    let at = write_at(out, at, &tag.to_be_bytes());
    write_at(out, at, &[flags, FRAME_END])
}

/// Writes the frame of a connection.close (AMQP 0-9-1 1.4.2.9) on channel 0 over the first bytes of
/// `out`, and answers its length, which is 19 and that of the text: at most 274 bytes. The text is
/// the reply text, of at most 255 bytes; the two ids are those of the method at fault, or zeros.
/// The bytes are those that `put_method` and `put_frame` give; it takes no memory.
pub fn put_close(out: &mut [u8; 512], code: u16, text: &[u8], class: u16, method: u16) -> usize
    requires { length text.now ≤ 255 }
    ensures { IsWrittenOver (close_text code text.now class method) out.old out.new result }
{
    put_closing(out, 0, &[0, 10, 0, 50], code, text, class, method)
}

/// Writes the frame of a connection.close-ok (AMQP 0-9-1 1.4.2.10) on channel 0 over the first
/// bytes of `out`, and answers its length, 12 bytes. The bytes are those that `put_method` and
/// `put_frame` give; it takes no memory.
pub fn put_close_ok(out: &mut [u8; 512]) -> usize
    ensures { IsWrittenOver close_ok_text out.old out.new result }
{
    put_short(out, 0, &[0, 10, 0, 51])
}

/// Writes the frame of a channel.open-ok (AMQP 0-9-1 1.5.2.2) on a channel over the first bytes of
/// `out`, and answers its length, 16 bytes. The bytes are those that `put_method` and `put_frame`
/// give; it takes no memory.
pub fn put_channel_open_ok(out: &mut [u8; 512], channel: u16) -> usize
    ensures { IsWrittenOver (channel_open_ok_text channel) out.old out.new result }
{
    put_short(out, channel, &[0, 20, 0, 11, 0, 0, 0, 0])
}

/// Writes the frame of a channel.flow-ok (AMQP 0-9-1 1.5.2.4) of a channel that is active over the
/// first bytes of `out`, and answers its length, 13 bytes. The bytes are those that `put_method`
/// and `put_frame` give; it takes no memory.
pub fn put_flow_ok(out: &mut [u8; 512], channel: u16) -> usize
    ensures { IsWrittenOver (flow_ok_text channel) out.old out.new result }
{
    put_short(out, channel, &[0, 20, 0, 21, 1])
}

/// Writes the frame of a channel.close (AMQP 0-9-1 1.5.2.5) on a channel over the first bytes of
/// `out`, and answers its length, which is 19 and that of the text: at most 274 bytes. The text is
/// the reply text, of at most 255 bytes; the two ids are those of the method at fault, or zeros.
/// The bytes are those that `put_method` and `put_frame` give; it takes no memory.
pub fn put_channel_close(
    out: &mut [u8; 512],
    channel: u16,
    code: u16,
    text: &[u8],
    class: u16,
    method: u16,
) -> usize
    requires { length text.now ≤ 255 }
    ensures { IsWrittenOver (channel_close_text channel code text.now class method) out.old out.new
        result }
{
    put_closing(out, channel, &[0, 20, 0, 40], code, text, class, method)
}

/// Writes the frame of a channel.close-ok (AMQP 0-9-1 1.5.2.6) on a channel over the first bytes of
/// `out`, and answers its length, 12 bytes. The bytes are those that `put_method` and `put_frame`
/// give; it takes no memory.
pub fn put_channel_close_ok(out: &mut [u8; 512], channel: u16) -> usize
    ensures { IsWrittenOver (channel_close_ok_text channel) out.old out.new result }
{
    put_short(out, channel, &[0, 20, 0, 41])
}

/// Writes the frame of an exchange.declare-ok (AMQP 0-9-1 1.6.2.2) on a channel over the first
/// bytes of `out`, and answers its length, 12 bytes. The bytes are those that `put_method` and
/// `put_frame` give; it takes no memory.
pub fn put_declare_ok(out: &mut [u8; 512], channel: u16) -> usize
    ensures { IsWrittenOver (declare_ok_text channel) out.old out.new result }
{
    put_short(out, channel, &[0, 40, 0, 11])
}

/// Writes the frame of a confirm.select-ok (an addition of RabbitMQ) on a channel over the first
/// bytes of `out`, and answers its length, 12 bytes. The bytes are those that `put_method` and
/// `put_frame` give; it takes no memory.
pub fn put_select_ok(out: &mut [u8; 512], channel: u16) -> usize
    ensures { IsWrittenOver (select_ok_text channel) out.old out.new result }
{
    put_short(out, channel, &[0, 85, 0, 11])
}

/// Writes the frame of a basic.ack (AMQP 0-9-1 1.8.3.13) on a channel over the first bytes of
/// `out`, and answers its length, 21 bytes. It confirms the delivery with this tag, and if
/// `multiple` is set, those before it too. The bytes are those that `put_method` and `put_frame`
/// give; it takes no memory.
pub fn put_ack(out: &mut [u8; 512], channel: u16, tag: u64, multiple: bool) -> usize
    ensures { IsWrittenOver (ack_text channel tag multiple) out.old out.new result }
{
    put_tagged(out, channel, &[0, 60, 0, 80], tag, octet_of_1(multiple))
}

/// Writes the frame of a basic.nack (an addition of RabbitMQ) on a channel over the first bytes of
/// `out`, and answers its length, 21 bytes. It refuses the delivery with this tag, and if
/// `multiple` is set, those before it too; the flag requeue is not set. The bytes are those that
/// `put_method` and `put_frame` give; it takes no memory.
pub fn put_nack(out: &mut [u8; 512], channel: u16, tag: u64, multiple: bool) -> usize
    ensures { IsWrittenOver (nack_text channel tag multiple) out.old out.new result }
{
    put_tagged(
        out,
        channel,
        &[0, 60, 0, 120],
        tag,
        octet_of_2(multiple, false),
    )
}
