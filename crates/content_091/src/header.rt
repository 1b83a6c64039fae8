//! Content headers (AMQP 0-9-1 4.2.6.1 and 1.8).

ghost use Rattle.std.specs.Prelude.{◌≡◌};
ghost use Rattle.content_091.specs.View.{an_octet, a_longlong, a_table};
ghost use Rattle.content_091.specs.Writing.{HasRanges, IsInRange};

use tables_091::Table;
use wire_base::ByteText;

/// The class basic.
pub(crate) const BASIC: u16 = 60;

/// The properties of a content, in the order in which they stand.
#[derive(Debug, Drop)]
pub struct Props {
    pub content_type: Option<ByteText>,
    pub content_encoding: Option<ByteText>,
    pub headers: Option<Table>,
    pub delivery_mode: Option<u8>,
    pub priority: Option<u8>,
    pub correlation_id: Option<ByteText>,
    pub reply_to: Option<ByteText>,
    pub expiration: Option<ByteText>,
    pub message_id: Option<ByteText>,
    /// Seconds since 1970-01-01 00:00 UTC.
    pub timestamp: Option<u64>,
    /// The property that the standard calls type.
    pub kind: Option<ByteText>,
    pub user_id: Option<ByteText>,
    pub app_id: Option<ByteText>,
    pub cluster_id: Option<ByteText>,
}

/// The header of a content of the class basic: how many bytes its body has, and its properties.
#[derive(Debug, Drop)]
pub struct Header91 {
    pub size: u64,
    pub props: Props,
}

/// Tells proofs that an octet is one.
fn tell_octet(n: &Option<u8>)
    ensures { IsInRange (an_octet n.now) }
{
    match n {
        Some(n) => {
            let _known = *n;
        }
        None => {}
    }
}

/// Tells proofs that a number of eight bytes is one.
fn tell_longlong(n: &Option<u64>)
    ensures { IsInRange (a_longlong n.now) }
{
    match n {
        Some(n) => {
            let _known = *n;
        }
        None => {}
    }
}

/// Tells proofs that the numbers of a table are of their types.
fn tell_table(table: &Option<Table>)
    ensures { IsInRange (a_table table.now) }
{
    match table {
        Some(table) => table.tell_ranges(),
        None => {}
    }
}

impl Header91 {
    /// Tells proofs that the numbers of a header are of their types. The call does nothing.
    pub fn tell_ranges(&self)
        ensures { HasRanges self.now }
    {
        let _known = self.size;
        tell_table(&self.props.headers);
        tell_octet(&self.props.delivery_mode);
        tell_octet(&self.props.priority);
        tell_longlong(&self.props.timestamp);
    }
}
