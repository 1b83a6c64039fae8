//! Messages of AMQP 0-9-1, as they are published.

use content_091::Props;
use wire_base::ByteText;

/// What a client publishes: the exchange and the routing key of its method, and the properties and
/// the body of its content (AMQP 0-9-1 1.8.3.7 and 4.2.6).
#[derive(Debug, Drop)]
pub struct Message091 {
    pub exchange: ByteText,
    pub key: ByteText,
    pub props: Props,
    pub body: ByteText,
}
