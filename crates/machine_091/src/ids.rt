//! The ids of the methods that a connection knows (AMQP 0-9-1 1.4 to 1.8, and RabbitMQ's
//! basic.nack and confirms): the class id and the method id.

ghost use Rattle.std.specs.Prelude.{◌≡◌};
ghost use Rattle.methods_091.specs.Rows.{class_of, id_of};
ghost use Rattle.methods_091.specs.View.{kind_of};
ghost use Rattle.machine_091.specs.Ids.{class_in, id_in, has_ids, is_in, is_of_kind};

use methods_091::{Method91, ids};

/// The class connection.
pub(crate) const CONNECTION: u16 = 10;

/// The class basic.
pub(crate) const BASIC: u16 = 60;

pub(crate) const CONNECTION_START_OK: (u16, u16) = (10, 11);

pub(crate) const CONNECTION_TUNE_OK: (u16, u16) = (10, 31);

pub(crate) const CONNECTION_OPEN: (u16, u16) = (10, 40);

pub(crate) const CONNECTION_CLOSE: (u16, u16) = (10, 50);

pub(crate) const CONNECTION_CLOSE_OK: (u16, u16) = (10, 51);

pub(crate) const CHANNEL_OPEN: (u16, u16) = (20, 10);

pub(crate) const CHANNEL_FLOW: (u16, u16) = (20, 20);

pub(crate) const CHANNEL_CLOSE: (u16, u16) = (20, 40);

pub(crate) const CHANNEL_CLOSE_OK: (u16, u16) = (20, 41);

pub(crate) const EXCHANGE_DECLARE: (u16, u16) = (40, 10);

pub(crate) const QUEUE_DECLARE: (u16, u16) = (50, 10);

pub(crate) const BASIC_QOS: (u16, u16) = (60, 10);

pub(crate) const BASIC_CONSUME: (u16, u16) = (60, 20);

pub(crate) const BASIC_CANCEL: (u16, u16) = (60, 30);

pub(crate) const BASIC_PUBLISH: (u16, u16) = (60, 40);

pub(crate) const BASIC_RETURN: (u16, u16) = (60, 50);

pub(crate) const BASIC_DELIVER: (u16, u16) = (60, 60);

pub(crate) const BASIC_GET: (u16, u16) = (60, 70);

pub(crate) const BASIC_GET_EMPTY: (u16, u16) = (60, 72);

pub(crate) const BASIC_ACK: (u16, u16) = (60, 80);

pub(crate) const BASIC_REJECT: (u16, u16) = (60, 90);

pub(crate) const BASIC_RECOVER_ASYNC: (u16, u16) = (60, 100);

pub(crate) const BASIC_RECOVER: (u16, u16) = (60, 110);

pub(crate) const BASIC_NACK: (u16, u16) = (60, 120);

pub(crate) const CONFIRM_SELECT: (u16, u16) = (85, 10);

/// The class id and the method id of a method frame, 0 where they are cut off.
pub(crate) fn ids_in(payload: &[u8]) -> (u16, u16)
    ensures { result ≡ (class_in payload.now, id_in payload.now) }
{
    let Some((class, rest)) = payload.split_first_chunk::<2>() else {
        return (0, 0);
    };
    let Some((id, _)) = rest.split_first_chunk::<2>() else {
        return (0, 0);
    };
    (u16::from_be_bytes(*class), u16::from_be_bytes(*id))
}

/// Whether these are the ids of a method.
pub(crate) fn has_ids(found: (u16, u16), method: (u16, u16)) -> bool
    ensures { result ≡ has_ids method found.0 found.1 }
{
    found.0 == method.0 && found.1 == method.1
}

/// Whether the payload of a method frame begins with the ids of a method.
pub(crate) fn is_in(method: (u16, u16), payload: &[u8]) -> bool
    ensures { result ≡ is_in method payload.now }
{
    has_ids(ids_in(payload), method)
}

/// Whether a method has these ids.
pub(crate) fn is_method(method: &Method91, wanted: (u16, u16)) -> bool
    ensures { result ≡ is_of_kind wanted (kind_of method.now) }
{
    has_ids(ids(method), wanted)
}
