//! This file is written by tools/make_methods.py from the published definition of AMQP 0-9-1.
//!
//! The methods (AMQP 0-9-1 1.3 to 1.8, with the additions of RabbitMQ).

ghost use Rattle.std.specs.Prelude.{◌≡◌};
ghost use Rattle.methods_091.specs.Rows.{class_of, id_of};
ghost use Rattle.methods_091.specs.View.{kind_of};
ghost use Rattle.methods_091.specs.Writing.{HasRanges};

use crate::kind::MethodKind;
use crate::{basic, channel, confirm, connection, exchange, queue, tx};
use tables_091::Table;
use wire_base::ByteText;

/// A method and its arguments, in the order of the wire. Reserved arguments are no fields: what
/// stands there is dropped when a method is read, and is zero or empty when one is written.
///
/// A text that is written has at most 255 bytes where it is a short string, and fewer than 2^32
/// where it is a long one. The long strings are the mechanisms, locales, challenges and responses
/// of the class connection.
#[derive(Debug, Drop)]
pub enum Method91 {
    /// connection.start
    ConnectionStart {
        version_major: u8,
        version_minor: u8,
        server_properties: Table,
        mechanisms: ByteText,
        locales: ByteText,
    },
    /// connection.start-ok
    ConnectionStartOk {
        client_properties: Table,
        mechanism: ByteText,
        response: ByteText,
        locale: ByteText,
    },
    /// connection.secure
    ConnectionSecure {
        challenge: ByteText,
    },
    /// connection.secure-ok
    ConnectionSecureOk {
        response: ByteText,
    },
    /// connection.tune
    ConnectionTune {
        channel_max: u16,
        frame_max: u32,
        heartbeat: u16,
    },
    /// connection.tune-ok
    ConnectionTuneOk {
        channel_max: u16,
        frame_max: u32,
        heartbeat: u16,
    },
    /// connection.open
    ConnectionOpen {
        virtual_host: ByteText,
    },
    /// connection.open-ok
    ConnectionOpenOk,
    /// connection.close
    ConnectionClose {
        reply_code: u16,
        reply_text: ByteText,
        class_id: u16,
        method_id: u16,
    },
    /// connection.close-ok
    ConnectionCloseOk,
    /// channel.open
    ChannelOpen,
    /// channel.open-ok
    ChannelOpenOk,
    /// channel.flow
    ChannelFlow {
        active: bool,
    },
    /// channel.flow-ok
    ChannelFlowOk {
        active: bool,
    },
    /// channel.close
    ChannelClose {
        reply_code: u16,
        reply_text: ByteText,
        class_id: u16,
        method_id: u16,
    },
    /// channel.close-ok
    ChannelCloseOk,
    /// exchange.declare
    ExchangeDeclare {
        exchange: ByteText,
        kind: ByteText,
        passive: bool,
        durable: bool,
        auto_delete: bool,
        internal: bool,
        no_wait: bool,
        arguments: Table,
    },
    /// exchange.declare-ok
    ExchangeDeclareOk,
    /// exchange.delete
    ExchangeDelete {
        exchange: ByteText,
        if_unused: bool,
        no_wait: bool,
    },
    /// exchange.delete-ok
    ExchangeDeleteOk,
    /// queue.declare
    QueueDeclare {
        queue: ByteText,
        passive: bool,
        durable: bool,
        exclusive: bool,
        auto_delete: bool,
        no_wait: bool,
        arguments: Table,
    },
    /// queue.declare-ok
    QueueDeclareOk {
        queue: ByteText,
        message_count: u32,
        consumer_count: u32,
    },
    /// queue.bind
    QueueBind {
        queue: ByteText,
        exchange: ByteText,
        routing_key: ByteText,
        no_wait: bool,
        arguments: Table,
    },
    /// queue.bind-ok
    QueueBindOk,
    /// queue.purge
    QueuePurge {
        queue: ByteText,
        no_wait: bool,
    },
    /// queue.purge-ok
    QueuePurgeOk {
        message_count: u32,
    },
    /// queue.delete
    QueueDelete {
        queue: ByteText,
        if_unused: bool,
        if_empty: bool,
        no_wait: bool,
    },
    /// queue.delete-ok
    QueueDeleteOk {
        message_count: u32,
    },
    /// queue.unbind
    QueueUnbind {
        queue: ByteText,
        exchange: ByteText,
        routing_key: ByteText,
        arguments: Table,
    },
    /// queue.unbind-ok
    QueueUnbindOk,
    /// basic.qos
    BasicQos {
        prefetch_size: u32,
        prefetch_count: u16,
        global: bool,
    },
    /// basic.qos-ok
    BasicQosOk,
    /// basic.consume
    BasicConsume {
        queue: ByteText,
        consumer_tag: ByteText,
        no_local: bool,
        no_ack: bool,
        exclusive: bool,
        no_wait: bool,
        arguments: Table,
    },
    /// basic.consume-ok
    BasicConsumeOk {
        consumer_tag: ByteText,
    },
    /// basic.cancel
    BasicCancel {
        consumer_tag: ByteText,
        no_wait: bool,
    },
    /// basic.cancel-ok
    BasicCancelOk {
        consumer_tag: ByteText,
    },
    /// basic.publish
    BasicPublish {
        exchange: ByteText,
        routing_key: ByteText,
        mandatory: bool,
        immediate: bool,
    },
    /// basic.return
    BasicReturn {
        reply_code: u16,
        reply_text: ByteText,
        exchange: ByteText,
        routing_key: ByteText,
    },
    /// basic.deliver
    BasicDeliver {
        consumer_tag: ByteText,
        delivery_tag: u64,
        redelivered: bool,
        exchange: ByteText,
        routing_key: ByteText,
    },
    /// basic.get
    BasicGet {
        queue: ByteText,
        no_ack: bool,
    },
    /// basic.get-ok
    BasicGetOk {
        delivery_tag: u64,
        redelivered: bool,
        exchange: ByteText,
        routing_key: ByteText,
        message_count: u32,
    },
    /// basic.get-empty
    BasicGetEmpty,
    /// basic.ack
    BasicAck {
        delivery_tag: u64,
        multiple: bool,
    },
    /// basic.reject
    BasicReject {
        delivery_tag: u64,
        requeue: bool,
    },
    /// basic.recover-async
    BasicRecoverAsync {
        requeue: bool,
    },
    /// basic.recover
    BasicRecover {
        requeue: bool,
    },
    /// basic.recover-ok
    BasicRecoverOk,
    /// basic.nack
    BasicNack {
        delivery_tag: u64,
        multiple: bool,
        requeue: bool,
    },
    /// confirm.select
    ConfirmSelect {
        no_wait: bool,
    },
    /// confirm.select-ok
    ConfirmSelectOk,
    /// tx.select
    TxSelect,
    /// tx.select-ok
    TxSelectOk,
    /// tx.commit
    TxCommit,
    /// tx.commit-ok
    TxCommitOk,
    /// tx.rollback
    TxRollback,
    /// tx.rollback-ok
    TxRollbackOk,
}

/// The class id and the method id of a method.
pub fn ids(method: &Method91) -> (u16, u16)
    ensures { result ≡ (class_of (kind_of method.now), id_of (kind_of method.now)) }
{
    method.kind().ids()
}

impl Method91 {
    /// The kind of a method.
    #[tactic(auto, using(crate::proofs::KindLaws::some_class))]
    pub(crate) fn kind(&self) -> MethodKind
        ensures { result ≡ kind_of self.now }
    {
        if let Some(kind) = connection::kind(self) {
            return MethodKind::Connection(kind);
        }
        if let Some(kind) = channel::kind(self) {
            return MethodKind::Channel(kind);
        }
        if let Some(kind) = exchange::kind(self) {
            return MethodKind::Exchange(kind);
        }
        if let Some(kind) = queue::kind(self) {
            return MethodKind::Queue(kind);
        }
        if let Some(kind) = basic::kind(self) {
            return MethodKind::Basic(kind);
        }
        if let Some(kind) = confirm::kind(self) {
            return MethodKind::Confirm(kind);
        }
        if let Some(kind) = tx::kind(self) {
            return MethodKind::Tx(kind);
        }
        unreachable!()
    }

    /// Tells proofs that the numbers of a method are of their types. The call does nothing.
    #[tactic(auto, using(crate::proofs::Written::confirm_told, crate::proofs::Written::tx_told))]
    pub fn tell_ranges(&self)
        ensures { HasRanges self.now }
    {
        match self.kind() {
            MethodKind::Connection(_) => connection::tell_ranges(self),
            MethodKind::Channel(_) => channel::tell_ranges(self),
            MethodKind::Exchange(_) => exchange::tell_ranges(self),
            MethodKind::Queue(_) => queue::tell_ranges(self),
            MethodKind::Basic(_) => basic::tell_ranges(self),
            MethodKind::Confirm(_) | MethodKind::Tx(_) => {}
        }
    }
}
