//! The names of methods (AMQP 0-9-1 1.3 to 1.8, with the additions of RabbitMQ).

ghost use Rattle.std.specs.Prelude.{◌≡◌};
ghost use Rattle.methods_091.specs.Rows.{class_of, id_of};
ghost use Rattle.methods_091.specs.View.{kind_of};
ghost use Rattle.gate_listing.specs.Names.{method_name};

use methods_091::Method91;

/// The name of a method's class, and its own; one arm a row of the standard.
pub(crate) fn method_name(method: &Method91) -> &'static [u8]
    ensures { result.now ≡ method_name (class_of (kind_of method.now)) (id_of
        (kind_of method.now)) }
{
    match method {
        Method91::ConnectionStart { .. } => b"connection.start",
        Method91::ConnectionStartOk { .. } => b"connection.start-ok",
        Method91::ConnectionSecure { .. } => b"connection.secure",
        Method91::ConnectionSecureOk { .. } => b"connection.secure-ok",
        Method91::ConnectionTune { .. } => b"connection.tune",
        Method91::ConnectionTuneOk { .. } => b"connection.tune-ok",
        Method91::ConnectionOpen { .. } => b"connection.open",
        Method91::ConnectionOpenOk => b"connection.open-ok",
        Method91::ConnectionClose { .. } => b"connection.close",
        Method91::ConnectionCloseOk => b"connection.close-ok",
        Method91::ChannelOpen => b"channel.open",
        Method91::ChannelOpenOk => b"channel.open-ok",
        Method91::ChannelFlow { .. } => b"channel.flow",
        Method91::ChannelFlowOk { .. } => b"channel.flow-ok",
        Method91::ChannelClose { .. } => b"channel.close",
        Method91::ChannelCloseOk => b"channel.close-ok",
        Method91::ExchangeDeclare { .. } => b"exchange.declare",
        Method91::ExchangeDeclareOk => b"exchange.declare-ok",
        Method91::ExchangeDelete { .. } => b"exchange.delete",
        Method91::ExchangeDeleteOk => b"exchange.delete-ok",
        Method91::QueueDeclare { .. } => b"queue.declare",
        Method91::QueueDeclareOk { .. } => b"queue.declare-ok",
        Method91::QueueBind { .. } => b"queue.bind",
        Method91::QueueBindOk => b"queue.bind-ok",
        Method91::QueuePurge { .. } => b"queue.purge",
        Method91::QueuePurgeOk { .. } => b"queue.purge-ok",
        Method91::QueueDelete { .. } => b"queue.delete",
        Method91::QueueDeleteOk { .. } => b"queue.delete-ok",
        Method91::QueueUnbind { .. } => b"queue.unbind",
        Method91::QueueUnbindOk => b"queue.unbind-ok",
        Method91::BasicQos { .. } => b"basic.qos",
        Method91::BasicQosOk => b"basic.qos-ok",
        Method91::BasicConsume { .. } => b"basic.consume",
        Method91::BasicConsumeOk { .. } => b"basic.consume-ok",
        Method91::BasicCancel { .. } => b"basic.cancel",
        Method91::BasicCancelOk { .. } => b"basic.cancel-ok",
        Method91::BasicPublish { .. } => b"basic.publish",
        Method91::BasicReturn { .. } => b"basic.return",
        Method91::BasicDeliver { .. } => b"basic.deliver",
        Method91::BasicGet { .. } => b"basic.get",
        Method91::BasicGetOk { .. } => b"basic.get-ok",
        Method91::BasicGetEmpty => b"basic.get-empty",
        Method91::BasicAck { .. } => b"basic.ack",
        Method91::BasicReject { .. } => b"basic.reject",
        Method91::BasicRecoverAsync { .. } => b"basic.recover-async",
        Method91::BasicRecover { .. } => b"basic.recover",
        Method91::BasicRecoverOk => b"basic.recover-ok",
        Method91::BasicNack { .. } => b"basic.nack",
        Method91::ConfirmSelect { .. } => b"confirm.select",
        Method91::ConfirmSelectOk => b"confirm.select-ok",
        Method91::TxSelect => b"tx.select",
        Method91::TxSelectOk => b"tx.select-ok",
        Method91::TxCommit => b"tx.commit",
        Method91::TxCommitOk => b"tx.commit-ok",
        Method91::TxRollback => b"tx.rollback",
        Method91::TxRollbackOk => b"tx.rollback-ok",
    }
}
