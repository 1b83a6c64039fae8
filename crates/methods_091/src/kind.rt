//! This file is written by tools/make_methods.py from the published definition of AMQP 0-9-1.
//!
//! The kinds of methods, and their ids.

ghost use Rattle.std.specs.Prelude.{◌≡◌};
ghost use Rattle.methods_091.specs.Rows.{class_of, id_of, connection_with, channel_with};
ghost use Rattle.methods_091.specs.Rows.{exchange_with, queue_with, basic_with, confirm_with};
ghost use Rattle.methods_091.specs.Rows.{tx_with, kind_with};

/// The kind of a method, by its class.
#[derive(Clone, Copy)]
pub(crate) enum MethodKind {
    Connection(ConnectionKind),
    Channel(ChannelKind),
    Exchange(ExchangeKind),
    Queue(QueueKind),
    Basic(BasicKind),
    Confirm(ConfirmKind),
    Tx(TxKind),
}

/// The methods of the class connection.
#[derive(Clone, Copy)]
pub(crate) enum ConnectionKind {
    Start,
    StartOk,
    Secure,
    SecureOk,
    Tune,
    TuneOk,
    Open,
    OpenOk,
    Close,
    CloseOk,
}

/// The methods of the class channel.
#[derive(Clone, Copy)]
pub(crate) enum ChannelKind {
    Open,
    OpenOk,
    Flow,
    FlowOk,
    Close,
    CloseOk,
}

/// The methods of the class exchange.
#[derive(Clone, Copy)]
pub(crate) enum ExchangeKind {
    Declare,
    DeclareOk,
    Delete,
    DeleteOk,
}

/// The methods of the class queue.
#[derive(Clone, Copy)]
pub(crate) enum QueueKind {
    Declare,
    DeclareOk,
    Bind,
    BindOk,
    Purge,
    PurgeOk,
    Delete,
    DeleteOk,
    Unbind,
    UnbindOk,
}

/// The methods of the class basic.
#[derive(Clone, Copy)]
pub(crate) enum BasicKind {
    Qos,
    QosOk,
    Consume,
    ConsumeOk,
    Cancel,
    CancelOk,
    Publish,
    Return,
    Deliver,
    Get,
    GetOk,
    GetEmpty,
    Ack,
    Reject,
    RecoverAsync,
    Recover,
    RecoverOk,
    Nack,
}

/// The methods of the class confirm.
#[derive(Clone, Copy)]
pub(crate) enum ConfirmKind {
    Select,
    SelectOk,
}

/// The methods of the class tx.
#[derive(Clone, Copy)]
pub(crate) enum TxKind {
    Select,
    SelectOk,
    Commit,
    CommitOk,
    Rollback,
    RollbackOk,
}

fn connection_kind(id: u16) -> Option<ConnectionKind>
    ensures { result ≡ connection_with id }
{
    match id {
        10 => Some(ConnectionKind::Start),
        11 => Some(ConnectionKind::StartOk),
        20 => Some(ConnectionKind::Secure),
        21 => Some(ConnectionKind::SecureOk),
        30 => Some(ConnectionKind::Tune),
        31 => Some(ConnectionKind::TuneOk),
        40 => Some(ConnectionKind::Open),
        41 => Some(ConnectionKind::OpenOk),
        50 => Some(ConnectionKind::Close),
        51 => Some(ConnectionKind::CloseOk),
        _ => None,
    }
}

fn channel_kind(id: u16) -> Option<ChannelKind>
    ensures { result ≡ channel_with id }
{
    match id {
        10 => Some(ChannelKind::Open),
        11 => Some(ChannelKind::OpenOk),
        20 => Some(ChannelKind::Flow),
        21 => Some(ChannelKind::FlowOk),
        40 => Some(ChannelKind::Close),
        41 => Some(ChannelKind::CloseOk),
        _ => None,
    }
}

fn exchange_kind(id: u16) -> Option<ExchangeKind>
    ensures { result ≡ exchange_with id }
{
    match id {
        10 => Some(ExchangeKind::Declare),
        11 => Some(ExchangeKind::DeclareOk),
        20 => Some(ExchangeKind::Delete),
        21 => Some(ExchangeKind::DeleteOk),
        _ => None,
    }
}

fn queue_kind(id: u16) -> Option<QueueKind>
    ensures { result ≡ queue_with id }
{
    match id {
        10 => Some(QueueKind::Declare),
        11 => Some(QueueKind::DeclareOk),
        20 => Some(QueueKind::Bind),
        21 => Some(QueueKind::BindOk),
        30 => Some(QueueKind::Purge),
        31 => Some(QueueKind::PurgeOk),
        40 => Some(QueueKind::Delete),
        41 => Some(QueueKind::DeleteOk),
        50 => Some(QueueKind::Unbind),
        51 => Some(QueueKind::UnbindOk),
        _ => None,
    }
}

fn basic_kind(id: u16) -> Option<BasicKind>
    ensures { result ≡ basic_with id }
{
    match id {
        10 => Some(BasicKind::Qos),
        11 => Some(BasicKind::QosOk),
        20 => Some(BasicKind::Consume),
        21 => Some(BasicKind::ConsumeOk),
        30 => Some(BasicKind::Cancel),
        31 => Some(BasicKind::CancelOk),
        40 => Some(BasicKind::Publish),
        50 => Some(BasicKind::Return),
        60 => Some(BasicKind::Deliver),
        70 => Some(BasicKind::Get),
        71 => Some(BasicKind::GetOk),
        72 => Some(BasicKind::GetEmpty),
        80 => Some(BasicKind::Ack),
        90 => Some(BasicKind::Reject),
        100 => Some(BasicKind::RecoverAsync),
        110 => Some(BasicKind::Recover),
        111 => Some(BasicKind::RecoverOk),
        120 => Some(BasicKind::Nack),
        _ => None,
    }
}

fn confirm_kind(id: u16) -> Option<ConfirmKind>
    ensures { result ≡ confirm_with id }
{
    match id {
        10 => Some(ConfirmKind::Select),
        11 => Some(ConfirmKind::SelectOk),
        _ => None,
    }
}

fn tx_kind(id: u16) -> Option<TxKind>
    ensures { result ≡ tx_with id }
{
    match id {
        10 => Some(TxKind::Select),
        11 => Some(TxKind::SelectOk),
        20 => Some(TxKind::Commit),
        21 => Some(TxKind::CommitOk),
        30 => Some(TxKind::Rollback),
        31 => Some(TxKind::RollbackOk),
        _ => None,
    }
}

fn connection_ids(kind: ConnectionKind) -> (u16, u16)
    ensures { result ≡ (
      class_of (MethodKind.Connection kind),
      id_of (MethodKind.Connection kind),
    ) }
{
    match kind {
        ConnectionKind::Start => (10, 10),
        ConnectionKind::StartOk => (10, 11),
        ConnectionKind::Secure => (10, 20),
        ConnectionKind::SecureOk => (10, 21),
        ConnectionKind::Tune => (10, 30),
        ConnectionKind::TuneOk => (10, 31),
        ConnectionKind::Open => (10, 40),
        ConnectionKind::OpenOk => (10, 41),
        ConnectionKind::Close => (10, 50),
        ConnectionKind::CloseOk => (10, 51),
    }
}

fn channel_ids(kind: ChannelKind) -> (u16, u16)
    ensures { result ≡ (
      class_of (MethodKind.Channel kind),
      id_of (MethodKind.Channel kind),
    ) }
{
    match kind {
        ChannelKind::Open => (20, 10),
        ChannelKind::OpenOk => (20, 11),
        ChannelKind::Flow => (20, 20),
        ChannelKind::FlowOk => (20, 21),
        ChannelKind::Close => (20, 40),
        ChannelKind::CloseOk => (20, 41),
    }
}

fn exchange_ids(kind: ExchangeKind) -> (u16, u16)
    ensures { result ≡ (
      class_of (MethodKind.Exchange kind),
      id_of (MethodKind.Exchange kind),
    ) }
{
    match kind {
        ExchangeKind::Declare => (40, 10),
        ExchangeKind::DeclareOk => (40, 11),
        ExchangeKind::Delete => (40, 20),
        ExchangeKind::DeleteOk => (40, 21),
    }
}

fn queue_ids(kind: QueueKind) -> (u16, u16)
    ensures { result ≡ (
      class_of (MethodKind.Queue kind),
      id_of (MethodKind.Queue kind),
    ) }
{
    match kind {
        QueueKind::Declare => (50, 10),
        QueueKind::DeclareOk => (50, 11),
        QueueKind::Bind => (50, 20),
        QueueKind::BindOk => (50, 21),
        QueueKind::Purge => (50, 30),
        QueueKind::PurgeOk => (50, 31),
        QueueKind::Delete => (50, 40),
        QueueKind::DeleteOk => (50, 41),
        QueueKind::Unbind => (50, 50),
        QueueKind::UnbindOk => (50, 51),
    }
}

fn basic_ids(kind: BasicKind) -> (u16, u16)
    ensures { result ≡ (
      class_of (MethodKind.Basic kind),
      id_of (MethodKind.Basic kind),
    ) }
{
    match kind {
        BasicKind::Qos => (60, 10),
        BasicKind::QosOk => (60, 11),
        BasicKind::Consume => (60, 20),
        BasicKind::ConsumeOk => (60, 21),
        BasicKind::Cancel => (60, 30),
        BasicKind::CancelOk => (60, 31),
        BasicKind::Publish => (60, 40),
        BasicKind::Return => (60, 50),
        BasicKind::Deliver => (60, 60),
        BasicKind::Get => (60, 70),
        BasicKind::GetOk => (60, 71),
        BasicKind::GetEmpty => (60, 72),
        BasicKind::Ack => (60, 80),
        BasicKind::Reject => (60, 90),
        BasicKind::RecoverAsync => (60, 100),
        BasicKind::Recover => (60, 110),
        BasicKind::RecoverOk => (60, 111),
        BasicKind::Nack => (60, 120),
    }
}

fn confirm_ids(kind: ConfirmKind) -> (u16, u16)
    ensures { result ≡ (
      class_of (MethodKind.Confirm kind),
      id_of (MethodKind.Confirm kind),
    ) }
{
    match kind {
        ConfirmKind::Select => (85, 10),
        ConfirmKind::SelectOk => (85, 11),
    }
}

fn tx_ids(kind: TxKind) -> (u16, u16)
    ensures { result ≡ (
      class_of (MethodKind.Tx kind),
      id_of (MethodKind.Tx kind),
    ) }
{
    match kind {
        TxKind::Select => (90, 10),
        TxKind::SelectOk => (90, 11),
        TxKind::Commit => (90, 20),
        TxKind::CommitOk => (90, 21),
        TxKind::Rollback => (90, 30),
        TxKind::RollbackOk => (90, 31),
    }
}

/// The kind with these ids; `None` where no method has them.
pub(crate) fn kind_at(class: u16, id: u16) -> Option<MethodKind>
    ensures { result ≡ kind_with class id }
{
    let kind = match class {
        10 => MethodKind::Connection(connection_kind(id)?),
        20 => MethodKind::Channel(channel_kind(id)?),
        40 => MethodKind::Exchange(exchange_kind(id)?),
        50 => MethodKind::Queue(queue_kind(id)?),
        60 => MethodKind::Basic(basic_kind(id)?),
        85 => MethodKind::Confirm(confirm_kind(id)?),
        90 => MethodKind::Tx(tx_kind(id)?),
        _ => return None,
    };
    Some(kind)
}

impl MethodKind {
    /// The class id and the method id.
    pub(crate) fn ids(self) -> (u16, u16)
        ensures { result ≡ (class_of self, id_of self) }
    {
        match self {
            MethodKind::Connection(kind) => connection_ids(kind),
            MethodKind::Channel(kind) => channel_ids(kind),
            MethodKind::Exchange(kind) => exchange_ids(kind),
            MethodKind::Queue(kind) => queue_ids(kind),
            MethodKind::Basic(kind) => basic_ids(kind),
            MethodKind::Confirm(kind) => confirm_ids(kind),
            MethodKind::Tx(kind) => tx_ids(kind),
        }
    }
}
