//! The rows of what is due to each end: the order in which units go.

ghost use Rattle.std.specs.Prelude.{◌≡◌};
ghost use Rattle.bridge_core.specs.Rows.{in_order, is_up_open, units_of, units_if, up_units_of};
ghost use Rattle.gate_model.specs.Due.{client_rows, up_rows};
ghost use Rattle.gate_model.specs.State.{State};

/// Units to the client that go behind those of each row before, and by rising numbers of channels.
#[derive(Clone, Copy, Debug)]
pub enum Row {
    /// The frames of a return behind its method.
    Content,
    /// The frames of a delivered content behind its method.
    Writing,
    /// The protocol header, connection.start, connection.tune and connection.open-ok.
    Opening,
    ChannelOpenOk,
    /// The answers to requests that need nothing of the container.
    Ok,
    /// basic.consume-ok and queue.declare-ok.
    ConsumeOk,
    /// basic.get-ok and basic.get-empty.
    Get,
    /// basic.deliver.
    Deliver,
    /// basic.return, basic.ack and basic.nack.
    Confirm,
    /// connection.close-ok.
    CloseOk,
    ChannelCloseOk,
    /// connection.close.
    Close,
    ChannelClose,
    Heartbeat,
}

/// The rows to the client, in the order in which they go.
pub fn to_client() -> [Row; 14]
    ensures { (w : State) → client_rows w ≡ in_order (units_of w) result }
{
    [
        Row::Content,
        Row::Writing,
        Row::Opening,
        Row::ChannelOpenOk,
        Row::Ok,
        Row::ConsumeOk,
        Row::Get,
        Row::Deliver,
        Row::Confirm,
        Row::CloseOk,
        Row::ChannelCloseOk,
        Row::Close,
        Row::ChannelClose,
        Row::Heartbeat,
    ]
}

/// Units to the container, in the same way.
#[derive(Clone, Copy, Debug)]
pub enum UpRow {
    /// The SASL header, sasl-init, the AMQP header and open.
    Opening,
    Begin,
    Attach,
    /// The flows of links.
    LinkFlow,
    /// The flows of sessions.
    SessionFlow,
    Transfer,
    /// The dispositions of deliveries.
    Dispose,
    /// The dispositions that answer the container's.
    Settle,
    Detach,
    End,
    Close,
    /// An empty frame, where the container would give up without one.
    Empty,
}

/// The rows to the container, in the order in which they go.
pub fn to_up() -> [UpRow; 12]
    ensures { (w : State) → up_rows w
        ≡ units_if (is_up_open w) (in_order (up_units_of w) result) }
{
    [
        UpRow::Opening,
        UpRow::Begin,
        UpRow::Attach,
        UpRow::LinkFlow,
        UpRow::SessionFlow,
        UpRow::Transfer,
        UpRow::Dispose,
        UpRow::Settle,
        UpRow::Detach,
        UpRow::End,
        UpRow::Close,
        UpRow::Empty,
    ]
}
