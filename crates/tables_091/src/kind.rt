//! The kinds of fields, by the byte that stands before a value (AMQP 0-9-1 4.2.5.5).

ghost use Rattle.std.specs.Prelude.{◌≡◌};
ghost use Rattle.tables_091.specs.Kinds.{kind_of};

/// The kind of a field.
#[derive(Clone, Copy)]
pub(crate) enum Kind {
    /// One that holds no other field.
    Single(Single),
    Array,
    Table,
}

/// The kind of a field that holds no other.
#[derive(Clone, Copy)]
pub(crate) enum Single {
    /// A number of one byte.
    Octet(Octet),
    /// A number of more bytes.
    Wide(Wide),
    /// Bytes behind their length.
    Text(Text),
    Decimal,
    Void,
}

#[derive(Clone, Copy)]
pub(crate) enum Octet {
    Bool,
    I8,
    U8,
}

#[derive(Clone, Copy)]
pub(crate) enum Wide {
    I16,
    U16,
    I32,
    U32,
    I64,
    F32,
    F64,
    Time,
}

#[derive(Clone, Copy)]
pub(crate) enum Text {
    Long,
    Bytes,
}

/// The kind of a type byte; `None` where no field has it.
pub(crate) fn kind_at(byte: u8) -> Option<Kind>
    ensures { result ≡ kind_of byte }
{
    let kind = match byte {
        b't' => Kind::Single(Single::Octet(Octet::Bool)),
        b'b' => Kind::Single(Single::Octet(Octet::I8)),
        b'B' => Kind::Single(Single::Octet(Octet::U8)),
        b's' => Kind::Single(Single::Wide(Wide::I16)),
        b'u' => Kind::Single(Single::Wide(Wide::U16)),
        b'I' => Kind::Single(Single::Wide(Wide::I32)),
        b'i' => Kind::Single(Single::Wide(Wide::U32)),
        b'l' => Kind::Single(Single::Wide(Wide::I64)),
        b'f' => Kind::Single(Single::Wide(Wide::F32)),
        b'd' => Kind::Single(Single::Wide(Wide::F64)),
        b'T' => Kind::Single(Single::Wide(Wide::Time)),
        b'S' => Kind::Single(Single::Text(Text::Long)),
        b'x' => Kind::Single(Single::Text(Text::Bytes)),
        b'D' => Kind::Single(Single::Decimal),
        b'V' => Kind::Single(Single::Void),
        b'A' => Kind::Array,
        b'F' => Kind::Table,
        _ => return None,
    };
    Some(kind)
}
