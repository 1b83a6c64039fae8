//! The kinds of values, by the format code that stands before the content of each (AMQP 1.0 1.6).

ghost use Rattle.std.specs.Prelude.{◌≡◌};
ghost use Rattle.std.specs.Int.{byte_len};
ghost use Rattle.types_10.specs.Kinds.{kind_of, kind_byte, wide_width, size_width, is_bare};
ghost use Rattle.types_10.specs.Measures.{head_len, single_head};
ghost use Rattle.types_10.specs.Writing.{shared};

/// What a format code announces.
#[derive(Clone, Copy)]
pub(crate) enum Kind {
    /// A value that holds no other.
    Single(Single),
    /// A list without values, which has no content.
    EmptyList,
    List(Size),
    Map(Size),
    Array(Size),
    Described,
}

/// The kind of a value that holds no other.
#[derive(Clone, Copy)]
pub(crate) enum Single {
    /// A value that the code itself tells.
    Bare(Bare),
    Boolean,
    /// A number of one byte.
    Octet(Octet),
    /// A number of more bytes.
    Wide(Wide),
    Char,
    /// Sixteen bytes.
    Sixteen(Sixteen),
    /// Bytes behind their length.
    Text(Text, Size),
}

#[derive(Clone, Copy)]
pub(crate) enum Bare {
    Null,
    True,
    False,
    Uint,
    Ulong,
}

#[derive(Clone, Copy)]
pub(crate) enum Octet {
    Ubyte,
    Byte,
    Uint,
    Int,
    Ulong,
    Long,
}

#[derive(Clone, Copy)]
pub(crate) enum Wide {
    Ushort,
    Short,
    Uint,
    Int,
    Float,
    Decimal32,
    Ulong,
    Long,
    Double,
    Timestamp,
    Decimal64,
}

#[derive(Clone, Copy)]
pub(crate) enum Sixteen {
    Decimal128,
    Uuid,
}

#[derive(Clone, Copy)]
pub(crate) enum Text {
    Binary,
    String,
    Symbol,
}

/// How wide the length, or the size and the count, of a content are.
#[derive(Clone, Copy)]
pub(crate) enum Size {
    /// One byte.
    Short,
    /// Four bytes.
    Long,
}

/// The kind of a format code; `None` where no type has it.
pub(crate) fn kind_at(byte: u8) -> Option<Kind>
    ensures { result ≡ kind_of byte }
{
    let kind = match byte {
        0x00 => Kind::Described,
        0x40 => Kind::Single(Single::Bare(Bare::Null)),
        0x41 => Kind::Single(Single::Bare(Bare::True)),
        0x42 => Kind::Single(Single::Bare(Bare::False)),
        0x43 => Kind::Single(Single::Bare(Bare::Uint)),
        0x44 => Kind::Single(Single::Bare(Bare::Ulong)),
        0x45 => Kind::EmptyList,
        0x50 => Kind::Single(Single::Octet(Octet::Ubyte)),
        0x51 => Kind::Single(Single::Octet(Octet::Byte)),
        0x52 => Kind::Single(Single::Octet(Octet::Uint)),
        0x53 => Kind::Single(Single::Octet(Octet::Ulong)),
        0x54 => Kind::Single(Single::Octet(Octet::Int)),
        0x55 => Kind::Single(Single::Octet(Octet::Long)),
        0x56 => Kind::Single(Single::Boolean),
        0x60 => Kind::Single(Single::Wide(Wide::Ushort)),
        0x61 => Kind::Single(Single::Wide(Wide::Short)),
        0x70 => Kind::Single(Single::Wide(Wide::Uint)),
        0x71 => Kind::Single(Single::Wide(Wide::Int)),
        0x72 => Kind::Single(Single::Wide(Wide::Float)),
        0x73 => Kind::Single(Single::Char),
        0x74 => Kind::Single(Single::Wide(Wide::Decimal32)),
        0x80 => Kind::Single(Single::Wide(Wide::Ulong)),
        0x81 => Kind::Single(Single::Wide(Wide::Long)),
        0x82 => Kind::Single(Single::Wide(Wide::Double)),
        0x83 => Kind::Single(Single::Wide(Wide::Timestamp)),
        0x84 => Kind::Single(Single::Wide(Wide::Decimal64)),
        0x94 => Kind::Single(Single::Sixteen(Sixteen::Decimal128)),
        0x98 => Kind::Single(Single::Sixteen(Sixteen::Uuid)),
        0xA0 => Kind::Single(Single::Text(Text::Binary, Size::Short)),
        0xA1 => Kind::Single(Single::Text(Text::String, Size::Short)),
        0xA3 => Kind::Single(Single::Text(Text::Symbol, Size::Short)),
        0xB0 => Kind::Single(Single::Text(Text::Binary, Size::Long)),
        0xB1 => Kind::Single(Single::Text(Text::String, Size::Long)),
        0xB3 => Kind::Single(Single::Text(Text::Symbol, Size::Long)),
        0xC0 => Kind::List(Size::Short),
        0xC1 => Kind::Map(Size::Short),
        0xD0 => Kind::List(Size::Long),
        0xD1 => Kind::Map(Size::Long),
        0xE0 => Kind::Array(Size::Short),
        0xF0 => Kind::Array(Size::Long),
        _ => return None,
    };
    Some(kind)
}

impl Kind {
    /// The format code.
    pub(crate) fn code(self) -> u8
        ensures { result ≡ kind_byte self }
    {
        match self {
            Kind::Single(single) => single.code(),
            Kind::EmptyList => 0x45,
            Kind::List(Size::Short) => 0xC0,
            Kind::Map(Size::Short) => 0xC1,
            Kind::List(Size::Long) => 0xD0,
            Kind::Map(Size::Long) => 0xD1,
            Kind::Array(Size::Short) => 0xE0,
            Kind::Array(Size::Long) => 0xF0,
            Kind::Described => 0x00,
        }
    }

    /// The kind that elements of these two kinds share: the wider one, since codes of one type rise
    /// with the width, except that true and false share the boolean in a byte.
    pub(crate) fn shared(self, other: Kind) -> Kind
        ensures { result ≡ shared self other }
    {
        match (self.code(), other.code()) {
            (0x41, 0x42) | (0x42, 0x41) => Kind::Single(Single::Boolean),
            (one, another) => if one < another { other } else { self },
        }
    }

    /// How many bytes of a content the kind alone decides: those of a number, of a text's length,
    /// or of a size and a count.
    pub(crate) fn head_len(self) -> usize
        ensures { result ≡ head_len self }
    {
        match self {
            Kind::Single(single) => single.head_len(),
            Kind::EmptyList | Kind::Described => 0,
            Kind::List(size) | Kind::Map(size) | Kind::Array(size) => 2 * size.width(),
        }
    }

    /// Whether a value of this kind has no content.
    pub(crate) fn is_bare(self) -> bool
        ensures { result ≡ is_bare self }
    {
        matches!(self, Kind::EmptyList | Kind::Single(Single::Bare(_)))
    }
}

impl Single {
    /// The format code.
    fn code(self) -> u8
        ensures { result ≡ kind_byte (Kind.Single self) }
    {
        match self {
            Single::Bare(Bare::Null) => 0x40,
            Single::Bare(Bare::True) => 0x41,
            Single::Bare(Bare::False) => 0x42,
            Single::Bare(Bare::Uint) => 0x43,
            Single::Bare(Bare::Ulong) => 0x44,
            Single::Octet(Octet::Ubyte) => 0x50,
            Single::Octet(Octet::Byte) => 0x51,
            Single::Octet(Octet::Uint) => 0x52,
            Single::Octet(Octet::Ulong) => 0x53,
            Single::Octet(Octet::Int) => 0x54,
            Single::Octet(Octet::Long) => 0x55,
            Single::Boolean => 0x56,
            Single::Wide(Wide::Ushort) => 0x60,
            Single::Wide(Wide::Short) => 0x61,
            Single::Wide(Wide::Uint) => 0x70,
            Single::Wide(Wide::Int) => 0x71,
            Single::Wide(Wide::Float) => 0x72,
            Single::Char => 0x73,
            Single::Wide(Wide::Decimal32) => 0x74,
            Single::Wide(Wide::Ulong) => 0x80,
            Single::Wide(Wide::Long) => 0x81,
            Single::Wide(Wide::Double) => 0x82,
            Single::Wide(Wide::Timestamp) => 0x83,
            Single::Wide(Wide::Decimal64) => 0x84,
            Single::Sixteen(Sixteen::Decimal128) => 0x94,
            Single::Sixteen(Sixteen::Uuid) => 0x98,
            Single::Text(Text::Binary, Size::Short) => 0xA0,
            Single::Text(Text::String, Size::Short) => 0xA1,
            Single::Text(Text::Symbol, Size::Short) => 0xA3,
            Single::Text(Text::Binary, Size::Long) => 0xB0,
            Single::Text(Text::String, Size::Long) => 0xB1,
            Single::Text(Text::Symbol, Size::Long) => 0xB3,
        }
    }

    /// How many bytes of a content the kind alone decides: none of the sixteen of a kind that has
    /// as many.
    fn head_len(self) -> usize
        ensures { result ≡ single_head self }
    {
        match self {
            Single::Bare(_) | Single::Sixteen(_) => 0,
            Single::Boolean | Single::Octet(_) => 1,
            Single::Wide(wide) => wide.width(),
            Single::Char => 4,
            Single::Text(_, size) => size.width(),
        }
    }
}

impl Wide {
    /// The bytes of such a number.
    fn width(self) -> usize
        ensures { result ≡ byte_len (wide_width self) }
    {
        match self {
            Wide::Ushort | Wide::Short => 2,
            Wide::Uint | Wide::Int | Wide::Float | Wide::Decimal32 => 4,
            Wide::Ulong | Wide::Long | Wide::Double | Wide::Timestamp | Wide::Decimal64 => 8,
        }
    }
}

impl Size {
    /// The bytes of one such length, size or count.
    pub(crate) fn width(self) -> usize
        ensures { result ≡ byte_len (size_width self) }
    {
        match self {
            Size::Short => 1,
            Size::Long => 4,
        }
    }
}
