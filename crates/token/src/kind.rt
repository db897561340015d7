// The token kinds, after token.rs's `Variant`.
ghost use Rattle.std.specs.Prelude.{◌≡◌};
ghost use Rattle.token.specs.Kind.{is_plain, is_rule, is_keyword};
ghost use Rattle.token.specs.Kinds.{number_of, Decodes};

/// What a token is.
#[derive(Clone, Copy, Drop, PartialEq, Eq, Debug)]
pub enum Kind {
    As = 1,
    Asymmetric = 2,
    Bool = 3,
    Bytes = 4,
    Choice = 5,
    Colon = 6,
    Comment = 7,
    Deleted = 8,
    Dot = 9,
    Equals = 10,
    F64 = 11,
    Identifier = 12,
    Import = 13,
    Integer = 14,
    LeftCurly = 15,
    LeftSquare = 16,
    Optional = 17,
    Path = 18,
    RightCurly = 19,
    RightSquare = 20,
    S64 = 21,
    String = 22,
    Struct = 23,
    U64 = 24,
    Unit = 25,
}

// schema's kinds have their own error of this shape.
/// A number that is no kind's.
#[derive(Clone, Copy, Drop, PartialEq, Eq, Debug)]
pub struct UnknownKind(pub u16);

impl Kind {
    pub fn number(self) -> u16
        ensures { result ≡ number_of self }
    {
        self as u16
    }

    /// Whether it is a plain type's.
    pub fn is_plain(self) -> bool
        ensures { result ≡ is_plain (number_of self) }
    {
        matches!(
            self,
            Kind::Bool | Kind::Bytes | Kind::F64 | Kind::S64 | Kind::String | Kind::U64 | Kind::Unit
        )
    }

    /// Whether it is a field's rule.
    pub fn is_rule(self) -> bool
        ensures { result ≡ is_rule (number_of self) }
    {
        matches!(self, Kind::Asymmetric | Kind::Optional)
    }

    /// Whether it begins a declaration.
    pub fn is_keyword(self) -> bool
        ensures { result ≡ is_keyword (number_of self) }
    {
        matches!(self, Kind::Struct | Kind::Choice)
    }
}

impl TryFrom<u16> for Kind {
    type Error = UnknownKind;

    ghost try_from_gives = { Decodes };

    fn try_from(number: u16) -> Result<Kind, UnknownKind> {
        match number {
            1 => Ok(Kind::As),
            2 => Ok(Kind::Asymmetric),
            3 => Ok(Kind::Bool),
            4 => Ok(Kind::Bytes),
            5 => Ok(Kind::Choice),
            6 => Ok(Kind::Colon),
            7 => Ok(Kind::Comment),
            8 => Ok(Kind::Deleted),
            9 => Ok(Kind::Dot),
            10 => Ok(Kind::Equals),
            11 => Ok(Kind::F64),
            12 => Ok(Kind::Identifier),
            13 => Ok(Kind::Import),
            14 => Ok(Kind::Integer),
            15 => Ok(Kind::LeftCurly),
            16 => Ok(Kind::LeftSquare),
            17 => Ok(Kind::Optional),
            18 => Ok(Kind::Path),
            19 => Ok(Kind::RightCurly),
            20 => Ok(Kind::RightSquare),
            21 => Ok(Kind::S64),
            22 => Ok(Kind::String),
            23 => Ok(Kind::Struct),
            24 => Ok(Kind::U64),
            25 => Ok(Kind::Unit),
            _ => Err(UnknownKind(number)),
        }
    }
}
