// The schema kinds.
ghost use Rattle.std.specs.Prelude.{◌≡◌};
ghost use Rattle.schema.specs.Kinds.{number_of, Decodes};

/// What a record of a schema table is.
#[derive(Clone, Copy, Drop, PartialEq, Eq, Debug)]
pub enum Kind {
    Comment = 101,
    Import = 102,
    Struct = 103,
    Choice = 104,
    Field = 105,
    Deleted = 106,
    Array = 107,
    Plain = 108,
    Custom = 109,
}

/// A number that is no kind's.
#[derive(Clone, Copy, Drop, PartialEq, Eq, Debug)]
pub struct UnknownKind(pub u16);

impl Kind {
    pub fn number(self) -> u16
        ensures { result ≡ number_of self }
    {
        self as u16
    }
}

impl TryFrom<u16> for Kind {
    type Error = UnknownKind;

    ghost try_from_gives = { Decodes };

    fn try_from(number: u16) -> Result<Kind, UnknownKind> {
        match number {
            101 => Ok(Kind::Comment),
            102 => Ok(Kind::Import),
            103 => Ok(Kind::Struct),
            104 => Ok(Kind::Choice),
            105 => Ok(Kind::Field),
            106 => Ok(Kind::Deleted),
            107 => Ok(Kind::Array),
            108 => Ok(Kind::Plain),
            109 => Ok(Kind::Custom),
            _ => Err(UnknownKind(number)),
        }
    }
}
