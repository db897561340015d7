// Document 01, "Errors collected".
ghost use Rattle.std.specs.Prelude.{◌≡◌};
ghost use Rattle.parser.specs.Faults.{number_of};

/// What is wrong with a schema: up to 13 what was wanted where another token stands, or none.
#[derive(Clone, Copy, Drop, PartialEq, Eq, Debug)]
pub enum Fault {
    Declaration = 1,
    StructName = 2,
    ChoiceName = 3,
    LeftCurly = 4,
    RightCurly = 5,
    ImportPath = 6,
    ImportName = 7,
    Field = 8,
    FieldType = 9,
    ImportBeforeDot = 10,
    RightSquare = 11,
    Equals = 12,
    FieldIndex = 13,
    NamelessImport = 14,
    TakenName = 15,
    DeletedTwice = 16,
    AfterSchema = 17,
    LoneComment = 18,
}

impl Fault {
    pub fn number(self) -> u16
        ensures { result ≡ number_of self }
    {
        self as u16
    }
}
