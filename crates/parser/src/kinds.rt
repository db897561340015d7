// Tests of a kind by its number, which may be no kind's: 0 is the end of the tokens.
ghost use Rattle.std.specs.Prelude.{◌≡◌};
ghost use Rattle.token.specs.Kind.{is_plain, is_rule, is_keyword};

use token::kind::Kind;

/// Whether it is a plain type's.
pub fn is_plain(kind: u16) -> bool
    ensures { result ≡ is_plain kind }
{
    Kind::try_from(kind).is_ok_and(Kind::is_plain)
}

/// Whether it is a field's rule.
pub fn is_rule(kind: u16) -> bool
    ensures { result ≡ is_rule kind }
{
    Kind::try_from(kind).is_ok_and(Kind::is_rule)
}

/// Whether it begins a declaration.
pub fn is_keyword(kind: u16) -> bool
    ensures { result ≡ is_keyword kind }
{
    Kind::try_from(kind).is_ok_and(Kind::is_keyword)
}
