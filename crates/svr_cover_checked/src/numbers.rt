// The numbers that literals write.

ghost use Rattle.std.specs.Prelude.{◌≡◌};
ghost use Rattle.svr_cover_checked.specs.Numbers.{literal_value, value_of};

use svr_token::{Lexeme, Literal, LiteralFault};

const GREATEST: u64 = 4_294_967_295;

/// The value of a literal, or the greatest where it is greater.
fn literal_value(lexeme: Lexeme) -> u32
    ensures { result ≡ literal_value lexeme }
{
    match lexeme {
        Lexeme::Literal { value, .. } => value.min(GREATEST) as u32,
        _ => 0,
    }
}

/// The number that a decimal literal writes, or the greatest where it is greater.
pub(crate) fn value(bytes: &[u8]) -> u32
    ensures { result ≡ value_of bytes.now }
{
    match Literal::Decimal(bytes).lexeme() {
        Ok(lexeme) => literal_value(lexeme),
        Err(LiteralFault::TooWide) => u32::MAX,
        Err(LiteralFault::ZeroSize) => unreachable!(),
    }
}
