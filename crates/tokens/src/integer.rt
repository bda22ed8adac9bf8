ghost use Rattle.std.specs.Prelude.{◌↔◌, IsTrue};
ghost use Rattle.tokens.specs.Tokens.{Natural, Integer};

// Whether the bytes are 0, or an optional minus and digits that begin with 1 to 9. There may be
// thousands of digits, so that no value is computed.
pub fn is_integer(bytes: &[u8]) -> bool
    ensures { IsTrue result ↔ Integer bytes.now }
{
    match bytes {
        b"0" => true,
        [b'-', rest @ ..] => is_natural(rest),
        _ => is_natural(bytes),
    }
}

fn is_natural(bytes: &[u8]) -> bool
    ensures { IsTrue result ↔ Natural bytes.now }
{
    match bytes {
        [b'1'..=b'9', rest @ ..] => rest.iter().all(|b| b.is_ascii_digit()),
        _ => false,
    }
}
