//! Hexadecimal digits.

ghost use Rattle.std.specs.Prelude.{◌≡◌, ◌++◌, ◌∷◌, ◌<◌, [], OnOk, string_bytes};
ghost use Rattle.events.specs.Text.{hex_text, hex_text_digit};

use net_types::Memory;

/// A digit in lower case.
fn hex_digit(n: u8) -> char
    requires { n < 16 }
    ensures { result ≡ hex_text_digit n }
{
    if n < 10 {
        char::from(b'0' + n)
    } else {
        char::from(b'a' + (n - 10))
    }
}

fn push_octet(text: &mut String, octet: u8) -> Result<(), Memory>
    ensures { OnOk result (string_bytes text.new ≡ string_bytes text.old ++ hex_text (octet ∷ [])) }
{
    text.push(hex_digit(octet / 16))?;
    text.push(hex_digit(octet % 16))?;
    Ok(())
}

/// Writes two digits an octet, in lower case.
pub fn push_hex(text: &mut String, octets: &[u8]) -> Result<(), Memory>
    ensures { OnOk result (string_bytes text.new ≡ string_bytes text.old ++ hex_text octets.now) }
{
    for octet in octets {
        push_octet(text, *octet)?;
    }
    Ok(())
}
