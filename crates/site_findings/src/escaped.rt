// Bytes in which a control byte, a quote and a backslash are escaped, as in JSON.
ghost use Rattle.std.specs.Prelude.{◌≡◌, ◌<◌, OnOk};
ghost use Rattle.site_findings.specs.Escaped.{escaped, escaped_byte, hex_digit};
ghost use Rattle.site_findings.specs.Put.{Puts};

use crate::text::Text;
use std::alloc::AllocError;

// A digit of base 16.
fn hex_digit(n: u8) -> u8
    requires { n < 16 }
    ensures { result ≡ hex_digit n }
{
    if n < 10 { n + b'0' } else { n + 87 }
}

// Puts a byte.
fn put_escaped_byte(text: &mut Text, b: u8) -> Result<(), AllocError>
    ensures { OnOk result (Puts text.old text.new (escaped_byte b)) }
{
    if b == b'"' || b == b'\\' {
        text.put(&[b'\\', b])
    } else if b < b' ' || b == 127 {
        text.put(b"\\u00")?;
        text.put(&[hex_digit(b / 16), hex_digit(b % 16)])
    } else {
        text.put(&[b])
    }
}

/// Puts bytes, each escaped where it has to be.
pub(crate) fn put_escaped(text: &mut Text, bytes: &[u8]) -> Result<(), AllocError>
    ensures { OnOk result (Puts text.old text.new (escaped bytes.now)) }
{
    for b in bytes {
        put_escaped_byte(text, *b)?;
    }
    Ok(())
}
