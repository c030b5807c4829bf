// A code that was verified.

use std::marker::Model;
use vap_code::Code;

/// A valid code. Only `verify` makes one, and contracts see it as the plain data of the code.
#[derive(Drop)]
pub struct Verified {
    code: Code,
}

impl Model for Verified {
    ghost use Rattle.vap_code.specs.Codes.{CodeOf, code_in};
    ghost use Rattle.vap_code.specs.Valid.{Valid};

    ghost Value = { CodeOf };

    ghost view = { λ v. code_in v.code };

    ghost invariant = { λ v. Valid (code_in v.code) };
}

impl Verified {
    ghost use Rattle.std.specs.Prelude.{◌≡◌};
    ghost use Rattle.vap_code.specs.Codes.{code_in};
    ghost use Rattle.vap_code.specs.Valid.{Valid};

    /// The code.
    pub fn code(&self) -> &Code
        ensures same { code_in result.now ≡ self.now }
        ensures valid { Valid self.now }
    {
        &self.code
    }

    // A code that is known to be valid.
    pub(crate) fn of(code: Code) -> Verified
        requires { Valid (code_in code) }
        ensures { result ≡ code_in code }
    {
        Verified { code }
    }
}
