// The words of a call of a program.
ghost use Rattle.std.specs.Prelude.{◌≡◌, [], IfOk, OnErr};

use std::alloc::{AllocError, Global};
use std::env::Args;
use std::io;
use std::io::ErrorKind;

/// The words after the program's name, from what `std::env::args` gave. A word that is no UTF-8 makes the words no form, and none
/// stand for it.
///
/// `AllocError` comes only where memory was wanted and could not be had.
pub fn words_of(alloc: Global, args: io::Result<Args>) -> Result<Vec<String>, AllocError>
    ensures none { OnErr args (IfOk result (λ words. words.items ≡ [])) }
{
    match args {
        Ok(args) => args.skip(1).collect(alloc),
        Err(error) if error.kind() == ErrorKind::OutOfMemory => Err(AllocError),
        Err(_) => Ok(Vec::new(alloc)),
    }
}
