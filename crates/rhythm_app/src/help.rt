ghost use Rattle.rhythm_app.specs.Asked.{help, version};
ghost use Rattle.rhythm_app.specs.Stages.{HasText};
ghost use Rattle.std.specs.Prelude.{◌≡◌, IfOk, Some};

use crate::lent::{Lent, World};
use crate::stop::Stop;
use command_line::{help_text, version_text};
use std::alloc::{AllocError, Global};

/// The bytes of a text.
fn bytes_of(alloc: Global, text: &str) -> Result<Vec<u8>, AllocError>
    ensures { IfOk result (λ v. v.items ≡ text.now) }
{
    Vec::from_slice(alloc, text.as_bytes())
}

/// How the program is called.
pub fn help<W: World>(lent: &mut Lent<W>) -> Result<Vec<u8>, Stop>
    ensures { HasText (Some help) lent.old lent.new result }
{
    match bytes_of(lent.alloc, help_text()) {
        Ok(text) => Ok(text),
        Err(_error) => Err(Stop::Memory),
    }
}

/// The name of the program and its version.
pub fn version<W: World>(lent: &mut Lent<W>) -> Result<Vec<u8>, Stop>
    ensures { HasText (Some version) lent.old lent.new result }
{
    match bytes_of(lent.alloc, version_text()) {
        Ok(text) => Ok(text),
        Err(_error) => Err(Stop::Memory),
    }
}
