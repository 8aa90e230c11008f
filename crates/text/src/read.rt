//! Reading a whole text.
ghost use Rattle.std.specs.Prelude.{◌≡◌};
ghost use Rattle.text.specs.Scripts.{script_at, script_read, answer_of};

use crate::fault::ReadFault;
use crate::reader::Reader;
use crate::script::{Body, Script};

/// Reads a text.
pub fn read(text: &[u8]) -> Result<Script, ReadFault>
    ensures { script_read result ≡ answer_of (script_at text.now) }
{
    let mut reader = Reader { rest: text };
    let levels = reader.scale()?;
    let source = reader.source()?;
    let mut body = Body::default();
    reader.lines(source, &mut body)?;
    Ok(Script {
        levels,
        source,
        body,
    })
}
