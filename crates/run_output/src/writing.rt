ghost use Rattle.std.specs.Prelude.{◌≡◌, [], IsOk};
ghost use Rattle.run_output.specs.Pieces.{Adds};

use gpu_io::{Failed, Sink};

/// Writes all of these bytes. After a fault a front of them stands in the sink.
pub fn write_all<K: Sink>(sink: &mut K, bytes: &[u8]) -> Result<(), Failed>
    ensures adds { Adds K.written K.faults sink.old sink.new result bytes.now }
    // Where there is nothing to write, the sink is not touched.
    ensures untouched { bytes.now ≡ [] → sink.new ≡ sink.old }
    ensures empty { bytes.now ≡ [] → IsOk result }
{
    let mut rest = bytes;
    while !rest.is_empty() {
        let count = sink.write(rest)?;
        let (_, behind) = rest.split_at(count);
        rest = behind;
    }
    Ok(())
}
