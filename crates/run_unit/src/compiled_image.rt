//! Running an image that an earlier call compiled.

ghost use Rattle.std.specs.Prelude.{◌≡◌, ◌↔◌, ℕ, List, All};
ghost use Rattle.machine.specs.Ends.{IsDigit};
ghost use Rattle.compiler.specs.Images.{IsCompiled};
ghost use Rattle.run_unit.specs.Images.{IfImageWithoutFiles};
ghost use Rattle.run_unit.specs.Ends.{HasCause, ForImage, IfUnbegun, IsEndOfImage};
ghost use Rattle.run_unit.specs.Runs.{TextRuns, call_on, DamagedOnlyIfFound};

use crate::ended::{Ended, Refusal};
use crate::image::run_image;
use crate::laws::compiled_bytes;
use station::Station;
use std::alloc::Global;

/// Runs the bytes of an image over the volume that the station's sectors are, as `run_image` does. They may come from an earlier call of
/// `compile`, wherever they were kept since: then the run is what the source text of that call means.
pub fn run_volume<S: Station>(
    alloc: Global,
    bytes: &[u8],
    station: &mut S,
    day: [u8; 6],
    budget: u64,
) -> Ended
    requires { All IsDigit day }
    ensures sectors { S.sectors station.new ≡ S.sectors station.old }
    ensures honest { S.is_honest station.old ↔ S.is_honest station.new }
    ensures cause { HasCause result (S.failures station.old) (S.failures station.new) }
    // Bytes are refused by 70 to 74 for the fault that they have, and run only if they are an image.
    ensures image { ForImage result bytes.now }
    // If they are refused, nothing was done; nor if memory runs out and the image has no files.
    ensures unbegun { IfUnbegun result (station.new ≡ station.old) }
    ensures memory { IfImageWithoutFiles bytes.now
        (result ≡ Ended.Refused Refusal.Memory → station.new ≡ station.old) }
    // 82 says that the volume can't be opened, and then nothing was shown or written, or that its roots and map sectors are sound, and a
    // file statement met damage.
    ensures unwritten { DamagedOnlyIfFound S.Device (result ≡ Ended.Refused Refusal.Damaged)
        station.old station.new }
    // Bytes that `compile` made of a source text are never refused by 70 to 74.
    ensures own { (source : List ℕ) → IsCompiled source bytes.now → IsEndOfImage result }
    // What the source text's tree means is run, without files or over the volume that there is.
    ensures runs { S.is_honest station.old → (source : List ℕ) → IsCompiled source bytes.now →
        TextRuns source (call_on S.Device result day budget station.old station.new) }
{
    compiled_bytes();
    run_image(alloc, bytes, station, day, budget)
}
