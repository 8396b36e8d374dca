//! Running an image.

ghost use Rattle.std.specs.Prelude.{◌≡◌, ◌↔◌, All, IfOk, IfErr};
ghost use Rattle.code_image.specs.declared.code.Code.{Code};
ghost use Rattle.machine.specs.Ends.{IsDigit};
ghost use Rattle.compiler.specs.Images.{IsImageOf};
ghost use Rattle.run_unit.specs.Images.{IfImageWithoutFiles};
ghost use Rattle.run_unit.specs.Ends.{HasCause, IsCauseOf, ForImage, IfUnbegun, IsLoaded};
ghost use Rattle.run_unit.specs.Runs.{ImageRuns, call_on, DamagedOnlyIfFound};

use crate::ended::{Ended, Refusal};
use crate::volume::{run_alone, run_on_volume};
use code_image::{Verified, from_bytes, verify};
use station::Station;
use std::alloc::Global;

/// Runs an image, with a budget of one for each statement. The day is six ASCII digits, YYMMDD.
///
/// An image with files runs over the volume that the station's sectors are, which is opened first; one without files leaves
/// them alone. `Refused` by 70 to 74 where the bytes are no image, before any call on the station; by 80 where the station failed,
/// by 82 where its sectors hold no files, by 81 where the volume has no room for a change, by
/// 87 where its mark is too early for a file that an OPEN would make, and by 83 where memory runs out.
pub fn run_image<S: Station>(
    alloc: Global,
    image: &[u8],
    station: &mut S,
    day: [u8; 6],
    budget: u64,
) -> Ended
    requires { All IsDigit day }
    ensures sectors { S.sectors station.new ≡ S.sectors station.old }
    ensures honest { S.is_honest station.old ↔ S.is_honest station.new }
    ensures cause { HasCause result (S.failures station.old) (S.failures station.new) }
    // Bytes are refused by 70 to 74 for the fault that they have, and run only if they are an image.
    ensures image { ForImage result image.now }
    // If they are refused, nothing was done; nor if memory runs out and the image has no files.
    ensures unbegun { IfUnbegun result (station.new ≡ station.old) }
    ensures memory { IfImageWithoutFiles image.now
        (result ≡ Ended.Refused Refusal.Memory → station.new ≡ station.old) }
    // Whatever the volume holds: 82 says that it can't be opened, and then nothing was shown or written, or that its roots and map
    // sectors are sound, and a file statement met damage.
    ensures unwritten { DamagedOnlyIfFound S.Device (result ≡ Ended.Refused Refusal.Damaged)
        station.old station.new }
    // What the image's code does by the machine's table is run, without files or over the volume that there is.
    ensures runs { S.is_honest station.old →
        ImageRuns image.now (call_on S.Device result day budget station.old station.new) }
{
    match load(alloc, image) {
        Ok(code) => {
            if code.code().files.is_empty() {
                run_alone(alloc, code, station, day, budget)
            } else {
                run_on_volume(alloc, code, station, day, budget)
            }
        }
        Err(refusal) => Ended::Refused(refusal),
    }
}

/// The code of an image.
fn load(alloc: Global, image: &[u8]) -> Result<Verified, Refusal>
    ensures loaded { IfOk result (λ code. IsImageOf image.now code) }
    ensures only { (code : Code) → IsImageOf image.now code → IsLoaded code result }
    ensures cause { IfErr result (λ refusal. IsCauseOf refusal image.now) }
{
    let code = from_bytes(alloc, image)?;
    Ok(verify(alloc, code)?)
}
