//! Compiling and running in one call.

ghost use Rattle.std.specs.Prelude.{◌≡◌, ◌↔◌, All, Ok, OnErr, IfOk, IfErr};
ghost use Rattle.source_tree.specs.declared.program.Program.{Program};
ghost use Rattle.machine.specs.Ends.{IsDigit};
ghost use Rattle.compiler.specs.Trees.{IsTreeOf, HasTree, IfTextWithoutFiles};
ghost use Rattle.run_unit.specs.Ends.{IsEndOfImage, ForSource};
ghost use Rattle.run_unit.specs.Runs.{DamagedOnlyIfFound, RunsUnlessRefused};
ghost use Rattle.compiler.specs.declared.fault.CompileError.TheVariants.{Memory};

use crate::ended::{Ended, Refusal};
use crate::image::run_image;
use crate::laws::compiled_bytes;
use compiler::{CompileError, compile};
use station::Station;
use std::alloc::Global;

/// Compiles a source text and runs its image. It is refused as `compile` refuses, before any call on the station.
pub fn run_source<S: Station>(
    alloc: Global,
    source: &[u8],
    station: &mut S,
    day: [u8; 6],
    budget: u64,
) -> Result<Ended, CompileError>
    requires { All IsDigit day }
    ensures sectors { S.sectors station.new ≡ S.sectors station.old }
    ensures honest { S.is_honest station.old ↔ S.is_honest station.new }
    ensures cause { ForSource result (S.failures station.old) (S.failures station.new) }
    // A refused source text leaves the station as it was. Which fault is answered is said by `compile`.
    ensures untouched { OnErr result (station.new ≡ station.old) }
    // Its image is never refused, and if memory runs out and the program has no files, nothing was done.
    ensures own { IfOk result IsEndOfImage }
    ensures memory { IfTextWithoutFiles source.now
        (result ≡ Ok (Ended.Refused Refusal.Memory) → station.new ≡ station.old) }
    // 82 says that the volume can't be opened, and then nothing was shown or written, or that its roots and map sectors are sound, and a
    // file statement met damage.
    ensures unwritten { DamagedOnlyIfFound S.Device
        (result ≡ Ok (Ended.Refused Refusal.Damaged)) station.old station.new }
    // A source text is run only if it has a tree. One with a tree is refused for want of memory alone.
    ensures accepted { IfOk result (λ _. HasTree source.now) }
    ensures only { (tree : Program) → IsTreeOf source.now tree → IfErr result (λ e. e ≡ Memory) }
    // What the source text's tree means is run, without files or over the volume that there is.
    ensures runs { RunsUnlessRefused S.Device source.now result day budget station.old
        station.new }
{
    compiled_bytes();
    let image = compile(alloc, source)?;
    Ok(run_image(alloc, image.as_slice(), station, day, budget))
}
