ghost use Rattle.std.specs.Prelude.{◌≡◌, ◌≤◌, true, IsTrue, IfOk, IsErrOf};
ghost use Rattle.io_edge.specs.Faults.{Rose};
ghost use Rattle.io_edge.specs.Paths.{Paths, SamePaths};
ghost use Rattle.control_side.specs.Assets.{HasAsset, IsAssetOf, IsHeld};
ghost use Rattle.control_side.specs.Step.{is_decode};

use crate::stop::Stop;
use io_edge::{EdgeErr, Fetched, Files};
use script_ast::Op;
use std::alloc::Global;

/// The most bytes that an asset may have.
const MAX_ASSET: u64 = 67_108_864;

// Fetches what the folder of assets has at the path of a call that decodes. No other call needs any.
pub(crate) fn asset_for<F: Files>(
    alloc: Global,
    op: &Op,
    files: &mut F,
) -> Result<Option<Fetched>, Stop>
    ensures asset { IfOk result (HasAsset op.now) }
    ensures held { IfOk result (λ asset. (held : Paths) × IsHeld (F.tells files.old) (F.paths files.old) held × IsAssetOf held op.now asset) }
    ensures tells { F.tells files.new ≡ F.tells files.old }
    ensures paths { IsTrue (F.tells files.old) → SamePaths (F.paths files.old) (F.paths files.new) }
    ensures later { F.read_faults files.old ≤ F.read_faults files.new }
    ensures writes { F.write_faults files.new ≡ F.write_faults files.old }
    ensures cause { IsErrOf result Stop.AssetFault → Rose (F.read_faults files.old) (F.read_faults files.new) × (is_decode op.now ≡ true) }
{
    let Op::DecodeAudioData { path, .. } = op else {
        return Ok(None);
    };
    match files.fetch(alloc, path.as_str(), MAX_ASSET) {
        Ok(asset) => Ok(Some(asset)),
        Err(EdgeErr::Failed) => Err(Stop::AssetFault),
        Err(EdgeErr::NoMemory) => Err(Stop::NoMemory),
    }
}
