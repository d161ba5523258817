// Replay of a reel's cues.
ghost use Rattle.std.specs.Prelude.{[], ◌∷◌, length};
ghost use Rattle.replay.specs.Replay.{replay};
ghost use Rattle.exports.specs.Reports.{ReportsReplay};

use super::faces::replay_face;
use super::reports::report_three;
use replay::replay::replay;

// The pose that a log leads to over the values of a sheet, how many steps were carried out, and the refusal of a step that it stopped at.
#[unsafe(no_mangle)]
pub extern "C" fn thresholm_replay(
    form: u8,
    sheet: &[u8],
    log: &[u8],
    out: &mut [f64],
    to_shape: &mut [u8; 6],
    to_steps: &mut usize,
    to_stopped: &mut u8,
) -> u8
    ensures { ReportsReplay (replay form sheet.now log.now (length out.old)) result out.old out.new (to_shape.old, to_steps.old ∷ to_stopped.old ∷ []) (to_shape.new, to_steps.new ∷ to_stopped.new ∷ []) }
{
    let answer = replay(form, sheet, log, out);
    report_three(answer, replay_face, to_shape, to_steps, to_stopped)
}
