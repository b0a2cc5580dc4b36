ghost use Rattle.logs_files.specs.Logs.{LogsSayOne};

use logs_lines::{SpecNames, line_laws};

/// That the logs of a run have one outcome at most.
pub fn logs_laws<N: SpecNames>(names: &N)
    ensures { LogsSayOne (N.setting names.now) }
{
    line_laws(names);
    base_clock_order::order_laws();
}
