ghost use Rattle.logs_lines.specs.Laws.{FileSaysOne, LineSaysOne, StepsKeep};

use crate::names::SpecNames;

/// That a line has one outcome at most, that a file says one thing at most, and that the steps of a
/// file stand in the order of their lines, no clock falls, and there are no more than may be.
pub fn line_laws<N: SpecNames>(_names: &N)
    ensures line { LineSaysOne (N.setting _names.now) }
    ensures file { FileSaysOne (N.setting _names.now) }
    ensures steps { StepsKeep (N.setting _names.now) }
{}
