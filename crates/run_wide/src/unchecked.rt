//! What a configuration leaves unchecked, with what is told of what goes behind it.

ghost use Rattle.std.specs.Prelude.{◌≡◌, ◌++◌, IfOk};
ghost use Rattle.reading_wide_configuration.specs.Wide.{also_told};
ghost use Rattle.run_wide.specs.Lines.{passed_lines};

use crate::lines::passed_lines;
use crate::names::add_names;
use base_core::{Names, NoMemory};
use reading_modules::Noted;
use reading_trees::{Config, Units};
use reading_wide_modules::Unread;
use std::alloc::Global;

/// The lines, and others behind them.
fn lines_behind(alloc: Global, lines: &Names, others: &Names) -> Result<Names, NoMemory>
    ensures { IfOk result (λ all. all ≡ lines.now ++ others.now) }
{
    let mut all = Names::new(alloc);
    add_names(&mut all, lines.items())?;
    add_names(&mut all, others.items())?;
    Ok(all)
}

/// The configuration with these lines for what it leaves unchecked, and those that it had.
pub(crate) fn with_unchecked(config: Config, lines: Names) -> (Config, Names)
    ensures config { result.0 ≡ record config { unchecked = lines } }
    ensures lines { result.1 ≡ config.unchecked }
{
    let Config {
        file,
        init,
        next,
        specification,
        givens,
        unchecked,
    } = config;
    let config = Config {
        file,
        init,
        next,
        specification,
        givens,
        unchecked: lines,
    };
    (config, unchecked)
}

/// The configuration with what is told of what was not read and of the units that go, and the lines that it had.
pub(crate) fn telling(
    alloc: Global,
    config: Config,
    files: &Names,
    unread: &[Noted<Unread>],
    over: &Units,
) -> Result<(Config, Names), NoMemory>
    ensures config { IfOk result (λ r. r.0 ≡ also_told (passed_lines files.now unread.now over.now) config) }
    ensures lines { IfOk result (λ r. r.1 ≡ config.unchecked) }
{
    let lines = passed_lines(alloc, files, unread, over)?;
    let all = lines_behind(alloc, &config.unchecked, &lines)?;
    Ok(with_unchecked(config, all))
}
