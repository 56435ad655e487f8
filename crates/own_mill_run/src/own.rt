ghost use Rattle.std.specs.Prelude.{◌==◌, if◌then◌else◌};
ghost use Rattle.mg_calc.specs.Rules.{no_rules};
ghost use Rattle.own_mill.specs.Mill.{mill_of};

use mg_calc::OwnLaws;

/// The number of mills among this program's own calculators.
pub const MILL: u32 = 0;

/// This program's own calculators.
pub struct Own;

impl OwnLaws for Own {
    ghost laws = { λ number parameters. if number == 0 then mill_of parameters else no_rules };
}
