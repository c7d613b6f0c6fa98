// The room that the work on a sheet is done in.
ghost use Rattle.std.specs.Prelude.{◌≡◌};
ghost use Rattle.sheet.specs.Sheets.{shape_in};
ghost use Rattle.sheet.specs.Working.{Roomy};

use crate::units::Units;
use elimination::room::Elimination;

/// The work on a sheet, in lent slices.
#[derive(Drop)]
pub struct Work<'a> {
    pub units: Units<'a>,
    pub elimination: Elimination<'a>,
    /// A line's unit, then its equation.
    pub row: &'a mut [i32],
    /// What is taken from it.
    pub other: &'a mut [i32],
    ghost roomy: { Roomy (shape_in units.sheet) elimination row.now other.now },
}

impl<'a> Work<'a> {
    /// The work on the sheet of these units, with room for two rows: what it asks is from here on the type's invariant.
    pub fn new(
        units: Units<'a>,
        elimination: Elimination<'a>,
        row: &'a mut [i32],
        other: &'a mut [i32],
    ) -> Work<'a>
        requires { Roomy (shape_in units.sheet) elimination row.old other.old }
        ensures units { result.units ≡ units.entry }
        ensures elimination { result.elimination ≡ elimination.entry }
        ensures row { result.row.ghost_name ≡ row.entry.ghost_name }
        ensures other { result.other.ghost_name ≡ other.entry.ghost_name }
    {
        Work {
            units,
            elimination,
            row,
            other,
        }
    }
}
