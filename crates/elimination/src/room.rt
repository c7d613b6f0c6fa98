// The room that the work is done in.
ghost use Rattle.std.specs.Prelude.{◌≡◌, ◌++◌, ◌*◌, ◌≤◌, length, drop};

/// The work on equations, in lent slices.
#[derive(Drop)]
pub struct Elimination<'a> {
    /// A row for each unknown, end to end.
    pub table: &'a mut [i32],
    /// What remains of the equation that is worked on.
    pub equation: &'a mut [i32],
    /// Its quotients.
    pub quotients: &'a mut [i32],
    /// The sums that replace an equation's unknowns by their rows.
    pub sums: &'a mut [i64],
    /// How many columns are unknowns', used or not.
    pub unknown_columns: usize,
    /// How many unknowns are in use: V.
    pub unknowns: usize,
    ghost columns: { unknown_columns ≤ length equation.now },
    ghost word: { unknown_columns ≤ 64 },
    ghost rows: { length table.now ≡ unknowns * length equation.now },
    ghost quotients_room: { length quotients.now ≡ length equation.now },
}

// A method for each slice: of one that lies in a struct's struct, a proof keeps nothing where the outer struct lends it.
impl Elimination<'_> {
    /// The front of `to` becomes the table; the rest stays.
    pub fn write_table(&self, to: &mut [i32])
        requires { length self.now.table.now ≤ length to.old }
        ensures { to.new ≡ self.now.table.now ++ drop (length self.now.table.now) to.old }
    {
        row::change::copy(self.table, to);
    }

    /// The front of `to` becomes what remains of the equation; the rest stays.
    pub fn write_equation(&self, to: &mut [i32])
        requires { length self.now.equation.now ≤ length to.old }
        ensures { to.new ≡ self.now.equation.now ++ drop (length self.now.equation.now) to.old }
    {
        row::change::copy(self.equation, to);
    }
}
