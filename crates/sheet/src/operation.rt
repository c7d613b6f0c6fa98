// What a line does.
ghost use Rattle.std.specs.Prelude.{◌≡◌};
ghost use Rattle.sheet_rules.specs.Good.{code_of};
ghost use Rattle.sheet.specs.Operations.{code_for};

/// The rows of the line table, in the order of their codes.
#[derive(Clone, Copy, Debug, PartialEq, Eq)]
pub enum Operation {
    Number,
    Reading,
    Add,
    Subtract,
    Multiply,
    Divide,
    Root,
    LessThan,
    Stated,
}

/// No operation has the code.
#[derive(Clone, Copy, Debug, PartialEq, Eq)]
pub struct NoSuchCode;

// The only place that knows the codes.
impl TryFrom<u8> for Operation {
    type Error = NoSuchCode;

    ghost try_from_gives = { λ code operation. code_of code ≡ code_for operation };

    fn try_from(code: u8) -> Result<Operation, NoSuchCode> {
        match code {
            0 => Ok(Operation::Number),
            1 => Ok(Operation::Reading),
            2 => Ok(Operation::Add),
            3 => Ok(Operation::Subtract),
            4 => Ok(Operation::Multiply),
            5 => Ok(Operation::Divide),
            6 => Ok(Operation::Root),
            7 => Ok(Operation::LessThan),
            8 => Ok(Operation::Stated),
            _ => Err(NoSuchCode),
        }
    }
}
