ghost use Rattle.mg_calc.specs.Rules.{Laws, no_laws};

/// The calculators of their authors' own that a program has: the rules of each, by its number among them and its parameters. A program
/// names them once, as a type that has no value.
pub trait OwnLaws {
    /// The rules of the calculator of a number, with parameters.
    ghost laws: { Laws };
}

/// A program that has no calculators of their authors' own.
pub struct NoLaws;

impl OwnLaws for NoLaws {
    ghost laws = { no_laws };
}
