// Cells: full and half adders.
use cnf::types::Lit;

/// A full adder of three literals, or a half adder of two: its carry is worth two and its sum one,
/// and together they are the number of its inputs that are true (Eén and Sörensson, "Translating
/// Pseudo-Boolean Constraints into SAT", 2006).
#[derive(Clone, Copy, Debug, PartialEq, Eq, Drop)]
pub struct Cell {
    /// The first input.
    pub a: Lit,
    /// The second input.
    pub b: Lit,
    /// The third input, which only a full adder has.
    pub third: Option<Lit>,
    /// The variable of the sum: true where an odd number of inputs is true.
    pub sum: u32,
    /// The variable of the carry: true where two inputs or more are true.
    pub carry: u32,
}
