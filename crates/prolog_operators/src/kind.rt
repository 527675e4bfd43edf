//! Kinds of operators.

/// Whether an operator is infix or prefix, and which sides allow its own priority. A side that is marked `x` has a
/// lower priority than the operator, and one that is marked `y` at most the operator's.
#[derive(Clone, Copy, Debug, PartialEq, Eq)]
pub enum OpKind {
    /// Infix, with lower priorities on both sides.
    Xfx,
    /// Infix, and its own priority is allowed on the right.
    Xfy,
    /// Infix, and its own priority is allowed on the left.
    Yfx,
    /// Prefix, with a lower priority of its operand.
    Fx,
    /// Prefix, and its own priority is allowed in its operand.
    Fy,
}
