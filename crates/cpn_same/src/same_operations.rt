//! Whether two operations are the same.

ghost use Rattle.std.specs.Prelude.{◌≡◌};
ghost use Rattle.cpn_core.specs.Inscriptions.{op_view};
ghost use Rattle.cpn_same.specs.SameOperations.{component_of, place_of, same_operation};

use cpn_core::Op;

/// Whether both are the same operation, of the same component of a tuple.
pub fn same_operation(operation: Op, other: Op) -> bool
    ensures exact { result ≡ same_operation (op_view operation) (op_view other) }
{
    place_of(operation) == place_of(other) && component_of(operation) == component_of(other)
}

// The operation's place among all of them.
fn place_of(operation: Op) -> u32
    ensures place { result ≡ place_of (op_view operation) }
{
    match operation {
        Op::Add => 0,
        Op::Sub => 1,
        Op::Mul => 2,
        Op::Div => 3,
        Op::Mod => 4,
        Op::Neg => 5,
        Op::Cat => 6,
        Op::Eq => 7,
        Op::Ne => 8,
        Op::Lt => 9,
        Op::Le => 10,
        Op::Gt => 11,
        Op::Ge => 12,
        Op::Not => 13,
        Op::Cons => 14,
        Op::Append => 15,
        Op::Head => 16,
        Op::Tail => 17,
        Op::Length => 18,
        Op::Rev => 19,
        Op::Mem => 20,
        Op::Size => 21,
        Op::Nth(_) => 22,
    }
}

// The number of the component that the operation takes; 0 if it takes none.
fn component_of(operation: Op) -> u32
    ensures component { result ≡ component_of (op_view operation) }
{
    match operation {
        Op::Nth(component) => component,
        _ => 0,
    }
}
