//! The data of nets: values with their order, colour sets with the values that they admit, nets with their
//! inscriptions, bindings, occurrences, and the tokens that a binding element needs and makes. Each stands for the plain data
//! of the definitions, and its calls answer exactly what the definitions say. `Memory` and `Text` of `cpn_memory`
//! are passed on. The crate evaluates no inscription, knows nothing of what is enabled, and reads and writes
//! nothing outside the program.
#![tactic(auto)]

mod bindings;
mod colours;
mod comparing;
mod entries;
mod faults;
mod inscriptions;
mod needed;
mod needs;
mod nets;
mod occurrences;
mod outputs;
mod sendable;
mod small;
mod values;

pub use bindings::{Binding, Element, Pair};
pub use colours::{Colour, Shape};
pub use cpn_memory::{Memory, Text};
pub use entries::{EnabledElement, Entry, Found};
pub use faults::EvalFault;
pub use inscriptions::{
    ArcExpr, Arm, BindingTerm, Expr, Exprs, Function, Funs, Guard, MArm, MExpr, MExprs, Op, Pat,
    Pats,
};
pub use needed::Needed;
pub use needs::Needs;
pub use nets::{Net, Place, PlaceArc, Transition, Variable};
pub use occurrences::Occurrence;
pub use outputs::{Made, Outputs};
pub use values::{Value, Values, copy_values};
