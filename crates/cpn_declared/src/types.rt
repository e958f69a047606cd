//! Types of inscriptions, their copies, and whether two are one.

ghost use Rattle.std.specs.Prelude.{◌≡◌, Bool, IfOk};
ghost use Rattle.cpn_core.specs.Colours.{shape_view, shapes_view};
ghost use Rattle.cpn_typing.specs.Types.{same_type as one_type, same_types as one_by_one, type_of_shape, types_of_shapes};
ghost use Rattle.cpn_declared.specs.TypeViews.{ty_view, tys_view};

use cpn_core::{Memory, Shape};
use std::alloc::Global;
use std::sync::Arc;

/// Several types, from left to right.
pub type Tys = Vec<Ty>;

/// The type of an inscription. The types that it is made of may be shared.
///
/// Source: the simple types of CPN ML.
#[derive(Drop)]
pub enum Ty {
    /// The type of `()`.
    Unit,
    /// Truth values.
    Bool,
    /// Integers.
    Int,
    /// Strings.
    Text,
    /// An enumeration, by its number.
    Enum(u32),
    /// Tuples, by the types of their parts.
    Tuple(Arc<Tys>),
    /// A union, by its number.
    Union(u32),
    /// Lists of items of one type.
    List(Arc<Ty>),
}

impl Ty {
    /// The same type. It shares the types that it is made of.
    ///
    /// # Errors
    ///
    /// Memory is wanted.
    #[tactic(auto, using(crate::proofs::TypeLevels::view_list, crate::proofs::TypeLevels::view_tuple))]
    pub fn copy(&self) -> Result<Ty, Memory>
        ensures same { IfOk result (λ copied. ty_view copied ≡ ty_view self.now) }
    {
        match self {
            Ty::Unit => Ok(Ty::Unit),
            Ty::Bool => Ok(Ty::Bool),
            Ty::Int => Ok(Ty::Int),
            Ty::Text => Ok(Ty::Text),
            Ty::Enum(number) => Ok(Ty::Enum(*number)),
            Ty::Tuple(parts) => Ok(Ty::Tuple(parts.clone()?)),
            Ty::Union(number) => Ok(Ty::Union(*number)),
            Ty::List(item) => Ok(Ty::List(item.clone()?)),
        }
    }

    /// Whether the two types are one.
    pub fn is_same(&self, other: &Ty) -> bool
        ensures exact { result ≡ one_type (ty_view self.now) (ty_view other.now) }
    {
        same_type(self, other)
    }

    /// The type of the values of a shape.
    ///
    /// # Errors
    ///
    /// Memory is wanted.
    pub fn of_shape(alloc: Global, shape: &Shape) -> Result<Ty, Memory>
        ensures exact { IfOk result (λ ty. ty_view ty ≡ type_of_shape (shape_view shape.now)) }
    {
        shape_type(alloc, shape)
    }
}

/// Whether types are one, one by one, and as many.
pub fn are_same(left: &Tys, right: &Tys) -> bool
    ensures exact { result ≡ one_by_one (tys_view left.now.items) (tys_view right.now.items) }
{
    same_types(left, right)
}

#[cycle(same)]
#[tactic(auto, using(crate::proofs::TypeLevels::view_list))]
fn same_type(left: &Ty, right: &Ty) -> bool
    ensures exact { result ≡ one_type (ty_view left.now) (ty_view right.now) }
{
    match left {
        Ty::Unit => match right {
            Ty::Unit => true,
            _ => false,
        },
        Ty::Bool => match right {
            Ty::Bool => true,
            _ => false,
        },
        Ty::Int => match right {
            Ty::Int => true,
            _ => false,
        },
        Ty::Text => match right {
            Ty::Text => true,
            _ => false,
        },
        Ty::Enum(number) => match right {
            Ty::Enum(other) => *number == *other,
            _ => false,
        },
        Ty::Tuple(parts) => match right {
            Ty::Tuple(others) => same_types(parts, others),
            _ => false,
        },
        Ty::Union(number) => match right {
            Ty::Union(other) => *number == *other,
            _ => false,
        },
        Ty::List(item) => match right {
            Ty::List(other) => same_type(item, other),
            _ => false,
        },
    }
}

// Whether the types are one, one by one, and as many.
#[cycle(same)]
#[tactic(auto, using(crate::proofs::TypeLevels::same_more, crate::proofs::TypeLevels::same_ends))]
fn same_types(left: &Tys, right: &Tys) -> bool
    ensures exact { result ≡ one_by_one (tys_view left.now.items) (tys_view right.now.items) }
{
    let shorter = left.len().min(right.len());
    for i in 0..shorter {
        if !same_type(&left[i], &right[i]) {
            return false;
        }
    }
    left.len() == right.len()
}

#[cycle(of_shape)]
#[tactic(auto, using(crate::proofs::TypeLevels::view_list, cpn_core::proofs::ShapeLevels::shape_list, cpn_core::proofs::ShapeLevels::shape_tuple))]
fn shape_type(alloc: Global, shape: &Shape) -> Result<Ty, Memory>
    ensures exact { IfOk result (λ ty. ty_view ty ≡ type_of_shape (shape_view shape.now)) }
{
    match shape {
        Shape::Unit => Ok(Ty::Unit),
        Shape::Bool => Ok(Ty::Bool),
        Shape::Int { low: _, high: _ } => Ok(Ty::Int),
        Shape::Text => Ok(Ty::Text),
        Shape::Enum(number, _) => Ok(Ty::Enum(*number)),
        Shape::Tuple(shapes) => {
            let types = shapes_types(alloc, shapes.as_slice())?;
            Ok(Ty::Tuple(Arc::new(alloc, types)?))
        }
        Shape::Union(number, _) => Ok(Ty::Union(*number)),
        Shape::List(item) => {
            let of_item = shape_type(alloc, item)?;
            Ok(Ty::List(Arc::new(alloc, of_item)?))
        }
    }
}

#[cycle(of_shape)]
fn shapes_types(alloc: Global, shapes: &[Shape]) -> Result<Tys, Memory>
    ensures exact { IfOk result (λ types. tys_view types.items ≡ types_of_shapes (shapes_view shapes.now)) }
{
    let mut types = Vec::with_capacity(alloc, shapes.len())?;
    for shape in shapes {
        types.push(shape_type(alloc, shape)?)?;
    }
    Ok(types)
}
