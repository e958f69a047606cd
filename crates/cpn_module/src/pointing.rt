//! Places in a document, by the numbers of modules, fusion sets and their parts.

ghost use Rattle.std.specs.Prelude.{◌≡◌};
ghost use Rattle.cpn_document.specs.Document.{at_arc as part_of_arc, at_sub as part_of_sub, at_assignment as part_of_assignment, at_member as part_of_member};

use cpn_document::{ArcPart, AssignmentPart, FusionPart, MemberPart, ModulePart, Pointer, SubPart};

/// A part of an arc, by the numbers of its module and its own.
pub(crate) fn at_arc(in_module: usize, number: usize, part: ArcPart) -> Pointer
    ensures exact { result ≡ part_of_arc in_module number part }
{
    Pointer::Module(in_module, ModulePart::Arc(number, part))
}

/// A part of a substitution transition, by the numbers of its module and its own.
pub(crate) fn at_sub(in_module: usize, number: usize, part: SubPart) -> Pointer
    ensures exact { result ≡ part_of_sub in_module number part }
{
    Pointer::Module(in_module, ModulePart::Sub(number, part))
}

/// A part of an assignment, by the numbers of its module, its substitution transition and its own.
pub(crate) fn at_assignment(
    in_module: usize,
    in_sub: usize,
    number: usize,
    part: AssignmentPart,
) -> Pointer
    ensures exact { result ≡ part_of_assignment in_module in_sub number part }
{
    at_sub(in_module, in_sub, SubPart::Assignment(number, part))
}

/// A part of a member, by the numbers of its fusion set and its own.
pub(crate) fn at_member(in_fusion: usize, number: usize, part: MemberPart) -> Pointer
    ensures exact { result ≡ part_of_member in_fusion number part }
{
    Pointer::Fusion(in_fusion, FusionPart::Member(number, part))
}
