//! The substitution transitions of a module.

ghost use Rattle.std.specs.Prelude.{◌≡◌, [], ◌∷◌, ◌++◌, map, codes, OnOk, option_map, IfOk};
ghost use Rattle.serde_json.specs.View.{view};
ghost use Rattle.cpn_document.specs.Names.{texts_of as bytes_of};
ghost use Rattle.cpn_document.specs.Parts.{text_at, items_at};
ghost use Rattle.cpn_document.specs.Document.{at_sub as part_of_sub, at_assignment as part_of_assignment, RawAssignment, RawSub, assignment_in, assignment_rules, sub_in, sub_rules, subs_rules, assignment_keys as keys_of_assignment, sub_keys as keys_of_sub};
ghost use Rattle.cpn_document.specs.Views.{assignment_view, sub_view};
ghost use Rattle.cpn_document.specs.Rules.{first_broken};
ghost use Rattle.cpn_document.specs.Answers.{Gives, refused_view};

use crate::document::{Assignment, Sub};
use crate::lists::{Item, Named, items_of, named_of};
use crate::modules::InModule;
use crate::names::{Names, add_named};
use crate::parts::{
    keys_refusal, list_or_empty, list_refusal, name_refusal, optional_list_refusal, text_or_empty,
};
use crate::pointers::{AssignmentPart, ModulePart, Pointer, SubPart};
use crate::refusals::{DocError, Refused};
use crate::texts::copied;
use serde_json::Value;
use std::alloc::{AllocError, Global};

/// A part of a substitution transition, by the numbers of its module and its own.
fn at_sub(in_module: usize, number: usize, part: SubPart) -> Pointer
    ensures exact { result ≡ part_of_sub in_module number part }
{
    Pointer::Module(in_module, ModulePart::Sub(number, part))
}

/// A part of an assignment, by the numbers of its module, its substitution transition and its own.
fn at_assignment(in_module: usize, in_sub: usize, number: usize, part: AssignmentPart) -> Pointer
    ensures exact { result ≡ part_of_assignment in_module in_sub number part }
{
    at_sub(in_module, in_sub, SubPart::Assignment(number, part))
}

/// The keys of an assignment, in a document of this version.
fn assignment_keys(_version: u64) -> [&'static str; 2]
    ensures exact { bytes_of result ≡ keys_of_assignment _version }
{
    ["port", "socket"]
}

/// The refusal of a value that breaks a rule of assignments.
#[tactic(auto, using(crate::proofs::BrokenRules::in_groups), unfolding(crate::specs::Document::assignment_rules))]
fn assignment_refusal(
    version: u64,
    in_module: usize,
    in_sub: usize,
    number: usize,
    value: &Value,
) -> Option<Refused>
    ensures exact { option_map refused_view result ≡ first_broken (assignment_rules version in_module in_sub number (view value.now)) }
{
    let whole = at_assignment(in_module, in_sub, number, AssignmentPart::Whole);
    let at_port = at_assignment(in_module, in_sub, number, AssignmentPart::Port);
    let at_socket = at_assignment(in_module, in_sub, number, AssignmentPart::Socket);
    keys_refusal(value, &assignment_keys(version), whole)
        .or(name_refusal(value, "port", whole, at_port))
        .or(name_refusal(value, "socket", whole, at_socket))
}

/// The assignment that stands in a value that keeps the rules of assignments.
fn copied_assignment(alloc: Global, value: &Value) -> Result<Assignment, AllocError>
    ensures reads { IfOk result (λ assignment. assignment_view assignment ≡ assignment_in (view value.now)) }
{
    Ok(Assignment {
        port: copied(alloc, text_or_empty(value, "port"))?,
        socket: copied(alloc, text_or_empty(value, "socket"))?,
    })
}

/// Where the assignments of a substitution transition stand: in a document of a version, by the numbers of its module and its own.
#[derive(Clone, Copy)]
pub(crate) struct InSub {
    version: u64,
    in_module: usize,
    in_sub: usize,
}

impl Item for Assignment {
    type Within = InSub;

    ghost Raw = { RawAssignment };

    ghost seen = { assignment_view };

    ghost value_in = { assignment_in };

    ghost rules = { λ within. assignment_rules within.version within.in_module within.in_sub };

    fn read(
        alloc: Global,
        within: InSub,
        number: usize,
        value: &Value,
    ) -> Result<Assignment, DocError> {
        let refused = assignment_refusal(
            within.version,
            within.in_module,
            within.in_sub,
            number,
            value,
        );
        if let Some(refused) = refused {
            return Err(DocError::from(refused));
        }
        let assignment = copied_assignment(alloc, value)?;
        Ok(assignment)
    }
}

/// The keys of a substitution transition, in a document of this version.
fn sub_keys(_version: u64) -> [&'static str; 3]
    ensures exact { bytes_of result ≡ keys_of_sub _version }
{
    ["name", "module", "assign"]
}

impl Named for Sub {
    type Within = InModule;

    ghost Raw = { RawSub };

    ghost seen = { sub_view };

    ghost value_in = { sub_in };

    ghost rules = { λ within. sub_rules within.version within.in_module };

    fn read<'v>(
        alloc: Global,
        within: InModule,
        number: usize,
        names: &mut Names<'v>,
        value: &'v Value,
    ) -> Result<Sub, DocError> {
        let whole = at_sub(within.in_module, number, SubPart::Whole);
        let at_name = at_sub(within.in_module, number, SubPart::Name);
        add_named(value, names, &sub_keys(within.version), whole, at_name)?;
        let at_module = at_sub(within.in_module, number, SubPart::Module);
        let at_assign = at_sub(within.in_module, number, SubPart::Assign);
        let submodule = name_refusal(value, "module", whole, at_module);
        let assign = list_refusal(value, "assign", whole, at_assign);
        if let Some(refused) = submodule.or(assign) {
            return Err(DocError::from(refused));
        }
        let list = list_or_empty(value, "assign");
        let within = InSub {
            version: within.version,
            in_module: within.in_module,
            in_sub: number,
        };
        let assign = items_of(alloc, within, list)?;
        Ok(Sub {
            name: copied(alloc, text_or_empty(value, "name"))?,
            submodule: copied(alloc, text_or_empty(value, "module"))?,
            assign,
        })
    }
}

/// The substitution transitions of a module. Their names are added to those of its transitions.
#[tactic(auto, using(crate::proofs::BrokenRules::in_groups), unfolding(crate::specs::Document::subs_rules, crate::specs::Document::each_sub))]
pub(crate) fn subs_in<'v>(
    alloc: Global,
    version: u64,
    in_module: usize,
    names: &mut Names<'v>,
    value: &'v Value,
) -> Result<Vec<Sub>, DocError>
    ensures gives { Gives (λ subs. map sub_view subs.items) result (map sub_in (items_at (codes "subs") (view value.now))) (subs_rules version in_module names.old (view value.now)) }
{
    let whole = Pointer::Module(in_module, ModulePart::Whole);
    let here = Pointer::Module(in_module, ModulePart::Subs);
    if let Some(refused) = optional_list_refusal(value, "subs", whole, here) {
        return Err(DocError::from(refused));
    }
    let list = list_or_empty(value, "subs");
    named_of(alloc, InModule { version, in_module }, names, list)
}
