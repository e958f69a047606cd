//! The names of instances.

ghost use Rattle.std.specs.Prelude.{◌≡◌, ℕ, ◌<◌, ◌≤◌, map, length, string_bytes, IfOk};
ghost use Rattle.std.specs.List.{AllByRecursion};
ghost use Rattle.cpn_document.specs.Views.{document_view};
ghost use Rattle.cpn_fuse.specs.Instances.{instance_at};
ghost use Rattle.cpn_fuse.specs.Views.{instance_view, instances_view};
ghost use Rattle.cpn_accepted.specs.AsWritten.{raw_module_at};
ghost use Rattle.cpn_flat.specs.Names.{joined_name, sub_name_at, name_at, name_where, AreNames, IsNamedIn};
ghost use Rattle.cpn_flat.specs.Placed.{IsBehind, StandBehind};

use cpn_document::Document;
use cpn_fuse::Instance;
use cpn_memory::Memory;
use std::alloc::{AllocError, Global};

/// The name of something that stands in what has a name.
pub(crate) fn joined(alloc: Global, whole: &str, name: &str) -> Result<String, AllocError>
    ensures text { IfOk result (λ text. string_bytes text ≡ joined_name whole.now name.now) }
{
    let mut text = String::from_str(alloc, whole)?;
    text.push_str("/")?;
    text.push_str(name)?;
    Ok(text)
}

/// The name of the module of a number.
fn module_name(document: &Document, number: usize) -> &str
    requires in_range { number < length (document_view document.now).modules }
    ensures exact { result.now ≡ (raw_module_at (document_view document.now) number).name }
{
    document.modules[number].name.as_str()
}

/// The name of a substitution transition of a module, by their numbers.
fn sub_name(document: &Document, of_module: usize, number: usize) -> &str
    requires in_range { of_module < length (document_view document.now).modules }
    requires sub { number < length (raw_module_at (document_view document.now) of_module).subs }
    ensures exact { result.now ≡ sub_name_at (document_view document.now) of_module number }
{
    document.modules[of_module].subs[number].name.as_str()
}

/// The name of the instance of a number.
pub(crate) fn name_of(names: &[String], number: usize) -> &str
    requires named { number < length names.now }
    ensures exact { result.now ≡ name_at (map string_bytes names.now) number }
{
    names[number].as_str()
}

/// The number of the module of the instance of a number.
fn module_of(instances: &[Instance], number: usize) -> usize
    requires there { number < length instances.now }
    ensures exact { result ≡ (instance_at (instances_view instances.now) number).of_module }
{
    instances[number].of_module
}

/// The name of an instance, given those of the instances before it.
fn instance_name(
    alloc: Global,
    document: &Document,
    instances: &[Instance],
    names: &[String],
    instance: &Instance,
) -> Result<String, AllocError>
    requires behind { IsBehind (length names.now) (instance_view instance.now).part_of }
    requires so_far { length names.now ≤ length instances.now }
    requires there { IsNamedIn (document_view document.now) (instances_view instances.now) (instance_view instance.now) }
    ensures named { IfOk result (λ name. string_bytes name ≡ name_where (document_view document.now) (instances_view instances.now) (map string_bytes names.now) (instance_view instance.now)) }
{
    match instance.part_of {
        Some(part) => {
            let whole = name_of(names, part.instance);
            let of_module = module_of(instances, part.instance);
            joined(
                alloc,
                whole,
                sub_name(document, of_module, part.substitution),
            )
        }
        None => String::from_str(alloc, module_name(document, instance.of_module)),
    }
}

/// The names of the instances.
pub(crate) fn instance_names(
    alloc: Global,
    document: &Document,
    instances: &[Instance],
) -> Result<Vec<String>, Memory>
    requires behind { StandBehind (instances_view instances.now) }
    requires there { AllByRecursion (IsNamedIn (document_view document.now) (instances_view instances.now)) (instances_view instances.now) }
    ensures names { IfOk result (λ names. AreNames (document_view document.now) (instances_view instances.now) (map string_bytes names.items)) }
{
    let mut names = Vec::with_capacity(alloc, instances.len())?;
    for instance in instances {
        let name = instance_name(alloc, document, instances, names.as_slice(), instance)?;
        names.push(name)?;
    }
    Ok(names)
}
