//! What a name means where it stands.

ghost use Rattle.std.specs.Prelude.{◌≡◌, option_map};
ghost use Rattle.cpn_typing.specs.Names.{found, local_named, predeclared_named};
ghost use Rattle.cpn_declared.specs.DeclsViews.{decls_view};
ghost use Rattle.cpn_forms.specs.ScopeViews.{scope_view};
ghost use Rattle.cpn_core.specs.Inscriptions.{op_view};
ghost use Rattle.cpn_forms.specs.LookupViews.{found_view, local_seen, predeclared_view};

use crate::scopes::Local;
use cpn_core::Op;
use cpn_declared::{Decls, Meaning, Ty};

/// A predeclared function.
#[derive(Clone, Copy, Debug, PartialEq, Eq)]
pub enum Predeclared {
    /// `hd`, the first item of a list.
    Head,
    /// `tl`, a list without its first item.
    Tail,
    /// `length`, how many items a list has.
    Length,
    /// `rev`, a list backwards.
    Rev,
    /// `mem`, whether a list has an item.
    Mem,
    /// `size`, how many bytes a string has.
    Size,
}

impl Predeclared {
    /// The predeclared function of a name.
    pub fn named(name: &str) -> Option<Predeclared>
        ensures exact { option_map predeclared_view result ≡ predeclared_named name.now }
    {
        if name == "hd" {
            return Some(Predeclared::Head);
        }
        if name == "tl" {
            return Some(Predeclared::Tail);
        }
        if name == "length" {
            return Some(Predeclared::Length);
        }
        if name == "rev" {
            return Some(Predeclared::Rev);
        }
        if name == "mem" {
            return Some(Predeclared::Mem);
        }
        if name == "size" {
            return Some(Predeclared::Size);
        }
        None
    }

    /// The operation that it does.
    pub fn operation(self) -> Op
        ensures exact { op_view result ≡ predeclared_view self }
    {
        match self {
            Predeclared::Head => Op::Head,
            Predeclared::Tail => Op::Tail,
            Predeclared::Length => Op::Length,
            Predeclared::Rev => Op::Rev,
            Predeclared::Mem => Op::Mem,
            Predeclared::Size => Op::Size,
        }
    }
}

/// What a name means where it stands.
#[derive(Clone, Copy)]
pub(crate) enum Found<'s, 'd> {
    /// A local, by its number, with its type.
    Local(usize, &'s Ty),
    /// A predeclared function.
    Predeclared(Predeclared),
    /// What is declared under it.
    Declared(&'d Meaning),
    /// Nothing.
    Nothing,
}

/// What the name means among the locals there and the declarations.
pub(crate) fn find<'s, 'd>(name: &str, scope: &'s [Local<'_>], decls: &'d Decls) -> Found<'s, 'd>
    ensures exact { found_view result ≡ found name.now (scope_view scope.now) (decls_view decls.now) }
{
    if let Some((number, ty)) = find_local(name, scope) {
        return Found::Local(number, ty);
    }
    if let Some(operation) = Predeclared::named(name) {
        return Found::Predeclared(operation);
    }
    match decls.meaning(name) {
        Some(meaning) => Found::Declared(meaning),
        None => Found::Nothing,
    }
}

/// The innermost local of the name, by its number, with its type.
fn find_local<'s>(name: &str, scope: &'s [Local<'_>]) -> Option<(usize, &'s Ty)>
    ensures exact { local_seen result ≡ local_named name.now (scope_view scope.now) }
{
    let mut found = None;
    for (number, local) in scope.iter().enumerate() {
        if name == local.name {
            found = Some((number, &local.ty));
        }
    }
    found
}
