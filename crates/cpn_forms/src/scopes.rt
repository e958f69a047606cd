//! Locals: of `let`, `case` and `foldl`, and the parameters of a function.

ghost use Rattle.std.specs.Prelude.{◌≡◌};
ghost use Rattle.cpn_typing.specs.Names.{is_local as has_local};
ghost use Rattle.cpn_forms.specs.ScopeViews.{scope_view};

/// A local with its type. Its name stands in the tree.
#[derive(Drop)]
pub struct Local<'t> {
    /// The name.
    pub name: &'t str,
    /// The type of its values.
    pub ty: Ty,
}

/// Whether one of the locals has the name.
pub fn is_local(scope: &[Local], name: &str) -> bool
    ensures exact { result ≡ has_local name.now (scope_view scope.now) }
{
    for local in scope {
        if name == local.name {
            return true;
        }
    }
    false
}

use cpn_declared::Ty;
