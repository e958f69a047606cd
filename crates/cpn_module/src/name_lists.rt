//! Lists of names, and the numbers of names in them.

ghost use Rattle.std.specs.Prelude.{◌≡◌, ◌<◌, length, map, IfOk};
ghost use Rattle.cpn_document.specs.Parts.{is_one_of};
ghost use Rattle.cpn_document.specs.Views.{module_view, place_view, transition_view, sub_view};
ghost use Rattle.cpn_module.specs.Named.{position, place_names as names_of_places};
ghost use Rattle.cpn_module.specs.Names.{texts_of as bytes_of, number_of, names_at, Numbers};
ghost use Rattle.cpn_module.specs.Known.{IsKnown};

use cpn_document::{Module, Place, Sub, Transition};
use std::alloc::{AllocError, Global};
use std::collections::BTreeMap;
use std::marker::Model;

/// The number of each name: that of the first place at which it stands.
fn numbers_of<'n>(alloc: Global, names: &[&'n str]) -> Result<BTreeMap<&'n str, usize>, AllocError>
    ensures numbers { IfOk result (λ numbers. Numbers (bytes_of names.now) numbers) }
{
    let mut numbers = BTreeMap::new(alloc);
    for (number, name) in names.iter().enumerate() {
        let first = numbers.get(*name).copied().unwrap_or(number);
        numbers.insert(*name, first)?;
    }
    Ok(numbers)
}

/// Names in order. One that is there several times has the number of its first place.
#[derive(Drop)]
pub(crate) struct Names<'n> {
    names: Vec<&'n str>,
    numbers: BTreeMap<&'n str, usize>,
}

impl<'n> Model for Names<'n> {
    ghost use Rattle.std.specs.Prelude.{ℕ, List};
    ghost use Rattle.cpn_module.specs.Names.{texts_of as bytes_of, Numbers};

    ghost Value = { List (List ℕ) };

    ghost view = { λ names. bytes_of names.names.items };

    ghost invariant = { λ names. Numbers (bytes_of names.names.items) names.numbers };
}

impl<'n> Names<'n> {
    /// The names of a list.
    fn of(alloc: Global, names: Vec<&'n str>) -> Result<Names<'n>, AllocError>
        ensures names { IfOk result (λ numbered. numbered ≡ bytes_of names.entry.items) }
    {
        let numbers = numbers_of(alloc, names.as_slice())?;
        Ok(Names { names, numbers })
    }

    /// The names of modules.
    pub(crate) fn of_modules(alloc: Global, modules: &'n [Module]) -> Result<Names<'n>, AllocError>
        ensures names { IfOk result (λ names. names ≡ map (λ m. m.name) (map module_view modules.now)) }
    {
        let mut names = Vec::with_capacity(alloc, modules.len())?;
        for module in modules {
            names.push(module.name.as_str())?;
        }
        Names::of(alloc, names)
    }

    /// The names of places.
    pub(crate) fn of_places(alloc: Global, places: &'n [Place]) -> Result<Names<'n>, AllocError>
        ensures names { IfOk result (λ names. names ≡ map (λ p. p.name) (map place_view places.now)) }
    {
        let mut names = Vec::with_capacity(alloc, places.len())?;
        for place in places {
            names.push(place.name.as_str())?;
        }
        Names::of(alloc, names)
    }

    /// The names of transitions.
    pub(crate) fn of_transitions(
        alloc: Global,
        transitions: &'n [Transition],
    ) -> Result<Names<'n>, AllocError>
        ensures names { IfOk result (λ names. names ≡ map (λ t. t.name) (map transition_view transitions.now)) }
    {
        let mut names = Vec::with_capacity(alloc, transitions.len())?;
        for transition in transitions {
            names.push(transition.name.as_str())?;
        }
        Names::of(alloc, names)
    }

    /// The names of substitution transitions.
    pub(crate) fn of_subs(alloc: Global, subs: &'n [Sub]) -> Result<Names<'n>, AllocError>
        ensures names { IfOk result (λ names. names ≡ map (λ s. s.name) (map sub_view subs.now)) }
    {
        let mut names = Vec::with_capacity(alloc, subs.len())?;
        for sub in subs {
            names.push(sub.name.as_str())?;
        }
        Names::of(alloc, names)
    }

    /// The number of a name, where it is there.
    pub(crate) fn number(&self, name: &str) -> Option<usize>
        ensures number { result ≡ number_of name.now self.now }
    {
        self.numbers.get(name).copied()
    }

    /// Whether a name is there.
    pub(crate) fn has(&self, name: &str) -> bool
        ensures tells { result ≡ is_one_of name.now self.now }
    {
        self.number(name).is_some()
    }

    /// The number of a name that is there.
    pub(crate) fn number_there(&self, name: &str) -> usize
        requires there { IsKnown name.now self.now }
        ensures number { result ≡ position name.now self.now }
    {
        self.number(name).unwrap()
    }
}

/// The names of the modules of a document, and of the places of each.
#[derive(Drop)]
pub(crate) struct DocumentNames<'d> {
    pub(crate) modules: Names<'d>,
    pub(crate) places: Vec<Names<'d>>,
}

/// The names of the places of each of the modules.
fn places_of<'d>(alloc: Global, modules: &'d [Module]) -> Result<Vec<Names<'d>>, AllocError>
    ensures names { IfOk result (λ places. places.items ≡ map names_of_places (map module_view modules.now)) }
{
    let mut places = Vec::with_capacity(alloc, modules.len())?;
    for module in modules {
        places.push(Names::of_places(alloc, module.places.as_slice())?)?;
    }
    Ok(places)
}

impl<'d> DocumentNames<'d> {
    /// The names of the modules of a document.
    pub(crate) fn of(alloc: Global, modules: &'d [Module]) -> Result<DocumentNames<'d>, AllocError>
        ensures modules { IfOk result (λ names. names.modules ≡ map (λ m. m.name) (map module_view modules.now)) }
        ensures places { IfOk result (λ names. names.places.items ≡ map names_of_places (map module_view modules.now)) }
    {
        Ok(DocumentNames {
            modules: Names::of_modules(alloc, modules)?,
            places: places_of(alloc, modules)?,
        })
    }

    /// The number of a place that is there, by the number of its module and its name.
    pub(crate) fn place(&self, of_module: usize, name: &str) -> usize
        requires in_range { of_module < length self.now.places.items }
        requires there { IsKnown name.now (names_at self.now.places.items of_module) }
        ensures number { result ≡ position name.now (names_at self.now.places.items of_module) }
    {
        self.places[of_module].number_there(name)
    }
}
