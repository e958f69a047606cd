//! Nets: places, transitions and arcs.

ghost use Rattle.std.specs.Prelude.{◌≡◌, string_bytes, IfOk};
ghost use Rattle.cpn_core.specs.Nets.{arc_view, arcs_view, delay_view, transition_view, place_view};

use crate::colours::Colour;
use crate::inscriptions::{ArcExpr, Expr, Funs, Guard};
use cpn_memory::Memory;
use std::sync::Arc;

/// An arc between its transition and a place.
#[derive(Drop)]
pub struct PlaceArc {
    /// The number of the place.
    pub place: u32,
    /// The arc's inscription, which may be shared.
    pub inscription: Arc<ArcExpr>,
}

impl PlaceArc {
    /// The same arc at the place of another number. It shares the inscription.
    pub fn at_place(&self, place: u32) -> Result<PlaceArc, Memory>
        ensures made { IfOk result (λ arc. arc_view arc ≡ record (arc_view self.now) { place = place }) }
    {
        let inscription = self.inscription.clone()?;
        Ok(PlaceArc { place, inscription })
    }
}

/// A transition.
#[derive(Drop)]
pub struct Transition {
    /// The flattened name, as `Top/t`.
    pub name: String,
    /// The guard, which may be shared.
    pub guard: Arc<Guard>,
    /// The delay, where one is written: a whole number from 0 to 2^62. It may be shared.
    pub delay: Option<Arc<Expr>>,
    /// The input arcs, in document order. An arc `both` is one here and one of the outputs.
    pub inputs: Vec<PlaceArc>,
    /// The output arcs, in document order.
    pub outputs: Vec<PlaceArc>,
    /// The numbers of the variables of guard, delay and arcs, in declaration order, each once.
    pub vars: Vec<u32>,
}

impl Transition {
    /// The delay, where one is written. It is shared.
    pub fn shared_delay(&self) -> Result<Option<Arc<Expr>>, Memory>
        ensures same { IfOk result (λ delay. delay_view delay ≡ delay_view self.now.delay) }
    {
        match &self.delay {
            Some(delay) => Ok(Some(delay.clone()?)),
            None => Ok(None),
        }
    }

    /// The same transition with another name and other arcs. It shares the guard and the delay.
    pub fn with_arcs(
        &self,
        name: String,
        inputs: Vec<PlaceArc>,
        outputs: Vec<PlaceArc>,
    ) -> Result<Transition, Memory>
        ensures made { IfOk result (λ made. transition_view made ≡ record (transition_view self.now) { name = string_bytes name; inputs = arcs_view inputs.items; outputs = arcs_view outputs.items }) }
    {
        Ok(Transition {
            name,
            guard: self.guard.clone()?,
            delay: self.shared_delay()?,
            inputs,
            outputs,
            vars: self.vars.clone()?,
        })
    }
}

/// A place.
#[derive(Drop)]
pub struct Place {
    /// The flattened name, as `Top/A`.
    pub name: String,
    /// The colour set of its tokens.
    pub colour: Colour,
}

impl Place {
    /// The same place with another name.
    pub fn with_name(&self, name: String) -> Result<Place, Memory>
        ensures made { IfOk result (λ place. place_view place ≡ record (place_view self.now) { name = string_bytes name }) }
    {
        let colour = self.colour.copy()?;
        Ok(Place { name, colour })
    }
}

/// A variable that the net declares.
#[derive(Drop)]
pub struct Variable {
    /// Its name.
    pub name: String,
    /// The colour set of its values.
    pub colour: Colour,
}

/// A net. Its inscriptions and functions are shared: by the instances of a module, and by what is made of the net for a run.
///
/// Source: Jensen and Kristensen, chapter 4.
#[derive(Drop)]
pub struct Net {
    /// The places; a place's number is its position.
    pub places: Vec<Place>,
    /// The transitions; a transition's number is its position.
    pub transitions: Vec<Transition>,
    /// The variables in the order of their declarations; a variable's number is its position.
    pub variables: Vec<Variable>,
    /// The names of the constants of each enumeration, by its number.
    pub constants: Vec<Vec<String>>,
    /// The names of the constructors of each union, by its number.
    pub constructors: Vec<Vec<String>>,
    /// The functions that inscriptions may call.
    pub funs: Arc<Funs>,
}
