// Places as they are printed.
ghost use Rattle.std.specs.Prelude.{◌≡◌, ◌<◌, ◌++◌, true, length, map, IfOk, OnOk};
ghost use Rattle.std.specs.List.{list_all};
ghost use Rattle.std.specs.String.{string_bytes};
ghost use Rattle.cpn_definitions.specs.Sound.{IsMarking, may_hold};
ghost use Rattle.cpn_definitions.specs.Named.{is_named, has_names};
ghost use Rattle.cpn_definitions.specs.Net.{place_at};
ghost use Rattle.cpn_core.specs.Colours.{shape_view, colour_view};
ghost use Rattle.cpn_core.specs.Nets.{net_view, place_view};
ghost use Rattle.cpn_report.specs.Lines.{place_text as text_of_place, ended, lines_text};
ghost use Rattle.cpn_report.specs.Printable.{IsPrintableNet};
ghost use Rattle.cpn_report.specs.Report.{place_lines};

use crate::groups::push_tokens;
use cpn_core::{Memory, Net, Place};
use cpn_tmset::{Marking, TMSet};
use std::alloc::Global;

/// The line of the place of a number, with these tokens, without a line feed.
///
/// `Err` comes for want of memory alone.
pub fn place_text(alloc: Global, net: &Net, place: u32, tokens: &TMSet) -> Result<String, Memory>
    requires net { IsPrintableNet (net_view net.now) }
    requires known { place < length (net_view net.now).places }
    requires held { list_all (may_hold (place_at (net_view net.now) place).colour) tokens.now ≡ true }
    ensures text { IfOk result (λ text. string_bytes text ≡ text_of_place (net_view net.now) (place_at (net_view net.now) place) tokens.now) }
{
    let mut out = String::new(alloc);
    let place = &net.places[place as usize];
    push_place(&mut out, net, place, tokens)?;
    Ok(out)
}

/// Appends the line of a place, without a line feed.
#[tactic(auto, unfolding(crate::specs::Lines::place_text))]
fn push_place(out: &mut String, net: &Net, place: &Place, tokens: &TMSet) -> Result<(), Memory>
    requires held { list_all (may_hold (colour_view place.now.colour)) tokens.now ≡ true }
    requires named { has_names (net_view net.now) (shape_view place.now.colour.shape) ≡ true }
    ensures written { OnOk result (string_bytes out.new ≡ string_bytes out.old ++ text_of_place (net_view net.now) (place_view place.now) tokens.now) }
{
    out.push_str("place ")?;
    out.push_str(place.name.as_str())?;
    out.push_str(" ")?;
    push_tokens(out, net, &place.colour, tokens)?;
    Ok(())
}

/// Appends the line of a place.
pub(crate) fn push_place_line(
    out: &mut String,
    net: &Net,
    place: &Place,
    tokens: &TMSet,
) -> Result<(), Memory>
    requires held { list_all (may_hold (colour_view place.now.colour)) tokens.now ≡ true }
    requires named { has_names (net_view net.now) (shape_view place.now.colour.shape) ≡ true }
    ensures written { OnOk result (string_bytes out.new ≡ string_bytes out.old ++ ended (text_of_place (net_view net.now) (place_view place.now) tokens.now)) }
{
    push_place(out, net, place, tokens)?;
    out.push_str("\n")?;
    Ok(())
}

/// Appends a line for each of the places, in order, with its tokens in the marking.
pub fn push_place_lines(
    out: &mut String,
    net: &Net,
    places: &[Place],
    marking: &Marking,
) -> Result<(), Memory>
    requires named { list_all (is_named (net_view net.now)) (map place_view places.now) ≡ true }
    requires marking { IsMarking (map place_view places.now) marking.now }
    ensures written { OnOk result (string_bytes out.new ≡ string_bytes out.old ++ lines_text (net_view net.now) (place_lines (map place_view places.now) marking.now)) }
{
    for (number, place) in places.iter().enumerate() {
        let tokens = marking.get(number).unwrap();
        push_place_line(out, net, place, tokens)?;
    }
    Ok(())
}
