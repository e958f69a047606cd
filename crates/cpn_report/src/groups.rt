// The tokens of a place as they are printed, equal ones counted.
ghost use Rattle.std.specs.Prelude.{◌≡◌, ◌++◌, true, codes, map, OnOk};
ghost use Rattle.std.specs.List.{list_all};
ghost use Rattle.std.specs.String.{string_bytes};
ghost use Rattle.cpn_definitions.specs.Sound.{may_hold};
ghost use Rattle.cpn_definitions.specs.Named.{has_names};
ghost use Rattle.cpn_core.specs.Colours.{shape_view, colour_view};
ghost use Rattle.cpn_core.specs.Nets.{net_view};
ghost use Rattle.cpn_tmset.specs.ListedViews.{group_view, groups_view};
ghost use Rattle.cpn_report.specs.Lines.{group_text, tokens_text};
ghost use Rattle.cpn_report.specs.ValueText.{joined};

use crate::values::push_value;
use cpn_core::{Colour, Memory, Net};
use cpn_tmset::{TMSet, TokenGroup};
use std::fmt::Write;

/// Appends the tokens of a place of the colour set, with their stamps where the place is timed.
pub(crate) fn push_tokens(
    out: &mut String,
    net: &Net,
    colour: &Colour,
    tokens: &TMSet,
) -> Result<(), Memory>
    requires held { list_all (may_hold (colour_view colour.now)) tokens.now ≡ true }
    requires named { has_names (net_view net.now) (shape_view colour.now.shape) ≡ true }
    ensures written { OnOk result (string_bytes out.new ≡ string_bytes out.old ++ tokens_text (net_view net.now) (colour_view colour.now) tokens.now) }
{
    if tokens.is_empty() {
        out.push_str("empty")?;
        return Ok(());
    }
    let groups = tokens.groups(*out.allocator())?;
    push_groups(out, net, colour, groups.as_slice())
}

/// Appends the groups, with what stands between each two.
fn push_groups(
    out: &mut String,
    net: &Net,
    colour: &Colour,
    groups: &[TokenGroup<'_>],
) -> Result<(), Memory>
    requires held { list_all (λ group. may_hold (colour_view colour.now) group.token) (groups_view groups.now) ≡ true }
    requires named { has_names (net_view net.now) (shape_view colour.now.shape) ≡ true }
    ensures written { OnOk result (string_bytes out.new ≡ string_bytes out.old ++ joined (codes " ++ ") (map (group_text (net_view net.now) (colour_view colour.now)) (groups_view groups.now))) }
{
    for (number, group) in groups.iter().enumerate() {
        push_group(out, net, colour, group)?;
        if number + 1 < groups.len() {
            out.push_str(" ++ ")?;
        }
    }
    Ok(())
}

/// Appends equal tokens.
fn push_group(
    out: &mut String,
    net: &Net,
    colour: &Colour,
    group: &TokenGroup<'_>,
) -> Result<(), Memory>
    requires held { may_hold (colour_view colour.now) (group_view group.now).token ≡ true }
    requires named { has_names (net_view net.now) (shape_view colour.now.shape) ≡ true }
    ensures written { OnOk result (string_bytes out.new ≡ string_bytes out.old ++ group_text (net_view net.now) (colour_view colour.now) (group_view group.now)) }
{
    let count = group.count;
    write!(out, "{count}`")?;
    push_value(out, net, &colour.shape, group.value)?;
    if colour.timed {
        let stamp = group.stamp;
        write!(out, "@{stamp}")?;
    }
    Ok(())
}
