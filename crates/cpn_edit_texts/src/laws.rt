//! Laws of what the phases of a document are.

ghost use Rattle.std.specs.Prelude.{ℕ, List};
ghost use Rattle.cpn_definitions.specs.Net.{PlainNet};
ghost use Rattle.cpn_document.specs.Phases.{RawPhase};
ghost use Rattle.cpn_monitor.specs.Monitors.{PlainMonitor};
ghost use Rattle.cpn_readings.specs.Relations.{HasOne};
ghost use Rattle.cpn_typing.specs.Names.{Declared};
ghost use Rattle.cpn_edit_texts.specs.Checked.{phases_so};

/// The law that phases are at most one thing in a net. A call does nothing: it is there for what it ensures.
pub fn one_check()
    ensures one { (ds : Declared) (monitors : List PlainMonitor) (p : ℕ) (n : PlainNet) (phases : List RawPhase) → HasOne (phases_so ds monitors p n phases) }
{}
