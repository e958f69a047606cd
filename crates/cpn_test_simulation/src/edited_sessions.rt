//! Sessions that a program makes: edits that no document has, and a run after them.

ghost use Rattle.std.specs.Prelude.{IfOk};
ghost use Rattle.cpn_declared.specs.DeclsViews.{decls_view};
ghost use Rattle.cpn_edit.specs.Standing.{IsSession};
ghost use Rattle.cpn_flat.specs.Views.{loaded_view};
ghost use Rattle.cpn_flat.specs.WellLoaded.{IsWellLoaded};
ghost use Rattle.cpn_typing.specs.Consistency.{IsConsistent};

use cpn_core::Memory;
use cpn_document::{Edit, Phase, Start};
use cpn_edit::Session;
use cpn_edit_texts::EditError;
use cpn_file::load;
use cpn_flat::Loaded;
use std::alloc::Global;
use std::test::Fail;

// Three tokens, a transition that takes them, and a monitor of a variable that its guard alone has.
const NET: &str =
    r#"{"version": 1, "declarations": ["colset INT = int;", "var x, y : INT;"], "top": "Top", "modules": [{"name": "Top", "places": [{"name": "A", "colour": "INT", "initial": "1`1 ++ 1`2 ++ 1`3"}], "transitions": [{"name": "t", "guard": "y = x"}], "arcs": [{"place": "A", "transition": "t", "to": "transition", "expr": "x"}]}], "monitors": [{"name": "m", "kind": "value", "transition": "Top/t", "expr": "y"}]}"#;

// An edit: of the guard of a transition, or of the initial marking of a place, each by its name, with its text.
enum Words {
    Guard(&'static str, &'static str),
    Initial(&'static str, &'static str),
}

fn edit_of(alloc: Global, words: &Words) -> Result<Edit, Memory> {
    match words {
        Words::Guard(name, text) => Ok(Edit::Guard {
            transition: String::from_str(alloc, name)?,
            text: String::from_str(alloc, text)?,
        }),
        Words::Initial(name, text) => Ok(Edit::Initial {
            place: String::from_str(alloc, name)?,
            text: String::from_str(alloc, text)?,
        }),
    }
}

// A phase with these edits.
fn phase_of(alloc: Global, words: &[Words]) -> Result<Phase, Memory> {
    let mut edits = Vec::new(alloc);
    for words in words {
        edits.push(edit_of(alloc, words)?)?;
    }
    Ok(Phase {
        start: Start::Initial,
        edits,
    })
}

// A phase for each list of edits.
fn phases_of(alloc: Global, lists: &[&[Words]]) -> Result<Vec<Phase>, Memory> {
    let mut phases = Vec::new(alloc);
    for words in lists {
        phases.push(phase_of(alloc, words)?)?;
    }
    Ok(phases)
}

// What is loaded of the net, with these phases.
fn loaded_with(alloc: Global, phases: Vec<Phase>) -> Result<Loaded, Fail>
    ensures consistent { IfOk result (λ loaded. IsConsistent (decls_view loaded.decls)) }
    ensures well_loaded { IfOk result (λ loaded. IsWellLoaded (loaded_view loaded)) }
{
    let mut loaded = load(alloc, NET.as_bytes())?;
    loaded.phases = phases;
    Ok(loaded)
}

// The session in its first phase, and after an edit more.
fn edited_session(alloc: Global, loaded: Loaded, edit: &Edit) -> Result<Session, EditError>
    requires consistent { IsConsistent (decls_view loaded.decls) }
    requires well_loaded { IsWellLoaded (loaded_view loaded) }
    ensures stands { IfOk result IsSession }
{
    let mut session = Session::new(alloc, loaded, 1, 10, 100, 1)?;
    let _start = session.next_phase()?;
    session.edit(edit)?;
    Ok(session)
}

// How many occurrences the run of the session from the initial marking has.
fn run_length(session: Session) -> Result<usize, Memory>
    requires stands { IsSession session }
{
    let (_, book) = session.begin(Start::Initial)?;
    let finished = book.run_alone()?;
    Ok(finished.occurrences.len())
}

// Writes why an edit is refused.
fn tell_refusal(text: &mut String, error: &EditError) -> Result<(), Memory> {
    match error {
        EditError::UnknownName(at) => write!(text, "unknown name, {at:?}")?,
        EditError::Bad(at, trouble) => write!(text, "{trouble}, {at:?}")?,
        _ => text.push_str("another refusal")?,
    }
    Ok(())
}

// Writes what becomes of these phases and this edit: how many occurrences the run has, or the refusal.
fn tell(text: &mut String, alloc: Global, loaded: Loaded, edit: &Edit) -> Result<(), Memory>
    requires consistent { IsConsistent (decls_view loaded.decls) }
    requires well_loaded { IsWellLoaded (loaded_view loaded) }
{
    match edited_session(alloc, loaded, edit) {
        Ok(session) => {
            let length = run_length(session)?;
            write!(text, "runs to {length}")?;
            Ok(())
        }
        Err(error) => tell_refusal(text, &error),
    }
}

// What is told of these phases and this edit.
fn told(alloc: Global, phases: &[&[Words]], edit: &Words) -> Result<String, Fail> {
    let mut text = String::new(alloc);
    let edit = edit_of(alloc, edit)?;
    let loaded = loaded_with(alloc, phases_of(alloc, phases)?)?;
    tell(&mut text, alloc, loaded, &edit)?;
    Ok(text)
}

// The edits of each phase, the edit in the first phase, and what is told.
const TABLE: &[(&[&[Words]], Words, &str)] = &[
    (&[&[]], Words::Initial("Top/A", "2`7"), "runs to 2"),
    (&[&[]], Words::Initial("Top/A", "empty"), "runs to 0"),
    (
        &[&[]],
        Words::Guard("Top/t", "y = x andalso x < 3"),
        "runs to 2",
    ),
    (
        &[&[Words::Guard("Top/t", "y = x andalso x > 2")]],
        Words::Initial("Top/A", "1`2 ++ 4`3"),
        "runs to 4",
    ),
    (
        &[
            &[Words::Initial("Top/A", "5`3")],
            &[Words::Initial("Top/A", "9`3")],
        ],
        Words::Guard("Top/t", "x = y"),
        "runs to 5",
    ),
    (
        &[&[Words::Guard("Top/t", "y > 0 andalso y = x")]],
        Words::Guard("Top/t", "y = x"),
        "runs to 3",
    ),
    (
        &[&[], &[Words::Guard("Top/u", "true")]],
        Words::Initial("Top/A", "2`7"),
        "unknown name, Phase(1, Edit(0, Whole))",
    ),
    (&[&[]], Words::Guard("Top/u", "true"), "unknown name, Root"),
    (&[&[]], Words::Guard("t", "true"), "unknown name, Root"),
    (
        &[&[]],
        Words::Guard("Top/t", ""),
        "the text ends too early, Root",
    ),
    (
        &[&[]],
        Words::Guard("Top/t", "x > 1 ?"),
        "no token begins with the byte at 6, Root",
    ),
    (
        &[&[]],
        Words::Guard("Top/t", "x > 1"),
        "y is not known here, Root",
    ),
    (
        &[&[]],
        Words::Guard("Top/t", "y > x"),
        "the variable y is not bindable, Root",
    ),
    (&[&[]], Words::Initial("Top/B", "1`7"), "unknown name, Root"),
    (
        &[&[]],
        Words::Initial("Top/A", "1`x"),
        "the variable x may not stand here, Root",
    ),
    (
        &[&[]],
        Words::Initial("Top/A", "(0 - 1)`7"),
        "BadCoefficient, Root",
    ),
];

#[test]
fn sessions_are_edited_and_run(rt: HostRuntime) -> Result<(), Fail> {
    for (phases, edit, wanted) in TABLE {
        assert_eq!(rt; told(rt.alloc(), phases, edit)?.as_str(), *wanted);
    }
    Ok(())
}
