//! Sessions: the phases of a document, one after another.

ghost use Rattle.std.specs.Prelude.{◌≡◌, ◌<◌, ◌≤◌, [], Some, false, length, IfOk, IfErr, OnOk, OnErr};
ghost use Rattle.std.specs.List.{AllByRecursion};
ghost use Rattle.cpn_core.specs.Inscriptions.{funs_view};
ghost use Rattle.cpn_core.specs.Nets.{net_view};
ghost use Rattle.cpn_declared.specs.DeclsViews.{decls_view};
ghost use Rattle.cpn_book.specs.Books.{journal_in, is_spent_in, entered_in, IsBook};
ghost use Rattle.cpn_definitions.specs.Times.{last_time};
ghost use Rattle.cpn_document.specs.Views.{edit_view as written_view};
ghost use Rattle.cpn_document.specs.declared.pointers.Pointer.TheVariants.{Root};
ghost use Rattle.cpn_edit_texts.specs.Answers.{edit_refusal_of};
ghost use Rattle.cpn_edit_texts.specs.Checked.{edit_so};
ghost use Rattle.cpn_edit_texts.specs.Edits.{PlainEdit, net_after_all, initial_after_all};
ghost use Rattle.cpn_edit_texts.specs.Reading.{read};
ghost use Rattle.cpn_edit_texts.specs.Ready.{IsReady, IsThere};
ghost use Rattle.cpn_edit_texts.specs.Views.{edits_view, phases_view};
ghost use Rattle.cpn_monitor.specs.Fitting.{FitNet};
ghost use Rattle.cpn_monitor.specs.Views.{monitors_view};
ghost use Rattle.cpn_flat.specs.Views.{loaded_view};
ghost use Rattle.cpn_flat.specs.WellLoaded.{IsWellLoaded};
ghost use Rattle.cpn_model.specs.Models.{model_in};
ghost use Rattle.cpn_model.specs.Reading.{PlainModel};
ghost use Rattle.cpn_model.specs.Views.{model_view};
ghost use Rattle.cpn_readings.specs.Relations.{RefusesBy};
ghost use Rattle.cpn_runs.specs.Bounds.{most_steps};
ghost use Rattle.cpn_runs.specs.FinishedViews.{setup_view};
ghost use Rattle.cpn_typing.specs.Consistency.{IsConsistent};
ghost use Rattle.cpn_typing.specs.DeclaresFor.{DeclaresFor};
ghost use Rattle.cpn_edit.specs.Sessions.{PlainSession, phases_run, session_of, after_edit, after_run, setup_of, StartsAt, IsNextRun};
ghost use Rattle.cpn_edit.specs.Standing.{Stands, IsSession, IsBetween, MayStart, run_view};
ghost use Rattle.cpn_edit.specs.Answers.{TakesPhase, Begins};

use cpn_book::Book;
use cpn_core::{Memory, Net};
use cpn_document::{Edit, Pointer, Start};
use cpn_edit_texts::{EditError, Phase, after_edits, check_edit};
use cpn_flat::Loaded;
use cpn_model::{Model, model_of};
use cpn_monitor::Monitors;
use cpn_runs::{Finished, Limits, Setup};
use cpn_tmset::Marking;
use cpn_types::Decls;
use std::alloc::Global;
use std::sync::Arc;

/// Where the latest run of a session ended.
#[derive(Drop)]
struct Latest {
    marking: Marking,
    clock: u64,
}

/// The phases of a document that are left, and what their runs start from.
///
/// A phase is taken (`next_phase`), its run is begun (`begin`) and ended (`Between::end`), and so on. Between runs the net and its initial
/// marking may be edited (`edit`).
///
/// Source: own choice.
#[derive(Drop)]
pub struct Session {
    alloc: Global,
    decls: Decls,
    net: Arc<Net>,
    initial: Marking,
    monitors: Arc<Monitors>,
    phases: Vec<Phase>,
    limits: Limits,
    seed: u64,
    latest: Option<Latest>,
}

/// A session while a run of it is on; no edit can be made in it.
///
/// Source: own choice.
#[derive(Drop)]
pub struct Between {
    session: Session,
}

/// The phases that are run: one without edits, from the initial marking, where none is written.
fn phases_run(alloc: Global, phases: Vec<Phase>) -> Result<Vec<Phase>, Memory>
    ensures run { IfOk result (λ run. phases_view run.items ≡ phases_run (phases_view phases.items)) }
{
    let mut phases = phases;
    if phases.is_empty() {
        phases.push(Phase {
            start: Start::Initial,
            edits: Vec::new(alloc),
        })?;
    }
    Ok(phases)
}

/// A net and monitors, to be shared by runs, and the phases that are run.
fn shared(
    alloc: Global,
    net: Net,
    monitors: Monitors,
    phases: Vec<Phase>,
) -> Result<(Arc<Net>, Arc<Monitors>, Vec<Phase>), Memory>
    ensures net { IfOk result (λ shared. shared.0.value ≡ net) }
    ensures monitors { IfOk result (λ shared. shared.1.value ≡ monitors) }
    ensures phases { IfOk result (λ shared. phases_view shared.2.items ≡ phases_run (phases_view phases.items)) }
{
    let phases = phases_run(alloc, phases)?;
    let monitors = Arc::new(alloc, monitors)?;
    let net = Arc::new(alloc, net)?;
    Ok((net, monitors, phases))
}

impl Session {
    /// The session of what is loaded of a document. The monitors are checked first, in their order, and then the edits of each phase, in
    /// order, each in the net as edited so far.
    ///
    /// The runs may have at most `steps` occurrences together, which is at most 1,000,000, and their clocks go up to `until`, which is at
    /// most 2^62. Each run has `seats` seats, 1 to 64; the seed of the run of number r, from 0, is `seed` + r modulo 2^64.
    ///
    /// # Errors
    ///
    /// The first refusal: [`EditError::Monitor`] of a monitor, else [`EditError::UnknownName`] or [`EditError::Bad`] of an edit, at its
    /// pointer; or [`EditError::Memory`].
    pub fn new(
        alloc: Global,
        loaded: Loaded,
        seed: u64,
        steps: u64,
        until: u64,
        seats: u32,
    ) -> Result<Session, EditError>
        requires consistent { IsConsistent (decls_view loaded.decls) }
        requires well_loaded { IsWellLoaded (loaded_view loaded) }
        requires few_steps { steps ≤ most_steps }
        requires in_time { until ≤ last_time }
        requires some_seat { 0 < seats }
        requires few_seats { seats ≤ 64 }
        ensures stands { IfOk result (λ session. (model : PlainModel) × model_in (loaded_view loaded) (read model) × Stands (session_of (record { seed = seed; steps = steps; until = until; seats = seats }) model) session) }
        ensures refuses { IfErr result (λ e. RefusesBy (model_in (loaded_view loaded)) (edit_refusal_of e)) }
    {
        let model = model_of(alloc, loaded)?;
        let session = Session::of_model(
            alloc,
            model,
            seed,
            Limits {
                steps,
                until,
                seats,
            },
        )?;
        Ok(session)
    }

    /// The session of a model, as [`Session::new`] gives it.
    ///
    /// # Errors
    ///
    /// `Memory` where memory is wanted.
    pub fn of_model(
        alloc: Global,
        model: Model,
        seed: u64,
        limits: Limits,
    ) -> Result<Session, Memory>
        requires reads { model_in (loaded_view model.loaded) (read (model_view model)) }
        requires ready { IsReady (decls_view model.loaded.decls) (net_view model.loaded.net) model.loaded.initial (monitors_view model.monitors) }
        requires fit { FitNet (net_view model.loaded.net) (funs_view model.monitors.funs.value) (monitors_view model.monitors) }
        requires few_steps { limits.steps ≤ most_steps }
        requires in_time { limits.until ≤ last_time }
        requires some_seat { 0 < limits.seats }
        requires few_seats { limits.seats ≤ 64 }
        ensures stands { IfOk result (λ session. Stands (session_of (record { seed = seed; steps = limits.steps; until = limits.until; seats = limits.seats }) (model_view model)) session) }
    {
        let Model {
            loaded,
            monitors,
            phases,
        } = model;
        let (net, monitors, phases) = shared(alloc, loaded.net, monitors, phases)?;
        Ok(Session {
            alloc,
            decls: loaded.decls,
            net,
            initial: loaded.initial,
            monitors,
            phases,
            limits,
            seed,
            latest: None,
        })
    }

    /// Takes the next phase: its edits, which were accepted, are made, and its start is answered. `None` comes exactly where every phase
    /// was taken.
    ///
    /// # Errors
    ///
    /// `Memory` where memory is wanted; the session is then as it was.
    pub fn next_phase(&mut self) -> Result<Option<Start>, Memory>
        requires stands { IsSession self.old }
        ensures takes { IfOk result (λ start. (s : PlainSession) → Stands s self.old → TakesPhase s start self.new) }
        ensures unchanged { OnErr result (self.new ≡ self.old) }
    {
        let Some(phase) = self.phases.first() else {
            return Ok(None);
        };
        let start = phase.start;
        let (net, initial) = self.edited(phase.edits.as_slice())?;
        self.net = net;
        self.initial = initial;
        self.phases.remove(0);
        Ok(Some(start))
    }

    /// Edits the net, or its initial marking: the next runs are those of the edited one. Names are the flattened ones; a compound place has
    /// one name alone.
    ///
    /// # Errors
    ///
    /// As those of [`Session::new`] for an edit, at the empty pointer, or [`EditError::Memory`]; the session is then as it was.
    pub fn edit(&mut self, edit: &Edit) -> Result<(), EditError>
        requires stands { IsSession self.old }
        ensures made { OnOk result ((s : PlainSession) → Stands s self.old → (made : PlainEdit) × edit_so s.declared s.net s.monitors Root Root (written_view edit.now) (read made) × Stands (after_edit s made) self.new) }
        ensures refuses { IfErr result (λ e. (s : PlainSession) → Stands s self.old → RefusesBy (edit_so s.declared s.net s.monitors Root Root (written_view edit.now)) (edit_refusal_of e)) }
        ensures unchanged { OnErr result (self.new ≡ self.old) }
    {
        let edit = check_edit(
            self.alloc,
            &self.decls,
            &self.net,
            &self.monitors,
            Pointer::Root,
            Pointer::Root,
            edit,
        )?;
        let (net, initial) = self.edited(&[edit])?;
        self.net = net;
        self.initial = initial;
        Ok(())
    }

    /// The net and its initial marking after edits. Without edits the net is shared.
    fn edited(&self, edits: &[cpn_edit_texts::Edit]) -> Result<(Arc<Net>, Marking), Memory>
        requires declares { DeclaresFor (decls_view self.now.decls) (net_view self.now.net.value) }
        requires there { AllByRecursion (IsThere (length self.now.net.value.transitions.items) (length self.now.initial)) (edits_view edits.now) }
        ensures net { IfOk result (λ edited. net_view edited.0.value ≡ net_after_all (net_view self.now.net.value) (edits_view edits.now)) }
        ensures initial { IfOk result (λ edited. edited.1 ≡ initial_after_all self.now.initial (edits_view edits.now)) }
    {
        if edits.is_empty() {
            return Ok((self.net.clone()?, self.initial.copy()?));
        }
        let (net, initial) = after_edits(self.alloc, &self.decls, &self.net, &self.initial, edits)?;
        Ok((Arc::new(self.alloc, net)?, initial))
    }

    /// Begins a run: from the initial marking at clock 0, or from where the latest run ended, if one has. The session waits for its end.
    ///
    /// # Errors
    ///
    /// `Memory` where memory is wanted; the session is then gone.
    pub fn begin(self, start: Start) -> Result<(Between, Book), Memory>
        requires stands { IsSession self }
        requires may_start { MayStart start self }
        ensures begins { IfOk result (λ begun. (s : PlainSession) → Stands s self → Begins s start begun.0 begun.1) }
        ensures kept { IfOk result (λ begun. IsBook begun.1) }
        ensures journal { IfOk result (λ begun. journal_in begun.1 ≡ []) }
        ensures unspent { IfOk result (λ begun. is_spent_in begun.1 ≡ false) }
        ensures entered { IfOk result (λ begun. entered_in begun.1 ≡ 0) }
    {
        let mut session = self;
        let book = session.start_run(start)?;
        Ok((Between { session }, book))
    }

    /// Takes what a run starts from, and starts its book.
    fn start_run(&mut self, start: Start) -> Result<Book, Memory>
        requires stands { IsSession self.old }
        requires may_start { MayStart start self.old }
        ensures begins { IfOk result (λ book. (s : PlainSession) → Stands s self.old → Begins s start (record { session = self.new }) book) }
        ensures kept { IfOk result (λ book. IsBook book) }
        ensures journal { IfOk result (λ book. journal_in book ≡ []) }
        ensures unspent { IfOk result (λ book. is_spent_in book ≡ false) }
        ensures entered { IfOk result (λ book. entered_in book ≡ 0) }
    {
        let setup = self.take_setup(start)?;
        let book = Book::start(self.alloc, setup)?;
        Ok(book)
    }

    /// Takes what a run starts from, and gives the setup of the run.
    fn take_setup(&mut self, start: Start) -> Result<Setup, Memory>
        requires may_start { MayStart start self.old }
        ensures setup { IfOk result (λ setup. (s : PlainSession) → Stands s self.old
            → StartsAt s start setup.start setup.clock × (setup_view setup ≡ setup_of s setup.start setup.clock)) }
        ensures rest { OnOk result (self.new ≡ record self.old { latest = self.new.latest }) }
    {
        let net = self.net.clone()?;
        let monitors = self.monitors.clone()?;
        let from = self.take_start(start)?;
        Ok(Setup {
            net,
            start: from.marking,
            clock: from.clock,
            limits: self.limits,
            monitors,
            seed: self.seed,
        })
    }

    /// Takes what a run starts from.
    fn take_start(&mut self, start: Start) -> Result<Latest, Memory>
        requires may_start { MayStart start self.old }
        ensures initial { IfOk result (λ from. start ≡ Start.Initial → (from.marking ≡ self.old.initial) × (from.clock ≡ 0)) }
        ensures here { IfOk result (λ from. start ≡ Start.Here → self.old.latest ≡ Some from) }
        ensures rest { self.new ≡ record self.old { latest = self.new.latest } }
    {
        match start {
            Start::Initial => Ok(Latest {
                marking: self.initial.copy()?,
                clock: 0,
            }),
            Start::Here => match self.latest.take() {
                Some(latest) => Ok(latest),
                None => unreachable!(),
            },
        }
    }
}

impl Between {
    /// The session after its run, which has ended. It takes no memory.
    pub fn end(self, finished: Finished) -> Session
        ensures stands { (s : PlainSession) → (start : Start) → IsBetween s self → IsNextRun s start (run_view finished) → Stands (after_run s (run_view finished)) result }
    {
        let mut session = self.session;
        let occurrences = finished.occurrences.len() as u64;
        session.limits.steps = session.limits.steps.saturating_sub(occurrences);
        session.seed = session.seed.wrapping_add(1);
        session.latest = Some(Latest {
            marking: finished.marking,
            clock: finished.clock,
        });
        session
    }
}
