//! When arcs, work and jobs are the same.

ghost use Rattle.std.specs.Prelude.{◌≡◌, map};
ghost use lib.Pointwise.{pointwise};
ghost use Rattle.cpn_core.specs.Nets.{delay_view};
ghost use Rattle.cpn_same.specs.Equality.{same_options};
ghost use Rattle.cpn_jobs.specs.Same.{are_same_jobs};
ghost use Rattle.cpn_jobs.specs.SameJobs.{same_work_arc};
ghost use Rattle.cpn_jobs.specs.Views.{work_arc_view};
ghost use Rattle.cpn_same.specs.SameInscriptions.{same_expr};

use crate::work::{Job, Work, WorkArc};
use cpn_core::Expr;
use cpn_same::{same_arc_expr, same_element, same_expr, same_funs};
use std::sync::Arc;

impl PartialEq for WorkArc {
    ghost use Rattle.cpn_jobs.specs.Same.{are_same_arcs, same_arcs_laws};

    ghost eq = { are_same_arcs };

    ghost laws = { same_arcs_laws };

    fn eq(&self, other: &WorkArc) -> bool {
        self.place == other.place
            && (self.timed == other.timed && same_arc_expr(&self.inscription, &other.inscription))
    }
}

impl Eq for WorkArc {
    ghost use Rattle.cpn_jobs.specs.Same.{same_arcs_equiv};

    ghost laws = { same_arcs_equiv };
}

impl PartialEq for Work {
    ghost use Rattle.cpn_jobs.specs.Same.{are_same_work, same_work_laws};

    ghost eq = { are_same_work };

    ghost laws = { same_work_laws };

    fn eq(&self, other: &Work) -> bool {
        same_funs(&self.funs, &other.funs)
            && (same_delay(&self.delay, &other.delay) && same_arcs(&self.outputs, &other.outputs))
    }
}

impl Eq for Work {
    ghost use Rattle.cpn_jobs.specs.Same.{same_work_equiv};

    ghost laws = { same_work_equiv };
}

impl PartialEq for Job {
    ghost use Rattle.std.specs.Prelude.{◌≡◌, ◌↔◌, IsTrue};
    ghost use Rattle.cpn_jobs.specs.Same.{are_same_jobs, same_jobs_laws};
    ghost use Rattle.cpn_jobs.specs.Views.{job_view};

    ghost eq = { are_same_jobs };

    ghost laws = { same_jobs_laws };

    /// Whether both are the same job: the same element at the same time, with work of the same functions, delay and output
    /// arcs. All contents are compared, wherever they stand in memory.
    fn eq(&self, other: &Job) -> bool
        ensures exact { result ≡ are_same_jobs self.now other.now }
        ensures same { IsTrue result ↔ (job_view self.now ≡ job_view other.now) }
        ensures time { IsTrue result → self.now.time ≡ other.now.time }
    {
        is_same(self, other)
    }
}

impl Eq for Job {
    ghost use Rattle.cpn_jobs.specs.Same.{same_jobs_equiv};

    ghost laws = { same_jobs_equiv };
}

fn is_same(job: &Job, other: &Job) -> bool
    ensures exact { result ≡ are_same_jobs job.now other.now }
{
    same_element(&job.element, &other.element)
        && (job.time == other.time && *job.work == *other.work)
}

fn same_arcs(arcs: &Vec<WorkArc>, others: &Vec<WorkArc>) -> bool
    ensures exact { result ≡ pointwise same_work_arc (map work_arc_view arcs.now.items) (map work_arc_view others.now.items) }
{
    *arcs == *others
}

// Whether both delays are the same, or missing.
fn same_delay(delay: &Option<Arc<Expr>>, other: &Option<Arc<Expr>>) -> bool
    ensures exact { result ≡ same_options same_expr (delay_view delay.now) (delay_view other.now) }
{
    match delay {
        None => match other {
            None => true,
            Some(_) => false,
        },
        Some(expr) => match other {
            None => false,
            Some(second) => same_expr(expr, second),
        },
    }
}
