//! What may not stand in a context.

ghost use Rattle.std.specs.Prelude.{◌≡◌, Some};
ghost use Rattle.cpn_typing.specs.Contexts.{is_closed, may_tell_time, misplaced_delay, misplaced_stamp};
ghost use Rattle.cpn_declared.specs.Answers.{refusal_of};
ghost use Rattle.cpn_forms.specs.ContextViews.{context_view};

use crate::contexts::Context;

impl Context {
    /// Whether a text here uses no variable.
    pub(crate) fn is_closed(self) -> bool
        ensures exact { result ≡ is_closed (context_view self) }
    {
        match self {
            Context::Function | Context::Initial => true,
            Context::Input | Context::Output | Context::Guard | Context::Delay | Context::Monitor =>
                false,
        }
    }

    /// Whether `time` may stand here.
    pub(crate) fn may_tell_time(self) -> bool
        ensures exact { result ≡ may_tell_time (context_view self) }
    {
        match self {
            Context::Output | Context::Delay => true,
            Context::Function
            | Context::Input
            | Context::Initial
            | Context::Guard
            | Context::Monitor => false,
        }
    }

    /// Why `@+` may not stand here, by the offsets of the form's first token and of the sign.
    pub(crate) fn misplaced_delay(self, at: usize, sign: usize) -> TypeError
        ensures exact { refusal_of result ≡ Some (misplaced_delay (context_view self) at sign) }
    {
        match self {
            Context::Guard | Context::Delay | Context::Monitor => TypeError::TimeNotAllowed(sign),
            Context::Function | Context::Input | Context::Output | Context::Initial =>
                TypeError::Mismatch(at),
        }
    }

    /// Why `@` with a time stamp may not stand here, likewise.
    pub fn misplaced_stamp(self, at: usize, sign: usize) -> TypeError
        ensures exact { refusal_of result ≡ Some (misplaced_stamp (context_view self) at sign) }
    {
        match self {
            Context::Function | Context::Guard | Context::Delay | Context::Monitor => {
                TypeError::TimeNotAllowed(sign)
            }
            Context::Input | Context::Output | Context::Initial => TypeError::Mismatch(at),
        }
    }
}

use cpn_declared::TypeError;
