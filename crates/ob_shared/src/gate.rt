ghost use Rattle.std.specs.Prelude.{◌≡◌, ℕ};
ghost use Rattle.ob_shared.specs.declared.act.Seen.{Seen};
ghost use Rattle.ob_shared.specs.declared.gate.Pass.{Pass};
ghost use Rattle.ob_shared.specs.declared.gate.Pass.TheVariants.{Go};

use crate::act::Seen;
use std::sync::Wait;

/// What a gate answers a member.
#[derive(Clone, Copy, Debug, PartialEq, Eq)]
pub enum Pass {
    /// The member goes on.
    Go,
    /// The member ends.
    Stop,
}

/// What lets members pass, one act at a time. A gate may keep a member waiting.
///
/// A contract knows of its answers what `may_answer` says: at the number of a lane, and the place of one of its
/// member's acts. What it was told of is what `is_told` says, which nothing but [`Gate::leave`] gives.
pub trait Gate {
    ghost may_answer: { Self → ℕ → ℕ → Pass → Type 0 } = { λ gate lane place pass. Unit {0} };

    ghost is_told: { Self → ℕ → ℕ → Type 0 } = { λ gate lane place. Unit {0} };

    /// Asked before each act, with the lane's number and the act's place among the member's acts, from 0.
    fn enter<R: Wait>(&self, rt: &R, lane: u32, place: usize) -> Pass
        ensures { may_answer self.now lane place result };

    /// Told after each answer, with the same number and place. An act at which the member was stopped has no answer.
    fn leave<R: Wait>(&self, rt: &R, lane: u32, place: usize)
        requires { may_answer self.now lane place Go }
        ensures { is_told self.now lane place };
}

/// A gate as seen by the code that does a member's acts. It is told of an act with the act's answer, so never before
/// there is one.
pub(crate) trait Passage {
    ghost may_answer: { Self → ℕ → ℕ → Pass → Type 0 };

    ghost is_told: { Self → ℕ → ℕ → Seen → Type 0 };

    /// As [`Gate::enter`].
    fn enter<R: Wait>(&self, rt: &R, lane: u32, place: usize) -> Pass
        ensures { may_answer self.now lane place result };

    /// As [`Gate::leave`], with what was answered.
    fn leave<R: Wait>(&self, rt: &R, lane: u32, place: usize, seen: Seen)
        requires { may_answer self.now lane place Go }
        ensures { is_told self.now lane place seen };
}

/// A gate that anybody wrote, which isn't told what the answer is.
impl<G: Gate> Passage for G {
    ghost use Rattle.ob_shared.specs.Members.{of_places};

    ghost may_answer = { G.may_answer };

    ghost is_told = { λ gate. of_places (G.is_told gate) };

    fn enter<R: Wait>(&self, rt: &R, lane: u32, place: usize) -> Pass {
        Gate::enter(self, rt, lane, place)
    }

    fn leave<R: Wait>(&self, rt: &R, lane: u32, place: usize, _seen: Seen) {
        Gate::leave(self, rt, lane, place)
    }
}

/// A gate that is always open.
#[derive(Clone, Copy, Debug, PartialEq, Eq)]
pub struct OpenGate;

impl Gate for OpenGate {
    ghost may_answer = { λ gate lane place pass. pass ≡ Go };

    fn enter<R: Wait>(&self, _rt: &R, _lane: u32, _place: usize) -> Pass {
        Pass::Go
    }

    fn leave<R: Wait>(&self, _rt: &R, _lane: u32, _place: usize) {}
}
