// What tells of each second of a run.

ghost use Rattle.std.specs.Prelude.{◌≡◌};

use controller::Controller;
use sig_io::{Draft, Sink};
use sig_types::Frame;

/// What makes each second of a run and puts what it has to tell of it.
pub trait Teller {
    ghost use Rattle.std.specs.Prelude.{ℕ, List, [], ◌∷◌, ◌++◌};
    ghost use Rattle.sig_io.specs.Draft.{Puts};
    ghost use Rattle.sig_types.specs.Counts.{Counts, Takes};
    ghost use Rattle.vap_code.specs.Codes.{CodeOf};
    ghost use Rattle.controller.specs.Controls.{StandsFor, code_of, logic_of, site_of};
    ghost use Rattle.controller.specs.Past.{Site, Past};
    ghost use Rattle.controller.specs.Second.{past_after_second, past_of};

    /// What is put of the second after a past with this frame, of a code at a site.
    ghost telling: { Self → CodeOf → Site → Past → Counts → List ℕ };

    /// What it knows that has told of the seconds after a past with these frames.
    ghost knows: { Self → CodeOf → Site → Past → List Counts → Type 0 };

    /// Makes a second with a frame that the controller takes, and puts what is told of it.
    fn tell<O: Sink>(
        &mut self,
        controller: &mut Controller,
        frame: &Frame,
        draft: &mut Draft,
        out: &mut O,
    )
        requires takes { (past : Past) × StandsFor controller.old past × Takes past.frames frame.now }
        requires known { (first : Past) × (frames : List Counts)
            × StandsFor controller.old (past_of (logic_of controller.old) (site_of controller.old) first frames)
            × knows self.old (code_of controller.old) (site_of controller.old) first frames }
        ensures stands { (past : Past) → StandsFor controller.old past →
            StandsFor controller.new (past_after_second (logic_of controller.old) (site_of controller.old) past frame.now) }
        ensures puts { (first : Past) (frames : List Counts) →
            StandsFor controller.old (past_of (logic_of controller.old) (site_of controller.old) first frames) →
            knows self.old (code_of controller.old) (site_of controller.old) first frames →
            Puts O.taken O.faults draft.old draft.new out.old out.new (telling self.old (code_of controller.old) (site_of controller.old)
            (past_of (logic_of controller.old) (site_of controller.old) first frames) frame.now) }
        ensures knows { (first : Past) (frames : List Counts) →
            StandsFor controller.old (past_of (logic_of controller.old) (site_of controller.old) first frames) →
            knows self.old (code_of controller.old) (site_of controller.old) first frames →
            knows self.new (code_of controller.old) (site_of controller.old) first (frames ++ frame.now ∷ []) }
        ensures steady { telling self.new ≡ telling self.old }
        ensures code { code_of controller.new ≡ code_of controller.old }
        ensures site { site_of controller.new ≡ site_of controller.old };
}
