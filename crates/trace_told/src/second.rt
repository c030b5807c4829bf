// What tells of a run by the listing of one of its seconds.
ghost use Rattle.std.specs.Prelude.{◌≡◌, ◌+◌, IfOk, map};
ghost use Rattle.sig_io.specs.Draft.{Puts};
ghost use Rattle.sig_types.specs.Counts.{Takes};
ghost use Rattle.vap_ast.specs.Tree.{program_of};
ghost use Rattle.controller.specs.Controls.{StandsFor, code_of, logic_of, site_of};
ghost use Rattle.controller.specs.Past.{Past};
ghost use Rattle.controller.specs.Second.{past_after_second};
ghost use Rattle.trace_told.specs.Columns.{columns_of};
ghost use Rattle.trace_told.specs.Listing.{column_of, second_text};

use crate::columns::columns_of;
use crate::kept::{Kept, keep, room_for};
use crate::listing::put_listing;
use controller::Controller;
use run_seconds::Teller;
use sig_io::{Draft, Sink};
use sig_types::Frame;
use std::alloc::{AllocError, Global};
use trace_watch::Listing;
use vap_check::Checked;
use vap_vm::Unseen;

/// What tells of the seconds of a run by the listing of one of them.
#[derive(Drop)]
pub struct Second<'a> {
    checked: &'a Checked,
    kept: Vec<Kept>,
    listing: Listing,
    before: u32,
}

impl<'a> Second<'a> {
    /// The listing of the second behind so many. All memory is taken here.
    pub fn new(alloc: Global, checked: &'a Checked, before: u32) -> Result<Second<'a>, AllocError>
        ensures program { IfOk result (λ s. s.checked.now ≡ checked.now) }
        ensures columns { IfOk result (λ s. map column_of s.kept.items ≡ columns_of (program_of checked.now.tree)) }
        ensures before { IfOk result (λ s. s.before ≡ before) }
    {
        let columns = columns_of(alloc, checked)?;
        let kept = room_for(alloc, columns.as_slice())?;
        let listing = Listing::new(alloc)?;
        Ok(Second {
            checked,
            kept,
            listing,
            before,
        })
    }

    // Makes a second and puts its listing.
    fn list<O: Sink>(
        &mut self,
        controller: &mut Controller,
        frame: &Frame,
        draft: &mut Draft,
        out: &mut O,
    )
        requires { (past : Past) × StandsFor controller.old past × Takes past.frames frame.now }
        ensures stands { (past : Past) → StandsFor controller.old past →
            StandsFor controller.new (past_after_second (logic_of controller.old) (site_of controller.old) past frame.now) }
        ensures puts { (past : Past) → StandsFor controller.old past → Puts O.taken O.faults draft.old draft.new out.old out.new
            (second_text (program_of self.old.checked.now.tree) (map column_of self.old.kept.items)
            (code_of controller.old) (site_of controller.old) past frame.now) }
        ensures program { self.new.checked ≡ self.old.checked }
        ensures columns { map column_of self.new.kept.items ≡ map column_of self.old.kept.items }
        ensures before { self.new.before ≡ self.old.before }
        ensures code { code_of controller.new ≡ code_of controller.old }
        ensures site { site_of controller.new ≡ site_of controller.old }
    {
        self.listing.clear();
        keep(&mut self.kept, controller.vm());
        controller.second_seen(frame, &mut self.listing);
        put_listing(
            self.checked,
            controller.plan(),
            self.listing.events(),
            controller.last(),
            controller.vm(),
            self.kept.as_slice(),
            draft,
            out,
        );
    }
}

impl<'a> Teller for Second<'a> {
    ghost use Rattle.std.specs.Prelude.{◌+◌, map};
    ghost use Rattle.vap_ast.specs.Tree.{program_of};
    ghost use Rattle.trace_told.specs.Listing.{column_of, second_told};

    ghost telling = { λ s code site past frame.
        second_told (program_of s.checked.now.tree) (map column_of s.kept.items) s.before code site past frame };

    ghost knows = { λ s code site first frames. Unit {0} };

    fn tell<O: Sink>(
        &mut self,
        controller: &mut Controller,
        frame: &Frame,
        draft: &mut Draft,
        out: &mut O,
    ) {
        if controller.last().second.0 == self.before {
            self.list(controller, frame, draft, out);
        } else {
            controller.second_seen(frame, &mut Unseen);
        }
    }
}
