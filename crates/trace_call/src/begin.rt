// Where a run begins.
ghost use Rattle.std.specs.Prelude.{◌≡◌, [], ℕ, List, true, IfOk, length};
ghost use Rattle.pua_model.specs.Plan.{groups_in};
ghost use Rattle.vap_code.specs.Machine.{machine};
ghost use Rattle.vap_code.specs.Stores.{first_store};
ghost use Rattle.vap_code.specs.Valid.{Valid};
ghost use Rattle.controller.specs.Controls.{StandsFor, code_of, logic_of, site_of};
ghost use Rattle.controller.specs.Past.{opening};
ghost use Rattle.det_stream.specs.Answers.{Gave, Reads, is_live, name_of, second_of};
ghost use Rattle.junction_run.specs.Sites as sites;

use controller::Controller;
use det_stream::Lines;
use junction_run::Site;
use sig_types::Memory;
use std::alloc::Global;

// A controller of a site, before its first second.
fn controller_of(alloc: Global, site: Site) -> Result<Controller, Memory>
    requires times { length site.times ≡ groups_in site.plan }
    requires intergreens { site.intergreens.count ≡ groups_in site.plan }
    ensures site { IfOk result (λ c. site_of c ≡ sites.site_in site) }
    ensures code { IfOk result (λ c. code_of c ≡ site.code) }
    ensures logic { IfOk result (λ c. logic_of c ≡ machine site.code) }
    ensures stands { IfOk result (λ c. StandsFor c (opening (site_of c) (first_store site.code))) }
    ensures valid { Valid site.code }
{
    let Site {
        plan,
        times,
        intergreens,
        code,
    } = site;
    // Its contract tells that verified code is valid.
    code.code();
    Controller::make(alloc, plan, times, intergreens, code)
}

/// A controller of a site before its first second, and a reader of a detector file before its first line. They take all the
/// memory that a run needs.
pub fn start(alloc: Global, site: Site, detectors: &str) -> Result<(Controller, Lines), Memory>
    requires times { length site.times ≡ groups_in site.plan }
    requires intergreens { site.intergreens.count ≡ groups_in site.plan }
    ensures site { IfOk result (λ r. site_of r.0 ≡ sites.site_in site) }
    ensures code { IfOk result (λ r. code_of r.0 ≡ site.code) }
    ensures logic { IfOk result (λ r. logic_of r.0 ≡ machine site.code) }
    ensures stands { IfOk result (λ r. StandsFor r.0 (opening (site_of r.0) (first_store site.code))) }
    ensures name { IfOk result (λ r. name_of r.1 ≡ detectors.now) }
    ensures live { IfOk result (λ r. is_live r.1 ≡ true) }
    ensures second { IfOk result (λ r. second_of r.1 ≡ 0) }
    ensures gave { IfOk result (λ r. Gave r.1 []) }
    ensures reads { IfOk result (λ r. (bytes : List ℕ) → Reads r.1 bytes []) }
    ensures valid { Valid site.code }
{
    let controller = match controller_of(alloc, site) {
        Ok(controller) => controller,
        Err(memory) => return Err(memory),
    };
    match Lines::make(alloc, detectors) {
        Ok(lines) => Ok((controller, lines)),
        Err(memory) => Err(memory),
    }
}
