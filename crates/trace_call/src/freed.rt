// What a call frees.
//
// A value that goes out of scope is freed part by part in each way out of its function, and each part is a step of the function's proof.
// Here that is written once, and a way out of a caller has one step.
use controller::Controller;
use det_stream::Lines;
use junction_run::Site;
use trace_told::Second;
use vap_check::Checked;

/// Frees a site.
pub(crate) fn free_site(_site: Site) {}

/// Frees a program.
pub(crate) fn free_checked(_checked: Checked) {}

/// Frees a program and its text.
pub(crate) fn free_program(_checked: Checked, _text: Vec<u8>) {}

/// Frees a controller.
pub(crate) fn free_controller(_controller: Controller) {}

/// Frees what seconds are made with.
pub(crate) fn free_run(_controller: Controller, _lines: Lines) {}

/// Frees what lists a second.
pub(crate) fn free_listing(_teller: Second<'_>) {}
