// A handle that another program keeps.
ghost use Rattle.std.specs.Prelude.{◌≡◌, Option, Some, None, true, is_some};
ghost use Rattle.std.specs.Option.{MatchOption};
ghost use Rattle.junction_calls.specs.Owned.{owned};
ghost use Rattle.controller.specs.declared.controller.Controller.{Controller as ControllerOf};

use controller::Controller;
use loose_box::loose::Loose;
use std::alloc::Global;
use std::marker::Model;

/// A controller, or nothing. Sixteen bytes of zero hold nothing. Whoever keeps it changes none of its bytes and goes on with no
/// copy of it.
#[repr(C)]
#[derive(Drop)]
pub struct Junction {
    at: *mut u8,
    held: bool,
    pub ghost value: { Option ControllerOf },
    ghost filled: { held ≡ is_some value },
}

impl Model for Junction {
    ghost also_owns = { λ h. owned h.at h.value };
}

/// A handle that holds nothing.
pub fn empty() -> Junction
    ensures { result.value ≡ None }
{
    Junction {
        at: std::ptr::null_mut(),
        held: false,
    }
}

fn seal(loose: Loose<Controller, Global>) -> Junction
    ensures { result.value ≡ Some loose.value }
{
    let Loose { at, alloc: _ } = loose;
    Junction {
        at: at as *mut u8,
        held: true,
    }
}

fn unseal(handle: Junction, alloc: Global) -> Loose<Controller, Global>
    requires { handle.held ≡ true }
    ensures { handle.value ≡ Some result.value }
{
    let Junction { at, held: _ } = handle;
    Loose {
        at: at as *mut Controller,
        alloc,
    }
}

fn look(handle: Junction) -> (bool, Junction)
    ensures { (result.0 ≡ handle.held) × (result.1 ≡ handle) }
{
    let Junction { at, held } = handle;
    (held, Junction { at, held })
}

/// A handle that holds this controller.
pub fn keep(controller: Box<Controller>) -> Junction
    ensures { result.value ≡ Some controller.value }
{
    seal(Loose::of(controller))
}

/// Takes the controller out of a handle, which then holds nothing.
pub fn take(handle: &mut Junction, alloc: Global) -> Option<Box<Controller>>
    ensures taken { handle.new.value ≡ None }
    ensures controller { MatchOption result (handle.old.value ≡ None) (λ b. handle.old.value ≡ Some b.value) }
{
    let (held, taken) = look(std::mem::replace(handle, empty()));
    if held {
        Some(unseal(taken, alloc).into_box())
    } else {
        None
    }
}
