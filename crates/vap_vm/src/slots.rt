// The variables, arrays and timers of a machine.

ghost use Rattle.std.specs.Prelude.{◌≡◌, ◌<◌, ◌≤◌, length, map, replicate, pos, false, IfOk};
ghost use Rattle.std.specs.List.{All};
ghost use Rattle.sig_types.specs.Pass.{counted};
ghost use Rattle.vap_code.specs.Codes.{code_in};
ghost use Rattle.vap_code.specs.Stores.{stopped};
ghost use Rattle.vap_vm.specs.View.{SameSizes};

use crate::arrays::Arrays;
use sig_types::Clock;
use std::alloc::{AllocError, Global};
use vap_code::Code;

/// What a machine keeps from pass to pass.
#[derive(Drop)]
pub struct Slots {
    pub variables: Vec<i32>,
    pub arrays: Arrays,
    pub timers: Vec<Clock>,
}

impl Slots {
    /// All variables 0, the arrays at their listed values, all timers stopped at 0.
    pub fn of(alloc: Global, code: &Code) -> Result<Slots, AllocError>
        requires { All (λ a. length a.items ≤ 1024) code.now.arrays.items }
        ensures variables { IfOk result (λ s. s.variables.items ≡ replicate code.now.vars (pos 0)) }
        ensures arrays { IfOk result (λ s. s.arrays ≡ (code_in code.now).arrays) }
        ensures timers { IfOk result (λ s. s.timers.items ≡ replicate code.now.timers stopped) }
    {
        Ok(Slots {
            variables: zeros(alloc, code.vars)?,
            arrays: Arrays::of(alloc, &code.arrays)?,
            timers: stopped_timers(alloc, code.timers)?,
        })
    }

    /// Takes over the contents of others of the same sizes, whose cells may be the same already.
    pub fn copy_from(&mut self, other: &Slots, cells_differ: bool)
        requires sizes { SameSizes self.old other.now }
        requires cells { cells_differ ≡ false → self.old.arrays ≡ other.now.arrays }
        ensures variables { self.new.variables.items ≡ other.now.variables.items }
        ensures arrays { self.new.arrays ≡ other.now.arrays }
        ensures timers { self.new.timers.items ≡ other.now.timers.items }
    {
        if !self.variables.is_empty() {
            self.variables.copy_from_slice(&other.variables);
        }
        if cells_differ {
            self.arrays.copy_from(&other.arrays);
        }
        if !self.timers.is_empty() {
            self.timers.copy_from_slice(&other.timers);
        }
    }
}

fn zeros(alloc: Global, count: u16) -> Result<Vec<i32>, AllocError>
    ensures { IfOk result (λ v. v.items ≡ replicate count (pos 0)) }
{
    let mut variables = Vec::with_capacity(alloc, count as usize)?;
    for _x in 0..count {
        variables.push(0)?;
    }
    Ok(variables)
}

fn stopped_timers(alloc: Global, count: u16) -> Result<Vec<Clock>, AllocError>
    ensures { IfOk result (λ v. v.items ≡ replicate count stopped) }
{
    let mut timers = Vec::with_capacity(alloc, count as usize)?;
    for _t in 0..count {
        timers.push(Clock {
            count: 0,
            runs: false,
        })?;
    }
    Ok(timers)
}

/// Each running timer adds 1.
pub fn count_on(timers: &mut Vec<Clock>)
    requires { All (λ c. c.count < 604801) timers.old.items }
    ensures { timers.new.items ≡ map counted timers.old.items }
{
    for t in 0..timers.len() {
        timers[t] = counted_on(timers[t]);
    }
}

fn counted_on(timer: Clock) -> Clock
    requires { timer.count < 604801 }
    ensures { result ≡ counted timer }
{
    if timer.runs {
        Clock {
            count: timer.count + 1,
            runs: true,
        }
    } else {
        timer
    }
}
