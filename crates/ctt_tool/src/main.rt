//! The program `timedesk`: a shared desk for curriculum-based course timetabling.
#![tactic(auto)]

use ctt_files::{Device, Leaving, SystemFiles};
use ctt_program::{SystemOffice, serve};
use std::process::ExitCode;

fn main(rt: HostRuntime) -> ExitCode {
    let mut files = SystemFiles::new(&rt, rt.stdin());
    let mut out = Device::new(Leaving(rt.stdout()));
    let mut err = Device::new(rt.stderr());
    let office = SystemOffice::new(&rt, rt.alloc(), rt.stdin(), rt.stdout());
    ExitCode::from(serve(&rt, &mut files, &office, &mut out, &mut err))
}
