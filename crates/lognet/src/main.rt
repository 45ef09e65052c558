//! Runs a script of commands over logic networks: `lognet SCRIPT`.
#![tactic(auto)]

use lnet_edge::{DiskFiles, StdSink};
use lnet_run::run;
use lnet_session::Kit;
use lnet_store::View;
use lnet_views::DepthView;
use std::process::ExitCode;
use std::{env, io};

fn main(rt: HostRuntime) -> io::Result<ExitCode> {
    let alloc = rt.alloc();
    let words = env::args(&rt)?.collect::<Vec<String>>(alloc)?;
    let mut files = DiskFiles::new(rt.clone()?);
    let mut out = StdSink::new(rt.clone()?);
    // A kit of two depth views.
    let first: Box<dyn View> = Box::new(alloc, DepthView::new(alloc)?)?;
    let second: Box<dyn View> = Box::new(alloc, DepthView::new(alloc)?)?;
    let mut views = Vec::new(alloc);
    views.push(first)?;
    views.push(second)?;
    let outcome = run(alloc, &words, &mut files, &mut out, Kit { views });
    Ok(ExitCode::from(outcome.status))
}
