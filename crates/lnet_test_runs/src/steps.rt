//! A script that is read, and its commands run one by one.

ghost use Rattle.lnet_session.specs.Sessions.{IsGoodBy};

use lnet_edge::{MemoryFiles, MemorySink};
use lnet_model::{ViewKind, ViewSpec};
use lnet_replies::Unmet;
use lnet_script::{Command, parse_script};
use lnet_session::{Kit, Session, StepEnd};
use lnet_store::View;
use lnet_views::DepthView;
use std::alloc::Global;
use std::process::Abort;
use std::test::Fail;

/// A session with the files and the sink that its commands run over.
#[derive(Drop)]
struct Running {
    session: Session,
    files: MemoryFiles,
    out: MemorySink,
}

/// Runs one command of the script language, which has to end so.
fn step_to(alloc: Global, run: &mut Running, command: &Command, end: StepEnd) -> Result<(), Fail>
    requires good { IsGoodBy ⟦<dyn View as View>⟧ run.old.session }
    ensures good { IsGoodBy ⟦<dyn View as View>⟧ run.new.session }
{
    if run.session.next_view() > 9 {
        return Err("many views".into());
    }
    match command {
        Command::View(ViewSpec::Fanout) => Err("no words".into()),
        Command::View(ViewSpec::Cuts(_)) => Err("no words".into()),
        Command::Gen(..) => Err("counts that are not known".into()),
        _ => {
            let found = run
                .session
                .step(alloc, command, 1, &mut run.files, &mut run.out);
            if found == end {
                return Ok(());
            }
            Err("another end".into())
        }
    }
}

/// Compares what stands once the commands have run.
fn check_left<R: Abort>(rt: &R, run: &Running) -> Result<(), Fail> {
    let session = &run.session;
    assert_eq!(rt; session.next_view(), 2);
    assert_eq!(rt;
        (session.live().len(), session.shelf_len(ViewKind::Depth)),
        (1, 0)
    );
    let network = session.network().ok_or("no network")?;
    assert_eq!(rt; network.gate_count(), 1);
    let names = session.names().ok_or("no names")?;
    assert_eq!(rt;
        (
            names.input_name(0),
            names.input_name(1),
            names.output_name(0)
        ),
        (None, Some("right"), Some("both"))
    );
    Ok(())
}

/// A write without a network, a read, a view, a write, and a fetch of a file that isn't there.
#[test]
fn steps(rt: HostRuntime) -> Result<(), Fail> {
    let alloc = rt.alloc();
    let mut files = MemoryFiles::new(alloc, Vec::new(alloc));
    files.set(
        "and.aag",
        b"aag 3 2 0 1 1\n2\n4\n7\n6 2 4\ni1 right\no0 both\n",
    )?;
    let script = b"write aag x; read aiger and.aag aig; view depth; write aag x; read aiger y aig";
    let commands = parse_script(alloc, script).ok().ok_or("a script")?;
    let [first, second, third, fourth, fifth] = &*commands else {
        return Err("five commands".into());
    };
    let levels: Box<dyn View> = Box::new(alloc, DepthView::new(alloc)?)?;
    let mut views = Vec::new(alloc);
    views.push(levels)?;
    let session = Session::new(alloc, Kit { views });
    assert!(rt; session.network().is_none() && session.names().is_none());
    assert_eq!(rt;
        [
            session.shelf_len(ViewKind::Depth),
            session.shelf_len(ViewKind::Cuts)
        ],
        [1, 0]
    );
    let out = MemorySink::new(alloc, Vec::new(alloc));
    let mut run = Running {
        session,
        files,
        out,
    };
    step_to(alloc, &mut run, first, StepEnd::Unmet(Unmet::NoNetwork))?;
    step_to(alloc, &mut run, second, StepEnd::Met)?;
    step_to(alloc, &mut run, third, StepEnd::Met)?;
    step_to(alloc, &mut run, fourth, StepEnd::Met)?;
    step_to(alloc, &mut run, fifth, StepEnd::Fault)?;
    check_left(&rt, &run)?;
    assert_eq!(rt;
        run.files.file("x").ok_or("no file")?,
        b"aag 3 2 0 1 1\n2\n4\n7\n6 4 2\ni1 right\no0 both\n".as_slice()
    );
    Ok(())
}
