//! What no contract states: that words are read if there is enough memory, and what `--version` prints.

use candesk_words::{Command, DumpForm, Job, Keep, LogForm, NoJob, ReportForm, job_of};
use std::test::Fail;

#[test]
fn words(rt: HostRuntime) -> Result<(), Fail> {
    let job = job_of(rt.alloc(), ["print", "--", "--f"].as_slice());
    assert!(rt;
        matches!(&job, Ok(Job { command: Command::Print, file }) if file.as_str() == "--f")
    );
    let job = job_of(rt.alloc(), ["decode", "--short", "f"].as_slice());
    assert!(rt;
        matches!(&job, Ok(Job { command: Command::Decode { short: true, form: LogForm::Lines }, file }) if file.as_str() == "f")
    );
    let job = job_of(rt.alloc(), ["session", "f", "--keep", "7"].as_slice());
    assert!(rt;
        matches!(&job, Ok(Job { command: Command::Session { keep: Keep::Last(count), .. }, .. }) if count.get() == 7)
    );
    let job = job_of(rt.alloc(), ["decode", "f", "--json"].as_slice());
    assert!(rt;
        matches!(
            &job,
            Ok(Job {
                command: Command::Decode {
                    form: LogForm::Objects,
                    ..
                },
                ..
            })
        )
    );
    let job = job_of(rt.alloc(), ["decode", "--csv", "f"].as_slice());
    assert!(rt;
        matches!(
            &job,
            Ok(Job {
                command: Command::Decode {
                    form: LogForm::Rows,
                    ..
                },
                ..
            })
        )
    );
    let job = job_of(rt.alloc(), ["check", "f", "--json"].as_slice());
    assert!(rt;
        matches!(
            &job,
            Ok(Job {
                command: Command::Check(ReportForm::Objects),
                ..
            })
        )
    );
    let job = job_of(rt.alloc(), ["dump", "f", "--at"].as_slice());
    assert!(rt;
        matches!(
            &job,
            Ok(Job {
                command: Command::Dump(DumpForm::Locations),
                ..
            })
        )
    );
    let both = job_of(rt.alloc(), ["decode", "--csv", "--json", "f"].as_slice());
    assert!(rt; matches!(&both, Err(NoJob::Usage)));
    let version = job_of(rt.alloc(), ["--version"].as_slice());
    assert!(rt;
        matches!(&version, Err(NoJob::Help(text)) if text.as_str().starts_with("candesk 1.0.0 ("))
    );
    Ok(())
}
