//! The command line of the checker: the words, the real files and standard output are given to `run` of `cmd_run`.
#![tactic(auto)]

use cmd_run::run;
use disk_files::{DiskFiles, OutSink};
use std::env;
use std::io::{self, ErrorKind};
use std::process::ExitCode;

// The words of the command line, without the program's name. Where one of them is no text there are
// none, so that the command line is refused.
fn words_of(rt: &HostRuntime) -> io::Result<Vec<String>> {
    let mut words = Vec::new(rt.alloc());
    match env::args(rt) {
        Ok(args) => {
            for word in args.skip(1) {
                words.push(word)?;
            }
            Ok(words)
        }
        Err(e) if e.kind() == ErrorKind::InvalidData => Ok(words),
        Err(e) => Err(e),
    }
}

fn main(rt: HostRuntime) -> ExitCode {
    let alloc = rt.alloc();
    let Ok(words) = words_of(&rt) else {
        return ExitCode::from(9);
    };
    let mut sink = OutSink::new(&rt);
    let mut files = DiskFiles::new(rt, alloc);
    let status = run(alloc, &words, &mut files, &mut sink);
    ExitCode::from(status.code)
}
